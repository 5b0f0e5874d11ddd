ghost use Rattle.std.specs.Prelude.{◌≡◌, ◌++◌, OnOk, codes};
ghost use Rattle.std.specs.Io.KnownBytes.{Appends};
ghost use Rattle.fork_program.specs.declared.fault.Fault.TheVariants as fault;
ghost use Rattle.hex.specs.Hex.{encode_lower};
ghost use Rattle.fork_program.specs.Fault.{fault_line, said_of};

use fork_request::TenantName;
use git_name::Name;
use std::io;
use std::io::Write;

/// Why the program ends with status 1.
#[derive(Debug, Drop, PartialEq, Eq)]
pub enum Fault {
    /// The content has more than 8,388,608 bytes.
    TooLarge,
    /// The content is not an object of the requested kind.
    BadObject,
    /// The input is not a frame.
    BadFrame,
    /// The input could not be read.
    Read,
    /// The output could not be written.
    Write,
    /// Memory ran out.
    Memory,
    /// The folder could not be opened, another process holds it, or its device failed.
    Store,
    /// The socket could not be bound, another process listens on it, or listening on it failed.
    Socket,
    /// The folder keeps no state.
    NoState,
    /// The folder keeps a file for each object, and was to be packed.
    NotPacked,
    /// The folder's state could not be read.
    Unreadable,
    /// The folder's journal could not be read, or its requests could not be repeated.
    Journal,
    /// There is a journal of a state other than the folder's.
    OtherJournal,
    /// A request could not be written to the journal.
    NotKept,
    /// What was served could not be saved.
    NotSaved,
    /// This line of the state, counted from 1, is the first at which the text is not a state text.
    Line(u64),
    /// The object is in the state, but its file does not exist.
    Lost(Name),
    /// The object's file is not whole.
    Damaged(Name),
    /// The object is not as its tenant's view requires.
    Unsound(Name),
    /// The tenant's objects use more than its limit.
    OverLimit(TenantName),
    /// A tenant to be added exists already.
    There(TenantName),
    /// There are more than 64 tenants.
    TooManyTenants,
    /// A tenant to be changed or removed does not exist.
    NotThere(TenantName),
    /// The limit is below what the tenant's objects use, which is the second field.
    BelowUse(TenantName, u64),
}

impl Fault {
    /// Writes the one line that reports the fault.
    pub fn write<W: Write>(&self, writer: &mut W) -> io::Result<()>
        ensures { OnOk result (Appends (W.contents writer.old) (W.contents writer.new) (fault_line self.now)) }
    {
        writer.write_all(b"forkhost: ")?;
        self.write_words(writer)?;
        writer.write_all(b"\n")?;
        Ok(())
    }

    // Writes the words that report the fault.
    fn write_words<W: Write>(&self, writer: &mut W) -> io::Result<()>
        ensures { OnOk result (Appends (W.contents writer.old) (W.contents writer.new) (said_of self.now)) }
    {
        match self {
            Fault::TooLarge => writer.write_all(b"too-large"),
            Fault::BadObject => writer.write_all(b"bad-object"),
            Fault::BadFrame => writer.write_all(b"bad frame"),
            Fault::Read => writer.write_all(b"read"),
            Fault::Write => writer.write_all(b"write"),
            Fault::Memory => writer.write_all(b"memory"),
            Fault::Store => writer.write_all(b"store"),
            Fault::Socket => writer.write_all(b"socket"),
            Fault::NoState => writer.write_all(b"no state"),
            Fault::NotPacked => writer.write_all(b"not packed"),
            Fault::Unreadable => writer.write_all(b"state unreadable"),
            Fault::Journal => writer.write_all(b"journal unreadable"),
            Fault::OtherJournal => writer.write_all(b"journal of another state"),
            Fault::NotKept => writer.write_all(b"journal not written"),
            Fault::NotSaved => writer.write_all(b"state not saved"),
            Fault::Line(line) => write!(writer, "state line {line}"),
            Fault::Lost(name) => write_name(b"lost ", name, writer),
            Fault::Damaged(name) => write_name(b"damaged ", name, writer),
            Fault::Unsound(name) => write_name(b"unsound ", name, writer),
            Fault::OverLimit(tenant) => write_both(b"over limit ", tenant.as_bytes(), writer),
            Fault::There(tenant) => write_tenant(tenant, b" is there already", writer),
            Fault::TooManyTenants => writer.write_all(b"too many tenants"),
            Fault::NotThere(tenant) => write_tenant(tenant, b" is not there", writer),
            Fault::BelowUse(tenant, used) => write_use(tenant, *used, writer),
        }
    }
}

// Writes words, and others after them.
fn write_both<W: Write>(before: &[u8], behind: &[u8], writer: &mut W) -> io::Result<()>
    ensures { OnOk result (Appends (W.contents writer.old) (W.contents writer.new) (before.now ++ behind.now)) }
{
    writer.write_all(before)?;
    writer.write_all(behind)?;
    Ok(())
}

// Writes words, and the name of an object after them.
fn write_name<W: Write>(before: &[u8], name: &Name, writer: &mut W) -> io::Result<()>
    ensures { OnOk result (Appends (W.contents writer.old) (W.contents writer.new) (before.now ++ encode_lower name.now)) }
{
    let mut digits = [0; 64];
    name.write_hex(&mut digits);
    write_both(before, digits.as_slice(), writer)
}

// Writes words about this tenant.
fn write_tenant<W: Write>(tenant: &TenantName, said: &[u8], writer: &mut W) -> io::Result<()>
    ensures { OnOk result (Appends (W.contents writer.old) (W.contents writer.new) (codes "tenant " ++ tenant.now ++ said.now)) }
{
    writer.write_all(b"tenant ")?;
    writer.write_all(tenant.as_bytes())?;
    writer.write_all(said)?;
    Ok(())
}

// Writes that a limit is below what this tenant uses.
fn write_use<W: Write>(tenant: &TenantName, used: u64, writer: &mut W) -> io::Result<()>
    ensures { OnOk result (Appends (W.contents writer.old) (W.contents writer.new) (said_of (fault.BelowUse tenant.now used))) }
{
    writer.write_all(b"limit of ")?;
    writer.write_all(tenant.as_bytes())?;
    writer.write_all(b" is below its use, ")?;
    write!(writer, "{used}")
}
