ghost use Rattle.std.specs.Prelude.{◌≡◌, ℕ, ◌≤◌, List, OnErr, OnOk};
ghost use Rattle.std.specs.Io.KnownBytes.{Appends};
ghost use Rattle.fork_program.specs.Keeping.{again_line};
ghost use Rattle.fork_program.specs.Program.{IsTold, IsToTell, status_of};

use crate::fault::Fault;
use clap::Error;
use std::alloc::Global;
use std::io;
use std::io::Write;

/// How the program ends.
#[derive(Debug, Drop)]
pub enum Ending<'a> {
    /// The command was done, or help was given. Status 0.
    Done,
    /// The checked folder is sound, and a start would repeat this many requests of its journal. Status 0.
    Sound(u64),
    /// A fault occurred. Status 1.
    Failed(Fault),
    /// The command line is not valid; the text is `clap`'s. Status 2.
    Misused(Error),
    /// This word is in the place of TENANT=LIMIT, but is not one. Status 2.
    BadTenant(&'a str),
}

impl Ending<'_> {
    /// The exit status.
    pub fn status(&self) -> u8
        ensures { result ≡ status_of self.now }
    {
        match self {
            Ending::Done | Ending::Sound(_) => 0,
            Ending::Failed(_) => 1,
            Ending::Misused(_) | Ending::BadTenant(_) => 2,
        }
    }

    /// Writes what belongs on standard error.
    pub fn tell<F: Write>(&self, alloc: Global, faults: &mut F) -> io::Result<()>
        ensures ok { OnOk result (IsTold self.now (F.contents faults.old) (F.contents faults.new)) }
        ensures cause { OnErr result (IsToTell self.now) }
    {
        match self {
            Ending::Done => Ok(()),
            Ending::Sound(count) => write_again(*count, faults),
            Ending::Failed(fault) => fault.write(faults),
            Ending::Misused(error) => write_text(alloc, error, faults),
            Ending::BadTenant(word) => writeln!(faults, "forkhost: bad tenant {word}"),
        }
    }
}

// Writes how many requests a start would repeat, if any.
fn write_again<F: Write>(count: u64, faults: &mut F) -> io::Result<()>
    ensures ok { OnOk result (Appends (F.contents faults.old) (F.contents faults.new) (again_line count)) }
    ensures cause { OnErr result (1 ≤ count) }
{
    if count == 0 {
        return Ok(());
    }
    writeln!(faults, "journal {count}")
}

// Writes `clap`'s text.
fn write_text<F: Write>(alloc: Global, error: &Error, faults: &mut F) -> io::Result<()>
    ensures { OnOk result ((text : List ℕ) × Appends (F.contents faults.old) (F.contents faults.new) text) }
{
    let text = error.to_string(alloc)?;
    faults.write_all(text.as_bytes())
}
