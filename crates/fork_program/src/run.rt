ghost use Rattle.std.specs.Prelude.{◌≡◌, IfErr, OnOk, is_some, true};
ghost use Rattle.fork_command.specs.declared.hosting.Hosting.{Hosting};
ghost use Rattle.fork_frame.specs.declared.session_end.Ended.TheVariants.{Clean};
ghost use Rattle.fork_wire.specs.Sessions.{IsServed};
ghost use Rattle.fork_program.specs.Running.{EndsEarly, IsKeptHostOf, IsSessionOf, IsUnserved};

use crate::fault::Fault;
use crate::hosts::{host_in_folder, host_in_memory};
use crate::keep::Keep;
use crate::restored::Restored;
use crate::telling::of_session;
use devices::Real;
use fork_command::Hosting;
use fork_frame::Ended;
use fork_host::Host;
use fork_wire::{Journal, NoJournal, serve_kept};
use host_folder::{Reserve, Watch};
use loose_store::LooseFiles;
use std::alloc::Global;
use std::fs::{File, Files};
use std::io::{Read, Write};
use std::random::RandomSource;

// Serves one session.
fn session<S: LooseFiles, J: Journal, R: Read, W: Write>(
    host: &mut Host<S>,
    alloc: Global,
    journal: &mut J,
    reader: &mut R,
    writer: &mut W,
) -> Result<(), Fault>
    ensures ok { OnOk result (IsServed host.old host.new (R.remaining reader.old)
        (W.contents writer.old) (W.contents writer.new) Clean) }
    ensures err { IfErr result (EndsEarly host.old host.new (R.remaining reader.old)
        (W.contents writer.old) (W.contents writer.new)) }
    ensures cause { IfErr result (λ fault. fault ≡ Fault.NotKept → J.can_fail) }
{
    match serve_kept(host, alloc, journal, reader, writer) {
        Ok(Ended::Clean) => Ok(()),
        Ok(Ended::BadFrame) => Err(Fault::BadFrame),
        Err(fault) => Err(of_session(fault)),
    }
}

// Serves one session of a host that a folder keeps. The host's state is saved before the session, unless it stands already, and
// after it, as `Keep::end` says. Each request is kept before its reply is sent.
fn keep_session<'x, H: Files<File = File> + AllocGlobal, S: LooseFiles + Drop, R: Read, W: Write>(
    rt: &'x H,
    alloc: Global,
    dir: &'x str,
    restored: Restored<S, Real<&'x H>>,
    reader: &mut R,
    writer: &mut W,
    syncs: bool,
    watch: Watch,
) -> Result<(), Fault>
    ensures ok { (hosting : Hosting) → IsKeptHostOf hosting restored.entry → OnOk result (IsSessionOf hosting (R.remaining reader.old)
        (W.contents writer.old) (W.contents writer.new) Clean) }
    ensures err { (hosting : Hosting) → IsKeptHostOf hosting restored.entry → IfErr result (IsUnserved hosting (R.remaining reader.old)
        (R.remaining reader.new) (W.contents writer.old) (W.contents writer.new)) }
{
    let begun = Keep::begin(rt, alloc, dir, restored, syncs, Reserve::none(), watch)?;
    let (mut host, mut keep) = begun;
    let served = session(&mut host, alloc, &mut keep.journal, reader, writer);
    let saved = keep.end(alloc, &mut host, &served);
    match served {
        Ok(()) => saved,
        Err(fault) => Err(fault),
    }
}

// Serves one session of a new host.
fn run_in_memory<H: RandomSource, R: Read, W: Write>(
    rt: &H,
    alloc: Global,
    hosting: Hosting<'_>,
    reader: &mut R,
    writer: &mut W,
) -> Result<(), Fault>
    ensures ok { OnOk result (IsSessionOf hosting.entry (R.remaining reader.old)
        (W.contents writer.old) (W.contents writer.new) Clean) }
    ensures err { IfErr result (IsUnserved hosting.entry (R.remaining reader.old) (R.remaining reader.new)
        (W.contents writer.old) (W.contents writer.new)) }
{
    let mut host = host_in_memory(rt, alloc, hosting)?;
    session(&mut host, alloc, &mut NoJournal, reader, writer)
}

// Serves one session of the host that a folder keeps.
fn run_in_folder<'x, H: Files<File = File> + AllocGlobal + RandomSource, R: Read, W: Write>(
    rt: &'x H,
    alloc: Global,
    dir: &'x str,
    hosting: Hosting<'_>,
    reader: &mut R,
    writer: &mut W,
) -> Result<(), Fault>
    requires { is_some hosting.dir ≡ true }
    ensures ok { OnOk result (IsSessionOf hosting.entry (R.remaining reader.old)
        (W.contents writer.old) (W.contents writer.new) Clean) }
    ensures err { IfErr result (IsUnserved hosting.entry (R.remaining reader.old) (R.remaining reader.new)
        (W.contents writer.old) (W.contents writer.new)) }
{
    let syncs = hosting.syncs;
    let (restored, guards) = host_in_folder(rt, alloc, dir, hosting)?;
    keep_session(
        rt,
        alloc,
        dir,
        restored,
        reader,
        writer,
        syncs,
        guards.watch,
    )
}

/// Serves one session of the host with these tenants added. If a folder keeps the host, what was served is
/// saved, even after a fault of the session. Open uploads are not saved: they end with the session. If the
/// folder could not be written, it keeps all that was answered, including open uploads.
pub fn run<H: Files<File = File> + AllocGlobal + RandomSource, R: Read, W: Write>(
    rt: &H,
    alloc: Global,
    hosting: Hosting<'_>,
    reader: &mut R,
    writer: &mut W,
) -> Result<(), Fault>
    ensures ok { OnOk result (IsSessionOf hosting.entry (R.remaining reader.old)
        (W.contents writer.old) (W.contents writer.new) Clean) }
    ensures err { IfErr result (IsUnserved hosting.entry (R.remaining reader.old) (R.remaining reader.new)
        (W.contents writer.old) (W.contents writer.new)) }
{
    match hosting.dir {
        Some(dir) => run_in_folder(rt, alloc, dir, hosting, reader, writer),
        None => run_in_memory(rt, alloc, hosting, reader, writer),
    }
}
