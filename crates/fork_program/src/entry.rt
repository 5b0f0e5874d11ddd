ghost use Rattle.std.specs.Prelude.{◌≡◌, ◌⊎◌, ℕ, IfErr, IfOk, List, OnOk, map};
ghost use Rattle.std.specs.Io.KnownBytes.{Appends, Keeps};
ghost use Rattle.fork_program.specs.Program.{Ends, IsCarriedOut, IsEndedAndTold, IsEndedUntold, ending_of};

use crate::check::check;
use crate::ending::Ending;
use crate::fault::Fault;
use crate::hash_object::hash_object;
use crate::repack::repack;
use crate::run::run;
use crate::send::send;
use crate::serve::serve;
use crate::tenants::{add_tenant, remove_tenant, set_limit};
use crate::upgrade::upgrade;
use clap::Error;
use fork_command::{Command, CommandError, command_of};
use std::alloc::Global;
use std::fs::{File, Files};
use std::io::{Read, Write};
use std::net::Net;
use std::random::RandomSource;
use std::time::Clock;

/// What belongs on standard error could not be written, or only in part. The exit status is unchanged.
#[derive(Clone, Copy, Debug, PartialEq, Eq)]
pub struct Untold {
    pub status: u8,
}

// How a command ended: it was done, or a fault occurred.
fn done<'a>(did: Result<(), Fault>) -> Ending<'a>
    ensures { result ≡ ending_of did }
{
    match did {
        Ok(()) => Ending::Done,
        Err(fault) => Ending::Failed(fault),
    }
}

// Carries out the command.
fn carried_out<
    'a,
    H: Files<File = File> + Net + AllocGlobal + RandomSource + Clock + Eprint,
    R: Read,
    W: Write,
>(rt: &H, alloc: Global, command: Command<'_>, reader: &mut R, writer: &mut W) -> Ending<'a>
    ensures { IsCarriedOut command.entry (R.remaining reader.old) (R.remaining reader.new)
        (W.contents writer.old) (W.contents writer.new) result }
{
    match command {
        Command::HashObject { kind } => done(hash_object(alloc, kind, reader, writer)),
        Command::Run { hosting } => done(run(rt, alloc, hosting, reader, writer)),
        Command::Serve {
            socket,
            connections,
            at_once,
            hosting,
        } => done(serve(rt, alloc, socket, connections, at_once, hosting)),
        Command::Check { dir } => match check(rt, alloc, dir, writer) {
            Ok(count) => Ending::Sound(count),
            Err(fault) => Ending::Failed(fault),
        },
        Command::Upgrade { dir } => done(upgrade(rt, alloc, dir, writer)),
        Command::AddTenant { dir, grant } => done(add_tenant(rt, alloc, dir, grant)),
        Command::SetLimit { dir, grant } => done(set_limit(rt, alloc, dir, grant)),
        Command::RemoveTenant { dir, tenant } => done(remove_tenant(rt, alloc, dir, tenant)),
        Command::Repack { dir, packed } => done(repack(rt, alloc, dir, packed)),
    }
}

// Prints the help or the version.
fn help<W: Write>(alloc: Global, error: Error, writer: &mut W) -> Result<(), Fault>
    ensures ok { OnOk result ((text : List ℕ) × Appends (W.contents writer.old) (W.contents writer.new) text) }
    ensures kept { IfErr result (λ why. (why ≡ Fault.Write) ⊎ ((why ≡ Fault.Memory) × Keeps (W.contents writer.old) (W.contents writer.new))) }
{
    let Ok(text) = error.to_string(alloc) else {
        return Err(Fault::Memory);
    };
    send(text.as_bytes(), writer)
}

// Does what the words ask for.
fn ending<
    'a,
    H: Files<File = File> + Net + AllocGlobal + RandomSource + Clock + Eprint,
    R: Read,
    W: Write,
>(rt: &H, alloc: Global, words: &'a [&'a str], reader: &mut R, writer: &mut W) -> Ending<'a>
    ensures { Ends (map (λ word. word.now) words.entry.now) (R.remaining reader.old) (R.remaining reader.new)
        (W.contents writer.old) (W.contents writer.new) result }
{
    match command_of(alloc, words) {
        Ok(command) => carried_out(rt, alloc, command, reader, writer),
        Err(CommandError::Help(error)) => match help(alloc, error, writer) {
            Ok(()) => Ending::Done,
            Err(fault) => Ending::Failed(fault),
        },
        Err(CommandError::Usage(error)) => Ending::Misused(error),
        Err(CommandError::BadTenant(word)) => Ending::BadTenant(word),
        Err(CommandError::Memory) => Ending::Failed(Fault::Memory),
    }
}

/// Does what the words ask for, writes to `faults` what belongs on standard error, and returns the exit
/// status. The first word is the program's name.
pub fn program<
    H: Files<File = File> + Net + AllocGlobal + RandomSource + Clock + Eprint,
    R: Read,
    W: Write,
    F: Write,
>(rt: &H, words: &[&str], reader: &mut R, writer: &mut W, faults: &mut F) -> Result<u8, Untold>
    ensures ok { IfOk result (IsEndedAndTold (map (λ word. word.now) words.entry.now)
        (R.remaining reader.old) (R.remaining reader.new) (W.contents writer.old) (W.contents writer.new)
        (F.contents faults.old) (F.contents faults.new)) }
    ensures err { IfErr result (λ untold. IsEndedUntold (map (λ word. word.now) words.entry.now)
        (R.remaining reader.old) (R.remaining reader.new) (W.contents writer.old) (W.contents writer.new) untold.status) }
{
    let alloc = rt.alloc();
    let how = ending(rt, alloc, words, reader, writer);
    let status = how.status();
    match how.tell(alloc, faults) {
        Ok(()) => Ok(status),
        Err(_) => Err(Untold { status }),
    }
}
