ghost use Rattle.std.specs.Prelude.{◌≡◌, IfErr, IfOk};
ghost use Rattle.std.specs.Io.KnownBytes.{Appends};
ghost use Rattle.fork_program.specs.Keeping.{IsUnchecked, IsUnopened, sound_line};

use crate::fault::Fault;
use crate::restoring::standing_host;
use crate::send::send;
use std::alloc::Global;
use std::fs::{File, Files};
use std::io::Write;
use std::random::RandomSource;

// How many requests a start would repeat, if all that the folder keeps is valid.
fn replayable<'x, H: Files<File = File> + AllocGlobal + RandomSource>(
    rt: &'x H,
    alloc: Global,
    dir: &str,
) -> Result<u64, Fault>
    ensures { IfErr result IsUnopened }
{
    match standing_host(rt, alloc, dir) {
        Ok((_host, _name, count)) => Ok(count),
        Err(fault) => Err(fault),
    }
}

/// Reads all that a folder keeps, prints `sound`, and returns how many requests of the journal a start would
/// repeat. A folder without a state is left as it is, and one that does not exist is not created.
pub fn check<H: Files<File = File> + AllocGlobal + RandomSource, W: Write>(
    rt: &H,
    alloc: Global,
    dir: &str,
    writer: &mut W,
) -> Result<u64, Fault>
    ensures ok { IfOk result (λ _. Appends (W.contents writer.old) (W.contents writer.new) sound_line) }
    ensures err { IfErr result (IsUnchecked (W.contents writer.old) (W.contents writer.new)) }
{
    let count = replayable(rt, alloc, dir)?;
    match send(b"sound\n", writer) {
        Ok(()) => Ok(count),
        Err(fault) => Err(fault),
    }
}
