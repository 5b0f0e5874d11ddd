ghost use Rattle.std.specs.Prelude.{IfErr, OnOk};
ghost use Rattle.fork_program.specs.Keeping.{IsNotUpgraded, IsRenewed, IsUnrenewed, IsUpgraded};

use crate::fault::Fault;
use crate::restoring::standing_host;
use crate::saving::save;
use crate::send::send;
use std::alloc::Global;
use std::fs::{File, Files};
use std::io::Write;
use std::random::RandomSource;

// Saves again what a folder keeps, with all that its journal has.
fn renew<'x, H: Files<File = File> + AllocGlobal + RandomSource>(
    rt: &'x H,
    alloc: Global,
    dir: &str,
) -> Result<(), Fault>
    ensures ok { OnOk result IsRenewed }
    ensures err { IfErr result IsUnrenewed }
{
    let (mut host, standing, _count) = standing_host(rt, alloc, dir)?;
    let saved = save(rt, alloc, dir, standing, &mut host);
    drop(host);
    match saved {
        Ok(()) => Ok(()),
        Err(fault) => Err(fault),
    }
}

/// Saves what a folder keeps in the newest format, with all that its journal has, and prints the version of
/// that format. A folder without a state is left as it is, and one that does not exist is not created. After
/// any other `Err`, and after a kill, the folder keeps what it kept, as it was or as saved here.
pub fn upgrade<H: Files<File = File> + AllocGlobal + RandomSource, W: Write>(
    rt: &H,
    alloc: Global,
    dir: &str,
    writer: &mut W,
) -> Result<(), Fault>
    ensures ok { OnOk result (IsUpgraded (W.contents writer.old) (W.contents writer.new)) }
    ensures err { IfErr result (IsNotUpgraded (W.contents writer.old) (W.contents writer.new)) }
{
    renew(rt, alloc, dir)?;
    match send(b"state 2\n", writer) {
        Ok(()) => Ok(()),
        Err(fault) => Err(fault),
    }
}
