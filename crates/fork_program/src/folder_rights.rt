ghost use Rattle.std.specs.Prelude.{◌≡◌, ◌≢◌, ◌++◌, ℕ, IfSome, OnErr, OnOk, bit_and, map};
ghost use Rattle.fork_program.specs.Causes.{AreRightsTold, open_line};

use crate::asked::start_asked;
use std::alloc::{AllocError, Global};
use std::fs;
use std::fs::Files;
use std::os::unix::fs::PermissionsExt;

// The permission bits of the group and of others.
const OTHERS: u32 = 0o077;
// All permission bits of a mode.
const MODE: u32 = 0o7777;

// The mode of an existing folder, if it lets others do anything.
fn open_mode(rt: &impl Files, dir: &str) -> Option<u32>
    ensures { IfSome result (λ mode. bit_and mode 63 ≢ 0) }
{
    let Ok(there) = fs::metadata(rt, dir) else {
        return None;
    };
    let mode = there.permissions().mode() & MODE;
    if !there.is_dir() || mode & OTHERS == 0 {
        return None;
    }
    Some(mode)
}

// Appends the line for a folder that is open to others to `told`.
fn write_open(alloc: Global, dir: &str, mode: u32, told: &mut Vec<u8>) -> Result<(), AllocError>
    ensures ok { OnOk result (told.new.items ≡ told.old.items ++ open_line dir.now mode) }
    ensures err { OnErr result (told.new.items ≡ told.old.items) }
{
    let line = format!(in alloc; "forkhost: {dir} is open to others (mode 0{mode:o})\n")?;
    told.extend_from_slice(line.as_bytes())
}

/// Reports if the folder of the host that the words ask to start is open to others.
pub fn tell_rights<H: Files>(
    rt: &H,
    alloc: Global,
    words: &[&str],
    told: &mut Vec<u8>,
) -> Result<(), AllocError>
    ensures told { AreRightsTold (map (λ word. word.now) words.entry.now) told.old.items told.new.items }
{
    let Some(dir) = start_asked(alloc, words) else {
        return Ok(());
    };
    match open_mode(rt, dir) {
        Some(mode) => match write_open(alloc, dir, mode, told) {
            Ok(()) => Ok(()),
            Err(error) => Err(error),
        },
        None => Ok(()),
    }
}
