// Clears the folder of journals, over the device of its host's folder.
ghost use Rattle.std.specs.Prelude.{◌≡◌, false, IsTrue, OnOk, true};
ghost use Rattle.devices.specs.Device.{files_of};
ghost use Rattle.host_folder.specs.Journal.{ClearsBy, IsClear, IsCleared, IsGone, IsOwn, OnlyClears};

use crate::journal_file::{IN_JOURNALS, JOURNALS, journal_path};
use crate::journal_line::name_called;
use crate::path::inside;
use devices::{Device, DeviceFault};
use git_name::Name;
use std::alloc::Global;
use std::str;

// Whether a file called so is the journal of this name. One of version 1 is, unless one of version 2 is there.
fn is_journal(called: &[u8], name: Name, is_there: bool) -> bool
    ensures other { result ≡ false → IsCleared is_there name called.now }
    ensures its { result ≡ true → IsCleared is_there name called.now → ⊥ }
{
    // Its clause says that these are the bytes of a name.
    let _bytes = name.as_bytes();
    if name_called(called) == Some(name) {
        return true;
    }
    if is_there {
        return false;
    }
    Name::parse_hex(called) == Some(name)
}

// Whether a file called so is one that a host writes here.
fn is_own(called: &[u8]) -> bool
    ensures { result ≡ false → IsOwn called.now → ⊥ }
{
    if called == b"part".as_slice() {
        return true;
    }
    if name_called(called).is_some() {
        return true;
    }
    Name::parse_hex(called).is_some()
}

// Removes what is called so, unless it is the journal of this name, or no UTF-8. What a host does not write here may stay.
fn clear_called<D: Device>(
    alloc: Global,
    device: &mut D,
    called: &[u8],
    name: Name,
    is_there: bool,
) -> Result<(), DeviceFault>
    ensures effects { IsTrue (D.honest device.old) → ClearsBy is_there name (D.past device.old) (D.past device.new) }
    ensures gone { IsTrue (D.honest device.old) → OnOk result (IsGone (files_of (D.past device.new)) is_there name called.now) }
    ensures honest { D.honest device.new ≡ D.honest device.old }
{
    if is_journal(called, name, is_there) {
        return Ok(());
    }
    let Ok(text) = str::from_utf8(called) else {
        return Ok(());
    };
    let path = inside(alloc, JOURNALS, text)?;
    let removed = device.remove(path.as_str());
    if is_own(called) {
        return removed;
    }
    Ok(())
}

/// Removes all files right in the folder of journals beside the journal of this name: journals of other states, and what a
/// killed process was writing. One of version 1 stays if there is none of version 2. Fails if a journal or a part cannot be
/// removed; anything else may stay. Call it only if `has_other_journal` returns false.
pub fn clear_journals<D: Device>(
    alloc: Global,
    device: &mut D,
    name: Name,
) -> Result<(), DeviceFault>
    ensures effects { IsTrue (D.honest device.old) → OnlyClears name (D.past device.old) (D.past device.new) }
    ensures clear { IsTrue (D.honest device.old) → OnOk result (IsClear name (D.past device.old) (D.past device.new)) }
    ensures honest { D.honest device.new ≡ D.honest device.old }
{
    let path = journal_path(alloc, name)?;
    let is_there = device.len(path.as_str())?.is_some();
    for called in device.list(alloc, IN_JOURNALS)? {
        clear_called(alloc, device, called.as_slice(), name, is_there)?;
    }
    Ok(())
}
