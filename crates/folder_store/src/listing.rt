ghost use Rattle.std.specs.Prelude.{◌≡◌, ◌++◌, IsTrue, IfOk, OnOk, map as each};
ghost use Rattle.std.specs.FinMap as map;
ghost use Rattle.devices.specs.Device.{files_of};
ghost use Rattle.folder_store.specs.Contents.{contents_in};
ghost use Rattle.folder_store.specs.Listing.{names_at, names_below, names_called, one_or_none};

use crate::place::{home_of, name_at};
use devices::{Device, DeviceFault};
use git_name::Name;
use std::alloc::{AllocError, Global};

/// Adds a name, if there is one.
pub(crate) fn add_name(names: &mut Vec<Name>, name: Option<Name>) -> Result<(), AllocError>
    ensures { OnOk result (names.new.items ≡ names.old.items ++ one_or_none name) }
{
    let Some(name) = name else {
        return Ok(());
    };
    names.push(name)?;
    Ok(())
}

// Adds the names whose files are called so in the folder of these two digits.
fn add_names(front: &[u8], listing: &[Vec<u8>], names: &mut Vec<Name>) -> Result<(), AllocError>
    ensures { OnOk result (names.new.items ≡ names.old.items ++ names_called front.now (each (λ called. called.items) listing.now)) }
{
    for called in listing.iter() {
        add_name(names, name_at(front, called.as_slice()))?;
    }
    Ok(())
}

// Adds the names that begin with this byte.
fn list_home<D: Device>(
    device: &D,
    alloc: Global,
    first: u8,
    names: &mut Vec<Name>,
) -> Result<(), DeviceFault>
    ensures { IsTrue (D.honest device.now) → OnOk result (names.new.items ≡ names.old.items ++ names_at first (map.keys (files_of (D.past device.now)))) }
{
    let first = [first];
    let home = home_of(alloc, first.as_slice())?;
    let front = hex::encode(alloc, first.as_slice())?;
    let listing = device.list(alloc, home.as_str())?;
    Ok(add_names(front.as_bytes(), listing.as_slice(), names)?)
}

// The names of all files of objects, home by home.
fn list_homes<D: Device>(device: &D, alloc: Global) -> Result<Vec<Name>, DeviceFault>
    ensures { IsTrue (D.honest device.now) → IfOk result (λ names. names.items ≡ names_below 256 (map.keys (files_of (D.past device.now)))) }
{
    let mut names = Vec::new(alloc);
    for first in 0..256u64 {
        list_home(device, alloc, first as u8, &mut names)?;
    }
    Ok(names)
}

/// The names of all files of objects, ascending. Files with other names are ignored.
pub(crate) fn list_all<D: Device>(device: &D, alloc: Global) -> Result<Vec<Name>, DeviceFault>
    ensures { IsTrue (D.honest device.now) → IfOk result (λ names. names.items ≡ map.keys (contents_in (D.honest device.now) (D.past device.now))) }
{
    let mut names = list_homes(device, alloc)?;
    names.sort_unstable();
    // A device that lies may list a name twice.
    names.dedup();
    Ok(names)
}
