// Syncs of one file of an object, and of one folder of these.
ghost use Rattle.std.specs.Prelude.{◌≡◌, [], IsTrue, OnOk};
ghost use Rattle.std.specs.FinMap as map;
ghost use Rattle.devices.specs.Device.{Does, SyncedFile, Untried, files_of, names_in_folder};
ghost use Rattle.folder_store.specs.Contents.{contents_in};
ghost use Rattle.folder_store.specs.Place.{place_of};
ghost use Rattle.folder_store.specs.Synced.{SyncsHome};

use crate::object_file::{sync_bytes, sync_names};
use crate::place::{home_of, path_of};
use devices::{Device, DeviceFault};
use git_name::Name;
use std::alloc::Global;

/// Syncs the bytes of the file of a name. If it was removed, there is nothing to sync.
pub(crate) fn sync_object<D: Device>(
    device: &mut D,
    alloc: Global,
    name: Name,
) -> Result<(), DeviceFault>
    ensures effect { IsTrue (D.honest device.old) → Does (SyncedFile (place_of name)) (D.past device.old) (D.past device.new) result }
    ensures untried { IsTrue (D.honest device.old) → Untried (D.past device.old) (D.past device.new) result }
    ensures kept { contents_in (D.honest device.new) (D.past device.new) ≡ contents_in (D.honest device.old) (D.past device.old) }
    ensures honest { D.honest device.new ≡ D.honest device.old }
{
    let path = path_of(alloc, name)?;
    sync_bytes(device, path.as_str())
}

// Succeeds if no file is in a folder.
fn require_empty<D: Device>(device: &D, alloc: Global, folder: &str) -> Result<(), DeviceFault>
    ensures { IsTrue (D.honest device.now) → OnOk result (names_in_folder folder.now (map.keys (files_of (D.past device.now))) ≡ []) }
{
    let listing = device.list(alloc, folder)?;
    if listing.is_empty() {
        return Ok(());
    }
    Err(DeviceFault::Missing)
}

/// Syncs the names in the folder of names that begin with this byte, unless it is missing and has no files.
pub(crate) fn sync_home_of<D: Device>(
    device: &mut D,
    alloc: Global,
    first: u8,
) -> Result<(), DeviceFault>
    ensures effect { IsTrue (D.honest device.old) → SyncsHome first (D.past device.old) (D.past device.new) result }
    ensures untried { IsTrue (D.honest device.old) → Untried (D.past device.old) (D.past device.new) result }
    ensures kept { contents_in (D.honest device.new) (D.past device.new) ≡ contents_in (D.honest device.old) (D.past device.old) }
    ensures honest { D.honest device.new ≡ D.honest device.old }
{
    let first = [first];
    let home = home_of(alloc, first.as_slice())?;
    match sync_names(device, home.as_str()) {
        Err(DeviceFault::Missing) => require_empty(device, alloc, home.as_str()),
        synced => synced,
    }
}
