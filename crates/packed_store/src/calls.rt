// The calls by which segments change a device, in the words of what its files have then.
ghost use Rattle.std.specs.Prelude.{◌≡◌, ◌++◌, [], IsTrue, OnOk};
ghost use Rattle.std.specs.FinMap as map;
ghost use Rattle.devices.specs.Device.{Does, Added, Removed, SyncedFile, bytes_or_none, files_of, names_in_folder};
ghost use Rattle.packed_store.specs.Lasting.{HasSureNames, IsUnfailed, Narrows};
ghost use Rattle.packed_store.specs.Place.{Grows, KeepsPaths};

use devices::{Device, DeviceFault};
use std::alloc::Global;

/// Appends to a file.
pub(crate) fn append_to<D: Device>(
    device: &mut D,
    path: &str,
    bytes: &[u8],
) -> Result<(), DeviceFault>
    ensures effect { IsTrue (D.honest device.old) → Does (Added path.now bytes.now) (D.past device.old) (D.past device.new) result }
    ensures added { IsTrue (D.honest device.old) → OnOk result (bytes_or_none (map.get (files_of (D.past device.new)) path.now) ≡ bytes_or_none (map.get (files_of (D.past device.old)) path.now) ++ bytes.now) }
    ensures grows { IsTrue (D.honest device.old) → Grows (files_of (D.past device.old)) (files_of (D.past device.new)) }
    ensures honest { D.honest device.new ≡ D.honest device.old }
{
    device.append(path, bytes)
}

/// Syncs the bytes of a file.
pub(crate) fn sync_bytes<D: Device>(device: &mut D, path: &str) -> Result<(), DeviceFault>
    ensures effect { IsTrue (D.honest device.old) → Does (SyncedFile path.now) (D.past device.old) (D.past device.new) result }
    ensures files { IsTrue (D.honest device.old) → files_of (D.past device.new) ≡ files_of (D.past device.old) }
    ensures honest { D.honest device.new ≡ D.honest device.old }
{
    device.sync_file(path)
}

// Succeeds if no file is right in a folder.
fn require_empty<D: Device>(device: &D, alloc: Global, folder: &str) -> Result<(), DeviceFault>
    ensures { IsTrue (D.honest device.now) → OnOk result (names_in_folder folder.now (map.keys (files_of (D.past device.now))) ≡ []) }
{
    let listing = match device.list(alloc, folder) {
        Ok(listing) => listing,
        // No sync was tried.
        Err(DeviceFault::Device) => return Err(DeviceFault::Unopened),
        Err(fault) => return Err(fault),
    };
    if listing.is_empty() {
        return Ok(());
    }
    Err(DeviceFault::Missing)
}

/// Syncs the names right in a folder. If it is missing and has no files, there is nothing to sync.
pub(crate) fn sync_names<D: Device>(
    device: &mut D,
    alloc: Global,
    folder: &str,
) -> Result<(), DeviceFault>
    ensures narrows { IsTrue (D.honest device.old) → Narrows (D.past device.old) (D.past device.new) }
    ensures unfailed { IsTrue (D.honest device.old) → OnOk result (IsUnfailed (D.past device.old) → IsUnfailed (D.past device.new)) }
    ensures sure { IsTrue (D.honest device.old) → OnOk result (IsUnfailed (D.past device.new) → HasSureNames folder.now (D.past device.new)) }
    ensures files { IsTrue (D.honest device.old) → files_of (D.past device.new) ≡ files_of (D.past device.old) }
    ensures honest { D.honest device.new ≡ D.honest device.old }
{
    match device.sync_folder(folder) {
        Err(DeviceFault::Missing) => require_empty(device, alloc, folder),
        synced => synced,
    }
}

/// Removes a file.
pub(crate) fn remove_at<D: Device>(device: &mut D, path: &str) -> Result<(), DeviceFault>
    ensures effect { IsTrue (D.honest device.old) → Does (Removed path.now) (D.past device.old) (D.past device.new) result }
    ensures others { IsTrue (D.honest device.old) → KeepsPaths path.now (files_of (D.past device.old)) (files_of (D.past device.new)) }
    ensures honest { D.honest device.new ≡ D.honest device.old }
{
    device.remove(path)
}
