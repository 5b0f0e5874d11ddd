// The files of objects, over a device.
ghost use Rattle.std.specs.Prelude.{◌≡◌, ◌∷◌, [], ℕ, List, IsTrue, IfOk, OnOk, Some, None, option_map};
ghost use Rattle.std.specs.FinMap as map;
ghost use Rattle.devices.specs.Device.{Does, Wrote, Moved, Removed, SyncedFile, SyncedFolder, Untried, files_of};
ghost use Rattle.devices.specs.Runs.{Runs};
ghost use Rattle.folder_store.specs.Contents.{contents_in};
ghost use Rattle.loose_store.specs.Files.{SameBut};
ghost use Rattle.folder_store.specs.Lasting.{IsUnfailed, PutsFile, SweepsFile};
ghost use Rattle.folder_store.specs.Place.{name_at, place_of, swept_of};
ghost use Rattle.std.specs.Option.{option_or};
ghost use Rattle.git_name.specs.Name.{IsName};

use crate::max_file::MAX_FILE;
use crate::place::{part_path, path_of, swept_path};
use devices::{Device, DeviceFault};
use git_name::Name;
use std::alloc::Global;

/// The file of a name, if it exists.
pub(crate) fn read_file<D: Device>(
    device: &D,
    alloc: Global,
    name: Name,
) -> Result<Option<Vec<u8>>, DeviceFault>
    ensures found { IsTrue (D.honest device.now) → IfOk result (λ found. option_map (λ bytes. bytes.items) found ≡ map.get (contents_in (D.honest device.now) (D.past device.now)) name) }
    ensures name { IsName name }
{
    let path = path_of(alloc, name)?;
    device.read(alloc, path.as_str(), MAX_FILE)
}

// Writes a part and renames it to its file. Fails if somebody removes the part between the two.
fn write_and_rename<D: Device>(
    device: &mut D,
    part: &str,
    path: &str,
    bytes: &[u8],
) -> Result<(), DeviceFault>
    ensures effects { IsTrue (D.honest device.old) → Runs (Wrote part.now bytes.now ∷ Moved part.now path.now ∷ []) (D.past device.old) (D.past device.new) result }
    ensures honest { D.honest device.new ≡ D.honest device.old }
{
    device.write(part, bytes)?;
    if !device.rename(part, path)? {
        return Err(DeviceFault::Device);
    }
    Ok(())
}

/// Removes a file that is no object's.
pub(crate) fn remove_other<D: Device>(device: &mut D, path: &str) -> Result<(), DeviceFault>
    ensures effect { IsTrue (D.honest device.old) → Does (Removed path.now) (D.past device.old) (D.past device.new) result }
    ensures kept { name_at path.now ≡ None → contents_in (D.honest device.new) (D.past device.new) ≡ contents_in (D.honest device.old) (D.past device.old) }
    ensures honest { D.honest device.new ≡ D.honest device.old }
{
    device.remove(path)
}

/// Writes the whole file of a name, replacing one that exists. After a failure, removes the part. A file that is too long
/// for any object is not written.
pub(crate) fn put_file<D: Device>(
    device: &mut D,
    alloc: Global,
    name: Name,
    bytes: &[u8],
) -> Result<(), DeviceFault>
    ensures ok { IsTrue (D.honest device.old) → OnOk result (contents_in (D.honest device.new) (D.past device.new) ≡ map.insert (contents_in (D.honest device.old) (D.past device.old)) name bytes.now) }
    ensures others { IsTrue (D.honest device.old) → SameBut name (contents_in (D.honest device.old) (D.past device.old)) (contents_in (D.honest device.new) (D.past device.new)) }
    ensures lasts { IsTrue (D.honest device.old) → PutsFile name (D.past device.old) (D.past device.new) }
    ensures unfailed { IsTrue (D.honest device.old) → IsUnfailed (D.past device.old) → IsUnfailed (D.past device.new) }
    ensures name { IsName name }
    ensures honest { D.honest device.new ≡ D.honest device.old }
{
    if bytes.len() as u64 > MAX_FILE {
        return Err(DeviceFault::Device);
    }
    let path = path_of(alloc, name)?;
    let part = part_path(alloc, name)?;
    match write_and_rename(device, part.as_str(), path.as_str(), bytes) {
        Ok(()) => Ok(()),
        Err(fault) => {
            let _removed = remove_other(device, part.as_str());
            Err(fault)
        }
    }
}

/// Whether a file is at this path.
pub(crate) fn is_there<D: Device>(
    device: &D,
    alloc: Global,
    path: &str,
) -> Result<bool, DeviceFault>
    ensures { IsTrue (D.honest device.now) → IfOk result (λ is. is ≡ map.contains_key (files_of (D.past device.now)) path.now) }
{
    match device.read(alloc, path, 0) {
        Ok(Some(_)) => Ok(true),
        Ok(None) => Ok(false),
        Err(fault) => Err(fault),
    }
}

// Renames a file of an object, if it exists, to its swept file.
fn take_away<D: Device>(device: &mut D, path: &str, swept: &str) -> Result<(), DeviceFault>
    ensures effect { IsTrue (D.honest device.old) → Does (Moved path.now swept.now) (D.past device.old) (D.past device.new) result }
    ensures swept { IsTrue (D.honest device.old) → (name : List ℕ) → IsName name → path.now ≡ place_of name → name_at swept.now ≡ None → OnOk result (contents_in (D.honest device.new) (D.past device.new) ≡ map.remove (contents_in (D.honest device.old) (D.past device.old)) name) }
    ensures others { IsTrue (D.honest device.old) → (name : List ℕ) → IsName name → path.now ≡ place_of name → name_at swept.now ≡ None → SameBut name (contents_in (D.honest device.old) (D.past device.old)) (contents_in (D.honest device.new) (D.past device.new)) }
    ensures honest { D.honest device.new ≡ D.honest device.old }
{
    match device.rename(path, swept) {
        Ok(_) => Ok(()),
        Err(fault) => Err(fault),
    }
}

/// Moves the file of a name from the objects to the swept files, over one of this name that was swept before: the bytes of
/// the newer one were synced then (`put_synced`). If there is none, nothing changes.
pub(crate) fn sweep_file<D: Device>(
    device: &mut D,
    alloc: Global,
    name: Name,
) -> Result<(), DeviceFault>
    ensures swept { IsTrue (D.honest device.old) → OnOk result (map.get (files_of (D.past device.new)) (swept_of name) ≡ option_or (map.get (files_of (D.past device.old)) (place_of name)) (map.get (files_of (D.past device.old)) (swept_of name))) }
    ensures ok { IsTrue (D.honest device.old) → OnOk result (contents_in (D.honest device.new) (D.past device.new) ≡ map.remove (contents_in (D.honest device.old) (D.past device.old)) name) }
    ensures others { IsTrue (D.honest device.old) → SameBut name (contents_in (D.honest device.old) (D.past device.old)) (contents_in (D.honest device.new) (D.past device.new)) }
    ensures lasts { IsTrue (D.honest device.old) → SweepsFile name (D.past device.old) (D.past device.new) }
    ensures honest { D.honest device.new ≡ D.honest device.old }
{
    let path = path_of(alloc, name)?;
    let swept = swept_path(alloc, name)?;
    take_away(device, path.as_str(), swept.as_str())
}

/// Syncs the bytes of a file.
pub(crate) fn sync_bytes<D: Device>(device: &mut D, path: &str) -> Result<(), DeviceFault>
    ensures effect { IsTrue (D.honest device.old) → Does (SyncedFile path.now) (D.past device.old) (D.past device.new) result }
    ensures untried { IsTrue (D.honest device.old) → Untried (D.past device.old) (D.past device.new) result }
    ensures kept { contents_in (D.honest device.new) (D.past device.new) ≡ contents_in (D.honest device.old) (D.past device.old) }
    ensures honest { D.honest device.new ≡ D.honest device.old }
{
    device.sync_file(path)
}

/// Syncs the names right in a folder.
pub(crate) fn sync_names<D: Device>(device: &mut D, folder: &str) -> Result<(), DeviceFault>
    ensures effect { IsTrue (D.honest device.old) → Does (SyncedFolder folder.now) (D.past device.old) (D.past device.new) result }
    ensures untried { IsTrue (D.honest device.old) → Untried (D.past device.old) (D.past device.new) result }
    ensures kept { contents_in (D.honest device.new) (D.past device.new) ≡ contents_in (D.honest device.old) (D.past device.old) }
    ensures honest { D.honest device.new ≡ D.honest device.old }
{
    device.sync_folder(folder)
}
