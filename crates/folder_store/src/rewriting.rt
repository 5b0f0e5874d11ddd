// A file of an object, where an older one of its name was swept.
ghost use Rattle.std.specs.Prelude.{◌≡◌, None, Some, false, true, IsTrue, OnOk};
ghost use Rattle.std.specs.FinMap as map;
ghost use Rattle.devices.specs.Device.{files_of};
ghost use Rattle.devices.specs.Runs.{Runs};
ghost use Rattle.git_name.specs.Name.{IsName};
ghost use Rattle.folder_store.specs.Contents.{contents_in};
ghost use Rattle.loose_store.specs.Files.{SameBut};
ghost use Rattle.folder_store.specs.Lasting.{IsSafeAt, IsUnfailed, LastsAs, PutsFile};
ghost use Rattle.folder_store.specs.Place.{place_of, swept_of};
ghost use Rattle.folder_store.specs.Swept.{is_whole, put_steps};

use crate::max_file::MAX_FILE;
use crate::object_file::remove_other;
use crate::place::{part_path, path_of};
use crate::unsynced::Unsynced;
use devices::{Device, DeviceFault};
use git_name::Name;
use std::alloc::Global;

// Writes a part, syncs its bytes, and renames it to its file. Fails if somebody removes the part between.
fn write_sync_and_rename<D: Device>(
    device: &mut D,
    unsynced: &mut Unsynced,
    part: &str,
    path: &str,
    bytes: &[u8],
) -> Result<(), DeviceFault>
    ensures effects { IsTrue (D.honest device.old) → Runs (put_steps true part.now path.now bytes.now) (D.past device.old) (D.past device.new) result }
    ensures unfailed { IsTrue (D.honest device.old) → unsynced.new.has_failed ≡ false → IsUnfailed (D.past device.old) → IsUnfailed (D.past device.new) }
    ensures failed { unsynced.new.has_failed ≡ false → unsynced.old.has_failed ≡ false }
    ensures names { unsynced.new.names ≡ unsynced.old.names }
    ensures honest { D.honest device.new ≡ D.honest device.old }
{
    device.write(part, bytes)?;
    unsynced.sync_part(device, part)?;
    if !device.rename(part, path)? {
        return Err(DeviceFault::Device);
    }
    Ok(())
}

/// Writes the whole file of a name, of which an older one was swept. Its bytes are synced before it has its name: so wherever
/// there are both, the newer one may be moved over the older one. After a failure, removes the part. A file that is too long
/// for any object is not written.
pub(crate) fn put_synced<D: Device>(
    device: &mut D,
    alloc: Global,
    unsynced: &mut Unsynced,
    name: Name,
    bytes: &[u8],
) -> Result<(), DeviceFault>
    ensures ok { IsTrue (D.honest device.old) → OnOk result (contents_in (D.honest device.new) (D.past device.new) ≡ map.insert (contents_in (D.honest device.old) (D.past device.old)) name bytes.now) }
    ensures others { IsTrue (D.honest device.old) → SameBut name (contents_in (D.honest device.old) (D.past device.old)) (contents_in (D.honest device.new) (D.past device.new)) }
    ensures lasts { IsTrue (D.honest device.old) → PutsFile name (D.past device.old) (D.past device.new) }
    ensures own { IsTrue (D.honest device.old) → IsUnfailed (D.past device.old) → map.get (files_of (D.past device.old)) (place_of name) ≡ None → is_whole name (Some bytes.now) ≡ true → IsSafeAt (swept_of name) (D.past device.old) name → LastsAs (D.past device.old) (D.past device.new) name }
    ensures unfailed { IsTrue (D.honest device.old) → unsynced.new.has_failed ≡ false → IsUnfailed (D.past device.old) → IsUnfailed (D.past device.new) }
    ensures failed { unsynced.new.has_failed ≡ false → unsynced.old.has_failed ≡ false }
    ensures names { unsynced.new.names ≡ unsynced.old.names }
    ensures name { IsName name }
    ensures honest { D.honest device.new ≡ D.honest device.old }
{
    if bytes.len() as u64 > MAX_FILE {
        return Err(DeviceFault::Device);
    }
    let path = path_of(alloc, name)?;
    let part = part_path(alloc, name)?;
    match write_sync_and_rename(device, unsynced, part.as_str(), path.as_str(), bytes) {
        Ok(()) => Ok(()),
        Err(fault) => {
            let _removed = remove_other(device, part.as_str());
            Err(fault)
        }
    }
}
