ghost use Rattle.std.specs.Prelude.{◌≡◌, ◌++◌, ◌∷◌, [], ℕ, List, IsTrue, IfOk, OnOk, Some, None, true, take, map as each};
ghost use Rattle.std.specs.FinMap as map;
ghost use Rattle.devices.specs.Device.{Does, Moved, Removed, SyncedFile, SyncedFolder, files_of, with_effect};
ghost use Rattle.devices.specs.Runs.{Runs};
ghost use Rattle.git_name.specs.Name.{IsName};
ghost use Rattle.folder_store.specs.Contents.{contents_in, contents_of};
ghost use Rattle.folder_store.specs.Lasting.{AllSafe, ForgetsFiles};
ghost use Rattle.folder_store.specs.Listing.{names_spelled, names_swept};
ghost use Rattle.folder_store.specs.Place.{home_with, place_of, swept_of};
ghost use Rattle.folder_store.specs.Swept.{IsOpened, is_whole as whole, steps_back};

use crate::listing::add_name;
use crate::object_file::{read_file, remove_other};
use crate::place::{home_of, path_of, swept_path};
use devices::{Device, DeviceFault};
use git_name::Name;
use sha2::{Digest, Sha256};
use std::alloc::{AllocError, Global};

/// The folder of swept files in a host's folder.
pub(crate) const SWEPT: &str = "swept/";

// Adds the names whose swept files are called so. Other texts are ignored.
fn add_spelled(listing: &[Vec<u8>], names: &mut Vec<Name>) -> Result<(), AllocError>
    ensures { OnOk result (names.new.items ≡ names.old.items ++ names_spelled (each (λ called. called.items) listing.now)) }
{
    for called in listing.iter() {
        add_name(names, Name::parse_hex(called.as_slice()))?;
    }
    Ok(())
}

// The names of the swept files. Files with other names are ignored.
fn swept_names<D: Device>(device: &D, alloc: Global) -> Result<Vec<Name>, DeviceFault>
    ensures { IsTrue (D.honest device.now) → IfOk result (λ names. names.items ≡ names_swept (map.keys (files_of (D.past device.now)))) }
{
    let mut names = Vec::new(alloc);
    let listing = device.list(alloc, SWEPT)?;
    add_spelled(listing.as_slice(), &mut names)?;
    Ok(names)
}

// Whether this is the whole file of the name.
fn is_whole(bytes: &[u8], name: Name) -> bool
    ensures { result ≡ whole name (Some bytes.now) }
{
    Name::new(Sha256::digest(bytes)) == name
}

// Whether the whole file of a name is at its place. One that cannot be read may be whole, so that is a fault.
fn has_whole<D: Device>(device: &D, alloc: Global, name: Name) -> Result<bool, DeviceFault>
    ensures whole { IsTrue (D.honest device.now) → IfOk result (λ is. is ≡ whole name (map.get (contents_of (files_of (D.past device.now))) name)) }
    ensures name { IsName name }
{
    let Some(bytes) = read_file(device, alloc, name)? else {
        return Ok(false);
    };
    Ok(is_whole(bytes.as_slice(), name))
}

// Syncs the whole file at the place of a name, and then removes the swept one.
fn let_go<D: Device>(device: &mut D, alloc: Global, name: Name) -> Result<(), DeviceFault>
    ensures effects { IsTrue (D.honest device.old) → Runs (SyncedFile (place_of name) ∷ SyncedFolder (home_with (take 1 name)) ∷ Removed (swept_of name) ∷ []) (D.past device.old) (D.past device.new) result }
    ensures honest { D.honest device.new ≡ D.honest device.old }
{
    let path = path_of(alloc, name)?;
    let home = home_of(alloc, &name.as_bytes()[..1])?;
    let swept = swept_path(alloc, name)?;
    device.sync_file(path.as_str())?;
    device.sync_folder(home.as_str())?;
    device.remove(swept.as_str())
}

// Moves the swept file of a name to its place.
fn move_back<D: Device>(device: &mut D, alloc: Global, name: Name) -> Result<(), DeviceFault>
    ensures effects { IsTrue (D.honest device.old) → Runs (Moved (swept_of name) (place_of name) ∷ []) (D.past device.old) (D.past device.new) result }
    ensures honest { D.honest device.new ≡ D.honest device.old }
{
    let path = path_of(alloc, name)?;
    let swept = swept_path(alloc, name)?;
    device.rename(swept.as_str(), path.as_str())?;
    Ok(())
}

// Puts a swept file back. If a whole file of its name was written later, syncs that one and removes the swept one:
// until then only the swept one is sure to survive a loss of power. Replaces a file that is not whole: power may have
// failed before it was on the disk.
fn put_back<D: Device>(device: &mut D, alloc: Global, name: Name) -> Result<(), DeviceFault>
    ensures effects { IsTrue (D.honest device.old) → Runs (steps_back name (whole name (map.get (contents_of (files_of (D.past device.old))) name))) (D.past device.old) (D.past device.new) result }
    ensures name { IsName name }
    ensures honest { D.honest device.new ≡ D.honest device.old }
{
    if has_whole(device, alloc, name)? {
        return let_go(device, alloc, name);
    }
    move_back(device, alloc, name)
}

/// Puts back all files that were swept since removals were last made final.
pub(crate) fn put_all_back<D: Device>(device: &mut D, alloc: Global) -> Result<(), DeviceFault>
    ensures lasts { IsTrue (D.honest device.old) → OnOk result (AllSafe (D.past device.old) (D.past device.new)) }
    ensures none { IsTrue (D.honest device.old) → OnOk result ((name : List ℕ) → IsName name → map.get (files_of (D.past device.new)) (swept_of name) ≡ None) }
    ensures opened { IsTrue (D.honest device.old) → OnOk result (IsOpened (files_of (D.past device.old)) (contents_of (files_of (D.past device.new)))) }
    ensures honest { D.honest device.new ≡ D.honest device.old }
{
    let names = swept_names(device, alloc)?;
    for name in names.iter() {
        put_back(device, alloc, *name)?;
    }
    Ok(())
}

// Removes the swept file of a name.
fn remove_swept<D: Device>(device: &mut D, alloc: Global, name: Name) -> Result<(), DeviceFault>
    ensures effect { IsTrue (D.honest device.old) → Does (Removed (swept_of name)) (D.past device.old) (D.past device.new) result }
    ensures name { IsName name }
    ensures kept { contents_in (D.honest device.new) (D.past device.new) ≡ contents_in (D.honest device.old) (D.past device.old) }
    ensures honest { D.honest device.new ≡ D.honest device.old }
{
    let swept = swept_path(alloc, name)?;
    remove_other(device, swept.as_str())
}

// Removes the swept file of a name. Returns whether that worked, and all removals before it did.
fn remove_next<D: Device>(device: &mut D, alloc: Global, name: Name, is_empty: bool) -> bool
    ensures lasts { IsTrue (D.honest device.old) → ForgetsFiles (D.past device.old) (D.past device.new) }
    ensures gone { IsTrue (D.honest device.old) → result ≡ true → D.past device.new ≡ with_effect (D.past device.old) (Removed (swept_of name)) }
    ensures before { result ≡ true → is_empty ≡ true }
    ensures name { IsName name }
    ensures kept { contents_in (D.honest device.new) (D.past device.new) ≡ contents_in (D.honest device.old) (D.past device.old) }
    ensures honest { D.honest device.new ≡ D.honest device.old }
{
    let removed = remove_swept(device, alloc, name);
    if removed.is_err() {
        return false;
    }
    is_empty
}

/// Removes the swept files. The state and the journals in the folder must not need any of them. One that cannot be removed
/// is passed over, and reported at the end. It does no harm: the next start puts it back, and the next sweep of its name
/// replaces it.
pub(crate) fn empty_swept<D: Device>(device: &mut D, alloc: Global) -> Result<(), DeviceFault>
    ensures lasts { IsTrue (D.honest device.old) → ForgetsFiles (D.past device.old) (D.past device.new) }
    ensures none { IsTrue (D.honest device.old) → OnOk result ((name : List ℕ) → IsName name → map.get (files_of (D.past device.new)) (swept_of name) ≡ None) }
    ensures kept { contents_in (D.honest device.new) (D.past device.new) ≡ contents_in (D.honest device.old) (D.past device.old) }
    ensures honest { D.honest device.new ≡ D.honest device.old }
{
    let names = swept_names(device, alloc)?;
    let mut is_empty = true;
    for name in names.iter() {
        is_empty = remove_next(device, alloc, *name, is_empty);
    }
    if !is_empty {
        return Err(DeviceFault::Device);
    }
    Ok(())
}
