// What opening a folder does to its device.
ghost use Rattle.std.specs.Prelude.{◌≡◌, ℕ, List, IsTrue, OnOk, None};
ghost use Rattle.std.specs.FinMap as map;
ghost use Rattle.devices.specs.Device.{files_of};
ghost use Rattle.folder_store.specs.Contents.{contents_of};
ghost use Rattle.git_name.specs.Name.{IsName};
ghost use Rattle.folder_store.specs.Lasting.{AllSafe};
ghost use Rattle.folder_store.specs.Place.{name_at, swept_at, swept_of};
ghost use Rattle.folder_store.specs.Swept.{IsOpened, OpenAlike};

use crate::place::{PART, home_of};
use crate::swept::put_all_back;
use devices::{Device, DeviceFault};
use std::alloc::Global;

// Removes a file that is neither an object's nor a swept one.
fn remove_part<D: Device>(device: &mut D, path: &str) -> Result<(), DeviceFault>
    ensures lasts { IsTrue (D.honest device.old) → name_at path.now ≡ None → swept_at path.now ≡ None → OnOk result (AllSafe (D.past device.old) (D.past device.new)) }
    ensures alike { IsTrue (D.honest device.old) → name_at path.now ≡ None → swept_at path.now ≡ None → OpenAlike (files_of (D.past device.old)) (files_of (D.past device.new)) }
    ensures honest { D.honest device.new ≡ D.honest device.old }
{
    device.remove(path)
}

// Removes the part in the folder of names that begin with this byte.
fn clear_home<D: Device>(device: &mut D, alloc: Global, first: u8) -> Result<(), DeviceFault>
    ensures lasts { IsTrue (D.honest device.old) → OnOk result (AllSafe (D.past device.old) (D.past device.new)) }
    ensures alike { IsTrue (D.honest device.old) → OpenAlike (files_of (D.past device.old)) (files_of (D.past device.new)) }
    ensures honest { D.honest device.new ≡ D.honest device.old }
{
    let first = [first];
    let mut part = home_of(alloc, first.as_slice())?;
    part.push_str(PART)?;
    remove_part(device, part.as_str())
}

// Removes the parts that a killed process was writing.
fn clear_parts<D: Device>(device: &mut D, alloc: Global) -> Result<(), DeviceFault>
    ensures lasts { IsTrue (D.honest device.old) → OnOk result (AllSafe (D.past device.old) (D.past device.new)) }
    ensures alike { IsTrue (D.honest device.old) → OpenAlike (files_of (D.past device.old)) (files_of (D.past device.new)) }
    ensures honest { D.honest device.new ≡ D.honest device.old }
{
    remove_part(device, PART)?;
    remove_part(device, "journal/part")?;
    for first in 0..=u8::MAX {
        clear_home(device, alloc, first)?;
    }
    Ok(())
}

/// Removes the parts that a killed process was writing, and puts the swept files back.
pub(crate) fn restore<D: Device>(device: &mut D, alloc: Global) -> Result<(), DeviceFault>
    ensures lasts { IsTrue (D.honest device.old) → OnOk result (AllSafe (D.past device.old) (D.past device.new)) }
    ensures none { IsTrue (D.honest device.old) → OnOk result ((name : List ℕ) → IsName name → map.get (files_of (D.past device.new)) (swept_of name) ≡ None) }
    ensures opened { IsTrue (D.honest device.old) → OnOk result (IsOpened (files_of (D.past device.old)) (contents_of (files_of (D.past device.new)))) }
    ensures honest { D.honest device.new ≡ D.honest device.old }
{
    clear_parts(device, alloc)?;
    put_all_back(device, alloc)
}
