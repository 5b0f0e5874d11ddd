// The place of a new state, over a device.
ghost use Rattle.std.specs.Prelude.{◌≡◌, [], IsTrue};
ghost use Rattle.devices.specs.Parts.{DropsPart, placing};
ghost use Rattle.devices.specs.Runs.{Runs};
ghost use Rattle.host_folder.specs.State.{part_file, state_file, syncing};

use crate::part::PART;
use devices::{Device, DeviceFault};

// The file of the state in a host's folder.
pub(crate) const STATE: &str = "state";

/// The path of the part of a new state, on the device of a host's folder, which this process has locked. It is written and
/// synced, and one state is written at a time.
pub fn state_part() -> &'static str
    ensures { result.now ≡ part_file }
{
    PART
}

/// The path of the state, on that device.
pub fn state_path() -> &'static str
    ensures { result.now ≡ state_file }
{
    STATE
}

/// Makes the part, which was written and synced, the file `state` of a device, replacing one that exists, and syncs the names
/// in its folder. Fails if there is no part.
pub fn place_state<D: Device>(device: &mut D) -> Result<(), DeviceFault>
    ensures effects { IsTrue (D.honest device.old) → Runs (placing part_file state_file []) (D.past device.old) (D.past device.new) result }
    ensures honest { D.honest device.new ≡ D.honest device.old }
{
    if !device.rename(PART, STATE)? {
        return Err(DeviceFault::Device);
    }
    device.sync_folder("")
}

/// Makes the state in a device's folder survive a loss of power, as it is read, with its name.
pub fn sync_state<D: Device>(device: &mut D) -> Result<(), DeviceFault>
    ensures effects { IsTrue (D.honest device.old) → Runs syncing (D.past device.old) (D.past device.new) result }
    ensures honest { D.honest device.new ≡ D.honest device.old }
{
    device.sync_file(STATE)?;
    device.sync_folder("")
}

/// Removes the part of a state that is not wanted. If that fails, the next opening of the folder removes it.
pub fn drop_state<D: Device>(device: &mut D)
    ensures dropped { IsTrue (D.honest device.old) → DropsPart part_file (D.past device.old) (D.past device.new) }
    ensures honest { D.honest device.new ≡ D.honest device.old }
{
    let _removed = device.remove(PART);
}
