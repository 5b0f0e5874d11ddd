// The text of states in a file of a device.
ghost use Rattle.std.specs.Prelude.{◌≡◌, IfOk, IsTrue, OnOk};
ghost use Rattle.std.specs.Io.KnownBytes.{Appends};
ghost use Rattle.devices.specs.Parts.{IsWritten, WritesPart};
ghost use Rattle.devices.specs.Sink.{bytes_known, past_beside};
ghost use Rattle.sha2.specs.Sha256.{sha256};
ghost use Rattle.state_text.specs.Text.{state_text};
ghost use Rattle.state_text.specs.declared.version.Version.TheVariants.{Two};

use crate::states::States;
use crate::waiting::Spelled;
use crate::writing::write;
use devices::{Device, DeviceFault, FileSink};
use std::alloc::Global;
use std::io;

// Appends the text of the states to a file.
fn append_text<D: Device>(
    alloc: Global,
    states: &States,
    device: &mut D,
    path: &str,
) -> io::Result<Spelled>
    ensures text { OnOk result (Appends (bytes_known (D.honest device.old) (D.past device.old) path.now) (bytes_known (D.honest device.new) (D.past device.new) path.now) (state_text Two states.now)) }
    ensures beside { past_beside (D.honest device.new) (D.past device.new) path.now ≡ past_beside (D.honest device.old) (D.past device.old) path.now }
    ensures name { IfOk result (λ spelled. spelled.name ≡ sha256 (state_text Two states.now)) }
    ensures honest { D.honest device.new ≡ D.honest device.old }
{
    let mut sink = FileSink {
        device: &mut *device,
        path,
    };
    write(alloc, states, &mut sink)
}

/// Writes the text of the states into a file of a device, anew and in version 2, and syncs it. After an `Err` a front of the
/// text may be in the file, or all of it, unsynced. `Unopened` if the file could not be opened to be written or synced.
pub fn write_file<D: Device>(
    alloc: Global,
    states: &States,
    device: &mut D,
    path: &str,
) -> Result<Spelled, DeviceFault>
    ensures part { IsTrue (D.honest device.old) → WritesPart path.now (D.past device.old) (D.past device.new) }
    ensures text { IsTrue (D.honest device.old) → OnOk result (IsWritten path.now (state_text Two states.now) (D.past device.old) (D.past device.new)) }
    ensures name { IfOk result (λ spelled. spelled.name ≡ sha256 (state_text Two states.now)) }
    ensures honest { D.honest device.new ≡ D.honest device.old }
{
    device.write(path, b"")?;
    let spelled = append_text(alloc, states, device, path)?;
    device.sync_file(path)?;
    Ok(spelled)
}
