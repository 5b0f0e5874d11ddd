// Writes a journal, over the device of its host's folder.
ghost use Rattle.std.specs.Prelude.{◌≡◌, IfOk, IsTrue, string_bytes, true};
ghost use Rattle.devices.specs.Parts.{DropsPart};
ghost use Rattle.devices.specs.Runs.{Runs};
ghost use Rattle.sha2.specs.Sha256.{sha256};
ghost use Rattle.host_folder.specs.Journal.{BeginsJournal, SyncsNames, beginning, journal_file, journal_part as unnamed, naming, old_journal_file, syncing_names};

use crate::journal_line::line_of;
use devices::{Device, DeviceFault};
use git_name::Name;
use sha2::{Digest, Sha256};
use std::alloc::{AllocError, Global};

// The folder of journals, in a host's folder.
pub(crate) const JOURNALS: &str = "journal";

// The same on the device of a host's folder.
pub(crate) const IN_JOURNALS: &str = "journal/";

// The file of a journal that has no name yet, on that device.
const PART_OF_JOURNALS: &str = "journal/part";

/// The name of the journal that continues this state text: its SHA-256 (FIPS 180-4, 6.2).
pub fn journal_name(state: &[u8]) -> Name
    ensures { result ≡ sha256 state.now }
{
    Name::new(Sha256::digest(state))
}

/// The path of the journal of this name in version 1, on the device of its host's folder.
pub fn old_journal_path(alloc: Global, name: Name) -> Result<String, AllocError>
    ensures { IfOk result (λ path. string_bytes path ≡ old_journal_file name) }
{
    let digits = hex::encode(alloc, name.as_bytes().as_slice())?;
    let mut path = String::from_str(alloc, "journal/")?;
    path.push_str(digits.as_str())?;
    Ok(path)
}

/// The path of the journal of this name, on the device of its host's folder.
pub fn journal_path(alloc: Global, name: Name) -> Result<String, AllocError>
    ensures { IfOk result (λ path. string_bytes path ≡ journal_file name) }
{
    let mut path = old_journal_path(alloc, name)?;
    path.push_str(".2")?;
    Ok(path)
}

/// The path of a journal that has no name yet, on that device. One is written at a time.
pub fn journal_part() -> &'static str
    ensures { result.now ≡ unnamed }
{
    PART_OF_JOURNALS
}

// Makes the folder of journals, by an empty part in it, and syncs the names in it.
fn make_names<D: Device>(device: &mut D) -> Result<(), DeviceFault>
    ensures effects { IsTrue (D.honest device.old) → Runs (syncing_names true) (D.past device.old) (D.past device.new) result }
    ensures honest { D.honest device.new ≡ D.honest device.old }
{
    device.write(PART_OF_JOURNALS, b"".as_slice())?;
    device.sync_folder(IN_JOURNALS)
}

// Syncs the names in the folder of journals, and makes it first if it is missing.
fn sync_names<D: Device>(device: &mut D) -> Result<(), DeviceFault>
    ensures effects { IsTrue (D.honest device.old) → SyncsNames (D.past device.old) (D.past device.new) result }
    ensures honest { D.honest device.new ≡ D.honest device.old }
{
    match device.sync_folder(IN_JOURNALS) {
        Err(DeviceFault::Missing) => make_names(device),
        synced => synced,
    }
}

// Writes the first line of a journal that has no name yet. Want of room for the line is `Room`, since it is appended to a part
// that is empty.
fn write_line<D: Device>(device: &mut D, standing: Name) -> Result<(), DeviceFault>
    ensures effects { IsTrue (D.honest device.old) → Runs (beginning standing) (D.past device.old) (D.past device.new) result }
    ensures honest { D.honest device.new ≡ D.honest device.old }
{
    device.write(PART_OF_JOURNALS, b"".as_slice())?;
    device.append(PART_OF_JOURNALS, line_of(standing).as_slice())
}

/// Begins a journal that has no name yet, and writes its first line. `standing` is the name of the state's text in the
/// folder. Syncs the names in the folder of journals first, so that a journal that was cleared before does not come back
/// beside one that does not mention it. This process must have locked the folder.
pub fn begin_journal<D: Device>(device: &mut D, standing: Name) -> Result<(), DeviceFault>
    ensures effects { IsTrue (D.honest device.old) → BeginsJournal standing (D.past device.old) (D.past device.new) result }
    ensures honest { D.honest device.new ≡ D.honest device.old }
{
    sync_names(device)?;
    write_line(device, standing)
}

/// Syncs what was written of the new journal so far, and gives it its name, replacing one of that name. More can be
/// appended to it. After an `Err` it may or may not have its name. Fails if there is no part.
pub fn settle_journal<D: Device>(
    alloc: Global,
    device: &mut D,
    name: Name,
) -> Result<(), DeviceFault>
    ensures effects { IsTrue (D.honest device.old) → Runs (naming name) (D.past device.old) (D.past device.new) result }
    ensures honest { D.honest device.new ≡ D.honest device.old }
{
    let path = journal_path(alloc, name)?;
    device.sync_file(PART_OF_JOURNALS)?;
    if !device.rename(PART_OF_JOURNALS, path.as_str())? {
        return Err(DeviceFault::Device);
    }
    device.sync_folder(IN_JOURNALS)
}

/// Removes the part of a journal that is not wanted. If that fails, the next `clear_journals` removes it.
pub fn drop_journal<D: Device>(device: &mut D)
    ensures dropped { IsTrue (D.honest device.old) → DropsPart unnamed (D.past device.old) (D.past device.new) }
    ensures honest { D.honest device.new ≡ D.honest device.old }
{
    let _removed = device.remove(PART_OF_JOURNALS);
}
