// Reads a journal, over the device of its host's folder.
ghost use Rattle.std.specs.Prelude.{◌≡◌, List, ℕ, IfOk, IfSome, IsTrue, is_some};
ghost use Rattle.std.specs.FinMap as map;
ghost use Rattle.std.specs.Io.KnownBytes.{Consumes};
ghost use Rattle.devices.specs.Device.{files_of};
ghost use Rattle.devices.specs.Source.{bytes_behind};
ghost use Rattle.git_name.specs.Name.{IsName};
ghost use Rattle.host_folder.specs.Journal.{first_line};

use crate::failures::of_device;
use crate::journal_line::read_line;
use crate::part::told;
use devices::{Device, FileReader};
use loose_store::FileFault;
use std::alloc::Global;

/// A reader of the journal at this path, after its first line, if the journal exists.
pub fn open_journal<'a, D: Device>(
    alloc: Global,
    device: &'a D,
    path: &'a str,
) -> Result<Option<FileReader<'a, D>>, FileFault>
    ensures there { IsTrue (D.honest device.now) → IfOk result (λ found. is_some found ≡ map.contains_key (files_of (D.past device.now)) path.now) }
    ensures line { IfOk result (λ found. IfSome found (λ reader. (before : List ℕ) × IsName before × Consumes (bytes_behind (D.honest device.now) (D.past device.now) path.now 0) (bytes_behind (D.honest reader.device.now) (D.past reader.device.now) reader.path.now reader.at) (first_line before))) }
{
    let mut reader = match open_file(alloc, device, path)? {
        Some(reader) => reader,
        None => return Ok(None),
    };
    match told(read_line(&mut reader)) {
        Ok(_before) => Ok(Some(reader)),
        Err(fault) => Err(fault),
    }
}

/// A reader of the file at this path, from its beginning, if it exists.
pub fn open_file<'a, D: Device>(
    alloc: Global,
    device: &'a D,
    path: &'a str,
) -> Result<Option<FileReader<'a, D>>, FileFault>
    ensures there { IsTrue (D.honest device.now) → IfOk result (λ found. is_some found ≡ map.contains_key (files_of (D.past device.now)) path.now) }
    ensures reader { IfOk result (λ found. IfSome found (λ reader. (reader.device.now ≡ device.now) × (reader.path.now ≡ path.now) × (reader.at ≡ 0))) }
{
    match of_device(device.len(path)) {
        Ok(Some(_len)) => Ok(Some(FileReader::new(alloc, device, path))),
        Ok(None) => Ok(None),
        Err(fault) => Err(fault),
    }
}
