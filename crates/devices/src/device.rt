ghost use Rattle.std.specs.Prelude.{◌≡◌, Bool, IsTrue, IfOk, length, map as each, option_and_then, option_map};
ghost use Rattle.std.specs.FinMap as map;
ghost use Rattle.devices.specs.Device.{Past, Does, Wrote, Added, Moved, Removed, SyncedFile, SyncedFolder, Unroomed, Untried, files_of, names_in_folder, part_of, within};

use std::alloc::{AllocError, AllocFailed, Global};
use std::io;
use std::io::ErrorKind;
use thiserror::Error;

/// Why a call of a device failed.
#[derive(Clone, Copy, Debug, PartialEq, Eq, Error)]
pub enum DeviceFault {
    #[error("the device failed")]
    Device,
    #[error("the file could not be opened")]
    Unopened,
    #[error("there is no such folder")]
    Missing,
    #[error("no memory")]
    Memory,
    #[error("no room")]
    Room,
}

impl From<AllocError> for DeviceFault {
    fn from(_: AllocError) -> Self {
        DeviceFault::Memory
    }
}

impl<T: Drop> From<AllocFailed<T>> for DeviceFault {
    fn from(_: AllocFailed<T>) -> Self {
        DeviceFault::Memory
    }
}

impl From<DeviceFault> for io::Error {
    fn from(fault: DeviceFault) -> Self {
        match fault {
            DeviceFault::Memory => io::Error::from(ErrorKind::OutOfMemory),
            DeviceFault::Missing => io::Error::from(ErrorKind::NotFound),
            DeviceFault::Room => io::Error::from(ErrorKind::StorageFull),
            DeviceFault::Unopened => io::Error::from(ErrorKind::PermissionDenied),
            DeviceFault::Device => io::Error::from(ErrorKind::Other),
        }
    }
}

/// The fault that an error of a sink stands for.
impl From<io::Error> for DeviceFault {
    fn from(error: io::Error) -> Self {
        match error.kind() {
            ErrorKind::OutOfMemory => DeviceFault::Memory,
            ErrorKind::NotFound => DeviceFault::Missing,
            ErrorKind::StorageFull => DeviceFault::Room,
            ErrorKind::PermissionDenied => DeviceFault::Unopened,
            _ => DeviceFault::Device,
        }
    }
}

/// Files by their paths, which are relative to the device's folder. A folder is written with a slash at its end, and the
/// device's own as nothing. A folder that is missing is created when a file is put into it.
pub trait Device {
    /// What it began with, and what was done to it since.
    ghost past: { Self → Past };

    /// Whether the calls report and change the files as their clauses say.
    ghost honest: { Self → Bool };

    /// The bytes of a file, if it exists. If there are more than `most`, none of them is read.
    fn read(&self, alloc: Global, path: &str, most: u64) -> Result<Option<Vec<u8>>, DeviceFault>
        ensures { IsTrue (honest self.now) → IfOk result (λ found. option_map (λ bytes. bytes.items) found ≡ option_map (within most) (map.get (files_of (past self.now)) path.now)) };

    /// How many bytes a file has, if it exists.
    fn len(&self, path: &str) -> Result<Option<u64>, DeviceFault>
        ensures { IsTrue (honest self.now) → IfOk result (λ found. found ≡ option_map length (map.get (files_of (past self.now)) path.now)) };

    /// A part of a file: so many bytes from a place on. `None` if it does not exist or has fewer bytes.
    fn read_part(
        &self,
        alloc: Global,
        path: &str,
        at: u64,
        len: usize,
    ) -> Result<Option<Vec<u8>>, DeviceFault>
        ensures { IsTrue (honest self.now) → IfOk result (λ found. option_map (λ bytes. bytes.items) found ≡ option_and_then (part_of at len) (map.get (files_of (past self.now)) path.now)) };

    /// Writes a whole file, replacing one at this path. `Unopened` if that file could not be opened. Call it only if no change of
    /// the replaced file's path is unsynced: a system may empty that file in place of making a new one.
    fn write(&mut self, path: &str, bytes: &[u8]) -> Result<(), DeviceFault>
        ensures effect { IsTrue (honest self.old) → Does (Wrote path.now bytes.now) (past self.old) (past self.new) result }
        ensures room { IsTrue (honest self.old) → Unroomed (past self.old) (past self.new) result }
        ensures honest { honest self.new ≡ honest self.old };

    /// Writes after the end of a file, and creates it if it does not exist.
    fn append(&mut self, path: &str, bytes: &[u8]) -> Result<(), DeviceFault>
        ensures effect { IsTrue (honest self.old) → Does (Added path.now bytes.now) (past self.old) (past self.new) result }
        ensures room { IsTrue (honest self.old) → Unroomed (past self.old) (past self.new) result }
        ensures honest { honest self.new ≡ honest self.old };

    /// Renames a file, replacing one of that name. Returns whether there was a file to rename. If there was none, it changes
    /// nothing.
    fn rename(&mut self, from: &str, to: &str) -> Result<bool, DeviceFault>
        ensures there { IsTrue (honest self.old) → IfOk result (λ was. was ≡ map.contains_key (files_of (past self.old)) from.now) }
        ensures effect { IsTrue (honest self.old) → Does (Moved from.now to.now) (past self.old) (past self.new) result }
        ensures room { IsTrue (honest self.old) → Unroomed (past self.old) (past self.new) result }
        ensures honest { honest self.new ≡ honest self.old };

    /// Removes a file. If there is none, it succeeds and changes nothing.
    fn remove(&mut self, path: &str) -> Result<(), DeviceFault>
        ensures effect { IsTrue (honest self.old) → Does (Removed path.now) (past self.old) (past self.new) result }
        ensures room { IsTrue (honest self.old) → Unroomed (past self.old) (past self.new) result }
        ensures honest { honest self.new ≡ honest self.old };

    /// The names of the files right in a folder, ascending bytewise.
    fn list(&self, alloc: Global, folder: &str) -> Result<Vec<Vec<u8>>, DeviceFault>
        ensures { IsTrue (honest self.now) → IfOk result (λ names. each (λ name. name.items) names.items ≡ names_in_folder folder.now (map.keys (files_of (past self.now)))) };

    /// Syncs the bytes of a file, if it exists. After `Device` the system
    /// may have dropped what it could not write, and a later sync of the file does not report that.
    fn sync_file(&mut self, path: &str) -> Result<(), DeviceFault>
        ensures effect { IsTrue (honest self.old) → Does (SyncedFile path.now) (past self.old) (past self.new) result }
        ensures untried { IsTrue (honest self.old) → Untried (past self.old) (past self.new) result }
        ensures honest { honest self.new ≡ honest self.old };

    /// Syncs the names right in a folder, with the same faults, and `Missing` if the folder does not exist.
    fn sync_folder(&mut self, folder: &str) -> Result<(), DeviceFault>
        ensures effect { IsTrue (honest self.old) → Does (SyncedFolder folder.now) (past self.old) (past self.new) result }
        ensures untried { IsTrue (honest self.old) → Untried (past self.old) (past self.new) result }
        ensures honest { honest self.new ≡ honest self.old };
}
