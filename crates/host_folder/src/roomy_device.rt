use crate::reserve::Reserve;
use devices::{Device, DeviceFault};
use std::alloc::Global;

/// A device that gives a reserve back if it finds no room to open a file, for bytes after its end or for a name, and then tries
/// once more. If the bytes of a `write` find no room, the fault is `Device`, and the reserve is kept.
#[derive(Drop)]
pub struct RoomyDevice<D> {
    /// The device itself.
    pub device: D,
    /// The reserve whose room it may take.
    pub reserve: Reserve,
}

impl<D: Device> Device for RoomyDevice<D> {
    ghost past = { λ roomy. D.past roomy.device };

    ghost honest = { λ roomy. D.honest roomy.device };

    fn read(&self, alloc: Global, path: &str, most: u64) -> Result<Option<Vec<u8>>, DeviceFault> {
        self.device.read(alloc, path, most)
    }

    fn len(&self, path: &str) -> Result<Option<u64>, DeviceFault> {
        self.device.len(path)
    }

    fn read_part(
        &self,
        alloc: Global,
        path: &str,
        at: u64,
        len: usize,
    ) -> Result<Option<Vec<u8>>, DeviceFault> {
        self.device.read_part(alloc, path, at, len)
    }

    fn write(&mut self, path: &str, bytes: &[u8]) -> Result<(), DeviceFault> {
        match self.device.write(path, bytes) {
            Err(fault) if self.reserve.gives_back_for(fault) => self.device.write(path, bytes),
            written => written,
        }
    }

    fn append(&mut self, path: &str, bytes: &[u8]) -> Result<(), DeviceFault> {
        match self.device.append(path, bytes) {
            Err(fault) if self.reserve.gives_back_for(fault) => self.device.append(path, bytes),
            appended => appended,
        }
    }

    fn rename(&mut self, from: &str, to: &str) -> Result<bool, DeviceFault> {
        match self.device.rename(from, to) {
            Err(fault) if self.reserve.gives_back_for(fault) => self.device.rename(from, to),
            renamed => renamed,
        }
    }

    fn remove(&mut self, path: &str) -> Result<(), DeviceFault> {
        self.device.remove(path)
    }

    fn list(&self, alloc: Global, folder: &str) -> Result<Vec<Vec<u8>>, DeviceFault> {
        self.device.list(alloc, folder)
    }

    // What failed to be synced may be lost, so it is not tried again.
    fn sync_file(&mut self, path: &str) -> Result<(), DeviceFault> {
        self.device.sync_file(path)
    }

    fn sync_folder(&mut self, folder: &str) -> Result<(), DeviceFault> {
        self.device.sync_folder(folder)
    }
}
