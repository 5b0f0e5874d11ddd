use crate::device::{Device, DeviceFault};
use std::alloc::Global;

// A device that is lent is the device.
impl<D: Device> Device for &mut D {
    ghost past = { λ device. D.past device.now };

    ghost honest = { λ device. D.honest device.now };

    fn read(&self, alloc: Global, path: &str, most: u64) -> Result<Option<Vec<u8>>, DeviceFault> {
        (**self).read(alloc, path, most)
    }

    fn len(&self, path: &str) -> Result<Option<u64>, DeviceFault> {
        (**self).len(path)
    }

    fn read_part(
        &self,
        alloc: Global,
        path: &str,
        at: u64,
        len: usize,
    ) -> Result<Option<Vec<u8>>, DeviceFault> {
        (**self).read_part(alloc, path, at, len)
    }

    fn write(&mut self, path: &str, bytes: &[u8]) -> Result<(), DeviceFault> {
        (**self).write(path, bytes)
    }

    fn append(&mut self, path: &str, bytes: &[u8]) -> Result<(), DeviceFault> {
        (**self).append(path, bytes)
    }

    fn rename(&mut self, from: &str, to: &str) -> Result<bool, DeviceFault> {
        (**self).rename(from, to)
    }

    fn remove(&mut self, path: &str) -> Result<(), DeviceFault> {
        (**self).remove(path)
    }

    fn list(&self, alloc: Global, folder: &str) -> Result<Vec<Vec<u8>>, DeviceFault> {
        (**self).list(alloc, folder)
    }

    fn sync_file(&mut self, path: &str) -> Result<(), DeviceFault> {
        (**self).sync_file(path)
    }

    fn sync_folder(&mut self, folder: &str) -> Result<(), DeviceFault> {
        (**self).sync_folder(folder)
    }
}
