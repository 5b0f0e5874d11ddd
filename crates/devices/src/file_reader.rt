ghost use Rattle.std.specs.Prelude.{◌≡◌, ◌≤◌, ◌<◌, ◌+◌, IfOk, IsTrue, length, take};
ghost use Rattle.std.specs.FinMap as map;
ghost use Rattle.devices.specs.Device.{bytes_or_none, files_of};
ghost use Rattle.devices.specs.Source.{IsNextOf, bytes_behind};

use crate::device::Device;
use std::alloc::Global;
use std::io;
use std::io::{ErrorKind, Read};

// A read gives at most so many bytes.
const PIECE: u64 = 65_536;

/// The bytes of a file of a device, from its beginning. A file that does not exist has none. One that is taken away or cut behind
/// what was read is an error.
#[derive(Drop)]
pub struct FileReader<'a, D: Device> {
    alloc: Global,
    device: &'a D,
    path: &'a str,
    // How many bytes were read.
    at: u64,
}

// How many bytes a read gives of a file of this length, behind so many.
fn count_of(len: u64, at: u64, most: usize) -> usize
    ensures bound { result ≤ most }
    ensures left { 0 < result → at + result ≤ len }
    ensures ends { result ≡ 0 → 0 < most → len ≤ at }
{
    len.saturating_sub(at).min(PIECE).min(most as u64) as usize
}

// Copies as many of these bytes as there is room for, and returns how many.
fn copied(bytes: &[u8], buf: &mut [u8]) -> usize
    ensures bound { result ≤ length buf.new }
    ensures len { length buf.new ≡ length buf.old }
    ensures bytes { take result buf.new ≡ take result bytes.now }
    ensures all { length bytes.now ≤ length buf.old → result ≡ length bytes.now }
{
    let n = bytes.len().min(buf.len());
    buf[..n].copy_from_slice(&bytes[..n]);
    n
}

impl<'a, D: Device> FileReader<'a, D> {
    /// A reader of the file at this path. Each read opens it, and takes memory for what it gives.
    pub fn new(alloc: Global, device: &'a D, path: &'a str) -> FileReader<'a, D>
        ensures { (result.device.now ≡ device.now) × (result.path.now ≡ path.now) × (result.at ≡ 0) }
    {
        FileReader {
            alloc,
            device,
            path,
            at: 0,
        }
    }
}

impl<D: Device> FileReader<'_, D> {
    // The next bytes, at most so many, and none only at the end.
    fn next(&self, most: usize) -> io::Result<Vec<u8>>
        ensures { IsTrue (D.honest self.now.device.now) → IfOk result (λ bytes. IsNextOf (bytes_or_none (map.get (files_of (D.past self.now.device.now)) self.now.path.now)) self.now.at most bytes.items) }
    {
        let len = self.device.len(self.path)?.unwrap_or(0);
        if len < self.at {
            return Err(io::Error::from(ErrorKind::UnexpectedEof));
        }
        let count = count_of(len, self.at, most);
        if count == 0 {
            return Ok(Vec::new(self.alloc));
        }
        match self
            .device
            .read_part(self.alloc, self.path, self.at, count)?
        {
            Some(bytes) => Ok(bytes),
            None => Err(io::Error::from(ErrorKind::UnexpectedEof)),
        }
    }
}

impl<D: Device> Read for FileReader<'_, D> {
    ghost remaining = { λ reader. bytes_behind (D.honest reader.device.now) (D.past reader.device.now) reader.path.now reader.at };

    fn read(&mut self, buf: &mut [u8]) -> io::Result<usize> {
        let bytes = self.next(buf.len())?;
        let n = copied(bytes.as_slice(), buf);
        let Some(at) = self.at.checked_add(n as u64) else {
            return Err(io::Error::from(ErrorKind::InvalidData));
        };
        self.at = at;
        Ok(n)
    }
}
