use crate::path::inside;
use devices::found;
use std::alloc::Global;
use std::fs::{File, OpenOptions};
use std::io::ErrorKind;
use std::os::unix::fs::{FileExt, MetadataExt};
use std::rt::Files;
use std::{fs, io};

// The file of the lock in a host's folder.
const LOCK: &str = "lock";

// The answer of a device, except that one without room is an answer too.
fn but_for_room(answer: io::Result<()>) -> io::Result<()> {
    match answer {
        Err(error) => match error.kind() {
            ErrorKind::StorageFull | ErrorKind::QuotaExceeded => Ok(()),
            _ => Err(error),
        },
        Ok(()) => Ok(()),
    }
}

/// The lock of a host's folder, by which a host notices that the folder is gone.
#[derive(Drop)]
pub struct Watch {
    lock: File,
    path: String,
}

impl Watch {
    /// Watches the folder at this path.
    pub fn new<R: Files<File = File>>(rt: &R, alloc: Global, folder: &str) -> io::Result<Watch> {
        let path = inside(alloc, folder, LOCK)?;
        let lock = OpenOptions::new().write(true).open(rt, path.as_str())?;
        Ok(Watch { lock, path })
    }

    /// Whether the lock is still at its path, so that the folder was not moved, and none is in its place.
    pub fn is_there(&self, rt: &impl Files) -> io::Result<bool> {
        let own = self.lock.metadata()?;
        match found(fs::metadata(rt, self.path.as_str()))? {
            Some(there) => Ok(there.ino() == own.ino() && there.dev() == own.dev()),
            None => Ok(false),
        }
    }

    /// Writes and syncs a byte of the lock. Over a network that is down it fails, or does not return.
    pub fn touch(&self) -> io::Result<()> {
        but_for_room(self.lock.write_all_at(b"\n".as_slice(), 0))?;
        but_for_room(self.lock.sync_all())
    }
}
