ghost use Rattle.std.specs.Prelude.{false, []};
ghost use Rattle.std.specs.FinMap as map;

use crate::device::{Device, DeviceFault};
use crate::opened::{Opened, taken};
use crate::std_files::{
    create_folder, found, is_missing, open_file, open_lock, read_all, readable, regular,
};
use std::alloc::Global;
use std::cell::Cell;
use std::fs::{File, OpenFile};
use std::io::{ErrorKind, Write};
use std::os::unix::fs::FileExt;
use std::path::Path;
use std::rt::Files;
use std::{fs, io};

/// The files in a folder of the operating system, which this process has locked. It claims nothing: no contract says what the
/// system's files hold.
#[derive(Drop)]
pub struct Real<R> {
    rt: R,
    alloc: Global,
    folder: String,
    // None if another owner in this process has it.
    lock: Option<File>,
    // The file of which a part was read last, and the one that was appended to last, unless another file took its path since.
    reading: Cell<Option<Opened>>,
    appending: Option<Opened>,
}

// Locks a folder for as long as the returned file is open. The file `lock` stays, whether or not the folder is locked.
fn locked<R: Files<File = File>>(rt: &R, path: &str) -> io::Result<File> {
    found(regular(rt, path))?;
    let lock = open_lock(rt, path)?;
    lock.try_lock()?;
    Ok(lock)
}

// The path of a file in a folder.
fn inside(alloc: Global, folder: &str, path: &str) -> io::Result<String> {
    let mut whole = String::from_str(alloc, folder)?;
    whole.push_str("/")?;
    whole.push_str(path)?;
    Ok(whole)
}

// Why a call failed.
fn fault_of(error: io::Error) -> DeviceFault {
    match error.kind() {
        ErrorKind::OutOfMemory => DeviceFault::Memory,
        ErrorKind::StorageFull | ErrorKind::QuotaExceeded => DeviceFault::Room,
        _ => DeviceFault::Device,
    }
}

// Why a file was not opened.
fn unopened(error: io::Error) -> DeviceFault {
    match error.kind() {
        ErrorKind::OutOfMemory => DeviceFault::Memory,
        ErrorKind::StorageFull | ErrorKind::QuotaExceeded => DeviceFault::Room,
        _ => DeviceFault::Unopened,
    }
}

// Why a file was not written whole. A front of its bytes may be there, so that is not want of room.
fn unwritten(error: io::Error) -> DeviceFault {
    match error.kind() {
        ErrorKind::OutOfMemory => DeviceFault::Memory,
        _ => DeviceFault::Device,
    }
}

impl<R: Files<File = File> + Drop> Real<R> {
    fn with(
        rt: R,
        alloc: Global,
        folder: &str,
        lock: Option<File>,
    ) -> Result<Real<R>, DeviceFault> {
        let folder = String::from_str(alloc, folder)?;
        Ok(Real {
            rt,
            alloc,
            folder,
            lock,
            reading: Cell::new(None),
            appending: None,
        })
    }

    /// Locks the folder at this path, which exists. While it is open, another process that opens it gets `Device`. A
    /// process that is killed unlocks it.
    pub fn open(rt: R, alloc: Global, folder: &str) -> Result<Real<R>, DeviceFault> {
        let path = inside(alloc, folder, "lock").map_err(fault_of)?;
        let lock = locked(&rt, path.as_str()).map_err(fault_of)?;
        Real::with(rt, alloc, folder, Some(lock))
    }

    /// The folder at this path, which this process has locked, for other files than those of the device that locked it.
    pub fn beside(rt: R, alloc: Global, folder: &str) -> Result<Real<R>, DeviceFault> {
        Real::with(rt, alloc, folder, None)
    }

    fn path(&self, path: &str) -> io::Result<String> {
        inside(self.alloc, self.folder.as_str(), path)
    }

    // Creates the folder of a file, unless that is the device's own.
    fn create_home(&self, path: &str) -> io::Result<()> {
        match Path::new(path).parent() {
            Some(home) if !home.as_str().is_empty() => {
                create_folder(&self.rt, self.path(home.as_str())?.as_str())
            }
            _ => Ok(()),
        }
    }

    // Of anything but a regular file that is an error, as it is of a link that leads nowhere.
    fn len_in(&self, path: &str) -> io::Result<Option<u64>> {
        let path = self.path(path)?;
        if let Some(known) = found(regular(&self.rt, path.as_str()))? {
            return Ok(Some(known.len()));
        }
        match found(fs::symlink_metadata(&self.rt, path.as_str()))? {
            Some(_link) => Err(io::Error::from(ErrorKind::InvalidInput)),
            None => Ok(None),
        }
    }

    // No bytes of anything but a regular file, or of one that is longer.
    fn read_in(&self, alloc: Global, path: &str, most: u64) -> io::Result<Vec<u8>> {
        let path = self.path(path)?;
        let known = fs::metadata(&self.rt, path.as_str())?;
        if !known.is_file() || known.len() > most {
            return Ok(Vec::new(alloc));
        }
        read_all(&self.rt, alloc, path.as_str(), known.len())
    }

    // Opens a regular file to read parts of it.
    fn open_to_read(&self, path: &str) -> io::Result<Option<Opened>> {
        let whole = self.path(path)?;
        let known = fs::metadata(&self.rt, whole.as_str())?;
        if !known.is_file() {
            return Ok(None);
        }
        let path = String::from_str(self.alloc, path)?;
        let file = fs::open(&self.rt, whole.as_str())?;
        let len = known.len();
        Ok(Some(Opened {
            path,
            whole,
            file,
            len,
        }))
    }

    // Nothing if it is not a regular file, or is shorter.
    fn read_part_in(
        &self,
        alloc: Global,
        path: &str,
        at: u64,
        len: usize,
    ) -> io::Result<Option<Vec<u8>>> {
        let mut reading = self.reading.take();
        let opened = match taken(&mut reading, path) {
            Some(opened) => Some(opened),
            None => self.open_to_read(path)?,
        };
        let Some(mut opened) = opened else {
            return Ok(None);
        };
        if !opened.has(at.saturating_add(len as u64))? {
            return Ok(None);
        }
        let mut bytes = vec![in alloc; 0; len]?;
        opened.file.read_exact_at(bytes.as_mut_slice(), at)?;
        self.reading.set(Some(opened));
        Ok(Some(bytes))
    }

    // Closes the file that is read, and the one that is appended to if it is at this path, since paths may lead to other files from
    // now on. Other devices replace files that this one reads, and none that it goes on appending to.
    fn close(&mut self, path: &str) {
        self.reading.set(None);
        let _closed = taken(&mut self.appending, path);
    }

    // Names the file that is appended to by its new path, if it was at the old one.
    fn follow(&mut self, from: &str, path: String, whole: String) {
        if let Some(opened) = taken(&mut self.appending, from) {
            let Opened { file, len, .. } = opened;
            self.appending = Some(Opened {
                path,
                whole,
                file,
                len,
            });
        }
    }

    // Opens a file to write it anew or after its end. Creates its folder if somebody removed that.
    fn open_to_write(&self, path: &str, is_append: bool) -> io::Result<File> {
        let whole = self.path(path)?;
        match open_file(&self.rt, whole.as_str(), is_append) {
            Err(error) if is_missing(&error) => {
                self.create_home(path)?;
                open_file(&self.rt, whole.as_str(), is_append)
            }
            opened => opened,
        }
    }

    // Opens a regular file to write after its end, or creates it.
    fn open_to_append(&self, path: &str) -> io::Result<Opened> {
        let whole = self.path(path)?;
        let len = match found(regular(&self.rt, whole.as_str()))? {
            Some(known) => known.len(),
            None => 0,
        };
        let file = self.open_to_write(path, true)?;
        let path = String::from_str(self.alloc, path)?;
        Ok(Opened {
            path,
            whole,
            file,
            len,
        })
    }

    // A file stays open if its bytes were appended, or if there was no room and it is as it was.
    fn append_in(&mut self, path: &str, bytes: &[u8]) -> Result<(), DeviceFault> {
        let mut opened = match taken(&mut self.appending, path) {
            Some(opened) => opened,
            None => self.open_to_append(path).map_err(unopened)?,
        };
        let appended = opened.append(bytes).map_err(fault_of);
        if let Ok(()) | Err(DeviceFault::Room) = appended {
            self.appending = Some(opened);
        }
        appended
    }

    fn write_in(&self, path: &str, bytes: &[u8]) -> Result<(), DeviceFault> {
        let mut file = self.open_to_write(path, false).map_err(unopened)?;
        file.write_all(bytes).map_err(unwritten)
    }

    fn rename_in(&self, from: &str, to: &str) -> io::Result<bool> {
        let old = self.path(from)?;
        let new = self.path(to)?;
        match fs::rename(&self.rt, old.as_str(), new.as_str()) {
            Ok(()) => return Ok(true),
            Err(error) if is_missing(&error) => {}
            Err(error) => return Err(error),
        }
        if found(fs::symlink_metadata(&self.rt, old.as_str()))?.is_none() {
            return Ok(false);
        }
        self.create_home(to)?;
        fs::rename(&self.rt, old.as_str(), new.as_str())?;
        Ok(true)
    }

    fn remove_in(&self, path: &str) -> io::Result<()> {
        let path = self.path(path)?;
        found(fs::remove_file(&self.rt, path.as_str()))?;
        Ok(())
    }

    // Opens a regular file or a folder, if it exists.
    fn opened(&self, path: &str, is_folder: bool) -> io::Result<Option<File>> {
        let path = self.path(path)?;
        match found(fs::metadata(&self.rt, path.as_str()))? {
            Some(known) if is_folder || known.is_file() => found(fs::open(&self.rt, path.as_str())),
            _ => Ok(None),
        }
    }

    // Opens what is to be synced.
    fn opened_to_sync(&self, path: &str, is_folder: bool) -> Result<File, DeviceFault> {
        match self.opened(path, is_folder) {
            Ok(Some(file)) => Ok(file),
            Ok(None) => Err(DeviceFault::Missing),
            Err(error) => Err(unopened(error)),
        }
    }

    // Whether the file that is appended to is the one at its path. It takes no memory.
    fn is_in_place(&self, appended: &Opened) -> io::Result<bool> {
        match found(fs::metadata(&self.rt, appended.whole.as_str()))? {
            Some(there) => appended.is_at(there),
            None => Ok(false),
        }
    }

    // Syncs the file that is appended to, if it is the one at its path, through the handle that wrote to it: that one is told of
    // each error.
    fn sync_appended(&self, appended: &Opened) -> Result<(), DeviceFault> {
        match self.is_in_place(appended) {
            Ok(true) => synced(appended.file.sync_data()),
            Ok(false) => Err(DeviceFault::Device),
            Err(error) => Err(unopened(error)),
        }
    }
}

// What a sync has done.
fn synced(answer: io::Result<()>) -> Result<(), DeviceFault> {
    match answer {
        Ok(()) => Ok(()),
        Err(_) => Err(DeviceFault::Device),
    }
}

impl<R: Files<File = File> + AllocGlobal + Clone + Drop> Real<R> {
    fn list_in(&self, alloc: Global, folder: &str) -> io::Result<Vec<Vec<u8>>> {
        let mut names = Vec::new(alloc);
        let home = self.path(folder)?;
        let Some(listing) = found(fs::read_dir(&self.rt, home.as_str()))? else {
            return Ok(names);
        };
        for entry in listing {
            if let Some(entry) = readable(entry)? {
                names.push(entry.file_name().as_bytes().to_vec(alloc)?)?;
            }
        }
        names.sort_unstable();
        Ok(names)
    }
}

impl<R: Files<File = File> + AllocGlobal + Clone + Drop> Device for Real<R> {
    ghost past = { λ _. record { base = map.empty; effects = [] } };

    ghost honest = { λ _. false };

    fn read(&self, alloc: Global, path: &str, most: u64) -> Result<Option<Vec<u8>>, DeviceFault> {
        found(self.read_in(alloc, path, most)).map_err(fault_of)
    }

    fn len(&self, path: &str) -> Result<Option<u64>, DeviceFault> {
        self.len_in(path).map_err(fault_of)
    }

    fn read_part(
        &self,
        alloc: Global,
        path: &str,
        at: u64,
        len: usize,
    ) -> Result<Option<Vec<u8>>, DeviceFault> {
        match found(self.read_part_in(alloc, path, at, len)).map_err(fault_of)? {
            Some(part) => Ok(part),
            None => Ok(None),
        }
    }

    fn write(&mut self, path: &str, bytes: &[u8]) -> Result<(), DeviceFault> {
        self.close(path);
        self.write_in(path, bytes)
    }

    fn append(&mut self, path: &str, bytes: &[u8]) -> Result<(), DeviceFault> {
        self.append_in(path, bytes)
    }

    fn rename(&mut self, from: &str, to: &str) -> Result<bool, DeviceFault> {
        let path = String::from_str(self.alloc, to)?;
        let whole = self.path(to).map_err(fault_of)?;
        self.close(to);
        let was_there = self.rename_in(from, to).map_err(fault_of)?;
        if was_there {
            self.follow(from, path, whole);
        }
        Ok(was_there)
    }

    fn remove(&mut self, path: &str) -> Result<(), DeviceFault> {
        self.close(path);
        self.remove_in(path).map_err(fault_of)
    }

    fn list(&self, alloc: Global, folder: &str) -> Result<Vec<Vec<u8>>, DeviceFault> {
        self.list_in(alloc, folder).map_err(fault_of)
    }

    fn sync_file(&mut self, path: &str) -> Result<(), DeviceFault> {
        if let Some(appended) = taken(&mut self.appending, path) {
            let answer = self.sync_appended(&appended);
            self.appending = Some(appended);
            return answer;
        }
        match self.opened_to_sync(path, false) {
            Ok(file) => synced(file.sync_data()),
            Err(DeviceFault::Missing) => Ok(()),
            Err(fault) => Err(fault),
        }
    }

    fn sync_folder(&mut self, folder: &str) -> Result<(), DeviceFault> {
        synced(self.opened_to_sync(folder, true)?.sync_all())
    }
}
