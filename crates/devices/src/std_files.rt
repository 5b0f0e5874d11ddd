// Files of the operating system, by whole paths. Only their owner may read what is created, whatever the umask is.
ghost use Rattle.std.specs.Prelude.{◌≡◌, Ok, Some, IfOk};

use std::alloc::Global;
use std::fs::{DirBuilder, Metadata, OpenFile, OpenOptions};
use std::io::{ErrorKind, Read, Write};
use std::os::unix::fs::{DirBuilderExt, OpenOptionsExt};
use std::rt::Files;
use std::{fs, io};

// A file: the owner reads and writes.
const FILE_MODE: u32 = 0o600;
// A folder: the owner reads, writes and searches.
const FOLDER_MODE: u32 = 0o700;

/// Whether the file does not exist, or its parent is not a folder.
pub(crate) fn is_missing(error: &io::Error) -> bool {
    matches!(error.kind(), ErrorKind::NotFound | ErrorKind::NotADirectory)
}

/// Whether there was no room.
pub(crate) fn lacks_room(error: &io::Error) -> bool {
    matches!(
        error.kind(),
        ErrorKind::StorageFull | ErrorKind::QuotaExceeded
    )
}

/// The answer, or `None` if the file does not exist or its parent is not a folder.
pub fn found<T: Drop>(answer: io::Result<T>) -> io::Result<Option<T>>
    ensures { IfOk answer (λ value. result ≡ Ok (Some value)) }
{
    match answer {
        Ok(value) => Ok(Some(value)),
        Err(error) if is_missing(&error) => Ok(None),
        Err(error) => Err(error),
    }
}

/// An entry of a folder, or `None` if its name is not UTF-8.
pub fn readable<T: Drop>(entry: io::Result<T>) -> io::Result<Option<T>>
    ensures { IfOk entry (λ entry. result ≡ Ok (Some entry)) }
{
    match entry {
        Ok(entry) => Ok(Some(entry)),
        Err(error) => match error.kind() {
            ErrorKind::InvalidFilename => Ok(None),
            _ => Err(error),
        },
    }
}

/// The metadata of a regular file. A pipe or a device is an error, since opening one may block forever.
pub fn regular(rt: &impl Files, path: &str) -> io::Result<Metadata> {
    let found = fs::metadata(rt, path)?;
    if !found.is_file() {
        return Err(io::Error::from(ErrorKind::InvalidInput));
    }
    Ok(found)
}

/// All bytes of a file of this length. The buffer has room for one more, so reading the end of the file does
/// not grow it.
pub fn read_all(rt: &impl Files, alloc: Global, path: &str, length: u64) -> io::Result<Vec<u8>> {
    let mut file = fs::open(rt, path)?;
    let mut bytes = Vec::with_capacity(alloc, (length as usize).saturating_add(1))?;
    file.read_to_end(&mut bytes)?;
    Ok(bytes)
}

/// Creates a file for writing. An existing one is truncated and keeps its mode.
pub fn create_file<R: Files>(rt: &R, path: &str) -> io::Result<R::File> {
    open_file(rt, path, false)
}

/// Opens a file for writing after its end, or empties it. It is created if it does not exist.
pub(crate) fn open_file<R: Files>(rt: &R, path: &str, is_append: bool) -> io::Result<R::File> {
    OpenOptions::new()
        .write(true)
        .append(is_append)
        .truncate(!is_append)
        .create(true)
        .mode(FILE_MODE)
        .open(rt, path)
}

/// Opens the file of a lock. It is created if it does not exist, and is never truncated.
pub(crate) fn open_lock<R: Files>(rt: &R, path: &str) -> io::Result<R::File> {
    OpenOptions::new()
        .write(true)
        .create(true)
        .mode(FILE_MODE)
        .open(rt, path)
}

/// Creates a folder, unless it exists. Its parent must exist.
pub fn create_folder(rt: &impl Files, path: &str) -> io::Result<()> {
    match DirBuilder::new().mode(FOLDER_MODE).create(rt, path) {
        Err(error) if error.kind() == ErrorKind::AlreadyExists => Ok(()),
        made => made,
    }
}

/// Creates a folder and its ancestors, unless they exist.
pub fn create_folders(rt: &impl Files, path: &str) -> io::Result<()> {
    DirBuilder::new()
        .recursive(true)
        .mode(FOLDER_MODE)
        .create(rt, path)
}

/// Syncs the names in a folder.
pub fn sync_folder(rt: &impl Files, path: &str) -> io::Result<()> {
    fs::open(rt, path)?.sync_all()
}
