use std::alloc::{AllocError, Global};
use std::fs::{DirBuilder, File, Files, OpenOptions};
use std::io::{ErrorKind, Read};
use std::os::unix::fs::{DirBuilderExt, OpenOptionsExt};
use std::{fs, io};

/// One thing that a start does with a path of its folder. It leaves what exists there as it is.
#[derive(Clone, Copy)]
pub(crate) enum Trial {
    /// To create a folder, and its parents.
    Make,
    /// To take the lock of a file, and release it.
    Lock,
    /// To list a folder, if it exists.
    List,
    /// To look for a file that was being written.
    Look,
    /// The same in each folder of object files.
    LookInEach,
    /// To read a file, if it exists.
    Read,
}

// Creates a folder as a start does. A folder that exists is left as it is, and so is anything else there.
fn make(rt: &impl Files, path: &str) -> io::Result<()> {
    if path.is_empty() {
        return Err(io::Error::from(ErrorKind::NotFound));
    }
    match DirBuilder::new()
        .recursive(true)
        .mode(0o700)
        .create(rt, path)
    {
        Err(error) if error.kind() == ErrorKind::AlreadyExists => {
            Err(io::Error::from(ErrorKind::NotADirectory))
        }
        made => made,
    }
}

// Whether a regular file exists at the path. Anything else there is an error, so that opening it cannot block.
fn is_regular(rt: &impl Files, path: &str) -> io::Result<bool> {
    match fs::metadata(rt, path) {
        Ok(there) if there.is_file() => Ok(true),
        Ok(_) => Err(io::Error::from(ErrorKind::InvalidInput)),
        Err(error) if error.kind() == ErrorKind::NotFound => Ok(false),
        Err(error) => Err(error),
    }
}

// Takes a file's lock, and releases it.
fn lock<H: Files<File = File>>(rt: &H, path: &str) -> io::Result<()> {
    is_regular(rt, path)?;
    let file = OpenOptions::new()
        .write(true)
        .create(true)
        .mode(0o600)
        .open(rt, path)?;
    file.try_lock()?;
    Ok(())
}

// Reads the first byte of a file.
fn read(rt: &impl Files, path: &str) -> io::Result<()> {
    if is_regular(rt, path)? {
        let mut first = [0; 1];
        fs::open(rt, path)?.read(&mut first)?;
    }
    Ok(())
}

// A path that does not exist is no error.
fn there<T: Drop>(answer: io::Result<T>) -> io::Result<()> {
    match answer {
        Ok(_) => Ok(()),
        Err(error) if error.kind() == ErrorKind::NotFound => Ok(()),
        Err(error) => Err(error),
    }
}

// Looks for the files that were being written, in the folders of object files.
fn look_in_each(rt: &impl Files, alloc: Global, objects: &str) -> io::Result<()> {
    for first in 0..=u8::MAX {
        let path = format!(in alloc; "{objects}/{first:02x}/part")?;
        there(fs::symlink_metadata(rt, path.as_str()))?;
    }
    Ok(())
}

impl Trial {
    /// Runs the trial at this path.
    pub(crate) fn at<H: Files<File = File> + AllocGlobal>(
        self,
        rt: &H,
        alloc: Global,
        path: &str,
    ) -> io::Result<()> {
        match self {
            Trial::Make => make(rt, path),
            Trial::Lock => lock(rt, path),
            Trial::List => there(fs::read_dir(&rt, path)),
            Trial::Look => there(fs::symlink_metadata(rt, path)),
            Trial::LookInEach => look_in_each(rt, alloc, path),
            Trial::Read => read(rt, path),
        }
    }
}

/// The words for an error of a trial: those for its kind, or the system's own if it has no kind.
pub(crate) fn words_for(alloc: Global, error: &io::Error) -> Result<String, AllocError> {
    match error.kind() {
        ErrorKind::WouldBlock => String::from_str(alloc, "lock held by another process"),
        ErrorKind::InvalidInput => String::from_str(alloc, "not a regular file"),
        ErrorKind::Uncategorized => format!(in alloc; "{error}"),
        kind => format!(in alloc; "{kind}"),
    }
}
