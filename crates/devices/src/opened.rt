// A file of the operating system that stays open.
use crate::std_files::lacks_room;
use std::fs::{File, Metadata};
use std::io;
use std::io::{ErrorKind, Write};
use std::os::unix::fs::MetadataExt;

/// A file that stays open, its path on the device and its whole path, and how many bytes it was seen to have. One that is appended to
/// has so many.
#[derive(Drop)]
pub(crate) struct Opened {
    pub(crate) path: String,
    pub(crate) whole: String,
    pub(crate) file: File,
    pub(crate) len: u64,
}

// Whether the file at this path is open.
fn is_open(opened: &Option<Opened>, path: &str) -> bool {
    match opened {
        Some(opened) => opened.path.as_str() == path,
        None => false,
    }
}

/// Takes the file at this path out of its place, if it is open. Another one stays.
pub(crate) fn taken(opened: &mut Option<Opened>, path: &str) -> Option<Opened> {
    if !is_open(opened, path) {
        return None;
    }
    opened.take()
}

impl Opened {
    /// Whether it has so many bytes.
    pub(crate) fn has(&mut self, count: u64) -> io::Result<bool> {
        if self.len < count {
            self.len = self.file.metadata()?.len();
        }
        Ok(self.len >= count)
    }

    // Cuts it back to the bytes that it had before an append that failed with this error.
    fn cut(&self, error: io::Error) -> io::Result<()> {
        if self.file.set_len(self.len).is_err() {
            return Err(io::Error::from(ErrorKind::Other));
        }
        Err(error)
    }

    /// Writes after its end. If there is no room, it keeps the bytes that it had, or else that is another error.
    pub(crate) fn append(&mut self, bytes: &[u8]) -> io::Result<()> {
        match self.file.write_all(bytes) {
            Ok(()) => {
                self.len = self.len.saturating_add(bytes.len() as u64);
                Ok(())
            }
            Err(error) if lacks_room(&error) => self.cut(error),
            Err(error) => Err(error),
        }
    }

    /// Whether it is the file that this tells of.
    pub(crate) fn is_at(&self, there: Metadata) -> io::Result<bool> {
        let own = self.file.metadata()?;
        Ok(own.ino() == there.ino() && own.dev() == there.dev())
    }
}
