use devices::found;
use loose_store::FileFault;
use std::alloc::Global;
use std::io::ErrorKind;
use std::rt::Files;
use std::{fs, io};

/// The folder of segments in a host's folder.
pub(crate) const SEGMENTS: &str = "segments";

/// The folder of object files in a host's folder.
pub(crate) const OBJECTS: &str = "objects";

/// How a host's folder keeps objects.
#[derive(Clone, Copy, Debug, PartialEq, Eq)]
pub enum Layout {
    /// A file for each object.
    Loose,
    /// Segments with many objects each.
    Packed,
}

/// Reports lack of memory as `Memory`, and every other error as `Device`.
pub(crate) fn told<T: Drop>(answer: io::Result<T>) -> Result<T, FileFault> {
    match answer {
        Ok(value) => Ok(value),
        Err(error) if error.kind() == ErrorKind::OutOfMemory => Err(FileFault::Memory),
        Err(_) => Err(FileFault::Device),
    }
}

/// Whether there is something at a path in a folder.
pub(crate) fn is_in(
    rt: &impl Files,
    alloc: Global,
    folder: &str,
    called: &str,
) -> io::Result<bool> {
    let path = format!(in alloc; "{folder}/{called}")?;
    Ok(found(fs::symlink_metadata(rt, path.as_str()))?.is_some())
}

/// The layout of a host's folder, or `None` if it keeps no host yet.
pub(crate) fn layout_in(
    rt: &impl Files,
    alloc: Global,
    folder: &str,
) -> io::Result<Option<Layout>> {
    if is_in(rt, alloc, folder, SEGMENTS)? {
        return Ok(Some(Layout::Packed));
    }
    if is_in(rt, alloc, folder, OBJECTS)? || is_in(rt, alloc, folder, "state")? {
        return Ok(Some(Layout::Loose));
    }
    Ok(None)
}

/// The layout of the host's folder at this path, or `None` if it keeps no host yet.
pub fn layout_of(
    rt: &impl Files,
    alloc: Global,
    folder: &str,
) -> Result<Option<Layout>, FileFault> {
    told(layout_in(rt, alloc, folder))
}
