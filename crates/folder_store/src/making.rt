// Creates the folders of object files in a host's folder.
use crate::place::{OBJECTS, home_of};
use crate::swept::SWEPT;
use devices::{create_folder, found, sync_folder};
use host_folder::{create_folder_with, inside, told};
use loose_store::FileFault;
use std::alloc::Global;
use std::rt::Files;
use std::{fs, io};

// The folder of segments in a host's folder, if it is a packed one.
const SEGMENTS: &str = "segments";

// Creates the folders of object files in a host's folder, unless they exist, and syncs their names.
fn create_homes(rt: &impl Files, alloc: Global, folder: &str) -> io::Result<()> {
    for first in 0..=u8::MAX {
        let first = [first];
        let home = home_of(alloc, first.as_slice())?;
        let home = inside(alloc, folder, home.as_str())?;
        create_folder(rt, home.as_str())?;
    }
    let objects = inside(alloc, folder, OBJECTS)?;
    sync_folder(rt, objects.as_str())
}

// Whether a host's folder keeps its objects in segments.
fn has_segments(rt: &impl Files, alloc: Global, folder: &str) -> io::Result<bool> {
    let path = inside(alloc, folder, SEGMENTS)?;
    Ok(found(fs::symlink_metadata(rt, path.as_str()))?.is_some())
}

/// Creates all folders in a host's folder, unless they exist, and syncs their names and those of its ancestors. Call it only
/// while the folder is locked: if another process made it a packed one before, this is an error, and nothing is created.
pub(crate) fn create_all(rt: &impl Files, alloc: Global, folder: &str) -> Result<(), FileFault> {
    if told(has_segments(rt, alloc, folder))? {
        return Err(FileFault::Device);
    }
    create_folder_with(rt, alloc, folder, &[OBJECTS, SWEPT])?;
    told(create_homes(rt, alloc, folder))
}
