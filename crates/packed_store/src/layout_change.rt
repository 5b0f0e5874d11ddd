// The other layout of a host's folder. It is made in a folder of its own there, and while that exists, what belongs to a layout
// that the folder does not have may be removed.
use crate::layout::{Layout, OBJECTS, SEGMENTS, is_in, layout_in, told};
use devices::{found, sync_folder};
use loose_store::FileFault;
use std::alloc::Global;
use std::io::ErrorKind;
use std::rt::Files;
use std::{fs, io};

// The folder in a host's folder in which its other layout is made.
const REPACK: &str = "repack";

// The folder of swept files in a host's folder.
const SWEPT: &str = "swept";

// The path of what is called so in a folder.
fn inside(alloc: Global, folder: &str, called: &str) -> io::Result<String> {
    Ok(format!(in alloc; "{folder}/{called}")?)
}

// Removes a folder with all that is in it, if it exists.
fn remove_all<R: Files + AllocGlobal>(
    rt: &R,
    alloc: Global,
    folder: &str,
    called: &str,
) -> io::Result<()> {
    let path = inside(alloc, folder, called)?;
    found(fs::remove_dir_all(rt, path.as_str()))?;
    Ok(())
}

// Removes the files of objects in a packed folder.
fn remove_files<R: Files + AllocGlobal>(rt: &R, alloc: Global, folder: &str) -> io::Result<()> {
    remove_all(rt, alloc, folder, OBJECTS)?;
    remove_all(rt, alloc, folder, SWEPT)?;
    sync_folder(rt, folder)
}

// The names are synced first: a layout that is there only until the power fails is not in use.
fn clear_in<R: Files + AllocGlobal>(rt: &R, alloc: Global, folder: &str) -> io::Result<()> {
    if !is_in(rt, alloc, folder, REPACK)? {
        return Ok(());
    }
    sync_folder(rt, folder)?;
    if let Some(Layout::Packed) = layout_in(rt, alloc, folder)? {
        remove_files(rt, alloc, folder)?;
    }
    remove_all(rt, alloc, folder, REPACK)
}

// What is not in use may be somebody's own, if no repack left it.
fn begin_in<R: Files + AllocGlobal>(rt: &R, alloc: Global, folder: &str) -> io::Result<String> {
    clear_in(rt, alloc, folder)?;
    if let Some(Layout::Packed) = layout_in(rt, alloc, folder)? {
        if is_in(rt, alloc, folder, OBJECTS)? || is_in(rt, alloc, folder, SWEPT)? {
            return Err(io::Error::from(ErrorKind::AlreadyExists));
        }
    }
    inside(alloc, folder, REPACK)
}

// Moves a folder within a host's folder, and syncs the names.
fn move_in(rt: &impl Files, alloc: Global, folder: &str, from: &str, to: &str) -> io::Result<()> {
    let from = inside(alloc, folder, from)?;
    let to = inside(alloc, folder, to)?;
    let made = inside(alloc, folder, REPACK)?;
    fs::rename(rt, from.as_str(), to.as_str())?;
    sync_folder(rt, made.as_str())?;
    sync_folder(rt, folder)
}

// Until the segments are moved away, they count, and not the files beside them.
fn settle_in(rt: &impl Files, alloc: Global, folder: &str, layout: Layout) -> io::Result<()> {
    match layout {
        Layout::Packed => move_in(rt, alloc, folder, "repack/segments", SEGMENTS),
        Layout::Loose => {
            move_in(rt, alloc, folder, "repack/objects", OBJECTS)?;
            move_in(rt, alloc, folder, SEGMENTS, "repack/segments")
        }
    }
}

/// Removes what a repack left in a host's folder: what was being made, and after it got its place, what it replaced. Call it
/// only while the folder is locked.
pub fn clear_repack<R: Files + AllocGlobal>(
    rt: &R,
    alloc: Global,
    folder: &str,
) -> Result<(), FileFault> {
    told(clear_in(rt, alloc, folder))
}

/// The path at which the other layout of a host's folder is made. What an earlier repack left is removed. If a packed folder
/// has files of objects beside its segments, that is a fault.
pub fn begin_repack<R: Files + AllocGlobal>(
    rt: &R,
    alloc: Global,
    folder: &str,
) -> Result<String, FileFault> {
    told(begin_in(rt, alloc, folder))
}

/// Gives a host's folder this layout, which was made and synced there. One rename does it: at each moment the folder has one
/// layout, whole. After an `Err` it has the old one or the new one.
pub fn settle_repack(
    rt: &impl Files,
    alloc: Global,
    folder: &str,
    layout: Layout,
) -> Result<(), FileFault> {
    told(settle_in(rt, alloc, folder, layout))
}
