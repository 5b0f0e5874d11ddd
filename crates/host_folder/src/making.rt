// Creates the folders of a host.
use crate::journal_file::JOURNALS;
use crate::part::told;
use crate::path::inside;
use crate::state_place::STATE;
use devices::{create_folder, create_folders, found, sync_folder};
use loose_store::FileFault;
use std::alloc::Global;
use std::fs::OpenFile;
use std::io::ErrorKind;
use std::path::Path;
use std::rt::Files;
use std::{fs, io};

// Syncs the names in all folders above this one. Skips a folder that it may not open, which this process did not
// create, and one that cannot be synced, such as one of autofs, in which it created nothing.
fn sync_above(rt: &impl Files, folder: &str) -> io::Result<()> {
    for path in Path::new(folder).ancestors().skip(1) {
        let path = if path.as_str().is_empty() {
            Path::new(".")
        } else {
            path
        };
        let Ok(above) = fs::open(rt, path) else {
            continue;
        };
        match above.sync_all() {
            Err(error) if error.kind() != ErrorKind::InvalidInput => return Err(error),
            _ => {}
        }
    }
    Ok(())
}

// Creates a host's folder and its ancestors, unless they exist.
fn root_in(rt: &impl Files, folder: &str) -> io::Result<()> {
    if folder.is_empty() {
        return Err(io::Error::from(ErrorKind::NotFound));
    }
    create_folders(rt, folder)
}

// Syncs the names in a host's folder, and the names of its ancestors. If the folder has a state, it was created and synced
// earlier, so its ancestors are not synced again.
fn sync_in(rt: &impl Files, alloc: Global, folder: &str) -> io::Result<()> {
    sync_folder(rt, folder)?;
    let state = inside(alloc, folder, STATE)?;
    if fs::exists(rt, state.as_str()).unwrap_or(true) {
        return Ok(());
    }
    sync_above(rt, folder)
}

// Creates a host's folder, its ancestors, and in it the folder of journals and these, unless they exist, and syncs their names.
fn create_in(rt: &impl Files, alloc: Global, folder: &str, called: &[&str]) -> io::Result<()> {
    root_in(rt, folder)?;
    let journals = inside(alloc, folder, JOURNALS)?;
    create_folder(rt, journals.as_str())?;
    for called in called {
        let path = inside(alloc, folder, called)?;
        create_folder(rt, path.as_str())?;
    }
    sync_in(rt, alloc, folder)
}

/// Creates a host's folder at this path and its ancestors, unless they exist. Its lock lies in it, so this comes before the
/// lock.
pub fn create_root(rt: &impl Files, path: &str) -> Result<(), FileFault> {
    told(root_in(rt, path))
}

/// Creates a host's folder at this path, its ancestors, and in it the folder of journals and those called so, unless they
/// exist, and syncs their names.
pub fn create_folder_with(
    rt: &impl Files,
    alloc: Global,
    path: &str,
    called: &[&str],
) -> Result<(), FileFault> {
    told(create_in(rt, alloc, path, called))
}
