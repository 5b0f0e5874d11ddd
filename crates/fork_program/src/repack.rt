ghost use Rattle.std.specs.Prelude.{IfErr};
ghost use Rattle.fork_program.specs.Keeping.{IsUnkept, IsUnopened};

use crate::fault::Fault;
use crate::objects::{Objects, open_objects};
use crate::restoring::{has_state, restored_host};
use crate::state_device::state_device;
use crate::telling::of_store;
use devices::Real;
use either::{Left, Right};
use folder_store::Folder;
use loose_store::FileFault;
use packed_store::{Layout, Segments, begin_repack, clear_repack, copy_files, settle_repack};
use std::alloc::Global;
use std::fs::{File, Files};
use std::random::RandomSource;

// Turns what a store reports into a fault of the program.
fn told(answer: Result<(), FileFault>) -> Result<(), Fault>
    ensures { IfErr result IsUnkept }
{
    match answer {
        Ok(()) => Ok(()),
        Err(fault) => Err(of_store(fault)),
    }
}

// Segments with all files of a folder, made in it.
fn segments_of<'a, H: Files<File = File> + AllocGlobal + RandomSource>(
    rt: &'a H,
    alloc: Global,
    dir: &str,
    files: &mut Folder<Real<&'a H>>,
) -> Result<Segments<Real<&'a H>>, FileFault> {
    let path = begin_repack(rt, alloc, dir)?;
    let mut segments = Segments::open(rt, alloc, path.as_str())?;
    copy_files(files, &mut segments, alloc)?;
    Ok(segments)
}

// Puts the files of all segments into a folder in theirs.
fn put_files<'a, H: Files<File = File> + AllocGlobal + RandomSource>(
    rt: &'a H,
    alloc: Global,
    dir: &str,
    segments: &mut Segments<Real<&'a H>>,
) -> Result<(), FileFault> {
    let path = begin_repack(rt, alloc, dir)?;
    let mut files = Folder::open(rt, alloc, path.as_str())?;
    copy_files(segments, &mut files, alloc)
}

// Makes segments with all files of a folder. A start has to take them, since no single file can be put back there.
fn pack<'a, H: Files<File = File> + AllocGlobal + RandomSource>(
    rt: &'a H,
    alloc: Global,
    dir: &str,
    files: &mut Folder<Real<&'a H>>,
) -> Result<(), Fault>
    ensures { IfErr result IsUnkept }
{
    let segments = match segments_of(rt, alloc, dir, files) {
        Ok(segments) => segments,
        Err(fault) => return Err(of_store(fault)),
    };
    let device = state_device(rt, alloc, dir)?;
    match restored_host(alloc, device, segments) {
        Ok((_restored, _count)) => Ok(()),
        Err(fault) => Err(fault),
    }
}

// Makes a file for each object of a folder's segments.
fn unpack<'a, H: Files<File = File> + AllocGlobal + RandomSource>(
    rt: &'a H,
    alloc: Global,
    dir: &str,
    segments: &mut Segments<Real<&'a H>>,
) -> Result<(), Fault>
    ensures { IfErr result IsUnkept }
{
    told(put_files(rt, alloc, dir, segments))
}

// Makes the layout that is asked for beside the one that the folder has, and returns it, or `None` if the folder has it.
fn made<'a, H: Files<File = File> + AllocGlobal + RandomSource>(
    rt: &'a H,
    alloc: Global,
    dir: &str,
    packed: bool,
    objects: &mut Objects<'a, H>,
) -> Result<Option<Layout>, Fault>
    ensures { IfErr result IsUnkept }
{
    match objects {
        Left(files) if packed => match pack(rt, alloc, dir, files) {
            Ok(()) => Ok(Some(Layout::Packed)),
            Err(fault) => Err(fault),
        },
        Right(segments) if !packed => match unpack(rt, alloc, dir, segments) {
            Ok(()) => Ok(Some(Layout::Loose)),
            Err(fault) => Err(fault),
        },
        _ => Ok(None),
    }
}

// Gives the folder the layout that was made, if one was, and removes what is not in use. If the new names may be lost with the
// power, nothing is removed.
fn settled(
    rt: &(impl Files + AllocGlobal),
    alloc: Global,
    dir: &str,
    layout: Option<Layout>,
) -> Result<(), Fault>
    ensures { IfErr result IsUnkept }
{
    if let Some(layout) = layout {
        match settle_repack(rt, alloc, dir, layout) {
            Ok(()) => {}
            Err(fault) => return Err(of_store(fault)),
        }
    }
    told(clear_repack(rt, alloc, dir))
}

/// Gives a folder the layout that is asked for: segments if `packed`, or else a file for each object. Each object's file has
/// the bytes that it had, and what was swept and not made final is put back. Whenever the process is killed, and after any
/// `Err`, the folder has the one layout or the other, whole. A folder without a state is left as it is, and one that does not
/// exist is not created. A folder is packed only if a start takes it.
pub fn repack<H: Files<File = File> + AllocGlobal + RandomSource>(
    rt: &H,
    alloc: Global,
    dir: &str,
    packed: bool,
) -> Result<(), Fault>
    ensures { IfErr result IsUnopened }
{
    has_state(rt, alloc, dir)?;
    let (mut objects, _guards) = open_objects(rt, alloc, dir, false)?;
    let other = made(rt, alloc, dir, packed, &mut objects);
    // Over NFS, a folder with an open file cannot be removed.
    drop(objects);
    match other {
        Ok(layout) => settled(rt, alloc, dir, layout),
        Err(fault) => {
            // What was made in vain goes.
            let _cleared = clear_repack(rt, alloc, dir);
            Err(fault)
        }
    }
}
