ghost use Rattle.std.specs.Prelude.{IfErr};
ghost use Rattle.fork_program.specs.Keeping.{IsUnkept};

use crate::fault::Fault;
use crate::telling::of_store;
use devices::Real;
use either::{Either, Left, Right};
use folder_store::Folder;
use host_folder::{Gate, Watch, told};
use loose_store::FileFault;
use packed_store::{Layout, Segments, layout_of};
use std::alloc::Global;
use std::fs::{File, Files};
use std::random::RandomSource;

/// The files of a host's objects in its folder: one for each object, or segments with many.
pub(crate) type Objects<'a, H> = Either<Folder<Real<&'a H>>, Segments<Real<&'a H>>>;

/// What guards a host's folder: the gate that its reserve shuts, and the watch on its lock.
#[derive(Drop)]
pub struct Guards {
    pub(crate) gate: Gate,
    pub(crate) watch: Watch,
}

// Opens a file for each object. If another process made the folder a packed one meanwhile, that is a fault.
fn open_loose<'a, H: Files<File = File> + AllocGlobal + RandomSource>(
    rt: &'a H,
    alloc: Global,
    dir: &str,
) -> Result<(Objects<'a, H>, Guards), FileFault> {
    let files = Folder::open(rt, alloc, dir)?;
    if let Some(Layout::Packed) = layout_of(rt, alloc, dir)? {
        return Err(FileFault::Device);
    }
    let gate = files.gate()?;
    let watch = told(Watch::new(rt, alloc, dir))?;
    Ok((Left(files), Guards { gate, watch }))
}

fn open_packed<'a, H: Files<File = File> + AllocGlobal + RandomSource>(
    rt: &'a H,
    alloc: Global,
    dir: &str,
) -> Result<(Objects<'a, H>, Guards), FileFault> {
    let files = Segments::open(rt, alloc, dir)?;
    let gate = files.gate()?;
    let watch = told(Watch::new(rt, alloc, dir))?;
    Ok((Right(files), Guards { gate, watch }))
}

/// Opens the objects in a host's folder, which is watched from then on. The folder is created if it does not
/// exist. It keeps the layout that it has, and gets the one that is asked for if it has none.
pub(crate) fn open_objects<'a, H: Files<File = File> + AllocGlobal + RandomSource>(
    rt: &'a H,
    alloc: Global,
    dir: &str,
    packed: bool,
) -> Result<(Objects<'a, H>, Guards), Fault>
    ensures { IfErr result IsUnkept }
{
    let layout = match layout_of(rt, alloc, dir) {
        Ok(layout) => layout,
        Err(fault) => return Err(of_store(fault)),
    };
    let opened = match layout {
        Some(Layout::Loose) if packed => return Err(Fault::NotPacked),
        Some(Layout::Packed) => open_packed(rt, alloc, dir),
        None if packed => open_packed(rt, alloc, dir),
        _ => open_loose(rt, alloc, dir),
    };
    match opened {
        Ok(opened) => Ok(opened),
        Err(fault) => Err(of_store(fault)),
    }
}
