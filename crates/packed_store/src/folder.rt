// Segments in the folder of a host.
use crate::layout::{Layout, SEGMENTS, layout_of};
use crate::segments::Segments;
use devices::{Device, Real};
use git_name::Hashing;
use host_folder::{create_folder_with, of_device};
use loose_store::FileFault;
use std::alloc::Global;
use std::fs::File;
use std::random::RandomSource;
use std::rt::Files;

// Locks the folder of a host, and removes the parts that a killed process was writing.
fn locked<R: Files<File = File> + AllocGlobal + Clone + Drop>(
    rt: R,
    alloc: Global,
    path: &str,
) -> Result<Real<R>, FileFault> {
    let mut device = of_device(Real::open(rt, alloc, path))?;
    of_device(device.remove("part"))?;
    of_device(device.remove("journal/part"))?;
    Ok(device)
}

impl<R: Files<File = File> + AllocGlobal + RandomSource + Clone + Drop> Segments<Real<R>> {
    /// Opens the segments in the host's folder at this path, and creates the folder and its parents if they do not exist.
    /// While it is open, another process that opens it gets `Device`. A process that is killed unlocks it. A folder that keeps
    /// a file for each object is `Device` too.
    pub fn open(rt: R, alloc: Global, path: &str) -> Result<Segments<Real<R>>, FileFault> {
        let Ok(hashing) = Hashing::drawn(&rt) else {
            return Err(FileFault::Device);
        };
        create_folder_with(&rt, alloc, path, &[])?;
        let device = locked(rt.clone()?, alloc, path)?;
        if let Some(Layout::Loose) = layout_of(&rt, alloc, path)? {
            return Err(FileFault::Device);
        }
        create_folder_with(&rt, alloc, path, &[SEGMENTS])?;
        Segments::over(device, alloc, hashing)
    }
}
