ghost use Rattle.std.specs.Prelude.{◌≡◌, IfErr};
ghost use Rattle.fork_program.specs.Keeping.{IsUnkept};

use crate::fault::Fault;
use crate::telling::of_state;
use devices::Real;
use host_folder::{Reserve, RoomyDevice, of_device};
use std::alloc::Global;
use std::fs::{File, Files};

/// The device of a host's state: the files in its folder, which this process has locked.
pub(crate) fn state_device<'a, H: Files<File = File>>(
    rt: &'a H,
    alloc: Global,
    dir: &str,
) -> Result<Real<&'a H>, Fault>
    ensures { IfErr result IsUnkept }
{
    match of_device(Real::beside(rt, alloc, dir)) {
        Ok(device) => Ok(device),
        Err(fault) => Err(of_state(fault)),
    }
}

/// A device of the same folder for a journal, or for a log of uploads, which may take the room of a reserve.
pub(crate) fn journal_device<'a, H: Files<File = File>>(
    rt: &'a H,
    alloc: Global,
    dir: &str,
    reserve: &Reserve,
) -> Result<RoomyDevice<Real<&'a H>>, Fault>
    ensures { IfErr result (λ fault. fault ≡ Fault.NotSaved) }
{
    let Ok(device) = state_device(rt, alloc, dir) else {
        return Err(Fault::NotSaved);
    };
    match reserve.share() {
        Ok(reserve) => Ok(RoomyDevice { device, reserve }),
        Err(_) => Err(Fault::NotSaved),
    }
}
