ghost use Rattle.std.specs.Prelude.{IfErr, IfOk, IsTrue};
ghost use Rattle.devices.specs.Device.{files_of};
ghost use Rattle.fork_program.specs.Keeping.{IsUnkept, IsUnopened};
ghost use Rattle.fork_program.specs.Repeating.{IsStart};
ghost use Rattle.fork_program.specs.Saving.{IsUnfailed};

use crate::fault::Fault;
use crate::objects::{Guards, Objects, open_objects};
use crate::restored::{Restored, replayed, saved_host};
use crate::state_device::state_device;
use crate::telling::of_state;
use devices::{Device, Real};
use fork_host::Host;
use git_name::Name;
use host_folder::{of_device, state_path};
use loose_store::LooseFiles;
use std::alloc::Global;
use std::fs::{File, Files};
use std::random::RandomSource;

/// The host that a folder keeps, over this store of its objects, the state on this device, of which it is restored, and how many
/// requests of the state's journal were repeated. If the folder keeps no host, it is one without tenants.
pub(crate) fn restored_host<S: LooseFiles + Drop, D: Device + Drop>(
    alloc: Global,
    device: D,
    files: S,
) -> Result<(Restored<S, D>, u64), Fault>
    requires unfailed { IsTrue (D.honest device) → IsUnfailed (D.past device) }
    ensures start { IsTrue (D.honest device) → IsTrue (S.honest files) → IfOk result (λ found. IsStart (S.contents files) (files_of (D.past device)) found.0 found.1) }
    ensures err { IfErr result IsUnkept }
{
    let loaded = saved_host(alloc, device, files)?;
    replayed(alloc, loaded)
}

/// The host that a folder keeps, the state that it is restored of, and the folder's guards. If the folder keeps no
/// host, it is one without tenants, whose objects are packed if that is asked for. The folder is created if it does not
/// exist. While the host lives, no other process can open it.
pub(crate) fn kept_host<'a, H: Files<File = File> + AllocGlobal + RandomSource>(
    rt: &'a H,
    alloc: Global,
    dir: &str,
    packed: bool,
) -> Result<(Restored<Objects<'a, H>, Real<&'a H>>, Guards), Fault>
    ensures err { IfErr result IsUnkept }
{
    let (files, guards) = open_objects(rt, alloc, dir, packed)?;
    let device = state_device(rt, alloc, dir)?;
    match restored_host(alloc, device, files) {
        Ok((restored, _)) => Ok((restored, guards)),
        Err(fault) => Err(fault),
    }
}

/// Checks that a folder has a state.
pub(crate) fn has_state<H: Files<File = File> + AllocGlobal>(
    rt: &H,
    alloc: Global,
    dir: &str,
) -> Result<(), Fault>
    ensures { IfErr result IsUnopened }
{
    let device = state_device(rt, alloc, dir)?;
    match of_device(device.len(state_path())) {
        Ok(Some(_len)) => Ok(()),
        Ok(None) => Err(Fault::NoState),
        Err(fault) => Err(of_state(fault)),
    }
}

/// The host that a folder keeps, the name of its state, and how many requests of its journal were repeated. A folder without a
/// state is left as it is, and one that does not exist is not created. While the host lives, no other
/// process can open the folder.
pub(crate) fn standing_host<'a, H: Files<File = File> + AllocGlobal + RandomSource>(
    rt: &'a H,
    alloc: Global,
    dir: &str,
) -> Result<(Host<Objects<'a, H>>, Name, u64), Fault>
    ensures { IfErr result IsUnopened }
{
    has_state(rt, alloc, dir)?;
    let (files, _guards) = open_objects(rt, alloc, dir, false)?;
    let device = state_device(rt, alloc, dir)?;
    match restored_host(alloc, device, files) {
        Ok((restored, count)) => {
            let (host, name) = restored.into_named();
            Ok((host, name, count))
        }
        Err(fault) => Err(fault),
    }
}
