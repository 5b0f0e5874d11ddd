ghost use Rattle.std.specs.Prelude.{◌≡◌, IfErr, IfOk, is_some, true};
ghost use Rattle.fork_program.specs.Running.{IsHostOf, IsUnhosted};

use crate::fault::Fault;
use crate::first_tenants::add_tenants;
use crate::objects::{Guards, Objects};
use crate::restored::Restored;
use crate::restoring::kept_host;
use devices::Real;
use fork_command::Hosting;
use fork_host::Host;
use git_name::Hashing;
use loose_store::Memory;
use std::alloc::Global;
use std::fs::{File, Files};
use std::random::RandomSource;

/// A new host in memory that has the given tenants.
pub(crate) fn host_in_memory<H: RandomSource>(
    rt: &H,
    alloc: Global,
    hosting: Hosting<'_>,
) -> Result<Host<Memory>, Fault>
    ensures ok { IfOk result (IsHostOf hosting.entry) }
    ensures err { IfErr result (IsUnhosted hosting.entry) }
{
    let Ok(hashing) = Hashing::drawn(rt) else {
        return Err(Fault::Memory);
    };
    let Ok(mut host) = Host::new(alloc, Memory::with_hashing(alloc, hashing)) else {
        return Err(Fault::Memory);
    };
    match add_tenants(&mut host, alloc, hosting.tenants) {
        Ok(()) => Ok(host),
        Err(fault) => Err(fault),
    }
}

/// The host that a folder keeps, with the given tenants added, the state that it was restored of, and the
/// folder's guards.
pub(crate) fn host_in_folder<'a, H: Files<File = File> + AllocGlobal + RandomSource>(
    rt: &'a H,
    alloc: Global,
    dir: &str,
    hosting: Hosting<'_>,
) -> Result<(Restored<Objects<'a, H>, Real<&'a H>>, Guards), Fault>
    requires { is_some hosting.dir ≡ true }
    ensures ok { IfOk result (λ found. IsHostOf hosting.entry found.0) }
    ensures err { IfErr result (IsUnhosted hosting.entry) }
{
    let (restored, guards) = kept_host(rt, alloc, dir, hosting.packed)?;
    match restored.with_tenants(alloc, hosting.tenants) {
        Ok(restored) => Ok((restored, guards)),
        Err(fault) => Err(fault),
    }
}
