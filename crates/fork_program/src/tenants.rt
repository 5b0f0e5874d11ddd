ghost use Rattle.std.specs.Prelude.{◌≡◌, IfErr, IfOk, OnOk, Some};
ghost use Rattle.std.specs.FinMap.{get};
ghost use Rattle.fork_model.specs.View.{View};
ghost use Rattle.fork_reach.specs.Objects.{use_of as size};
ghost use Rattle.fork_host.specs.Shown.{Trusted, world_of};
ghost use Rattle.fork_program.specs.Changing.{IsLimitSet, IsLimitUnset, IsNotAdded, IsNotRemoved, IsTenantAdded, IsTenantRemoved, number_told};
ghost use Rattle.fork_program.specs.Keeping.{IsUnkept};

use crate::fault::Fault;
use crate::first_tenants::add;
use crate::restoring::standing_host;
use crate::saving::{save, save_as};
use fork_command::Grant;
use fork_host::Host;
use fork_request::{HostFault, Reply, Request, TenantName};
use fork_state::{save_limited, save_without};
use git_name::{Name, decimal, split_once};
use loose_store::LooseFiles;
use std::alloc::Global;
use std::fs::{File, Files};
use std::random::RandomSource;

// The number before the first SP.
fn number_before(text: &[u8]) -> Option<u64>
    ensures { result ≡ number_told text.now }
{
    let Some((number, _)) = split_once(text, b' ') else {
        return None;
    };
    decimal(number)
}

// The fault that reports that a host fault answered a request.
fn of_host(fault: HostFault) -> Fault
    ensures { IsUnkept result }
{
    match fault {
        HostFault::Memory => Fault::Memory,
        _ => Fault::Store,
    }
}

// What the objects of an existing tenant use.
fn use_of<S: LooseFiles>(
    host: &mut Host<S>,
    alloc: Global,
    tenant: &TenantName,
) -> Result<u64, Fault>
    ensures told { Trusted host.old → IfOk result (λ used. (view : View) → get (world_of host.old) tenant.now ≡ Some view → used ≡ size view.objects) }
    ensures cause { IfErr result IsUnkept }
{
    // Called for its clause: the world is in order.
    host.invariant();
    match host.answer(alloc, tenant, Request::Quota) {
        Reply::Done(told) => match number_before(told.as_bytes()) {
            Some(used) => Ok(used),
            None => Err(Fault::Store),
        },
        Reply::Unchanged => Err(Fault::Store),
        Reply::Refused(_) => Err(Fault::Store),
        Reply::Failed(fault) => Err(of_host(fault)),
    }
}

// Drops a tenant's open upload, if there is one.
fn drop_upload<S: LooseFiles>(
    host: &mut Host<S>,
    alloc: Global,
    tenant: &TenantName,
) -> Result<(), Fault>
    ensures { IfErr result IsUnkept }
{
    match host.answer(alloc, tenant, Request::PartDrop) {
        Reply::Failed(fault) => Err(of_host(fault)),
        _ => Ok(()),
    }
}

// Adds a tenant to the host, and saves the host.
fn save_added<H: Files<File = File> + AllocGlobal, S: LooseFiles>(
    rt: &H,
    alloc: Global,
    dir: &str,
    standing: Name,
    host: &mut Host<S>,
    grant: Grant,
) -> Result<(), Fault>
    ensures ok { OnOk result (IsTenantAdded grant) }
    ensures err { IfErr result (IsNotAdded grant) }
{
    add(host, alloc, grant)?;
    save(rt, alloc, dir, standing, host)
}

// Saves the host with another limit for a tenant, if the tenant's objects use no more than that.
fn save_with_limit<H: Files<File = File> + AllocGlobal, S: LooseFiles>(
    rt: &H,
    alloc: Global,
    dir: &str,
    standing: Name,
    host: &mut Host<S>,
    grant: Grant,
) -> Result<(), Fault>
    ensures ok { OnOk result (IsLimitSet grant) }
    ensures err { IfErr result (IsLimitUnset grant) }
{
    let Grant { tenant, limit } = grant;
    let states = match save_limited(alloc, host, &tenant, limit) {
        Ok(Some(states)) => states,
        Ok(None) => return Err(Fault::NotThere(tenant)),
        Err(_) => return Err(Fault::Memory),
    };
    let used = use_of(host, alloc, &tenant)?;
    if used > limit {
        return Err(Fault::BelowUse(tenant, used));
    }
    save_as(rt, alloc, dir, standing, host, &states)
}

// Drops a tenant's open upload, and saves the host without the tenant.
fn save_without_tenant<H: Files<File = File> + AllocGlobal, S: LooseFiles>(
    rt: &H,
    alloc: Global,
    dir: &str,
    standing: Name,
    host: &mut Host<S>,
    tenant: TenantName,
) -> Result<(), Fault>
    ensures ok { OnOk result (IsTenantRemoved tenant) }
    ensures err { IfErr result (IsNotRemoved tenant) }
{
    let states = match save_without(alloc, host, &tenant) {
        Ok(Some(states)) => states,
        Ok(None) => return Err(Fault::NotThere(tenant)),
        Err(_) => return Err(Fault::Memory),
    };
    drop_upload(host, alloc, &tenant)?;
    save_as(rt, alloc, dir, standing, host, &states)
}

/// Adds a tenant to the host that a folder keeps, and saves the host with all that its journal has. A folder
/// without a state is left as it is, and one that does not exist is not created. After any other `Err`, and
/// after a kill, the folder keeps what it kept, as it was or as saved here.
pub fn add_tenant<H: Files<File = File> + AllocGlobal + RandomSource>(
    rt: &H,
    alloc: Global,
    dir: &str,
    grant: Grant,
) -> Result<(), Fault>
    ensures ok { OnOk result (IsTenantAdded grant) }
    ensures err { IfErr result (IsNotAdded grant) }
{
    let (mut host, standing, _count) = standing_host(rt, alloc, dir)?;
    let saved = save_added(rt, alloc, dir, standing, &mut host, grant);
    drop(host);
    saved
}

/// Gives another limit, which is not below its use, to a tenant of the host that a folder keeps. An `Err` or
/// a kill leaves the folder as with `add_tenant`.
pub fn set_limit<H: Files<File = File> + AllocGlobal + RandomSource>(
    rt: &H,
    alloc: Global,
    dir: &str,
    grant: Grant,
) -> Result<(), Fault>
    ensures ok { OnOk result (IsLimitSet grant) }
    ensures err { IfErr result (IsLimitUnset grant) }
{
    let (mut host, standing, _count) = standing_host(rt, alloc, dir)?;
    let saved = save_with_limit(rt, alloc, dir, standing, &mut host, grant);
    drop(host);
    saved
}

/// Removes a tenant from the host that a folder keeps, with its repositories, its objects, the offers that
/// it made and its open upload. Offers that others made to it stay. An `Err` or a kill leaves the folder as
/// with `add_tenant`.
pub fn remove_tenant<H: Files<File = File> + AllocGlobal + RandomSource>(
    rt: &H,
    alloc: Global,
    dir: &str,
    tenant: TenantName,
) -> Result<(), Fault>
    ensures ok { OnOk result (IsTenantRemoved tenant) }
    ensures err { IfErr result (IsNotRemoved tenant) }
{
    let (mut host, standing, _count) = standing_host(rt, alloc, dir)?;
    let saved = save_without_tenant(rt, alloc, dir, standing, &mut host, tenant);
    drop(host);
    saved
}
