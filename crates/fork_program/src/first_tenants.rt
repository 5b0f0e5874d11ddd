ghost use Rattle.std.specs.Prelude.{◌≡◌, IfErr, OnOk, None};
ghost use Rattle.fork_host.specs.Adding.{refusal_to_add};
ghost use Rattle.fork_host.specs.Shown.{Trusted, world_of};
ghost use Rattle.fork_program.specs.Given.{AreGiven, AreUngiven, IsUnadded, with_grant};

use crate::fault::Fault;
use fork_command::Grant;
use fork_host::{AddError, Host};
use fork_request::TenantName;
use loose_store::LooseFiles;
use std::alloc::Global;

/// Adds a tenant.
pub(crate) fn add<S: LooseFiles>(
    host: &mut Host<S>,
    alloc: Global,
    grant: Grant,
) -> Result<(), Fault>
    ensures ok { OnOk result (world_of host.new ≡ with_grant (world_of host.old) grant) }
    ensures free { OnOk result (refusal_to_add (world_of host.old) grant.tenant grant.limit ≡ None) }
    ensures err { IfErr result (IsUnadded (world_of host.old) grant) }
    ensures trusted { Trusted host.old → Trusted host.new }
{
    let Grant { tenant, limit } = grant;
    let Some(name) = TenantName::read(tenant.as_bytes()) else {
        unreachable!();
    };
    match host.add_tenant(alloc, tenant, limit) {
        Ok(()) => Ok(()),
        Err(AddError::There) => Err(Fault::There(name)),
        Err(AddError::TooMany) => Err(Fault::TooManyTenants),
        Err(AddError::Limit) => unreachable!(),
        Err(AddError::Memory) => Err(Fault::Memory),
    }
}

/// Adds the tenants in turn, up to the first that cannot be added.
pub fn add_tenants<S: LooseFiles>(
    host: &mut Host<S>,
    alloc: Global,
    tenants: Vec<Grant>,
) -> Result<(), Fault>
    ensures ok { OnOk result (AreGiven tenants.items host.old host.new) }
    ensures err { IfErr result (AreUngiven (world_of host.old) tenants.items) }
{
    for grant in tenants {
        add(host, alloc, grant)?;
    }
    Ok(())
}
