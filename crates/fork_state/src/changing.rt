ghost use Rattle.std.specs.Prelude.{◌≡◌, ◌<◌, ◌≤◌, ◌∷◌, ◌++◌, [], IfOk, OnOk, length, map};
ghost use Rattle.std.specs.List.{list_any};
ghost use Rattle.std.specs.Ordering.{eq_by_cmp};
ghost use Rattle.git_name.specs.Name.{name_cmp};
ghost use Rattle.fork_request.specs.declared.tenant_limit.TheConstants.{MAX_LIMIT};
ghost use Rattle.fork_model.specs.declared.limits.TheConstants.{MAX_TENANTS};
ghost use Rattle.state_text.specs.Adding.{AreBefore};
ghost use Rattle.fork_state.specs.Changed.{states_limited, states_without};

use crate::limiting::limited;
use fork_request::TenantName;
use state_text::{AddError, States, TenantState};
use std::alloc::{AllocError, Global};

// Whether the state is that of this tenant.
pub(crate) fn is_of(name: &TenantName, tenant: &TenantState) -> bool
    ensures { result ≡ eq_by_cmp name_cmp name.now tenant.now.name }
{
    name.cmp(tenant.name()).is_eq()
}

// Whether one of the states is that of this tenant.
pub(crate) fn has(states: &States, name: &TenantName) -> bool
    ensures { result ≡ list_any (λ tenant. eq_by_cmp name_cmp name.now tenant.name) states.now }
{
    states.as_slice().iter().any(|tenant| is_of(name, tenant))
}

// Appends a tenant's state.
fn keep_tenant(states: &mut States, tenant: TenantState) -> Result<(), AllocError>
    requires before { AreBefore (map (λ other. other.name) states.old) tenant.name }
    requires room { length states.old < MAX_TENANTS }
    ensures { OnOk result (states.new ≡ states.old ++ tenant ∷ []) }
{
    match states.push(tenant) {
        Ok(()) => Ok(()),
        Err(AddError::Memory) => Err(AllocError),
        Err(_) => unreachable!(),
    }
}

// The states, with `limit` for the tenant called `name`.
pub(crate) fn with_limit(
    alloc: Global,
    states: States,
    name: &TenantName,
    limit: u64,
) -> Result<States, AllocError>
    requires { limit ≤ MAX_LIMIT }
    ensures { IfOk result (λ changed. changed ≡ states_limited name.now limit states) }
{
    // Called for its clause: the states are valid.
    let _states = states.as_slice();
    let mut changed = States::new(alloc);
    for tenant in states.into_vec() {
        let tenant = limited(alloc, tenant, name, limit)?;
        keep_tenant(&mut changed, tenant)?;
    }
    Ok(changed)
}

// The states without that of the tenant called `name`.
pub(crate) fn without(
    alloc: Global,
    states: States,
    name: &TenantName,
) -> Result<States, AllocError>
    ensures { IfOk result (λ changed. changed ≡ states_without name.now states) }
{
    // Called for its clause: the states are valid.
    let _states = states.as_slice();
    let mut changed = States::new(alloc);
    for tenant in states.into_vec() {
        if is_of(name, &tenant) {
            continue;
        }
        keep_tenant(&mut changed, tenant)?;
    }
    Ok(changed)
}
