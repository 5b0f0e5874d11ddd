ghost use Rattle.std.specs.Prelude.{◌≡◌, ◌≤◌, ◌<◌, IfOk, IfSome, false, is_some};
ghost use Rattle.std.specs.FinMap.{contains_key, remove};
ghost use Rattle.fork_request.specs.declared.tenant_limit.TheConstants.{MAX_LIMIT};
ghost use Rattle.state_text.specs.Kept.{states_of};
ghost use Rattle.state_text.specs.Text.{IsStateText2, state_text};
ghost use Rattle.state_text.specs.declared.version.Version.TheVariants.{Two};
ghost use Rattle.fork_host.specs.Shown.{world_of};
ghost use Rattle.fork_state.specs.Changed.{with_limit as limited};

use crate::changing::{has, with_limit, without};
use fork_host::{Host, NoMemory};
use fork_request::{MAX_LIMIT, TenantName};
use loose_store::LooseFiles;
use state_text::States;
use std::alloc::Global;

/// The states of a host, to be written as a text of version 2. They do not contain open uploads.
pub fn save<S: LooseFiles>(alloc: Global, host: &Host<S>) -> Result<States, NoMemory>
    ensures { IfOk result (λ states. IsStateText2 (states_of (world_of host.now)) (state_text Two states)) }
{
    let states = host.states(alloc)?;
    // Called for its clause: the states are valid.
    let _tenants = states.as_slice();
    Ok(states)
}

/// Like `save`, but with this limit for this tenant. Returns `None` if the tenant does not exist, or if the
/// limit is above `MAX_LIMIT`.
pub fn save_limited<S: LooseFiles>(
    alloc: Global,
    host: &Host<S>,
    tenant: &TenantName,
    limit: u64,
) -> Result<Option<States>, NoMemory>
    ensures text { IfOk result (λ found. IfSome found (λ states. IsStateText2 (states_of (limited (world_of host.now) tenant.now limit)) (state_text Two states))) }
    ensures there { limit ≤ MAX_LIMIT → IfOk result (λ found. is_some found ≡ contains_key (world_of host.now) tenant.now) }
    ensures above { MAX_LIMIT < limit → IfOk result (λ found. is_some found ≡ false) }
{
    if limit > MAX_LIMIT {
        return Ok(None);
    }
    let states = host.states(alloc)?;
    if !has(&states, tenant) {
        return Ok(None);
    }
    let Ok(changed) = with_limit(alloc, states, tenant, limit) else {
        return Err(NoMemory);
    };
    // Called for its clause: the states are valid.
    let _tenants = changed.as_slice();
    Ok(Some(changed))
}

/// Like `save`, but without this tenant: its repositories, what it sees and its offers are left out. Offers
/// that others made to it stay. Returns `None` if the tenant does not exist.
pub fn save_without<S: LooseFiles>(
    alloc: Global,
    host: &Host<S>,
    tenant: &TenantName,
) -> Result<Option<States>, NoMemory>
    ensures text { IfOk result (λ found. IfSome found (λ states. IsStateText2 (states_of (remove (world_of host.now) tenant.now)) (state_text Two states))) }
    ensures there { IfOk result (λ found. is_some found ≡ contains_key (world_of host.now) tenant.now) }
{
    let states = host.states(alloc)?;
    if !has(&states, tenant) {
        return Ok(None);
    }
    let Ok(changed) = without(alloc, states, tenant) else {
        return Err(NoMemory);
    };
    // Called for its clause: the states are valid.
    let _tenants = changed.as_slice();
    Ok(Some(changed))
}
