// Rebuilds a tenant's state with another limit.
ghost use Rattle.std.specs.Prelude.{◌≡◌, ◌≢◌, ◌<◌, ◌≤◌, ◌∷◌, ◌++◌, [], IfOk, OnOk, length, map};
ghost use Rattle.fork_request.specs.declared.tenant_limit.TheConstants.{MAX_LIMIT};
ghost use Rattle.fork_model.specs.declared.limits.TheConstants.{MAX_OFFERS, MAX_REPOSITORIES};
ghost use Rattle.state_text.specs.Adding.{AreBefore, with_offer, with_repository, with_seen};
ghost use Rattle.state_text.specs.Offer.{words_of_offer};
ghost use Rattle.state_text.specs.States.{IsTenantState};
ghost use Rattle.fork_host.specs.Keeping.{with_names, with_offers, with_repositories};
ghost use Rattle.fork_state.specs.Changed.{limited as limited_state};

use crate::changing::is_of;
use fork_request::{RepositoryName, TenantName};
use git_name::Name;
use git_reftx::Repository;
use state_text::{AddError, Offer, OfferError, TenantState};
use std::alloc::{AllocError, Global};

// Appends a repository.
fn keep_repository(
    tenant: &mut TenantState,
    name: RepositoryName,
    repository: Repository,
) -> Result<(), AllocError>
    requires before { AreBefore (map (λ repository. repository.0) tenant.old.repositories) name }
    requires room { length tenant.old.repositories < MAX_REPOSITORIES }
    ensures { OnOk result (tenant.new ≡ with_repository tenant.old name repository) }
{
    match tenant.add_repository(name, repository) {
        Ok(()) => Ok(()),
        Err(AddError::Memory) => Err(AllocError),
        Err(_) => unreachable!(),
    }
}

// Appends repositories.
fn keep_repositories(
    tenant: &mut TenantState,
    repositories: Vec<(RepositoryName, Repository)>,
) -> Result<(), AllocError>
    requires { IsTenantState (with_repositories tenant.old repositories.items) }
    ensures { OnOk result (tenant.new ≡ with_repositories tenant.old repositories.items) }
{
    for (name, repository) in repositories {
        keep_repository(tenant, name, repository)?;
    }
    Ok(())
}

// Appends the name of an object.
fn keep_name(tenant: &mut TenantState, name: Name) -> Result<(), AllocError>
    requires { AreBefore tenant.old.seen name }
    ensures { OnOk result (tenant.new ≡ with_seen tenant.old name) }
{
    match tenant.add_seen(name) {
        Ok(()) => Ok(()),
        Err(AddError::Memory) => Err(AllocError),
        Err(_) => unreachable!(),
    }
}

// Appends the names of objects.
fn keep_names(tenant: &mut TenantState, names: Vec<Name>) -> Result<(), AllocError>
    requires { IsTenantState (with_names tenant.old names.items) }
    ensures { OnOk result (tenant.new ≡ with_names tenant.old names.items) }
{
    for name in names {
        keep_name(tenant, name)?;
    }
    Ok(())
}

// Appends an offer.
fn keep_offer(tenant: &mut TenantState, offer: Offer) -> Result<(), AllocError>
    requires other { offer.receiver ≢ tenant.old.name }
    requires before { AreBefore (map words_of_offer tenant.old.offers) (words_of_offer offer) }
    requires room { length tenant.old.offers < MAX_OFFERS }
    ensures { OnOk result (tenant.new ≡ with_offer tenant.old offer) }
{
    match tenant.add_offer(offer) {
        Ok(()) => Ok(()),
        Err(OfferError::Memory) => Err(AllocError),
        Err(_) => unreachable!(),
    }
}

// Appends offers.
fn keep_offers(tenant: &mut TenantState, offers: Vec<Offer>) -> Result<(), AllocError>
    requires { IsTenantState (with_offers tenant.old offers.items) }
    ensures { OnOk result (tenant.new ≡ with_offers tenant.old offers.items) }
{
    for offer in offers {
        keep_offer(tenant, offer)?;
    }
    Ok(())
}

// The tenant's state with this limit.
fn relimited(alloc: Global, tenant: TenantState, limit: u64) -> Result<TenantState, AllocError>
    requires { limit ≤ MAX_LIMIT }
    ensures { IfOk result (λ changed. changed ≡ record tenant { limit = limit }) }
{
    // Called for its clause: the state is valid.
    let _name = tenant.name();
    let (name, _, repositories, seen, offers) = tenant.into_parts();
    let Some(mut changed) = TenantState::new(alloc, name, limit) else {
        unreachable!();
    };
    keep_repositories(&mut changed, repositories)?;
    keep_names(&mut changed, seen)?;
    keep_offers(&mut changed, offers)?;
    Ok(changed)
}

// The tenant's state, with `limit` if the tenant is called `name`.
pub(crate) fn limited(
    alloc: Global,
    tenant: TenantState,
    name: &TenantName,
    limit: u64,
) -> Result<TenantState, AllocError>
    requires { limit ≤ MAX_LIMIT }
    ensures { IfOk result (λ changed. changed ≡ limited_state name.now limit tenant) }
{
    if !is_of(name, &tenant) {
        return Ok(tenant);
    }
    relimited(alloc, tenant, limit)
}
