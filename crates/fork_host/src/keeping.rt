// Appends to a state that outlives the host's process. What is appended is in order and within the limits, so only lack
// of memory can make it fail.
ghost use Rattle.std.specs.Prelude.{◌≡◌, ◌≢◌, ◌<◌, ◌++◌, ◌∷◌, [], OnOk, length, map};
ghost use Rattle.fork_model.specs.declared.limits.TheConstants.{MAX_OFFERS, MAX_REPOSITORIES, MAX_TENANTS};
ghost use Rattle.state_text.specs.Adding.{AreBefore, with_offer, with_repository, with_seen};
ghost use Rattle.state_text.specs.Offer.{words_of_offer};
ghost use Rattle.state_text.specs.States.{Ascend};
ghost use Rattle.fork_host.specs.Keeping.{with_names};

use fork_request::RepositoryName;
use git_name::Name;
use git_reftx::Repository;
use state_text::{AddError, Offer, OfferError, States, TenantState};
use std::alloc::AllocError;

// Appends a tenant's state.
pub(crate) fn keep_tenant(states: &mut States, tenant: TenantState) -> Result<(), AllocError>
    requires before { AreBefore (map (λ other. other.name) states.old) tenant.name }
    requires room { length states.old < MAX_TENANTS }
    ensures { OnOk result (states.new ≡ states.old ++ tenant ∷ []) }
{
    match states.push(tenant) {
        Ok(()) => Ok(()),
        Err(AddError::Memory) => Err(AllocError),
        Err(_) => unreachable!(),
    }
}

// Appends a repository to those of a tenant.
pub(crate) fn keep_repository(
    tenant: &mut TenantState,
    name: RepositoryName,
    repository: Repository,
) -> Result<(), AllocError>
    requires before { AreBefore (map (λ repository. repository.0) tenant.old.repositories) name }
    requires room { length tenant.old.repositories < MAX_REPOSITORIES }
    ensures { OnOk result (tenant.new ≡ with_repository tenant.old name repository) }
{
    match tenant.add_repository(name, repository) {
        Ok(()) => Ok(()),
        Err(AddError::Memory) => Err(AllocError),
        Err(_) => unreachable!(),
    }
}

// Appends an offer to those of a tenant.
pub(crate) fn keep_offer(tenant: &mut TenantState, offer: Offer) -> Result<(), AllocError>
    requires other { offer.receiver ≢ tenant.old.name }
    requires before { AreBefore (map words_of_offer tenant.old.offers) (words_of_offer offer) }
    requires room { length tenant.old.offers < MAX_OFFERS }
    ensures { OnOk result (tenant.new ≡ with_offer tenant.old offer) }
{
    match tenant.add_offer(offer) {
        Ok(()) => Ok(()),
        Err(OfferError::Memory) => Err(AllocError),
        Err(_) => unreachable!(),
    }
}

// Appends the name of an object to those that a tenant sees.
fn keep_name(tenant: &mut TenantState, name: Name) -> Result<(), AllocError>
    requires { AreBefore tenant.old.seen name }
    ensures { OnOk result (tenant.new ≡ with_seen tenant.old name) }
{
    match tenant.add_seen(name) {
        Ok(()) => Ok(()),
        Err(AddError::Memory) => Err(AllocError),
        Err(_) => unreachable!(),
    }
}

// Appends the names of objects to those that a tenant sees.
pub(crate) fn keep_names(tenant: &mut TenantState, names: Vec<Name>) -> Result<(), AllocError>
    requires { Ascend (tenant.old.seen ++ names.items) }
    ensures { OnOk result (tenant.new ≡ with_names tenant.old names.items) }
{
    for name in names {
        keep_name(tenant, name)?;
    }
    Ok(())
}
