ghost use Rattle.std.specs.Prelude.{◌≡◌, ◌≢◌, ◌≤◌, ◌<◌, OnOk, OnErr, IfErr, IfSome, IfNone, length, map};
ghost use Rattle.git_reftx.specs.Repository as git;
ghost use Rattle.fork_request.specs.declared.tenant_limit.TheConstants.{MAX_LIMIT};
ghost use Rattle.fork_model.specs.declared.limits.TheConstants.{MAX_REPOSITORIES};
ghost use Rattle.state_text.specs.Adding.{TellsAdd, TellsOffer, fresh, with_offer, with_repository, with_seen};
ghost use Rattle.state_text.specs.Place.{IsLast, with_at};
ghost use Rattle.state_text.specs.States as value;
ghost use Rattle.state_text.specs.States.{IsTenantState, MayBeTold};
ghost use Rattle.state_text.specs.declared.place.Place as place;

use crate::fault::{AddError, OfferError};
use crate::offer::Offer;
use crate::order::{name_follows, offer_follows, repository_follows};
use crate::place::Place;
use crate::sharing::{share_offer, share_repository};
use fork_model::{MAX_OFFERS, MAX_REPOSITORIES};
use fork_request::{MAX_LIMIT, RepositoryName, TenantName};
use git_name::Name;
use git_reftx::Repository;
use std::alloc::{AllocError, Global};
use std::marker::Model;

/// What outlives a host's process for one tenant: its limit in bytes of use, its repositories, the names of the objects
/// that it sees, and the offers that it has made. All names are in bytewise order. Offers are ordered by receiver, then
/// by repository.
#[derive(Drop)]
pub struct TenantState {
    name: TenantName,
    limit: u64,
    repositories: Vec<(RepositoryName, Repository)>,
    seen: Vec<Name>,
    offers: Vec<Offer>,
}

impl Model for TenantState {
    ghost use Rattle.state_text.specs.States as value;

    ghost Value = { value.TenantState };

    ghost coded = { value.state_code };

    ghost view = { λ a. record { name = a.name; limit = a.limit; repositories = a.repositories.items; seen = a.seen.items; offers = a.offers.items } };

    ghost invariant = { λ a. value.IsTenantState (record { name = a.name; limit = a.limit; repositories = a.repositories.items; seen = a.seen.items; offers = a.offers.items }) };
}

impl TenantState {
    /// A tenant that has nothing yet, if a tenant may have this limit.
    pub fn new(alloc: Global, name: TenantName, limit: u64) -> Option<TenantState>
        ensures found { IfSome result (λ tenant. tenant ≡ fresh name limit) }
        ensures none { IfNone result (MAX_LIMIT < limit) }
    {
        let _name = name.as_bytes();
        if limit > MAX_LIMIT {
            return None;
        }
        Some(TenantState {
            name,
            limit,
            repositories: Vec::new(alloc),
            seen: Vec::new(alloc),
            offers: Vec::new(alloc),
        })
    }

    /// The tenant's name.
    pub fn name(&self) -> &TenantName
        ensures name { result.now ≡ self.now.name }
        ensures sound { IsTenantState self.now }
    {
        &self.name
    }

    /// The most bytes of use that the tenant may have.
    pub fn limit(&self) -> u64
        ensures { result ≡ self.now.limit }
    {
        self.limit
    }

    /// The repositories by name.
    pub fn repositories(&self) -> &[(RepositoryName, Repository)]
        ensures { result.now ≡ self.now.repositories }
    {
        self.repositories.as_slice()
    }

    /// The names of the objects that the tenant sees.
    pub fn seen(&self) -> &[Name]
        ensures { result.now ≡ self.now.seen }
    {
        self.seen.as_slice()
    }

    /// The offers by receiver, then by repository.
    pub fn offers(&self) -> &[Offer]
        ensures { result.now ≡ self.now.offers }
    {
        self.offers.as_slice()
    }

    /// The name, the limit, the repositories, the names of the visible objects, and the offers.
    pub fn into_parts(
        self,
    ) -> (
        TenantName,
        u64,
        Vec<(RepositoryName, Repository)>,
        Vec<Name>,
        Vec<Offer>,
    )
        ensures name { result.0 ≡ self.name }
        ensures limit { result.1 ≡ self.limit }
        ensures repositories { result.2.items ≡ self.repositories }
        ensures seen { result.3.items ≡ self.seen }
        ensures offers { result.4.items ≡ self.offers }
    {
        let TenantState {
            name,
            limit,
            repositories,
            seen,
            offers,
        } = self;
        (name, limit, repositories, seen, offers)
    }

    /// Appends a repository. An `Err` leaves the state as it was.
    pub fn add_repository(
        &mut self,
        name: RepositoryName,
        repository: Repository,
    ) -> Result<(), AddError>
        ensures ok { OnOk result (self.new ≡ with_repository self.old name repository) }
        ensures err { OnErr result (self.new ≡ self.old) }
        ensures cause { IfErr result (TellsAdd (MAX_REPOSITORIES ≤ length self.old.repositories) (map (λ repository. repository.0) self.old.repositories) name) }
        ensures sound { OnOk result (IsTenantState self.new) }
    {
        let _name = name.as_bytes();
        tell(&repository);
        if !repository_follows(self.repositories.as_slice(), &name) {
            return Err(AddError::OutOfOrder);
        }
        if self.repositories.len() >= MAX_REPOSITORIES {
            return Err(AddError::TooMany);
        }
        let Ok(()) = self.repositories.push((name, repository)) else {
            return Err(AddError::Memory);
        };
        Ok(())
    }

    /// Appends the name of a visible object. An `Err` leaves the state as it was.
    pub fn add_seen(&mut self, name: Name) -> Result<(), AddError>
        ensures ok { OnOk result (self.new ≡ with_seen self.old name) }
        ensures err { OnErr result (self.new ≡ self.old) }
        ensures cause { IfErr result (TellsAdd ⊥ self.old.seen name) }
        ensures sound { OnOk result (IsTenantState self.new) }
    {
        let _name = name.as_bytes();
        if !name_follows(self.seen.as_slice(), &name) {
            return Err(AddError::OutOfOrder);
        }
        let Ok(()) = self.seen.push(name) else {
            return Err(AddError::Memory);
        };
        Ok(())
    }

    /// Appends an offer. An `Err` leaves the state as it was.
    pub fn add_offer(&mut self, offer: Offer) -> Result<(), OfferError>
        ensures ok { OnOk result (self.new ≡ with_offer self.old offer) }
        ensures err { OnErr result (self.new ≡ self.old) }
        ensures cause { IfErr result (TellsOffer self.old offer) }
        ensures sound { OnOk result (IsTenantState self.new) }
    {
        tell(offer.repository());
        let _name = offer.name();
        if offer.receiver() == &self.name {
            return Err(OfferError::ToGiver);
        }
        if !offer_follows(self.offers.as_slice(), &offer) {
            return Err(OfferError::OutOfOrder);
        }
        if self.offers.len() >= MAX_OFFERS {
            return Err(OfferError::TooMany);
        }
        let Ok(()) = self.offers.push(offer) else {
            return Err(OfferError::Memory);
        };
        Ok(())
    }

    // Keeps in memory only once what the last item has in common with a repository before it.
    pub(crate) fn share_last(&mut self)
        ensures { self.new ≡ self.old }
    {
        share_offer(self.offers.as_mut_slice(), self.repositories.as_slice());
        if self.seen.is_empty() {
            share_repository(self.repositories.as_mut_slice());
        }
    }

    // Takes out the last item: an offer, or a repository with nothing after it.
    pub(crate) fn open(&mut self) -> Option<(Place, Repository)>
        ensures found { IfSome result (λ found. self.old ≡ with_at self.new found.0 found.1) }
        ensures last { IfSome result (λ found. IsLast self.new found.0) }
        ensures none { IfNone result ((tenant : value.TenantState) (place : place.Place) (repository : git.Repository) → IsLast tenant place → self.old ≢ with_at tenant place repository) }
    {
        if let Some(offer) = self.offers.pop() {
            let (receiver, name, repository) = offer.into_parts();
            return Some((Place::Offered(receiver, name), repository));
        }
        if self.seen.len() > 0 {
            return None;
        }
        let Some((name, repository)) = self.repositories.pop() else {
            return None;
        };
        Some((Place::Own(name), repository))
    }

    // Puts back what was taken out last, with more in it.
    pub(crate) fn close(&mut self, place: Place, repository: Repository) -> Result<(), AllocError>
        requires { IsTenantState (with_at self.old place repository) }
        ensures { OnOk result (self.new ≡ with_at self.old place repository) }
    {
        match place {
            Place::Own(name) => {
                self.repositories.push((name, repository))?;
            }
            Place::Offered(receiver, name) => {
                self.offers.push(Offer::new(receiver, name, repository))?;
            }
        }
        Ok(())
    }
}

// What is known of a repository.
fn tell(repository: &Repository)
    ensures { MayBeTold repository.now }
{
    for (_, target) in repository.references().iter() {
        let _target = target.as_bytes();
    }
}
