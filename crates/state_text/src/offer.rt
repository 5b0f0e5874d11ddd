ghost use Rattle.std.specs.Prelude.{◌≡◌, ◌↔◌, IsTrue};
ghost use Rattle.std.specs.declared.cmp.Ordering.TheVariants.{Less};
ghost use Rattle.git_name.specs.Name.{name_cmp};
ghost use Rattle.fork_request.specs.Names.{IsRepositoryName, IsTenantName};
ghost use Rattle.state_text.specs.Offer.{words_of_offer};

use fork_request::{RepositoryName, TenantName};
use git_reftx::Repository;
use std::cmp::Ordering;
use std::marker::Model;

/// An offer that a tenant has made: its receiver, the name of the giver's repository, and that repository as it was
/// when the offer was made. The giver is the tenant whose state contains it.
#[derive(Drop)]
pub struct Offer {
    receiver: TenantName,
    name: RepositoryName,
    repository: Repository,
}

impl Model for Offer {
    ghost use Rattle.state_text.specs.Offer as value;

    ghost Value = { value.Offer };

    ghost coded = { value.offer_code };

    ghost view = { λ a. record { receiver = a.receiver; name = a.name; repository = a.repository } };
}

impl Offer {
    /// An offer of this repository, under this name, to this tenant.
    pub fn new(receiver: TenantName, name: RepositoryName, repository: Repository) -> Offer
        ensures { result ≡ record { receiver = receiver; name = name; repository = repository } }
    {
        Offer {
            receiver,
            name,
            repository,
        }
    }

    /// The tenant to which it was made, which need not exist.
    pub fn receiver(&self) -> &TenantName
        ensures receiver { result.now ≡ self.now.receiver }
        ensures named { IsTenantName self.now.receiver }
    {
        let _receiver = self.receiver.as_bytes();
        &self.receiver
    }

    /// The name that the giver's repository had.
    pub fn name(&self) -> &RepositoryName
        ensures name { result.now ≡ self.now.name }
        ensures named { IsRepositoryName self.now.name }
    {
        let _name = self.name.as_bytes();
        &self.name
    }

    /// The repository as it was when the offer was made.
    pub fn repository(&self) -> &Repository
        ensures { result.now ≡ self.now.repository }
    {
        &self.repository
    }

    /// The receiver, the repository's name, and the repository.
    pub fn into_parts(self) -> (TenantName, RepositoryName, Repository)
        ensures receiver { result.0 ≡ self.receiver }
        ensures name { result.1 ≡ self.name }
        ensures repository { result.2 ≡ self.repository }
    {
        (self.receiver, self.name, self.repository)
    }

    // Keeps in memory only once what its repository has in common with another one.
    pub(crate) fn share_with(&mut self, other: &Repository)
        ensures { self.new ≡ self.old }
    {
        let _shared = self.repository.share_with(other);
    }

    // Whether the offer comes before another one of its giver.
    pub(crate) fn is_before(&self, other: &Offer) -> bool
        ensures { IsTrue result ↔ name_cmp (words_of_offer self.now) (words_of_offer other.now) ≡ Less }
    {
        match self.receiver().cmp(other.receiver()) {
            Ordering::Less => true,
            Ordering::Equal => is_less(&self.name, &other.name),
            Ordering::Greater => false,
        }
    }
}

// Whether the name comes before the other one.
fn is_less(name: &RepositoryName, other: &RepositoryName) -> bool
    ensures { IsTrue result ↔ name_cmp name.now other.now ≡ Less }
{
    let Ordering::Less = name.cmp(other) else {
        return false;
    };
    true
}
