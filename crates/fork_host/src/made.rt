ghost use Rattle.std.specs.Prelude.{◌≡◌, ◌≤◌, ◌++◌, List, [], codes, map as mapped, OnOk, OnErr, IfOk, None, Some};
ghost use Rattle.std.specs.List.{flat_map};
ghost use Rattle.std.specs.Option.{option_copied};
ghost use Rattle.fork_model.specs.Answer.{offer_row};
ghost use Rattle.std.specs.FinMap as map;
ghost use Rattle.std.specs.List.Sorted.{IsStrictlySortedBy};
ghost use Rattle.std.specs.BTreeMap.{IsUnchanged, Updates};
ghost use Rattle.fork_model.specs.Offer.{Pair, pair_cmp};
ghost use Rattle.fork_model.specs.declared.limits.TheConstants.{MAX_OFFERS};
ghost use Rattle.git_reftx.specs.Repository.{Repository as Shown};
ghost use Rattle.fork_host.specs.Keeping.{with_offers};
ghost use Rattle.fork_host.specs.Made.{IsToAnother, entry_of, offer_told, pair_of, rows_from, targets_kept};

use crate::keeping::keep_offer;
use crate::targets::add_targets;
use fork_request::{RepositoryName, TenantName};
use git_name::Name;
use git_reftx::Repository;
use state_text::{Offer, TenantState};
use std::alloc::{AllocError, Global};
use std::collections::BTreeMap;
use std::marker::Model;

// The offers that a tenant has made: by receiver and name, the repository as it was when it was
// offered.
#[derive(Drop)]
pub(crate) struct Made {
    offers: BTreeMap<(TenantName, RepositoryName), Repository>,
}

impl Model for Made {
    ghost use Rattle.std.specs.FinMap as map;
    ghost use Rattle.fork_host.specs.Made as made;

    ghost Value = { made.Made };

    ghost coded = { made.made_code };

    ghost view = { λ a. map.from_entries a.offers.entries };
}

impl Made {
    // No offers.
    pub(crate) fn new(alloc: Global) -> Made
        ensures { result ≡ map.empty }
    {
        Made {
            offers: BTreeMap::new(alloc),
        }
    }

    // The offers of this list, which are ordered by receiver, then by name.
    pub(crate) fn gather(alloc: Global, list: &[Offer]) -> Result<Made, AllocError>
        requires { IsStrictlySortedBy pair_cmp (mapped pair_of list.now) }
        ensures { IfOk result (λ gathered. map.entries gathered ≡ mapped entry_of list.now) }
    {
        let mut made = Made::new(alloc);
        for offer in list {
            let copy = offer.repository().copy()?;
            made.insert(offer.receiver().copy(), offer.name().copy(), copy)?;
        }
        Ok(made)
    }

    // The number of offers.
    pub(crate) fn len(&self) -> usize
        ensures { result ≡ map.len self.now }
    {
        self.offers.len()
    }

    // The offer to this receiver of the repository of this name.
    pub(crate) fn get(&self, receiver: &TenantName, name: &RepositoryName) -> Option<&Repository>
        ensures { option_copied result ≡ map.get self.now (receiver.now, name.now) }
    {
        self.offers.get(&(receiver.copy(), name.copy()))
    }

    // Whether there is such an offer.
    pub(crate) fn contains(&self, receiver: &TenantName, name: &RepositoryName) -> bool
        ensures { result ≡ map.contains_key self.now (receiver.now, name.now) }
    {
        self.offers.contains_key(&(receiver.copy(), name.copy()))
    }

    // Removes the offer to this receiver of the repository of this name, if it exists. It allocates
    // nothing.
    pub(crate) fn remove(&mut self, receiver: &TenantName, name: &RepositoryName)
        ensures { self.new ≡ map.remove self.old (receiver.now, name.now) }
    {
        take_out(&mut self.offers, receiver, name)
    }

    // Adds a row for each offer: a word, the receiver, the repository.
    pub(crate) fn add_rows(&self, rows: &mut Vec<u8>) -> Result<(), AllocError>
        ensures { OnOk result (rows.new.items ≡ rows.old.items ++ flat_map (offer_row (codes "to ")) (map.keys self.now)) }
    {
        for (pair, _) in self.offers.iter() {
            add_row(rows, b"to ", &pair.0, &pair.1)?;
        }
        Ok(())
    }

    // Adds a row for each offer of this giver to this receiver.
    pub(crate) fn add_rows_to(
        &self,
        giver: &TenantName,
        receiver: &TenantName,
        rows: &mut Vec<u8>,
    ) -> Result<(), AllocError>
        ensures { OnOk result (rows.new.items ≡ rows.old.items ++ rows_from giver.now receiver.now self.now) }
    {
        for (pair, _) in self.offers.iter() {
            if pair.0 == *receiver {
                add_row(rows, b"from ", giver, &pair.1)?;
            }
        }
        Ok(())
    }

    // Puts an offer under a receiver and a name.
    pub(crate) fn insert(
        &mut self,
        receiver: TenantName,
        name: RepositoryName,
        repository: Repository,
    ) -> Result<(), AllocError>
        ensures ok { OnOk result (self.new ≡ map.insert self.old (receiver, name) repository) }
        ensures err { OnErr result (self.new ≡ self.old) }
    {
        put(&mut self.offers, receiver, name, repository)
    }

    // Adds the names of the objects at which references point, in the order of the offers and of their
    // references.
    pub(crate) fn add_targets(&self, names: &mut Vec<Name>) -> Result<(), AllocError>
        ensures { OnOk result (names.new.items ≡ names.old.items ++ targets_kept self.now) }
    {
        for repository in self.offers.values() {
            add_targets(names, repository.references())?;
        }
        Ok(())
    }

    // How many references the offers have, up to 2^64 - 1.
    pub(crate) fn reference_count(&self) -> u64 {
        let mut count: u64 = 0;
        for repository in self.offers.values() {
            count = count.saturating_add(repository.references().len() as u64);
        }
        count
    }

    // Appends a copy of each to the offers of their giver's state.
    pub(crate) fn keep(&self, state: &mut TenantState) -> Result<(), AllocError>
        requires none { state.old.offers ≡ [] }
        requires few { map.len self.now ≤ MAX_OFFERS }
        requires others { (pair : Pair) (repository : Shown) → map.get self.now pair ≡ Some repository → IsToAnother state.old.name pair }
        ensures { OnOk result (state.new ≡ with_offers state.old (mapped offer_told (map.entries self.now))) }
    {
        for (pair, repository) in self.offers.iter() {
            let repository = repository.copy()?;
            keep_offer(state, Offer::new(pair.0.copy(), pair.1.copy(), repository))?;
        }
        Ok(())
    }
}

fn put(
    offers: &mut BTreeMap<(TenantName, RepositoryName), Repository>,
    receiver: TenantName,
    name: RepositoryName,
    repository: Repository,
) -> Result<(), AllocError>
    ensures ok { OnOk result (Updates pair_cmp offers.old offers.new (receiver, name) (Some repository)) }
    ensures err { OnErr result (IsUnchanged offers.old offers.new) }
{
    offers.insert((receiver, name), repository)?;
    Ok(())
}

fn take_out(
    offers: &mut BTreeMap<(TenantName, RepositoryName), Repository>,
    receiver: &TenantName,
    name: &RepositoryName,
)
    ensures { Updates pair_cmp offers.old offers.new (receiver.now, name.now) None }
{
    offers.remove(&(receiver.copy(), name.copy()));
}

// Adds a row: a word, a tenant, a repository.
fn add_row(
    rows: &mut Vec<u8>,
    word: &[u8],
    tenant: &TenantName,
    name: &RepositoryName,
) -> Result<(), AllocError>
    ensures { OnOk result (rows.new.items ≡ rows.old.items ++ offer_row word.now (tenant.now, name.now)) }
{
    rows.extend_from_slice(word)?;
    rows.extend_from_slice(tenant.as_bytes())?;
    rows.extend_from_slice(b" ")?;
    rows.extend_from_slice(name.as_bytes())?;
    rows.extend_from_slice(b"\n")
}
