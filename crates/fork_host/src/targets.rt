// The targets of references, and whether they are seen.
ghost use Rattle.std.specs.Prelude.{◌≡◌, ◌++◌, OnOk, map as mapped};
ghost use Rattle.std.specs.List.{find, flat_map};
ghost use Rattle.std.specs.Option.{option_map};
ghost use Rattle.std.specs.FinMap as map;
ghost use Rattle.fork_host.specs.Restored.{is_bad_target, references_in, repositories_in, target_of};

use fork_request::RepositoryName;
use git_name::{Kind, Name};
use git_reftx::{Known, Refs, Repository};
use state_text::{Offer, TenantState};
use std::alloc::AllocError;

// Adds the names at which these references point.
pub(crate) fn add_targets(names: &mut Vec<Name>, references: &Refs) -> Result<(), AllocError>
    ensures { OnOk result (names.new.items ≡ names.old.items ++ map.values references.now) }
{
    for (_, target) in references.iter() {
        names.push(*target)?;
    }
    Ok(())
}

// The target of the first reference of a tenant's repositories, and then of its offers, that points at
// no known object, or that is a branch and points at no commit.
pub(crate) fn first_bad_target<K: Known>(known: &K, state: &TenantState) -> Option<Name>
    ensures { result ≡ option_map target_of (find (is_bad_target (K.kinds known.now)) (flat_map references_in (repositories_in state.now))) }
{
    let bad = bad_in_repositories(known, state.repositories());
    if bad.is_some() {
        return bad;
    }
    bad_in_offers(known, state.offers())
}

// As `first_bad_target`, for repositories.
fn bad_in_repositories<K: Known>(
    known: &K,
    repositories: &[(RepositoryName, Repository)],
) -> Option<Name>
    ensures { result ≡ option_map target_of (find (is_bad_target (K.kinds known.now)) (flat_map references_in (mapped (λ row. row.1) repositories.now))) }
{
    for (_, repository) in repositories {
        let bad = bad_target_in(known, repository.references());
        if bad.is_some() {
            return bad;
        }
    }
    None
}

// As `first_bad_target`, for offers.
fn bad_in_offers<K: Known>(known: &K, offers: &[Offer]) -> Option<Name>
    ensures { result ≡ option_map target_of (find (is_bad_target (K.kinds known.now)) (flat_map references_in (mapped (λ offer. offer.repository) offers.now))) }
{
    for offer in offers {
        let bad = bad_target_in(known, offer.repository().references());
        if bad.is_some() {
            return bad;
        }
    }
    None
}

// As `first_bad_target`, for one repository.
fn bad_target_in<K: Known>(known: &K, references: &Refs) -> Option<Name>
    ensures { result ≡ option_map target_of (find (is_bad_target (K.kinds known.now)) (map.entries references.now)) }
{
    for (reference, target) in references.iter() {
        if is_bad_target(known, reference, *target) {
            return Some(*target);
        }
    }
    None
}

// Whether one reference points at no known object, or is a branch and points at no commit.
fn is_bad_target<K: Known>(known: &K, reference: &[u8], target: Name) -> bool
    ensures { result ≡ is_bad_target (K.kinds known.now) (reference.now, target) }
{
    let Some(kind) = known.kind_of(target) else {
        return true;
    };
    reference.starts_with(b"refs/heads/") && kind != Kind::Commit
}
