ghost use Rattle.std.specs.Prelude.{◌≡◌, List, ℕ, true, IsTrue, IfOk};
ghost use Rattle.std.specs.FinMap.{contains_key};
ghost use Rattle.std.specs.HashSet.{contains};
ghost use Rattle.git_name.specs.Same.{same_name};
ghost use Rattle.git_name.specs.Count.{fault_in};
ghost use Rattle.fork_reach.specs.Faults.{IsAsked};
ghost use Rattle.fork_query.specs.MergeBase.{ListsSeen, bases_told, is_base, merge_bases};
ghost use Rattle.fork_query.specs.Objects.{name_lines};
ghost use Rattle.fork_query.specs.Told.{Tells, query_fault};

use crate::followed::Followed;
use crate::items::named_item;
use crate::name_lines::write_names;
use crate::query_error::QueryError;
use crate::want::Want;
use fork_reach::{Source, SourceFault, ascending, read_history};
use git_name::{Hashing, Name};
use git_reftx::Repository;
use indexmap::IndexSet;
use std::alloc::Global;

// Reads both histories, and returns the best common ancestors.
fn read_bases<S: Source>(
    alloc: Global,
    source: &mut S,
    a: Name,
    b: Name,
) -> Result<IndexSet<Name, Hashing>, SourceFault>
    ensures best { IsTrue (S.state source.old).honest → IfOk result (λ best. (name : List ℕ) → contains same_name best name ≡ is_base (S.state source.old).objects a b name) }
    // Over any source.
    ensures seen { IfOk result (λ best. (name : List ℕ) → contains same_name best name ≡ true → contains_key (S.state source.old).objects name ≡ true) }
    ensures asked { IsAsked (S.state source.old) (S.state source.new) (fault_in result) }
{
    let none = IndexSet::with_hasher(alloc, source.hashing());
    let history = read_history(alloc, source, &[a, b], &none)?;
    match history.best_common(alloc, a, b) {
        Ok(best) => Ok(best),
        Err(_) => Err(SourceFault::Memory),
    }
}

// The best common ancestors, by the parents that the source knows. If it does not know all of them, both histories
// are read.
fn best<S: Source>(
    alloc: Global,
    source: &mut S,
    a: Name,
    b: Name,
) -> Result<IndexSet<Name, Hashing>, SourceFault>
    ensures best { IsTrue (S.state source.old).honest → IfOk result (λ best. (name : List ℕ) → contains same_name best name ≡ is_base (S.state source.old).objects a b name) }
    // Over any source.
    ensures seen { IfOk result (λ best. (name : List ℕ) → contains same_name best name ≡ true → contains_key (S.state source.old).objects name ≡ true) }
    ensures asked { IsAsked (S.state source.old) (S.state source.new) (fault_in result) }
{
    match source.known_bases(alloc, a, b) {
        Ok(Some(best)) => Ok(best),
        Ok(None) => read_bases(alloc, source, a, b),
        Err(_) => Err(SourceFault::Memory),
    }
}

#[tactic(auto, unfolding(crate::specs::MergeBase::merge_bases))]
// The best common ancestors, one per line.
fn bases<S: Source>(alloc: Global, source: &mut S, a: Name, b: Name) -> Result<Vec<u8>, SourceFault>
    ensures listed { IsTrue (S.state source.old).honest → IfOk result (λ text. text.items ≡ name_lines (merge_bases (S.state source.old).objects a b)) }
    // Over any source.
    ensures seen { IfOk result (λ text. ListsSeen (S.state source.old).objects text.items) }
    ensures asked { IsAsked (S.state source.old) (S.state source.new) (fault_in result) }
{
    let best = best(alloc, source, a, b)?;
    let Ok(listed) = ascending(alloc, &best) else {
        return Err(SourceFault::Memory);
    };
    match write_names(alloc, listed.as_slice()) {
        Ok(text) => Ok(text),
        Err(_) => Err(SourceFault::Memory),
    }
}

#[tactic(auto, unfolding(crate::specs::MergeBase::bases_told))]
/// The best common ancestors of two commits, one per line, in ascending order: those that are not an ancestor of
/// another common ancestor. If the source knows the parents of all ancestors, no commit is read. Otherwise each
/// commit is read once. A leading `^` has no meaning here: it is part of the item.
pub fn merge_base<S: Source>(
    alloc: Global,
    source: &mut S,
    repository: &Repository,
    a: &[u8],
    b: &[u8],
) -> Result<Vec<u8>, QueryError>
    ensures told { IsTrue (S.state source.old).honest → Tells (λ text. text.items) (bases_told (S.state source.old).objects repository.now a.now b.now) result }
    // Over any source.
    ensures seen { IfOk result (λ text. ListsSeen (S.state source.old).objects text.items) }
    ensures asked { IsAsked (S.state source.old) (S.state source.new) (query_fault result) }
{
    let mut followed = Followed::new(alloc);
    let a = named_item(alloc, Want::Commit, source, &mut followed, repository, a)?;
    let b = named_item(alloc, Want::Commit, source, &mut followed, repository, b)?;
    Ok(bases(alloc, source, a, b)?)
}
