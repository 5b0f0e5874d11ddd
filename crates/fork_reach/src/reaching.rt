ghost use Rattle.std.specs.Prelude.{◌≡◌, [], false, true, List, ℕ, IsTrue, IfOk, IfSome};
ghost use Rattle.std.specs.List.{Contains};
ghost use Rattle.std.specs.HashSet.{contains};
ghost use Rattle.std.specs.FinMap as map;
ghost use Rattle.git_name.specs.Same.{same_name};
ghost use Rattle.git_name.specs.Count.{fault_in};
ghost use Rattle.fork_reach.specs.Faults.{IsAsked};
ghost use Rattle.fork_reach.specs.Reach.{is_between, is_reached, linked_names, parent_names};

use crate::along::Along;
use crate::source::{Source, SourceFault};
use crate::walk::walk;
use git_name::{Hashing, Name};
use indexmap::IndexSet;
use std::alloc::Global;

// The names reachable from these roots. Without roots, the source is not asked.
fn walk_all<S: Source>(
    alloc: Global,
    source: &mut S,
    roots: &[Name],
) -> Result<IndexSet<Name, Hashing>, SourceFault>
    ensures found { IsTrue (S.state source.old).honest → IfOk result (λ found. (name : List ℕ) → contains same_name found name ≡ is_reached (linked_names (S.state source.old).objects) (S.state source.old).objects roots.now name) }
    ensures none { roots.now ≡ [] → IfOk result (λ found. (name : List ℕ) → contains same_name found name ≡ false) }
    ensures asked { IsAsked (S.state source.old) (S.state source.new) (fault_in result) }
{
    let none = IndexSet::with_hasher(alloc, source.hashing());
    if roots.is_empty() {
        return Ok(none);
    }
    walk(alloc, source, Along::Links, roots, &none)
}

// The names reachable from `wanted` but not from `excluded`, or `None` if the source does not know all links. What is
// reachable from `excluded` is kept for the next time.
fn known_between<S: Source>(
    alloc: Global,
    source: &mut S,
    wanted: &[Name],
    excluded: &[Name],
) -> Result<Option<IndexSet<Name, Hashing>>, SourceFault>
    ensures found { IsTrue (S.state source.old).honest → IfOk result (λ known. IfSome known (λ found. (name : List ℕ) → contains same_name found name ≡ is_between (linked_names (S.state source.old).objects) (S.state source.old).objects wanted.now excluded.now name)) }
    ensures there { IfOk result (λ known. IfSome known (λ found. (name : List ℕ) → contains same_name found name ≡ true → map.contains_key (S.state source.old).objects name ≡ true)) }
    ensures rooted { excluded.now ≡ [] → IfOk result (λ known. IfSome known (λ found. (name : List ℕ) → Contains wanted.now name → map.contains_key (S.state source.old).objects name ≡ true → contains same_name found name ≡ true)) }
    ensures asked { IsAsked (S.state source.old) (S.state source.new) (fault_in result) }
{
    source.keep_reached(alloc, excluded);
    match source.known_between(alloc, wanted, excluded) {
        Ok(known) => Ok(known),
        Err(_) => Err(SourceFault::Memory),
    }
}

// The names reachable from `wanted` but not from `excluded`. The excluded ones are walked first, and the walk from
// the wanted ones stops there.
fn walk_between<S: Source>(
    alloc: Global,
    source: &mut S,
    wanted: &[Name],
    excluded: &[Name],
) -> Result<IndexSet<Name, Hashing>, SourceFault>
    ensures found { IsTrue (S.state source.old).honest → IfOk result (λ found. (name : List ℕ) → contains same_name found name ≡ is_between (linked_names (S.state source.old).objects) (S.state source.old).objects wanted.now excluded.now name) }
    ensures there { IfOk result (λ found. (name : List ℕ) → contains same_name found name ≡ true → map.contains_key (S.state source.old).objects name ≡ true) }
    ensures rooted { excluded.now ≡ [] → IfOk result (λ found. (name : List ℕ) → Contains wanted.now name → map.contains_key (S.state source.old).objects name ≡ true → contains same_name found name ≡ true) }
    ensures asked { IsAsked (S.state source.old) (S.state source.new) (fault_in result) }
{
    let hidden = walk_all(alloc, source, excluded)?;
    walk(alloc, source, Along::Links, wanted, &hidden)
}

/// The names of the source's objects that are reachable from `wanted` but not from `excluded`. Names that the source
/// does not find are ignored. If the source knows all links on the way, nothing is read. Otherwise each tree, commit
/// and tag is borrowed or read once, and a blob never.
pub fn reach_between<S: Source>(
    alloc: Global,
    source: &mut S,
    wanted: &[Name],
    excluded: &[Name],
) -> Result<IndexSet<Name, Hashing>, SourceFault>
    ensures found { IsTrue (S.state source.old).honest → IfOk result (λ found. (name : List ℕ) → contains same_name found name ≡ is_between (linked_names (S.state source.old).objects) (S.state source.old).objects wanted.now excluded.now name) }
    // Over any source.
    ensures there { IfOk result (λ found. (name : List ℕ) → contains same_name found name ≡ true → map.contains_key (S.state source.old).objects name ≡ true) }
    ensures rooted { excluded.now ≡ [] → IfOk result (λ found. (name : List ℕ) → Contains wanted.now name → map.contains_key (S.state source.old).objects name ≡ true → contains same_name found name ≡ true) }
    ensures asked { IsAsked (S.state source.old) (S.state source.new) (fault_in result) }
{
    if let Some(known) = known_between(alloc, source, wanted, excluded)? {
        return Ok(known);
    }
    walk_between(alloc, source, wanted, excluded)
}

/// The names of the source's objects that are reachable from these roots. Roots that the source does not find are
/// ignored. If the source knows all links on the way, nothing is read. Otherwise each tree, commit and tag is
/// borrowed or read once, and a blob never.
pub fn reach<S: Source>(
    alloc: Global,
    source: &mut S,
    roots: &[Name],
) -> Result<IndexSet<Name, Hashing>, SourceFault>
    ensures found { IsTrue (S.state source.old).honest → IfOk result (λ found. (name : List ℕ) → contains same_name found name ≡ is_reached (linked_names (S.state source.old).objects) (S.state source.old).objects roots.now name) }
    // Over any source.
    ensures there { IfOk result (λ found. (name : List ℕ) → contains same_name found name ≡ true → map.contains_key (S.state source.old).objects name ≡ true) }
    ensures rooted { IfOk result (λ found. (name : List ℕ) → Contains roots.now name → map.contains_key (S.state source.old).objects name ≡ true → contains same_name found name ≡ true) }
    ensures asked { IsAsked (S.state source.old) (S.state source.new) (fault_in result) }
{
    reach_between(alloc, source, roots, &[])
}

/// The names of the source's commits that are ancestors of these commits. A commit is its own ancestor. Names that
/// the source does not find are ignored. Each commit is borrowed or read once, and nothing else is.
pub fn ancestors<S: Source>(
    alloc: Global,
    source: &mut S,
    commits: &[Name],
) -> Result<IndexSet<Name, Hashing>, SourceFault>
    ensures found { IsTrue (S.state source.old).honest → IfOk result (λ found. (name : List ℕ) → contains same_name found name ≡ is_reached (parent_names (S.state source.old).objects) (S.state source.old).objects commits.now name) }
    // Over any source.
    ensures there { IfOk result (λ found. (name : List ℕ) → contains same_name found name ≡ true → map.contains_key (S.state source.old).objects name ≡ true) }
    ensures rooted { IfOk result (λ found. (name : List ℕ) → Contains commits.now name → map.contains_key (S.state source.old).objects name ≡ true → contains same_name found name ≡ true) }
    ensures asked { IsAsked (S.state source.old) (S.state source.new) (fault_in result) }
{
    let none = IndexSet::with_hasher(alloc, source.hashing());
    walk(alloc, source, Along::Parents, commits, &none)
}
