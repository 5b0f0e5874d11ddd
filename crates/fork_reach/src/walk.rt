ghost use Rattle.std.specs.Prelude.{◌≡◌, true, List, ℕ, IsTrue, IfOk};
ghost use Rattle.std.specs.List.{Contains};
ghost use Rattle.std.specs.HashSet.{contains};
ghost use Rattle.std.specs.FinMap as map;
ghost use Rattle.git_name.specs.Same.{same_name};
ghost use Rattle.git_name.specs.Count.{fault_in};
ghost use Rattle.fork_reach.specs.Along.{names_along};
ghost use Rattle.fork_reach.specs.Faults.{IsAsked};
ghost use Rattle.fork_reach.specs.Hidden.{without};
ghost use Rattle.fork_reach.specs.Reach.{is_reached};

use crate::along::{Along, next_names};
use crate::noting::note_open;
use crate::source::{Source, SourceFault};
use git_name::{Hashing, Name};
use indexmap::IndexSet;
use std::alloc::Global;

// The names that can be reached from the roots without passing through hidden ones. A name is marked as seen when it
// is added to `waiting`, so that each is followed once. A name whose kind has no links is never added. The first link
// of an object is followed next.
pub(crate) fn walk<S: Source>(
    alloc: Global,
    source: &mut S,
    along: Along,
    roots: &[Name],
    hidden: &IndexSet<Name, Hashing>,
) -> Result<IndexSet<Name, Hashing>, SourceFault>
    ensures found { IsTrue (S.state source.old).honest → IfOk result (λ found. (name : List ℕ) → contains same_name found name ≡ is_reached (names_along along (S.state source.old).objects) (without (S.state source.old).objects (contains same_name hidden.now)) roots.now name) }
    ensures there { IfOk result (λ found. (name : List ℕ) → contains same_name found name ≡ true → map.contains_key (without (S.state source.old).objects (contains same_name hidden.now)) name ≡ true) }
    ensures rooted { IfOk result (λ found. (name : List ℕ) → Contains roots.now name → map.contains_key (without (S.state source.old).objects (contains same_name hidden.now)) name ≡ true → contains same_name found name ≡ true) }
    ensures asked { IsAsked (S.state source.old) (S.state source.new) (fault_in result) }
{
    let mut seen = IndexSet::with_hasher(alloc, source.hashing());
    let mut waiting = Vec::new(alloc);
    let Ok(()) = note_open(source, hidden, Some(along), roots, &mut seen, &mut waiting) else {
        return Err(SourceFault::Memory);
    };
    'waiting: while let Some(name) = waiting.pop() {
        let mut names = next_names(alloc, source, along, name)?;
        names.reverse();
        let Ok(()) = note_open(
            source,
            hidden,
            Some(along),
            names.as_slice(),
            &mut seen,
            &mut waiting,
        ) else {
            return Err(SourceFault::Memory);
        };
    }
    Ok(seen)
}
