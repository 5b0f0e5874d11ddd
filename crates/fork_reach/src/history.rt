ghost use Rattle.std.specs.Prelude.{◌≡◌, List, ℕ, IfOk, length};
ghost use Rattle.std.specs.HashSet.{contains};
ghost use Rattle.std.specs.List.{zip};
ghost use Rattle.std.specs.List.Sorted.{IsPermutation};
ghost use Rattle.std.specs.FinMap as map;
ghost use Rattle.git_name.specs.Same.{same_name};
ghost use Rattle.fork_reach.specs.History.{notes_under};
ghost use Rattle.fork_reach.specs.NotedBases.{is_best_noted};

use crate::noted::Noted;
use crate::places::Places;
use git_name::{Hashing, Name, Nearby};
use indexmap::IndexSet;
use std::alloc::{AllocError, Global};
use std::marker::Model;

/// Commits in memory, each with its parents and its time. Contracts see a map from names to notes.
#[derive(Drop)]
pub struct History {
    names: IndexSet<Name, Hashing>,
    nearby: Nearby,
    notes: Vec<Noted>,
}

impl Model for History {
    ghost use Rattle.std.specs.Prelude.{◌≡◌, length};
    ghost use Rattle.std.specs.FinMap as finite;
    ghost use Rattle.std.specs.Coded.{coded_list, coded_ℕ};
    ghost use Rattle.fork_reach.specs.contracts.noted.Noted as noted;
    ghost use Rattle.fork_reach.specs.History.{Notes, notes_under};

    ghost Value = { Notes };

    ghost coded = { finite.code (coded_list coded_ℕ) noted.the_row.coded };

    ghost view = { λ a. notes_under a.names.keys a.notes.items };

    ghost invariant = { λ a. length a.notes.items ≡ length a.names.keys };
}

impl History {
    // The history of these names, each with its note at the same place.
    pub(crate) fn of(names: IndexSet<Name, Hashing>, notes: Vec<Noted>) -> History
        requires { length notes.items ≡ length names.keys }
        ensures { result ≡ notes_under names.keys notes.items }
    {
        History {
            names,
            nearby: Nearby::new(),
            notes,
        }
    }

    /// The names of the commits, in no particular order, and for each its note, at the same place.
    pub fn commits(&self) -> (&[Name], &[Noted])
        ensures entries { IsPermutation (map.entries self.now) (zip result.0.now result.1.now) }
        ensures each { length result.1.now ≡ length result.0.now }
    {
        (self.names.as_slice(), self.notes.as_slice())
    }

    /// The names of the best common ancestors of two commits: those that are not a parent of another common ancestor.
    /// Reads no object. Hashes the names that it returns, and each name that is not near the one before.
    pub fn best_common(
        &self,
        alloc: Global,
        a: Name,
        b: Name,
    ) -> Result<IndexSet<Name, Hashing>, AllocError>
        ensures { IfOk result (λ best. (name : List ℕ) → contains same_name best name ≡ is_best_noted self.now a b name) }
    {
        let places = Places {
            names: &self.names,
            nearby: &self.nearby,
            notes: self.notes.as_slice(),
        };
        places.best_common(alloc, a, b)
    }
}
