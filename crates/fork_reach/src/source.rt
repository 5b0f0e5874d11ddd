ghost use Rattle.std.specs.Prelude.{◌≡◌, [], ℕ, List, IsTrue, IfOk, IfSome, None, Some, is_some, true};
ghost use Rattle.std.specs.FinMap as map;
ghost use Rattle.std.specs.HashSet.{contains};
ghost use Rattle.std.specs.List.{Contains};
ghost use Rattle.git_name.specs.Object.{object_name};
ghost use Rattle.git_name.specs.Same.{same_name};
ghost use Rattle.git_name.specs.Count.{fault_in};
ghost use Rattle.fork_reach.specs.Bases.{is_best_of};
ghost use Rattle.fork_reach.specs.Faults.{IsAsked};
ghost use Rattle.fork_reach.specs.History.{note_at};
ghost use Rattle.fork_reach.specs.Reach.{is_between, linked_names, parent_names};
ghost use Rattle.fork_reach.specs.Source.{SourceState, kind_in};

use git_name::{Hashing, Kind, Name, Sealed};
use indexmap::IndexSet;
use std::alloc::{AllocError, Global};
use thiserror::Error;

/// Why an object was not read.
#[derive(Clone, Copy, Debug, PartialEq, Eq, Error)]
pub enum SourceFault {
    #[error("the store failed")]
    Store,
    #[error("the stored object is lost or damaged")]
    Damaged,
    #[error("no memory")]
    Memory,
}

/// A source of objects, which finds them by their names as a finite map does.
pub trait Source {
    /// What no call changes, over any store.
    ghost Base: { Type 0 };

    /// What no call changes, over an honest store.
    ghost Rest: { Type 0 };

    /// What the source shows. Over a store that does not return what was written to it, the names, kinds and lengths
    /// of the objects stay the same, and no bytes are returned under a false name.
    ghost state: { Self → SourceState Base Rest };

    /// The hashing of names in a walk.
    fn hashing(&self) -> Hashing;

    /// The kind of the object of this name. Does not read its bytes.
    fn kind_of(&self, name: Name) -> Option<Kind>
        ensures { result ≡ kind_in (state self.now).objects name };

    /// Borrows the kind and the bytes of the object of this name, or returns `None` if it has to be read.
    fn lend(&self, name: Name) -> Option<(Kind, &[u8])>
        ensures found { IfSome result (λ lent. IsTrue (state self.now).honest × (map.get (state self.now).objects name ≡ Some (record { kind = lent.0; bytes = lent.1.now }))) }
        ensures named { IfSome result (λ lent. object_name (record { kind = lent.0; bytes = lent.1.now }) ≡ name) }
    {
        let _name = name;
        None
    }

    /// Reads the object of this name.
    fn read(&mut self, alloc: Global, name: Name) -> Result<Option<Sealed>, SourceFault>
        ensures found { IsTrue (state self.old).honest → IfOk result (λ found. found ≡ map.get (state self.old).objects name) }
        ensures there { IfOk result (λ found. is_some found ≡ map.contains_key (state self.old).objects name) }
        ensures named { IfOk result (λ found. IfSome found (λ object. object_name object ≡ name)) }
        ensures asked { IsAsked (state self.old) (state self.new) (fault_in result) };

    /// The names of the objects that are reachable from `wanted` but not from `excluded`, or `None` if the source
    /// does not know all links on the way. Reads nothing.
    fn known_between(
        &self,
        alloc: Global,
        wanted: &[Name],
        excluded: &[Name],
    ) -> Result<Option<IndexSet<Name, Hashing>>, AllocError>
        ensures found { IsTrue (state self.now).honest → IfOk result (λ known. IfSome known (λ found. (name : List ℕ) → contains same_name found name ≡ is_between (linked_names (state self.now).objects) (state self.now).objects wanted.now excluded.now name)) }
        // Over any store.
        ensures there { IfOk result (λ known. IfSome known (λ found. (name : List ℕ) → contains same_name found name ≡ true → map.contains_key (state self.now).objects name ≡ true)) }
        ensures rooted { excluded.now ≡ [] → IfOk result (λ known. IfSome known (λ found. (name : List ℕ) → Contains wanted.now name → map.contains_key (state self.now).objects name ≡ true → contains same_name found name ≡ true)) }
    {
        let _alloc = alloc;
        let _wanted = wanted;
        let _excluded = excluded;
        Ok(None)
    }

    /// The names of the objects that are reachable from `wanted`, but not from `excluded`, along the parents of
    /// commits. Returns `None` if the source does not know all links on the way. Reads nothing.
    fn known_history(
        &mut self,
        alloc: Global,
        wanted: &[Name],
        excluded: &[Name],
    ) -> Result<Option<IndexSet<Name, Hashing>>, AllocError>
        ensures found { IsTrue (state self.old).honest → IfOk result (λ known. IfSome known (λ found. (name : List ℕ) → contains same_name found name ≡ is_between (parent_names (state self.old).objects) (state self.old).objects wanted.now excluded.now name)) }
        // Over any store.
        ensures there { IfOk result (λ known. IfSome known (λ found. (name : List ℕ) → contains same_name found name ≡ true → map.contains_key (state self.old).objects name ≡ true)) }
        ensures asked { IsAsked (state self.old) (state self.new) None }
    {
        let _alloc = alloc;
        let _wanted = wanted;
        let _excluded = excluded;
        let nothing = None;
        Ok(nothing)
    }

    /// The names of the best common ancestors of two commits: those that are not a parent of another common ancestor.
    /// Returns `None` if the source does not know the parents of all their ancestors. Reads nothing.
    fn known_bases(
        &mut self,
        alloc: Global,
        a: Name,
        b: Name,
    ) -> Result<Option<IndexSet<Name, Hashing>>, AllocError>
        ensures best { IsTrue (state self.old).honest → IfOk result (λ known. IfSome known (λ best. (name : List ℕ) → contains same_name best name ≡ is_best_of (state self.old).objects a b name)) }
        // Over any store.
        ensures seen { IfOk result (λ known. IfSome known (λ best. (name : List ℕ) → contains same_name best name ≡ true → map.contains_key (state self.old).objects name ≡ true)) }
        ensures asked { IsAsked (state self.old) (state self.new) None }
    {
        let _alloc = alloc;
        let _a = a;
        let _b = b;
        let unknown = None;
        Ok(unknown)
    }

    /// The committer's seconds since 1970 of the commit of this name, or 0 for any other object. Returns `None` if
    /// the source does not know them. Reads nothing.
    fn known_seconds(&self, name: Name) -> Option<u64>
        ensures told { IsTrue (state self.now).honest → IfSome result (λ seconds. seconds ≡ (note_at (state self.now).objects name).seconds) }
        // Over any store.
        ensures there { IfSome result (λ seconds. map.contains_key (state self.now).objects name ≡ true) }
    {
        let _name = name;
        None
    }

    /// Learns the links of the object of this name, if its bytes can be borrowed. Reads nothing.
    fn learn_links(&mut self, alloc: Global, name: Name)
        ensures asked { IsAsked (state self.old) (state self.new) None }
    {
        let _alloc = alloc;
        let _name = name;
    }

    /// Keeps the sets of all objects reachable from these names, if it knows the links, so that they need not be
    /// walked again. Reads nothing.
    fn keep_reached(&mut self, alloc: Global, names: &[Name])
        ensures asked { IsAsked (state self.old) (state self.new) None }
    {
        let _alloc = alloc;
        let _names = names;
    }
}
