ghost use Rattle.std.specs.Prelude.{◌≡◌, Bool, List, ℕ};

use git_name::{Hashing, Name, Nearby};
use indexmap::IndexSet;

/// A set of names.
pub trait NameSet {
    /// Whether a name is in the set.
    ghost names: { Self → List ℕ → Bool };

    /// Whether a name is in the set. A name at a place near that of the last one may be found faster.
    fn has(&self, nearby: &Nearby, name: Name) -> bool
        ensures { result ≡ names self.now name };
}

impl NameSet for IndexSet<Name, Hashing> {
    ghost use Rattle.std.specs.HashSet.{contains};
    ghost use Rattle.git_name.specs.Same.{same_name};

    ghost names = { λ set. contains same_name set };

    fn has(&self, nearby: &Nearby, name: Name) -> bool {
        nearby.holds(self, name)
    }
}

impl NameSet for Name {
    ghost use Rattle.git_name.specs.Same.{same_name};

    ghost names = { same_name };

    fn has(&self, _nearby: &Nearby, name: Name) -> bool {
        *self == name
    }
}
