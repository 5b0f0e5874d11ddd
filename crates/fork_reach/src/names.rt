ghost use Rattle.std.specs.Prelude.{◌≡◌, ℕ, Bool, true, false, List, IfSome, is_some};
ghost use Rattle.std.specs.HashSet.{contains};
ghost use Rattle.std.specs.FinMap as map;
ghost use Rattle.git_name.specs.Name.{name_cmp};
ghost use Rattle.git_name.specs.Same.{same_name};
ghost use Rattle.fork_reach.specs.Along.{rests_at};
ghost use Rattle.fork_reach.specs.Hidden.{without};
ghost use Rattle.fork_reach.specs.Objects.{Measures, measures_of};

use crate::along::{Along, goes_on_in};
use crate::source::Source;
use git_name::{Hashing, Name};
use indexmap::IndexSet;

// The names that a walk may visit.
pub(crate) trait Names {
    // The objects.
    ghost Of: { Type 0 };

    // The names of the objects.
    ghost names: { Self → map.FinMap name_cmp Of };

    // The names at which a walk ends.
    ghost ends: { Self → List ℕ → Bool };

    // Whether a walk goes on from a name, or `None` if it may not visit the name.
    fn leads(&self, name: Name) -> Option<bool>
        ensures there { is_some result ≡ map.contains_key (names self.now) name }
        ensures ends { IfSome result (λ leads. leads ≡ false → ends self.now name ≡ true) };
}

// The objects of a source, except the hidden ones. If it is known which links a walk follows, the walk does not go on
// from kinds without such links.
#[derive(Drop)]
pub(crate) struct Open<'a, S> {
    pub(crate) source: &'a S,
    pub(crate) hidden: &'a IndexSet<Name, Hashing>,
    pub(crate) along: Option<Along>,
}

// Whether the name is hidden. If no names are hidden, the name is not hashed.
pub(crate) fn is_hidden(hidden: &IndexSet<Name, Hashing>, name: Name) -> bool
    ensures { result ≡ contains same_name hidden.now name }
{
    !hidden.is_empty() && hidden.contains(&name)
}

impl<'a, S: Source> Names for Open<'a, S> {
    ghost use Rattle.std.specs.Prelude.{ℕ};
    ghost use Rattle.git_name.specs.declared.kind.Kind.{Kind};

    ghost Of = { Kind × ℕ };

    ghost names = { λ shown. without (measures_of (S.state shown.source.now).objects) (contains same_name shown.hidden.now) };

    ghost ends = { λ shown. rests_at shown.along (measures_of (S.state shown.source.now).objects) };

    fn leads(&self, name: Name) -> Option<bool> {
        if is_hidden(self.hidden, name) {
            return None;
        }
        let Some(kind) = self.source.kind_of(name) else {
            return None;
        };
        Some(goes_on_in(self.along, kind))
    }
}
