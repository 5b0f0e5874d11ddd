ghost use Rattle.std.specs.Prelude.{◌≡◌, List, ℕ, IfOk};
ghost use Rattle.std.specs.HashSet.{contains};
ghost use Rattle.std.specs.List.{IsDistinct};
ghost use Rattle.std.specs.List.Sorted.{IsStrictlySortedBy};
ghost use Rattle.git_name.specs.Name.{name_cmp};
ghost use Rattle.git_name.specs.Same.{same_name};
ghost use Rattle.fork_reach.specs.Reach.{is_among};

use git_name::{Hashing, Name};
use indexmap::IndexSet;
use std::alloc::{AllocError, Global};

// The names of a set, in no particular order.
fn listed(alloc: Global, names: &IndexSet<Name, Hashing>) -> Result<Vec<Name>, AllocError>
    ensures names { IfOk result (λ list. list.items ≡ names.now.keys) }
    ensures distinct { IsDistinct same_name names.now.keys }
{
    let _count = names.len();
    names.iter().copied().collect(alloc)
}

/// The names of a set, in ascending order.
pub fn ascending(alloc: Global, names: &IndexSet<Name, Hashing>) -> Result<Vec<Name>, AllocError>
    ensures order { IfOk result (λ list. IsStrictlySortedBy name_cmp list.items) }
    ensures same { IfOk result (λ list. (name : List ℕ) → is_among list.items name ≡ contains same_name names.now name) }
{
    let mut list = listed(alloc, names)?;
    list.sort_unstable();
    Ok(list)
}
