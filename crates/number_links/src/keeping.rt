// Keeps, for some numbers, the sets of all numbers reachable from them.
ghost use Rattle.std.specs.Prelude.{◌≡◌, ◌⊎◌, ℕ, List, [], Some, All, true, is_some};
ghost use Rattle.number_links.specs.Numbers.{has};
ghost use Rattle.number_links.specs.Kept.{IsKept};
ghost use Rattle.number_links.specs.Known.{LeadNowhere, known};

use crate::gathering::gather_allowed;
use crate::kept::{Kept, put};
use crate::links::Links;
use crate::number_set::NumberSet;
use crate::resting::Resting;
use std::alloc::Global;

// A set that takes fewer steps to find is not kept.
const FEW: usize = 4096;

// Sets are kept for at most this many numbers of a list.
const MOST_ROOTS: usize = 8;

// Keeps the set of all numbers reachable from one. `ends` are numbers that are known to have no links.
fn keep_one<R: Resting>(
    alloc: Global,
    links: &mut Links,
    ends: &NumberSet,
    kept: &mut Vec<Kept>,
    allowed: &NumberSet,
    resting: &R,
    root: u32,
)
    requires kept { All (IsKept links.old) kept.old.items }
    requires ends { LeadNowhere links.old (has ends.now) }
    ensures kept { All (IsKept links.new) kept.new.items }
    ensures stays { (q : ℕ) → is_some (known links.old q) ≡ true → known links.new q ≡ known links.old q }
    ensures only { (q : ℕ) (ms : List ℕ) → known links.new q ≡ Some ms → (known links.old q ≡ Some ms) ⊎ ((ms ≡ []) × (has allowed.now q ≡ true) × (R.rests resting.now q ≡ true)) }
{
    let mut count = 0;
    let Ok(Some(reached)) = gather_allowed(
        alloc,
        links,
        ends,
        kept.as_slice(),
        allowed,
        resting,
        [root].as_slice(),
        &mut count,
    ) else {
        return;
    };
    if count < FEW {
        return;
    }
    put(kept, Kept { root, reached });
}

// Does the same for the first `MOST_ROOTS` of these numbers.
pub(crate) fn keep_all<R: Resting>(
    alloc: Global,
    links: &mut Links,
    ends: &NumberSet,
    kept: &mut Vec<Kept>,
    allowed: &NumberSet,
    resting: &R,
    roots: &[u32],
)
    requires kept { All (IsKept links.old) kept.old.items }
    requires ends { LeadNowhere links.old (has ends.now) }
    ensures kept { All (IsKept links.new) kept.new.items }
    ensures stays { (q : ℕ) → is_some (known links.old q) ≡ true → known links.new q ≡ known links.old q }
    ensures only { (q : ℕ) (ms : List ℕ) → known links.new q ≡ Some ms → (known links.old q ≡ Some ms) ⊎ ((ms ≡ []) × (has allowed.now q ≡ true) × (R.rests resting.now q ≡ true)) }
{
    for at in 0..roots.len().min(MOST_ROOTS) {
        keep_one(alloc, links, ends, kept, allowed, resting, roots[at]);
    }
}
