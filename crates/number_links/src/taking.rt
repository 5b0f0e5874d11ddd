// A walk that takes each kept set as a whole.
ghost use Rattle.std.specs.Prelude.{◌≡◌, ◌||◌, ℕ, All, None, false, true, IfOk, IfSome, IfNone, OnOk};
ghost use Rattle.number_links.specs.Numbers.{has};
ghost use Rattle.number_links.specs.Kept.{IsKept};
ghost use Rattle.number_links.specs.Known.{RestsOrIsKnown, known, linked};
ghost use Rattle.number_links.specs.Reach.{IsReached, ReachesUnknown};

use crate::kept::{Kept, find};
use crate::links::Links;
use crate::noting::note_all;
use crate::number_set::NumberSet;
use crate::resting::Resting;
use crate::walking::next;
use std::alloc::{AllocError, Global};

// Adds all numbers of another set.
pub(crate) fn take(seen: &mut NumberSet, set: &NumberSet) -> Result<(), AllocError>
    ensures { OnOk result ((n : ℕ) → has seen.new n ≡ (has seen.old n || has set.now n)) }
{
    seen.reserve_all(set)?;
    seen.unite(set);
    Ok(())
}

// The numbers reachable from the roots through allowed ones, or `None` if one of them neither rests nor has known
// links. A kept set is taken as a whole. Each other number is followed once.
pub(crate) fn reach_all<R: Resting>(
    alloc: Global,
    links: &Links,
    kept: &[Kept],
    allowed: &NumberSet,
    resting: &R,
    roots: &[u32],
) -> Result<Option<NumberSet>, AllocError>
    requires { All (IsKept links.now) kept.now }
    ensures only { IfOk result (λ r. IfSome r (λ found. (n : ℕ) → has found n ≡ true → IsReached (linked links.now) (has allowed.now) roots.now n)) }
    ensures all { IfOk result (λ r. IfSome r (λ found. (n : ℕ) → IsReached (linked links.now) (has allowed.now) roots.now n → has found n ≡ true)) }
    ensures known { IfOk result (λ r. IfSome r (λ found. (n : ℕ) → has found n ≡ true → RestsOrIsKnown links.now (R.rests resting.now) n)) }
    ensures unknown { IfOk result (λ r. IfNone r (ReachesUnknown (linked links.now) links.now (R.rests resting.now) (has allowed.now) roots.now)) }
{
    let none = NumberSet::new(alloc);
    let mut seen = NumberSet::new(alloc);
    let mut waiting = Vec::new(alloc);
    note_all(allowed, &none, roots, &mut seen, &mut waiting)?;
    'waiting: while let Some(n) = waiting.pop() {
        if let Some(set) = find(kept, allowed, n) {
            take(&mut seen, set)?;
            continue;
        }
        let Some(to) = next(links, resting, n) else {
            return Ok(None);
        };
        note_all(allowed, &none, to, &mut seen, &mut waiting)?;
    }
    Ok(Some(seen))
}
