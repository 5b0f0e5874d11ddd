ghost use Rattle.std.specs.Prelude.{◌≡◌, ◌⊎◌, ◌↔◌, ℕ, None, true, false, IfOk, IfSome, IfNone};
ghost use Rattle.number_links.specs.Numbers.{has};
ghost use Rattle.number_links.specs.Facts.{goes_on};
ghost use Rattle.number_links.specs.Known.{RestsOrIsKnown, known, linked};
ghost use Rattle.number_links.specs.Reach.{IsReached, ReachesUnknown, past};

use crate::along::{Along, goes_from};
use crate::links::Links;
use crate::noting::note_all;
use crate::number_set::NumberSet;
use crate::resting::Resting;
use crate::times::Times;
use std::alloc::{AllocError, Global};

// The numbers reachable from the roots through ones that are allowed and not hidden, or `None` if one of them neither
// rests nor has known links. Each is followed once.
pub(crate) fn walk<R: Resting>(
    alloc: Global,
    links: &Links,
    times: &Times,
    along: Along,
    allowed: &NumberSet,
    resting: &R,
    roots: &[u32],
    hidden: &NumberSet,
) -> Result<Option<NumberSet>, AllocError>
    ensures only { IfOk result (λ r. IfSome r (λ found. (n : ℕ) → has found n ≡ true → IsReached (goes_on along (record { links = links.now; times = times.now })) (past (has allowed.now) (has hidden.now)) roots.now n)) }
    ensures all { IfOk result (λ r. IfSome r (λ found. (n : ℕ) → IsReached (goes_on along (record { links = links.now; times = times.now })) (past (has allowed.now) (has hidden.now)) roots.now n → has found n ≡ true)) }
    ensures known { IfOk result (λ r. IfSome r (λ found. (n : ℕ) → has found n ≡ true → RestsOrIsKnown links.now (R.rests resting.now) n)) }
    ensures unknown { IfOk result (λ r. IfNone r (ReachesUnknown (goes_on along (record { links = links.now; times = times.now })) links.now (R.rests resting.now) (past (has allowed.now) (has hidden.now)) roots.now)) }
{
    let mut seen = NumberSet::new(alloc);
    let mut waiting = Vec::new(alloc);
    note_all(allowed, hidden, roots, &mut seen, &mut waiting)?;
    'waiting: while let Some(n) = waiting.pop() {
        let Some(to) = follow(links, times, along, resting, n) else {
            return Ok(None);
        };
        note_all(allowed, hidden, to, &mut seen, &mut waiting)?;
    }
    Ok(Some(seen))
}

// The links that a walk follows from a number, or `None` if the number neither rests nor has known links.
fn follow<'a, R: Resting>(
    links: &'a Links,
    times: &Times,
    along: Along,
    resting: &R,
    n: u32,
) -> Option<&'a [u32]>
    ensures some { IfSome result (λ to. goes_on along (record { links = links.now; times = times.now }) n ≡ to.now) }
    ensures known { IfSome result (λ to. RestsOrIsKnown links.now (R.rests resting.now) n) }
    ensures none { IfNone result ((R.rests resting.now n ≡ false) × (known links.now n ≡ None)) }
{
    let Some(to) = next(links, resting, n) else {
        return None;
    };
    Some(goes_from(times, along, to, n))
}

// The links of a number, or `None` if it neither rests nor has known links.
pub(crate) fn next<'a, R: Resting>(links: &'a Links, resting: &R, n: u32) -> Option<&'a [u32]>
    ensures some { IfSome result (λ to. linked links.now n ≡ to.now) }
    ensures known { IfSome result (λ to. RestsOrIsKnown links.now (R.rests resting.now) n) }
    ensures none { IfNone result ((R.rests resting.now n ≡ false) × (known links.now n ≡ None)) }
{
    if let Some(to) = links.of(n) {
        return Some(to);
    }
    if resting.rests(n) {
        return Some(&[]);
    }
    None
}
