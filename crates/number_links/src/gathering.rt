// Finds all numbers reachable from some, and makes their links known.
ghost use Rattle.std.specs.Prelude.{◌≡◌, ◌⊎◌, ℕ, List, [], ◌∷◌, Some, All, true, false, is_some, None, IfOk, IfSome, OnOk};
ghost use Rattle.number_links.specs.Numbers.{has};
ghost use Rattle.number_links.specs.Kept.{IsAllLedTo, IsKept};
ghost use Rattle.number_links.specs.Known.{LeadNowhere, known, linked};
ghost use Rattle.number_links.specs.Seeing.{Enters};

use crate::kept::{Kept, find};
use crate::links::Links;
use crate::number_set::NumberSet;
use crate::resting::Resting;
use crate::taking::take;
use std::alloc::{AllocError, Global};

// Counts a new number, and adds it to `seen`. It waits, unless it is an end.
fn enter(
    ends: &NumberSet,
    n: u32,
    seen: &mut NumberSet,
    waiting: &mut Vec<u32>,
    count: &mut usize,
) -> Result<(), AllocError>
    requires { has seen.old n ≡ false }
    ensures { OnOk result (Enters 4294967296 (has ends.now) (n ∷ []) (has seen.old) waiting.old.items (has seen.new) waiting.new.items) }
{
    *count = count.saturating_add(1);
    seen.add(n)?;
    if ends.contains(n) {
        return Ok(());
    }
    waiting.push(n)?;
    Ok(())
}

// Does the same for each of these numbers that is new. Most are not, so they are looked for here.
fn enter_all(
    ends: &NumberSet,
    numbers: &[u32],
    seen: &mut NumberSet,
    waiting: &mut Vec<u32>,
    count: &mut usize,
) -> Result<(), AllocError>
    ensures { OnOk result (Enters 4294967296 (has ends.now) numbers.now (has seen.old) waiting.old.items (has seen.new) waiting.new.items) }
{
    for n in numbers {
        if seen.contains(*n) {
            continue;
        }
        enter(ends, *n, seen, waiting, count)?;
    }
    Ok(())
}

// Learns that a number of which nothing is known has no links. Returns `false` if it does not rest or is not allowed.
fn learn_rest<R: Resting>(
    links: &mut Links,
    allowed: &NumberSet,
    resting: &R,
    n: u32,
) -> Result<bool, AllocError>
    requires { known links.old n ≡ None }
    ensures stays { (q : ℕ) → is_some (known links.old q) ≡ true → known links.new q ≡ known links.old q }
    ensures only { (q : ℕ) (ms : List ℕ) → known links.new q ≡ Some ms → (known links.old q ≡ Some ms) ⊎ ((ms ≡ []) × (has allowed.now q ≡ true) × (R.rests resting.now q ≡ true)) }
    ensures known { IfOk result (λ all. all ≡ true → is_some (known links.new n) ≡ true) }
{
    if !allowed.contains(n) {
        return Ok(false);
    }
    if !resting.rests(n) {
        return Ok(false);
    }
    links.learn(n, &[])?;
    Ok(true)
}

// Enters what a number links to. If nothing is known of it, it is then known to have no links. Returns `false` if it
// neither has known links nor is allowed and rests.
fn follow<R: Resting>(
    links: &mut Links,
    ends: &NumberSet,
    allowed: &NumberSet,
    resting: &R,
    n: u32,
    seen: &mut NumberSet,
    waiting: &mut Vec<u32>,
    count: &mut usize,
) -> Result<bool, AllocError>
    ensures stays { (q : ℕ) → is_some (known links.old q) ≡ true → known links.new q ≡ known links.old q }
    ensures only { (q : ℕ) (ms : List ℕ) → known links.new q ≡ Some ms → (known links.old q ≡ Some ms) ⊎ ((ms ≡ []) × (has allowed.now q ≡ true) × (R.rests resting.now q ≡ true)) }
    ensures known { IfOk result (λ all. all ≡ true → is_some (known links.new n) ≡ true) }
    ensures enters { IfOk result (λ all. all ≡ true → Enters 4294967296 (has ends.now) (linked links.old n) (has seen.old) waiting.old.items (has seen.new) waiting.new.items) }
{
    let Some(to) = links.of(n) else {
        return learn_rest(links, allowed, resting, n);
    };
    enter_all(ends, to, seen, waiting, count)?;
    Ok(true)
}

// Whether all of these numbers are allowed.
fn are_allowed(allowed: &NumberSet, numbers: &[u32]) -> bool
    ensures { result ≡ true → All (λ n. has allowed.now n ≡ true) numbers.now }
{
    for n in numbers {
        if !allowed.contains(*n) {
            return false;
        }
    }
    true
}

// All numbers reachable from the roots, each of which then has known links. `ends` are numbers that are known to have
// none. Returns `None` if a root is not allowed, or if a number has no known links and does not rest or is not allowed.
// A kept set is taken as a whole. Each other number is counted.
fn gather<R: Resting>(
    alloc: Global,
    links: &mut Links,
    ends: &NumberSet,
    kept: &[Kept],
    allowed: &NumberSet,
    resting: &R,
    roots: &[u32],
    count: &mut usize,
) -> Result<Option<NumberSet>, AllocError>
    requires kept { All (IsKept links.old) kept.now }
    requires ends { LeadNowhere links.old (has ends.now) }
    ensures stays { (q : ℕ) → is_some (known links.old q) ≡ true → known links.new q ≡ known links.old q }
    ensures only { (q : ℕ) (ms : List ℕ) → known links.new q ≡ Some ms → (known links.old q ≡ Some ms) ⊎ ((ms ≡ []) × (has allowed.now q ≡ true) × (R.rests resting.now q ≡ true)) }
    ensures found { IfOk result (λ r. IfSome r (λ found. IsAllLedTo links.new roots.now (has found))) }
    ensures own { IfOk result (λ r. IfSome r (λ found. All (λ root. has allowed.now root ≡ true) roots.now)) }
{
    if !are_allowed(allowed, roots) {
        return Ok(None);
    }
    let mut seen = NumberSet::new(alloc);
    let mut waiting = Vec::new(alloc);
    enter_all(ends, roots, &mut seen, &mut waiting, count)?;
    'waiting: while let Some(n) = waiting.pop() {
        if let Some(set) = find(kept, allowed, n) {
            take(&mut seen, set)?;
            continue;
        }
        if !follow(
            links,
            ends,
            allowed,
            resting,
            n,
            &mut seen,
            &mut waiting,
            count,
        )? {
            return Ok(None);
        }
    }
    Ok(Some(seen))
}

// The same, or `None` if one of these numbers is not allowed.
pub(crate) fn gather_allowed<R: Resting>(
    alloc: Global,
    links: &mut Links,
    ends: &NumberSet,
    kept: &[Kept],
    allowed: &NumberSet,
    resting: &R,
    roots: &[u32],
    count: &mut usize,
) -> Result<Option<NumberSet>, AllocError>
    requires kept { All (IsKept links.old) kept.now }
    requires ends { LeadNowhere links.old (has ends.now) }
    ensures stays { (q : ℕ) → is_some (known links.old q) ≡ true → known links.new q ≡ known links.old q }
    ensures only { (q : ℕ) (ms : List ℕ) → known links.new q ≡ Some ms → (known links.old q ≡ Some ms) ⊎ ((ms ≡ []) × (has allowed.now q ≡ true) × (R.rests resting.now q ≡ true)) }
    ensures found { IfOk result (λ r. IfSome r (λ found. IsAllLedTo links.new roots.now (has found))) }
    ensures within { IfOk result (λ r. IfSome r (λ found. (n : ℕ) → has found n ≡ true → has allowed.now n ≡ true)) }
{
    let Some(found) = gather(alloc, links, ends, kept, allowed, resting, roots, count)? else {
        return Ok(None);
    };
    if !found.is_within(allowed) {
        return Ok(None);
    }
    Ok(Some(found))
}
