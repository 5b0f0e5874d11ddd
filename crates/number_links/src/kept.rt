// Kept sets of reachable numbers, so that a walk need not find them again.
ghost use Rattle.std.specs.Prelude.{◌≡◌, [], ◌∷◌, ℕ, All, IfSome, false, true};
ghost use Rattle.number_links.specs.Numbers.{has};
ghost use Rattle.number_links.specs.Kept.{IsAllLedTo, IsKept};
ghost use Rattle.number_links.specs.Known.{Known};

use crate::number_set::NumberSet;

// The largest number of kept sets.
const MOST: usize = 16;

// All numbers reachable from the root, with the root itself.
#[derive(Drop)]
pub(crate) struct Kept {
    pub(crate) root: u32,
    pub(crate) reached: NumberSet,
}

// Whether a set belongs to this root, and all of it is allowed.
fn serves(one: &Kept, allowed: &NumberSet, root: u32) -> bool
    ensures root { result ≡ true → one.now.root ≡ root }
    ensures within { result ≡ true → (n : ℕ) → has one.now.reached n ≡ true → has allowed.now n ≡ true }
{
    if one.root != root {
        return false;
    }
    one.reached.is_within(allowed)
}

// The kept set of this root, if there is one and all of it is allowed.
pub(crate) fn find<'a>(kept: &'a [Kept], allowed: &NumberSet, root: u32) -> Option<&'a NumberSet>
    ensures { (links : Known) → All (IsKept links) kept.now → IfSome result (λ reached. IsAllLedTo links (root ∷ []) (has reached.now) × ((n : ℕ) → has reached.now n ≡ true → has allowed.now n ≡ true)) }
{
    for one in kept {
        if serves(one, allowed, root) {
            return Some(&one.reached);
        }
    }
    None
}

// Drops the oldest set if no more may be kept.
fn make_room(kept: &mut Vec<Kept>)
    ensures { (links : Known) → All (IsKept links) kept.old.items → All (IsKept links) kept.new.items }
{
    if kept.len() < MOST {
        return;
    }
    kept.remove(0);
}

// Keeps one more set. If memory runs out, the set is dropped.
pub(crate) fn put(kept: &mut Vec<Kept>, one: Kept)
    ensures { (links : Known) → All (IsKept links) kept.old.items → IsKept links one → All (IsKept links) kept.new.items }
{
    make_room(kept);
    let Ok(()) = kept.push(one) else {
        return;
    };
}

// Drops the sets that contain a number.
pub(crate) fn let_go(kept: &mut Vec<Kept>, n: u32)
    ensures { (links : Known) → All (IsKept links) kept.old.items → All (λ one. IsKept links one × (has one.reached n ≡ false)) kept.new.items }
{
    kept.retain(|one| !one.reached.contains(n));
}
