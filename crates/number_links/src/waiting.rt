// The keys that wait in the descent from two numbers.
ghost use Rattle.std.specs.Prelude.{◌≡◌, ◌≤◌, ◌&&◌, [], ◌∷◌, not, false, ℕ, length, IfOk, OnOk};
ghost use Rattle.number_links.specs.Numbers.{has};
ghost use Rattle.number_links.specs.Descent.{GoesOn, IsKey, IsParent, Puts, SettlesKey, waits};
ghost use Rattle.number_links.specs.Facts.{goes_on};
ghost use Rattle.number_links.specs.declared.along.Along.TheVariants.{Parents as along_parents};

use crate::ground::{Ground, parents};
use crate::keys::{key_of, number_of};
use std::alloc::{AllocError, Global};
use std::collections::BTreeSet;

// The keys that wait: of ancestors of the first number, of ancestors of the second, and of parents of common
// ancestors.
#[derive(Drop)]
pub(crate) struct Waiting {
    pub(crate) of_a: BTreeSet<u64>,
    pub(crate) of_b: BTreeSet<u64>,
    pub(crate) outdone: BTreeSet<u64>,
}

// Adds the key of a number if the number is allowed.
fn put(ground: &Ground<'_>, n: u32, keys: &mut BTreeSet<u64>) -> Result<(), AllocError>
    ensures { OnOk result (Puts (n ∷ []) (has ground.now.allowed.now) ground.now.generations.now (waits keys.old) (waits keys.new)) }
{
    if !ground.allowed.contains(n) {
        return Ok(());
    }
    keys.insert(key_of(ground.generations, n))?;
    Ok(())
}

// Does the same for each of these numbers.
pub(crate) fn put_all(
    ground: &Ground<'_>,
    numbers: &[u32],
    keys: &mut BTreeSet<u64>,
) -> Result<(), AllocError>
    ensures { OnOk result (Puts numbers.now (has ground.now.allowed.now) ground.now.generations.now (waits keys.old) (waits keys.new)) }
{
    for n in numbers {
        put(ground, *n, keys)?;
    }
    Ok(())
}

// Removes a key. If it is followed, the keys of its parents are added.
pub(crate) fn settle(
    ground: &Ground<'_>,
    at: u64,
    is_followed: bool,
    keys: &mut BTreeSet<u64>,
) -> Result<(), AllocError>
    requires few { length ground.now.generations.now ≤ 4294967296 }
    requires key { IsKey ground.now.generations.now at }
    ensures { OnOk result (SettlesKey (IsParent (goes_on along_parents (record { links = ground.now.links.now; times = ground.now.times.now })) (has ground.now.allowed.now) ground.now.generations.now) at is_followed (waits keys.old) (waits keys.new)) }
{
    keys.remove(&at);
    if !is_followed {
        return Ok(());
    }
    put_all(ground, parents(ground, number_of(at)), keys)
}

// Takes one step from the last key that waits. Returns whether its number is a best common ancestor.
pub(crate) fn go_on(ground: &Ground<'_>, at: u64, waiting: &mut Waiting) -> Result<bool, AllocError>
    requires few { length ground.now.generations.now ≤ 4294967296 }
    requires key { IsKey ground.now.generations.now at }
    ensures on { OnOk result (GoesOn (IsParent (goes_on along_parents (record { links = ground.now.links.now; times = ground.now.times.now })) (has ground.now.allowed.now) ground.now.generations.now) at (waits waiting.old.of_a) (waits waiting.old.of_b) (waits waiting.old.outdone) (waits waiting.new.of_a) (waits waiting.new.of_b) (waits waiting.new.outdone)) }
    ensures best { IfOk result (λ is_best. is_best ≡ (not (waits waiting.old.outdone at) && (waits waiting.old.of_a at && waits waiting.old.of_b at))) }
{
    let from_a = waiting.of_a.contains(&at);
    let from_b = waiting.of_b.contains(&at);
    let is_outdone = waiting.outdone.contains(&at);
    let is_common = is_outdone || (from_a && from_b);
    settle(ground, at, !is_common && from_a, &mut waiting.of_a)?;
    settle(ground, at, !is_common && from_b, &mut waiting.of_b)?;
    settle(ground, at, is_common, &mut waiting.outdone)?;
    Ok(!is_outdone && (from_a && from_b))
}

// The keys of the two numbers, of each only if it is allowed.
pub(crate) fn begin(
    alloc: Global,
    ground: &Ground<'_>,
    a: u32,
    b: u32,
) -> Result<Waiting, AllocError>
    ensures of_a { IfOk result (λ waiting. Puts (a ∷ []) (has ground.now.allowed.now) ground.now.generations.now (λ _. false) (waits waiting.of_a)) }
    ensures of_b { IfOk result (λ waiting. Puts (b ∷ []) (has ground.now.allowed.now) ground.now.generations.now (λ _. false) (waits waiting.of_b)) }
    ensures outdone { IfOk result (λ waiting. (key : ℕ) → waits waiting.outdone key ≡ false) }
{
    let mut of_a = BTreeSet::new(alloc);
    let mut of_b = BTreeSet::new(alloc);
    put(ground, a, &mut of_a)?;
    put(ground, b, &mut of_b)?;
    Ok(Waiting {
        of_a,
        of_b,
        outdone: BTreeSet::new(alloc),
    })
}
