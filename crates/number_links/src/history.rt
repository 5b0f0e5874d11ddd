// What wanted numbers reach and excluded ones do not, by numbers that are visited from the greatest key down (as Git's
// `limit_list` does).
ghost use Rattle.std.specs.Prelude.{◌≡◌, ◌<◌, ◌≤◌, ◌⊎◌, ◌↔◌, not, true, false, ℕ, Contains, length, is_some, IfOk, IfSome, OnOk};
ghost use Rattle.number_links.specs.Numbers.{has};
ghost use Rattle.number_links.specs.Descent.{IsKey, IsParent, Puts, SettlesKey, waits};
ghost use Rattle.number_links.specs.Facts.{goes_on};
ghost use Rattle.number_links.specs.Generations.{AreGenerations, generation};
ghost use Rattle.number_links.specs.Known.{known};
ghost use Rattle.number_links.specs.Reach.{IsReached};
ghost use Rattle.number_links.specs.declared.along.Along.TheVariants.{Parents as along_parents};

use crate::ground::Ground;
use crate::keys::{last_key, last_of, number_of};
use crate::merge_bases::note;
use crate::number_set::NumberSet;
use crate::waiting::{put_all, settle};
use std::alloc::{AllocError, Global};
use std::collections::BTreeSet;

// The keys that wait: of what wanted numbers reach, and of what excluded ones reach.
#[derive(Drop)]
struct Sides {
    wanted: BTreeSet<u64>,
    excluded: BTreeSet<u64>,
}

// Whether each of these numbers that is allowed has a generation.
pub(crate) fn have_generations(ground: &Ground<'_>, numbers: &[u32]) -> bool
    ensures { result ≡ true → (n : ℕ) → Contains numbers.now n → has ground.now.allowed.now n ≡ true → 1 < generation ground.now.generations.now n }
{
    for n in numbers {
        if !has_generation(ground, *n) {
            return false;
        }
    }
    true
}

// The same of one number.
fn has_generation(ground: &Ground<'_>, n: u32) -> bool
    ensures { result ≡ true → has ground.now.allowed.now n ≡ true → 1 < generation ground.now.generations.now n }
{
    if !ground.allowed.contains(n) {
        return true;
    }
    ground.generations.at(n) > 1
}

// The keys of these numbers, as far as they are allowed.
fn begin(
    alloc: Global,
    ground: &Ground<'_>,
    wanted: &[u32],
    excluded: &[u32],
) -> Result<Sides, AllocError>
    ensures wanted { IfOk result (λ sides. Puts wanted.now (has ground.now.allowed.now) ground.now.generations.now (λ _. false) (waits sides.wanted)) }
    ensures excluded { IfOk result (λ sides. Puts excluded.now (has ground.now.allowed.now) ground.now.generations.now (λ _. false) (waits sides.excluded)) }
{
    let mut wanted_keys = BTreeSet::new(alloc);
    let mut excluded_keys = BTreeSet::new(alloc);
    put_all(ground, wanted, &mut wanted_keys)?;
    put_all(ground, excluded, &mut excluded_keys)?;
    Ok(Sides {
        wanted: wanted_keys,
        excluded: excluded_keys,
    })
}

// Continues from the greatest key. What an excluded number leads to is excluded, whoever else leads to it. Returns
// whether the number is found.
fn go_on(ground: &Ground<'_>, at: u64, sides: &mut Sides) -> Result<bool, AllocError>
    requires few { length ground.now.generations.now ≤ 4294967296 }
    requires key { IsKey ground.now.generations.now at }
    ensures wanted { OnOk result (SettlesKey (IsParent (goes_on along_parents (record { links = ground.now.links.now; times = ground.now.times.now })) (has ground.now.allowed.now) ground.now.generations.now) at (not (waits sides.old.excluded at)) (waits sides.old.wanted) (waits sides.new.wanted)) }
    ensures excluded { OnOk result (SettlesKey (IsParent (goes_on along_parents (record { links = ground.now.links.now; times = ground.now.times.now })) (has ground.now.allowed.now) ground.now.generations.now) at (waits sides.old.excluded at) (waits sides.old.excluded) (waits sides.new.excluded)) }
    ensures found { IfOk result (λ is_found. is_found ≡ not (waits sides.old.excluded at)) }
{
    let is_excluded = sides.excluded.contains(&at);
    settle(ground, at, !is_excluded, &mut sides.wanted)?;
    settle(ground, at, is_excluded, &mut sides.excluded)?;
    Ok(!is_excluded)
}

// What the wanted numbers reach and the excluded ones do not, if each that is allowed has a generation.
pub(crate) fn descend(
    alloc: Global,
    ground: &Ground<'_>,
    wanted: &[u32],
    excluded: &[u32],
) -> Result<NumberSet, AllocError>
    requires are { AreGenerations (record { links = ground.now.links.now; times = ground.now.times.now }) ground.now.generations.now }
    requires few { length ground.now.generations.now ≤ 4294967296 }
    requires wanted { (n : ℕ) → Contains wanted.now n → has ground.now.allowed.now n ≡ true → 1 < generation ground.now.generations.now n }
    requires excluded { (n : ℕ) → Contains excluded.now n → has ground.now.allowed.now n ≡ true → 1 < generation ground.now.generations.now n }
    ensures { IfOk result (λ found. (n : ℕ) → (has found n ≡ true) ↔ (IsReached (goes_on along_parents (record { links = ground.now.links.now; times = ground.now.times.now })) (has ground.now.allowed.now) wanted.now n × (IsReached (goes_on along_parents (record { links = ground.now.links.now; times = ground.now.times.now })) (has ground.now.allowed.now) excluded.now n → ⊥))) }
{
    let mut sides = begin(alloc, ground, wanted, excluded)?;
    let mut found = NumberSet::new(alloc);
    let first = last_of(&sides.wanted, 0);
    // No key that waits is this large, so each turn lowers the bound.
    let mut below = last_of(&sides.excluded, first) as u128 + 1;
    'sides: while let Some(most) = last_key(&sides.wanted) {
        let at = last_of(&sides.excluded, most);
        let is_found = go_on(ground, at, &mut sides)?;
        note(is_found, number_of(at), &mut found)?;
        below = at as u128;
    }
    Ok(found)
}

// The same, or `None` if an allowed one of these numbers has no generation, or if none is excluded: a walk is then
// faster.
pub(crate) fn near(
    alloc: Global,
    ground: &Ground<'_>,
    wanted: &[u32],
    excluded: &[u32],
) -> Result<Option<NumberSet>, AllocError>
    requires { AreGenerations (record { links = ground.now.links.now; times = ground.now.times.now }) ground.now.generations.now }
    ensures found { IfOk result (λ r. IfSome r (λ found. (n : ℕ) → (has found n ≡ true) ↔ (IsReached (goes_on along_parents (record { links = ground.now.links.now; times = ground.now.times.now })) (has ground.now.allowed.now) wanted.now n × (IsReached (goes_on along_parents (record { links = ground.now.links.now; times = ground.now.times.now })) (has ground.now.allowed.now) excluded.now n → ⊥)))) }
    ensures known { IfOk result (λ r. IfSome r (λ found. (n : ℕ) → IsReached (goes_on along_parents (record { links = ground.now.links.now; times = ground.now.times.now })) (has ground.now.allowed.now) wanted.now n ⊎ IsReached (goes_on along_parents (record { links = ground.now.links.now; times = ground.now.times.now })) (has ground.now.allowed.now) excluded.now n → is_some (known ground.now.links.now n) ≡ true)) }
{
    ground.generations.invariant();
    if excluded.is_empty() {
        return Ok(None);
    }
    if !have_generations(ground, wanted) {
        return Ok(None);
    }
    if !have_generations(ground, excluded) {
        return Ok(None);
    }
    match descend(alloc, ground, wanted, excluded) {
        Ok(found) => Ok(Some(found)),
        Err(_) => Err(AllocError),
    }
}
