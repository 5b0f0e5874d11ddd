// Finds best common ancestors. Numbers are visited in descending order of their keys.
ghost use Rattle.std.specs.Prelude.{◌≡◌, ◌<◌, ◌≤◌, ◌⊎◌, ◌↔◌, ◌&&◌, ◌||◌, [], ◌∷◌, true, ℕ, length, nat_eq, is_some, IfOk, IfSome, OnOk};
ghost use Rattle.number_links.specs.Numbers.{has};
ghost use Rattle.number_links.specs.Bases.{IsBest};
ghost use Rattle.number_links.specs.Facts.{goes_on};
ghost use Rattle.number_links.specs.Generations.{AreGenerations, generation};
ghost use Rattle.number_links.specs.Known.{known};
ghost use Rattle.number_links.specs.Reach.{IsReached};
ghost use Rattle.number_links.specs.declared.along.Along.TheVariants.{Parents as along_parents};

use crate::ground::Ground;
use crate::keys::{key_of, last_of, last_of_both, number_of};
use crate::number_set::NumberSet;
use crate::waiting::{begin, go_on};
use std::alloc::{AllocError, Global};

// Adds a number if it is one of those to find.
pub(crate) fn note(is_one: bool, n: u32, found: &mut NumberSet) -> Result<(), AllocError>
    ensures { OnOk result ((q : ℕ) → has found.new q ≡ ((is_one && nat_eq q n) || has found.old q)) }
{
    if !is_one {
        return Ok(());
    }
    found.reserve(n)?;
    found.insert(n);
    Ok(())
}

// The best common ancestors of two numbers that have generations.
fn descend(alloc: Global, ground: &Ground<'_>, a: u32, b: u32) -> Result<NumberSet, AllocError>
    requires are { AreGenerations (record { links = ground.now.links.now; times = ground.now.times.now }) ground.now.generations.now }
    requires few { length ground.now.generations.now ≤ 4294967296 }
    requires a { 1 < generation ground.now.generations.now a }
    requires b { 1 < generation ground.now.generations.now b }
    ensures { IfOk result (λ found. (n : ℕ) → (has found n ≡ true) ↔ IsBest (goes_on along_parents (record { links = ground.now.links.now; times = ground.now.times.now })) (has ground.now.allowed.now) a b n) }
{
    let mut waiting = begin(alloc, ground, a, b)?;
    let mut found = NumberSet::new(alloc);
    // No key that waits is this large, so each turn lowers the bound.
    let mut below = key_of(ground.generations, a) as u128
        + key_of(ground.generations, b) as u128
        + 1;
    'waiting: while let Some(last) = last_of_both(&waiting.of_a, &waiting.of_b) {
        let at = last_of(&waiting.outdone, last);
        let is_best = go_on(ground, at, &mut waiting)?;
        note(is_best, number_of(at), &mut found)?;
        below = at as u128;
    }
    Ok(found)
}

// The best common ancestors of two numbers, or `None` if one of the two has no generation.
pub(crate) fn bases(
    alloc: Global,
    ground: &Ground<'_>,
    a: u32,
    b: u32,
) -> Result<Option<NumberSet>, AllocError>
    requires { AreGenerations (record { links = ground.now.links.now; times = ground.now.times.now }) ground.now.generations.now }
    ensures found { IfOk result (λ r. IfSome r (λ found. (n : ℕ) → (has found n ≡ true) ↔ IsBest (goes_on along_parents (record { links = ground.now.links.now; times = ground.now.times.now })) (has ground.now.allowed.now) a b n)) }
    ensures known { IfOk result (λ r. IfSome r (λ found. (n : ℕ) → IsReached (goes_on along_parents (record { links = ground.now.links.now; times = ground.now.times.now })) (has ground.now.allowed.now) (a ∷ []) n ⊎ IsReached (goes_on along_parents (record { links = ground.now.links.now; times = ground.now.times.now })) (has ground.now.allowed.now) (b ∷ []) n → is_some (known ground.now.links.now n) ≡ true)) }
{
    if ground.generations.at(a) < 2 {
        return Ok(None);
    }
    if ground.generations.at(b) < 2 {
        return Ok(None);
    }
    match descend(alloc, ground, a, b) {
        Ok(found) => Ok(Some(found)),
        Err(_) => Err(AllocError),
    }
}
