// Gives numbers generations, and marks the numbers that they link to.
ghost use Rattle.std.specs.Prelude.{◌≡◌, ◌<◌, ◌⊎◌, ◌+◌, ℕ, All, Contains, Some, IfSome, IfNone, OnOk};
ghost use Rattle.number_links.specs.Facts.{Facts, goes_on};
ghost use Rattle.number_links.specs.Generations.{AreGenerations, IsMarked, generation};
ghost use Rattle.number_links.specs.Known.{known};
ghost use Rattle.number_links.specs.declared.along.Along.TheVariants.{Parents as along_parents};

use crate::generations::Generations;
use crate::lists::larger;
use std::alloc::AllocError;

// The least generation for a commit with these parents, or `None` if a parent has no generation or has `u32::MAX`.
fn above(generations: &Generations, parents: &[u32]) -> Option<u32>
    ensures least { IfSome result (λ next. 1 < next) }
    ensures above { IfSome result (λ next. All (λ p. (1 < generation generations.now p) × (generation generations.now p < next)) parents.now) }
    ensures tight { IfSome result (λ next. (next ≡ 2) ⊎ ((p : ℕ) × Contains parents.now p × (next ≡ generation generations.now p + 1))) }
    ensures none { IfNone result (((p : ℕ) × Contains parents.now p × (generation generations.now p < 2)) ⊎ ((p : ℕ) × Contains parents.now p × (generation generations.now p ≡ 4294967295))) }
{
    let mut most = 1;
    for p in parents {
        let one = generations.at(*p);
        if one < 2 {
            return None;
        }
        most = larger(most, one);
    }
    most.checked_add(1)
}

// Marks a number unless it is marked or has a generation.
fn mark(generations: &mut Generations, n: u32) -> Result<(), AllocError>
    ensures only { IsMarked generations.old generations.new }
    ensures ok { OnOk result (0 < generation generations.new n) }
{
    if generations.at(n) > 0 {
        return Ok(());
    }
    generations.write(n, 1)?;
    Ok(())
}

// Does the same for each of these numbers.
fn mark_all(generations: &mut Generations, numbers: &[u32]) -> Result<(), AllocError>
    ensures only { IsMarked generations.old generations.new }
    ensures ok { OnOk result (All (λ n. 0 < generation generations.new n) numbers.now) }
{
    for n in numbers {
        mark(generations, *n)?;
    }
    Ok(())
}

// Gives a number with these links a generation if its parents have one, and marks the numbers that it links to.
// Returns whether it now has one.
pub(crate) fn raise(generations: &mut Generations, n: u32, to: &[u32], parents: &[u32]) -> bool
    ensures { (facts : Facts) → known facts.links n ≡ Some to.now → goes_on along_parents facts n ≡ parents.now → AreGenerations facts generations.old → AreGenerations facts generations.new }
{
    if generations.at(n) > 1 {
        return true;
    }
    let Some(next) = above(generations, parents) else {
        return false;
    };
    let Ok(()) = mark_all(generations, to) else {
        return false;
    };
    let Ok(()) = generations.write(n, next) else {
        return false;
    };
    true
}
