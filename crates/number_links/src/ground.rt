// What the descent reads.
ghost use Rattle.std.specs.Prelude.{◌≡◌};
ghost use Rattle.number_links.specs.Facts.{goes_on};
ghost use Rattle.number_links.specs.declared.along.Along.TheVariants.{Parents as along_parents};

use crate::along::{Along, goes_from};
use crate::generations::Generations;
use crate::links::Links;
use crate::number_set::NumberSet;
use crate::times::Times;

// The parents of numbers, their generations, and which numbers are allowed.
#[derive(Clone, Copy)]
pub(crate) struct Ground<'a> {
    pub(crate) links: &'a Links,
    pub(crate) times: &'a Times,
    pub(crate) generations: &'a Generations,
    pub(crate) allowed: &'a NumberSet,
}

// The parents of a number.
pub(crate) fn parents<'a>(ground: &Ground<'a>, n: u32) -> &'a [u32]
    ensures { result.now ≡ goes_on along_parents (record { links = ground.now.links.now; times = ground.now.times.now }) n }
{
    let Some(to) = ground.links.of(n) else {
        return &[];
    };
    goes_from(ground.times, Along::Parents, to, n)
}
