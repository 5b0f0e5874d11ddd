// Gives commits generation numbers (topological levels, as in Git's commit-graph), parents before children.
ghost use Rattle.std.specs.Prelude.{◌≡◌, ◌<◌, ◌≤◌, ℕ, None, IfSome, IfNone, get_or, length};
ghost use Rattle.number_links.specs.Facts.{goes_on};
ghost use Rattle.number_links.specs.Generations.{AreGenerations, generation};
ghost use Rattle.number_links.specs.Known.{known};
ghost use Rattle.number_links.specs.declared.along.Along.TheVariants.{Parents as along_parents};

use crate::along::{Along, goes_from};
use crate::generations::Generations;
use crate::links::Links;
use crate::marking::raise;
use crate::times::Times;
use std::alloc::Global;

// A number that waits for a generation, its parents, and the index of the next parent to look at.
#[derive(Clone, Copy)]
struct Step<'a> {
    number: u32,
    parents: &'a [u32],
    next: usize,
}

// The index of the first parent without a generation, starting at `from`.
fn first_without(generations: &Generations, parents: &[u32], from: usize) -> Option<usize>
    ensures some { IfSome result (λ at. (from ≤ at) × (at < length parents.now) × (generation generations.now (get_or parents.now at 0) < 2)) }
    ensures none { IfNone result ((i : ℕ) → from ≤ i → i < length parents.now → 1 < generation generations.now (get_or parents.now i 0)) }
{
    for at in from..parents.len() {
        if generations.at(parents[at]) < 2 {
            return Some(at);
        }
    }
    None
}

// The first step at a number, if its links are known.
fn first_step<'a>(links: &'a Links, times: &Times, n: u32) -> Option<Step<'a>>
    ensures some { IfSome result (λ step. (step.number ≡ n) × (step.parents.now ≡ goes_on along_parents (record { links = links.now; times = times.now }) n) × (step.next ≡ 0)) }
    ensures none { IfNone result (known links.now n ≡ None) }
{
    let Some(to) = links.of(n) else {
        return None;
    };
    Some(Step {
        number: n,
        parents: goes_from(times, Along::Parents, to, n),
        next: 0,
    })
}

// Gives a number a generation if all its parents have one. Returns whether it now has one.
fn give(links: &Links, times: &Times, generations: &mut Generations, n: u32) -> bool
    requires { AreGenerations (record { links = links.now; times = times.now }) generations.old }
    ensures { AreGenerations (record { links = links.now; times = times.now }) generations.new }
{
    let Some(to) = links.of(n) else {
        return false;
    };
    raise(generations, n, to, goes_from(times, Along::Parents, to, n))
}

// Gives the number a generation if all its parents have one. Otherwise pushes the number again, and its first parent
// without a generation on top. Returns whether to go on. If more numbers wait than have links, there is a cycle.
fn go_on<'a>(
    links: &'a Links,
    times: &Times,
    generations: &mut Generations,
    step: Step<'a>,
    waiting: &mut Vec<Step<'a>>,
) -> bool
    requires { AreGenerations (record { links = links.now; times = times.now }) generations.old }
    ensures { AreGenerations (record { links = links.now; times = times.now }) generations.new }
{
    let Some(at) = first_without(generations, step.parents, step.next) else {
        return give(links, times, generations, step.number);
    };
    if waiting.len() >= links.room() {
        return false;
    }
    let Some(parent) = first_step(links, times, step.parents[at]) else {
        return false;
    };
    let again = Step {
        number: step.number,
        parents: step.parents,
        next: at + 1,
    };
    let Ok(()) = waiting.push(again) else {
        return false;
    };
    waiting.push(parent).is_ok()
}

// Gives a number and its ancestors generations, as far as their links are known.
fn climb(alloc: Global, links: &Links, times: &Times, generations: &mut Generations, root: u32)
    requires { AreGenerations (record { links = links.now; times = times.now }) generations.old }
    ensures { AreGenerations (record { links = links.now; times = times.now }) generations.new }
{
    if generations.at(root) > 1 {
        return;
    }
    let Some(first) = first_step(links, times, root) else {
        return;
    };
    let mut waiting = Vec::new(alloc);
    let Ok(()) = waiting.push(first) else {
        return;
    };
    'steps: for _ in 0..u64::MAX {
        let Some(step) = waiting.pop() else {
            return;
        };
        if !go_on(links, times, generations, step, &mut waiting) {
            return;
        }
    }
}

// Does the same for each of these numbers.
pub(crate) fn climb_all(
    alloc: Global,
    links: &Links,
    times: &Times,
    generations: &mut Generations,
    roots: &[u32],
)
    requires { AreGenerations (record { links = links.now; times = times.now }) generations.old }
    ensures { AreGenerations (record { links = links.now; times = times.now }) generations.new }
{
    for root in roots {
        climb(alloc, links, times, generations, *root);
    }
}
