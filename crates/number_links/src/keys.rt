// Keys of numbers. A key has the generation in its high 32 bits and the number in its low 32 bits.
ghost use Rattle.std.specs.Prelude.{◌≡◌, ◌≤◌, ◌<◌, ◌⊎◌, ◌+◌, ◌*◌, ℕ, true, false, IfSome, IfNone};
ghost use Rattle.number_links.specs.Descent.{key_of, waits};

use crate::generations::Generations;
use std::collections::BTreeSet;

// The key of a number.
pub(crate) fn key_of(generations: &Generations, n: u32) -> u64
    ensures { result ≡ key_of generations.now n }
{
    generations.at(n) as u64 * 4294967296 + n as u64
}

// The number of a key.
pub(crate) fn number_of(key: u64) -> u32
    ensures { (generation n : ℕ) → key ≡ generation * 4294967296 + n → n < 4294967296 → result ≡ n }
{
    (key % 4294967296) as u32
}

// The greater of `at` and the last of these keys.
pub(crate) fn last_of(keys: &BTreeSet<u64>, at: u64) -> u64
    ensures most { (key : ℕ) → waits keys.now key ≡ true → key ≤ result }
    ensures least { at ≤ result }
    ensures among { (result ≡ at) ⊎ (waits keys.now result ≡ true) }
{
    let Some(last) = keys.last() else {
        return at;
    };
    if *last > at { *last } else { at }
}

// The last of these keys.
pub(crate) fn last_key(keys: &BTreeSet<u64>) -> Option<u64>
    ensures among { IfSome result (λ at. waits keys.now at ≡ true) }
    ensures most { IfSome result (λ at. (key : ℕ) → waits keys.now key ≡ true → key ≤ at) }
    ensures none { IfNone result ((key : ℕ) → waits keys.now key ≡ false) }
{
    let Some(last) = keys.last() else {
        return None;
    };
    Some(*last)
}

// The greatest key in either set, or `None` if one of the sets is empty.
pub(crate) fn last_of_both(a: &BTreeSet<u64>, b: &BTreeSet<u64>) -> Option<u64>
    ensures among { IfSome result (λ at. (waits a.now at ≡ true) ⊎ (waits b.now at ≡ true)) }
    ensures most_of_a { IfSome result (λ at. (key : ℕ) → waits a.now key ≡ true → key ≤ at) }
    ensures most_of_b { IfSome result (λ at. (key : ℕ) → waits b.now key ≡ true → key ≤ at) }
    ensures none { IfNone result (((key : ℕ) → waits a.now key ≡ false) ⊎ ((key : ℕ) → waits b.now key ≡ false)) }
{
    let Some(last) = a.last() else {
        return None;
    };
    if b.is_empty() {
        return None;
    }
    Some(last_of(b, *last))
}
