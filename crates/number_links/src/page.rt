ghost use Rattle.std.specs.Prelude.{◌≡◌, ◌<◌, ◌≤◌, ℕ, ◌||◌, ◌&&◌, not, nat_eq, false, true, IfOk, IfSome, IfNone};
ghost use Rattle.number_links.specs.Numbers.{is_in};

use crate::words::{either, is_part, is_set, less, next_bit, with_bit, without_bit};
use std::alloc::{AllocError, Global};
use std::boxed::Box;
use std::marker::Model;

// 4,096 consecutive numbers, one bit for each.
#[derive(Drop)]
pub(crate) struct Page {
    words: Box<[u64; 64]>,
}

impl Model for Page {
    ghost use Rattle.std.specs.Prelude.{◌≡◌, List, ℕ, length};

    ghost Value = { List ℕ };

    ghost view = { λ a. a.words.value };

    ghost invariant = { λ a. length a.words.value ≡ 64 };
}

impl Page {
    // No numbers.
    pub(crate) fn new(alloc: Global) -> Result<Page, AllocError>
        ensures { IfOk result (λ page. (q : ℕ) → is_in page q ≡ false) }
    {
        let words = Box::new(alloc, [0u64; 64])?;
        Ok(Page { words })
    }

    // Whether a number is in the page.
    pub(crate) fn contains(&self, k: u32) -> bool
        requires { k < 4096 }
        ensures { result ≡ is_in self.now k }
    {
        is_set(self.words[k as usize / 64], k % 64)
    }

    // Adds a number.
    pub(crate) fn insert(&mut self, k: u32)
        requires { k < 4096 }
        ensures { (q : ℕ) → is_in self.new q ≡ (nat_eq q k || is_in self.old q) }
    {
        let at = k as usize / 64;
        self.words[at] = with_bit(self.words[at], k % 64);
    }

    // Removes a number.
    pub(crate) fn remove(&mut self, k: u32)
        requires { k < 4096 }
        ensures { (q : ℕ) → is_in self.new q ≡ (not (nat_eq q k) && is_in self.old q) }
    {
        let at = k as usize / 64;
        self.words[at] = without_bit(self.words[at], k % 64);
    }

    // Adds the numbers of another page.
    pub(crate) fn unite(&mut self, other: &Page)
        ensures { (q : ℕ) → is_in self.new q ≡ (is_in self.old q || is_in other.now q) }
    {
        for at in 0..64 {
            self.words[at] = either(self.words[at], other.words[at]);
        }
    }

    // Removes the numbers of another page.
    pub(crate) fn subtract(&mut self, other: &Page)
        ensures { (q : ℕ) → is_in self.new q ≡ (not (is_in other.now q) && is_in self.old q) }
    {
        for at in 0..64 {
            self.words[at] = less(self.words[at], other.words[at]);
        }
    }

    // Whether each number is in another page.
    pub(crate) fn is_within(&self, other: &Page) -> bool
        ensures { result ≡ true → (q : ℕ) → is_in self.now q ≡ true → is_in other.now q ≡ true }
    {
        for at in 0..64 {
            if !is_part(self.words[at], other.words[at]) {
                return false;
            }
        }
        true
    }

    // The smallest number that is at least this one.
    pub(crate) fn next(&self, from: u32) -> Option<u32>
        ensures some { IfSome result (λ k. (k < 4096) × (from ≤ k) × (is_in self.now k ≡ true)) }
        ensures first { IfSome result (λ k. (q : ℕ) → from ≤ q → q < k → is_in self.now q ≡ false) }
        ensures none { IfNone result ((q : ℕ) → from ≤ q → q < 4096 → is_in self.now q ≡ false) }
    {
        let mut begin = from;
        while begin < 4096 {
            let at = begin as usize / 64;
            if let Some(k) = next_bit(self.words[at], begin % 64) {
                return Some(at as u32 * 64 + k);
            }
            begin = at as u32 * 64 + 64;
        }
        None
    }

    // The smallest number that is at least this one and not in another page.
    pub(crate) fn next_beyond(&self, other: &Page, from: u32) -> Option<u32>
        ensures some { IfSome result (λ k. (k < 4096) × (from ≤ k) × ((not (is_in other.now k) && is_in self.now k) ≡ true)) }
        ensures first { IfSome result (λ k. (q : ℕ) → from ≤ q → q < k → (not (is_in other.now q) && is_in self.now q) ≡ false) }
        ensures none { IfNone result ((q : ℕ) → from ≤ q → q < 4096 → (not (is_in other.now q) && is_in self.now q) ≡ false) }
    {
        let mut begin = from;
        while begin < 4096 {
            let at = begin as usize / 64;
            let word = less(self.words[at], other.words[at]);
            if let Some(k) = next_bit(word, begin % 64) {
                return Some(at as u32 * 64 + k);
            }
            begin = at as u32 * 64 + 64;
        }
        None
    }
}
