ghost use Rattle.std.specs.Prelude.{◌≡◌, ◌<◌, ◌≤◌, ℕ, ◌||◌, ◌&&◌, not, nat_eq, false, true, IfSome, IfNone, OnOk, OnErr, None, get_or, is_some, length};
ghost use Rattle.number_links.specs.Numbers.{HasRoomOf, Pages, has, has_room, is_there};

use crate::page::Page;
use crate::slot;
use std::alloc::{AllocError, Global};
use std::marker::Model;

/// A set of numbers, one bit for each. 4,096 numbers share a page. A page that no number needed takes only a
/// pointer.
#[derive(Drop)]
pub struct NumberSet {
    pages: Vec<Option<Page>>,
}

impl Model for NumberSet {
    ghost use Rattle.std.specs.Prelude.{◌≤◌, length};
    ghost use Rattle.number_links.specs.Numbers.{Pages};

    ghost Value = { Pages };

    ghost view = { λ a. a.pages.items };

    ghost invariant = { λ a. length a.pages.items ≤ 1048576 };
}

impl NumberSet {
    /// The empty set.
    pub fn new(alloc: Global) -> NumberSet
        ensures has { (q : ℕ) → has result q ≡ false }
        ensures room { (q : ℕ) → has_room result q ≡ false }
    {
        NumberSet {
            pages: Vec::new(alloc),
        }
    }

    /// Whether a number is in the set.
    pub fn contains(&self, n: u32) -> bool
        ensures { result ≡ has self.now n }
    {
        let at = n as usize / 4096;
        if at >= self.pages.len() {
            return false;
        }
        slot::contains(&self.pages[at], n % 4096)
    }

    /// Reserves room for a number. The set does not change.
    pub fn reserve(&mut self, n: u32) -> Result<(), AllocError>
        ensures has { (q : ℕ) → has self.new q ≡ has self.old q }
        ensures ok { OnOk result (has_room self.new n ≡ true) }
        ensures room { HasRoomOf self.old self.new }
        ensures least { (other : Pages) → HasRoomOf self.old other → has_room other n ≡ true → HasRoomOf self.new other }
    {
        let alloc = *self.pages.allocator();
        let at = n as usize / 4096;
        lengthen(&mut self.pages, at)?;
        slot::fill(alloc, &mut self.pages[at])
    }

    /// Reserves room for each number of another set. The set does not change.
    pub fn reserve_all(&mut self, other: &NumberSet) -> Result<(), AllocError>
        ensures has { (q : ℕ) → has self.new q ≡ has self.old q }
        ensures ok { OnOk result (HasRoomOf other.now self.new) }
    {
        let alloc = *self.pages.allocator();
        for at in 0..other.pages.len() {
            fill_at(alloc, &mut self.pages, at, &other.pages[at])?;
        }
        Ok(())
    }

    /// Adds a number, unless it has no room. It allocates nothing.
    pub fn insert(&mut self, n: u32)
        ensures has { has_room self.old n ≡ true → (q : ℕ) → has self.new q ≡ (nat_eq q n || has self.old q) }
        ensures room { (q : ℕ) → has_room self.new q ≡ has_room self.old q }
        ensures kept { has_room self.old n ≡ false → self.new ≡ self.old }
    {
        if !self.has_page(n as usize / 4096) {
            return;
        }
        slot::insert(&mut self.pages[n as usize / 4096], n % 4096);
    }

    /// Adds a number, whether it has room or not.
    pub fn add(&mut self, n: u32) -> Result<(), AllocError>
        ensures ok { OnOk result ((q : ℕ) → has self.new q ≡ (nat_eq q n || has self.old q)) }
        ensures err { OnErr result ((q : ℕ) → has self.new q ≡ has self.old q) }
        ensures room { HasRoomOf self.old self.new }
        ensures least { (other : Pages) → HasRoomOf self.old other → has_room other n ≡ true → HasRoomOf self.new other }
    {
        if self.has_page(n as usize / 4096) {
            self.insert(n);
            return Ok(());
        }
        self.reserve(n)?;
        self.insert(n);
        Ok(())
    }

    /// Removes a number.
    pub fn remove(&mut self, n: u32)
        ensures has { (q : ℕ) → has self.new q ≡ (not (nat_eq q n) && has self.old q) }
        ensures room { (q : ℕ) → has_room self.new q ≡ has_room self.old q }
    {
        let at = n as usize / 4096;
        if at >= self.pages.len() {
            return;
        }
        slot::remove(&mut self.pages[at], n % 4096);
    }

    /// Adds each number of another set, if there is room wherever the other set has room. It allocates nothing.
    pub fn unite(&mut self, other: &NumberSet)
        ensures has { HasRoomOf other.now self.old → (q : ℕ) → has self.new q ≡ (has self.old q || has other.now q) }
        ensures room { (q : ℕ) → has_room self.new q ≡ has_room self.old q }
        ensures kept { (n : ℕ) → has_room other.now n ≡ true → has_room self.old n ≡ false → self.new ≡ self.old }
    {
        if !self.has_pages_of(other) {
            return;
        }
        for at in 0..self.pages.len().min(other.pages.len()) {
            slot::unite(&mut self.pages[at], &other.pages[at]);
        }
    }

    /// Removes each number of another set.
    pub fn subtract(&mut self, other: &NumberSet)
        ensures has { (q : ℕ) → has self.new q ≡ (not (has other.now q) && has self.old q) }
        ensures room { (q : ℕ) → has_room self.new q ≡ has_room self.old q }
    {
        for at in 0..self.pages.len().min(other.pages.len()) {
            slot::subtract(&mut self.pages[at], &other.pages[at]);
        }
    }

    /// Whether each number of the set is in another one. It may return `false` for a subset, if the set has a page
    /// from which all numbers were removed.
    pub fn is_within(&self, other: &NumberSet) -> bool
        ensures { result ≡ true → (q : ℕ) → has self.now q ≡ true → has other.now q ≡ true }
    {
        let common = self.pages.len().min(other.pages.len());
        for at in 0..common {
            if !slot::is_within(&self.pages[at], &other.pages[at]) {
                return false;
            }
        }
        for at in common..self.pages.len() {
            if self.pages[at].is_some() {
                return false;
            }
        }
        true
    }

    /// Removes all numbers, and frees their pages.
    pub fn clear(&mut self)
        ensures has { (q : ℕ) → has self.new q ≡ false }
        ensures room { (q : ℕ) → has_room self.new q ≡ false }
    {
        self.pages.clear();
        self.pages.shrink_to_fit();
    }

    // Whether there is a page at a place.
    fn has_page(&self, at: usize) -> bool
        ensures { result ≡ is_some (get_or self.now at None) }
    {
        if at >= self.pages.len() {
            return false;
        }
        self.pages[at].is_some()
    }

    // Whether there is a page wherever another set has one.
    fn has_pages_of(&self, other: &NumberSet) -> bool
        ensures all { result ≡ true → HasRoomOf other.now self.now }
        ensures lacks { result ≡ false → HasRoomOf other.now self.now → ⊥ }
    {
        for at in 0..other.pages.len() {
            if other.pages[at].is_none() {
                continue;
            }
            if !self.has_page(at) {
                return false;
            }
        }
        true
    }

    /// The smallest number of the set that is at least this one.
    pub fn next(&self, from: u32) -> Option<u32>
        ensures some { IfSome result (λ n. (from ≤ n) × (has self.now n ≡ true)) }
        ensures first { IfSome result (λ n. (q : ℕ) → from ≤ q → q < n → has self.now q ≡ false) }
        ensures none { IfNone result ((q : ℕ) → from ≤ q → has self.now q ≡ false) }
    {
        let mut begin = from as usize;
        while begin / 4096 < self.pages.len() {
            let at = begin / 4096;
            if let Some(k) = slot::next(&self.pages[at], (begin % 4096) as u32) {
                return Some((at * 4096) as u32 + k);
            }
            begin = at * 4096 + 4096;
        }
        None
    }

    /// The smallest number of the set that is at least this one and not in another set.
    pub fn next_beyond(&self, other: &NumberSet, from: u32) -> Option<u32>
        ensures some { IfSome result (λ n. (from ≤ n) × ((not (has other.now n) && has self.now n) ≡ true)) }
        ensures first { IfSome result (λ n. (q : ℕ) → from ≤ q → q < n → (not (has other.now q) && has self.now q) ≡ false) }
        ensures none { IfNone result ((q : ℕ) → from ≤ q → (not (has other.now q) && has self.now q) ≡ false) }
    {
        let mut begin = from as usize;
        while begin / 4096 < self.pages.len() {
            let at = begin / 4096;
            let within = (begin % 4096) as u32;
            if let Some(k) = next_at(self.pages.as_slice(), other.pages.as_slice(), at, within) {
                return Some((at * 4096) as u32 + k);
            }
            begin = at * 4096 + 4096;
        }
        None
    }
}

// The smallest number of the page at a place that is at least this one and not in the page that is there in another list.
fn next_at(pages: &[Option<Page>], others: &[Option<Page>], at: usize, from: u32) -> Option<u32>
    requires { at < length pages.now }
    ensures some { IfSome result (λ k. (k < 4096) × (from ≤ k) × ((not (is_there (get_or others.now at None) k) && is_there (get_or pages.now at None) k) ≡ true)) }
    ensures first { IfSome result (λ k. (q : ℕ) → from ≤ q → q < k → (not (is_there (get_or others.now at None) q) && is_there (get_or pages.now at None) q) ≡ false) }
    ensures none { IfNone result ((q : ℕ) → from ≤ q → q < 4096 → (not (is_there (get_or others.now at None) q) && is_there (get_or pages.now at None) q) ≡ false) }
{
    if at >= others.len() {
        return slot::next(&pages[at], from);
    }
    slot::next_beyond(&pages[at], &others[at], from)
}

// Makes the list of pages long enough for this page.
fn lengthen(pages: &mut Vec<Option<Page>>, at: usize) -> Result<(), AllocError>
    requires { at < 1048576 }
    ensures slots { (i : ℕ) → get_or pages.new.items i None ≡ get_or pages.old.items i None }
    ensures ok { OnOk result (at < length pages.new.items) }
    ensures few { length pages.old.items ≤ 1048576 → length pages.new.items ≤ 1048576 }
{
    while pages.len() <= at {
        pages.push(None)?;
    }
    Ok(())
}

// Allocates the page at this place, if another place has one. No number is added.
fn fill_at(
    alloc: Global,
    pages: &mut Vec<Option<Page>>,
    at: usize,
    other: &Option<Page>,
) -> Result<(), AllocError>
    requires { at < 1048576 }
    ensures there { (i k : ℕ) → is_there (get_or pages.new.items i None) k ≡ is_there (get_or pages.old.items i None) k }
    ensures ok { OnOk result (is_some other.now ≡ true → is_some (get_or pages.new.items at None) ≡ true) }
    ensures kept { (i : ℕ) → is_some (get_or pages.old.items i None) ≡ true → is_some (get_or pages.new.items i None) ≡ true }
    ensures few { length pages.old.items ≤ 1048576 → length pages.new.items ≤ 1048576 }
{
    lengthen(pages, at)?;
    slot::fill_like(alloc, &mut pages[at], other)
}
