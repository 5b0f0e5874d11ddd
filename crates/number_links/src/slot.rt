// Slots, each of which may have a page.
ghost use Rattle.std.specs.Prelude.{◌≡◌, ◌<◌, ◌≤◌, ℕ, ◌||◌, ◌&&◌, not, nat_eq, false, true, is_some, OnOk, IfSome, IfNone};
ghost use Rattle.number_links.specs.Numbers.{is_there};

use crate::page::Page;
use std::alloc::{AllocError, Global};

// Whether a number is in the slot's page.
pub(crate) fn contains(slot: &Option<Page>, k: u32) -> bool
    requires { k < 4096 }
    ensures { result ≡ is_there slot.now k }
{
    let Some(page) = slot else {
        return false;
    };
    page.contains(k)
}

// Allocates a page, unless there is one. No number is added.
pub(crate) fn fill(alloc: Global, slot: &mut Option<Page>) -> Result<(), AllocError>
    ensures numbers { (q : ℕ) → is_there slot.new q ≡ is_there slot.old q }
    ensures ok { OnOk result (is_some slot.new ≡ true) }
    ensures page { is_some slot.old ≡ true → is_some slot.new ≡ true }
{
    if slot.is_some() {
        return Ok(());
    }
    let page = Page::new(alloc)?;
    *slot = Some(page);
    Ok(())
}

// The same, if another slot has a page.
pub(crate) fn fill_like(
    alloc: Global,
    slot: &mut Option<Page>,
    other: &Option<Page>,
) -> Result<(), AllocError>
    ensures numbers { (q : ℕ) → is_there slot.new q ≡ is_there slot.old q }
    ensures ok { OnOk result (is_some other.now ≡ true → is_some slot.new ≡ true) }
    ensures page { is_some slot.old ≡ true → is_some slot.new ≡ true }
{
    if other.is_none() {
        return Ok(());
    }
    fill(alloc, slot)
}

// Adds a number.
pub(crate) fn insert(slot: &mut Option<Page>, k: u32)
    requires page { is_some slot.old ≡ true }
    requires small { k < 4096 }
    ensures numbers { (q : ℕ) → is_there slot.new q ≡ (nat_eq q k || is_there slot.old q) }
    ensures page { is_some slot.new ≡ is_some slot.old }
{
    let Some(page) = slot else {
        return;
    };
    page.insert(k);
}

// Removes a number.
pub(crate) fn remove(slot: &mut Option<Page>, k: u32)
    requires { k < 4096 }
    ensures numbers { (q : ℕ) → is_there slot.new q ≡ (not (nat_eq q k) && is_there slot.old q) }
    ensures page { is_some slot.new ≡ is_some slot.old }
{
    let Some(page) = slot else {
        return;
    };
    page.remove(k);
}

// Adds the numbers of another slot.
pub(crate) fn unite(slot: &mut Option<Page>, other: &Option<Page>)
    requires { is_some other.now ≡ true → is_some slot.old ≡ true }
    ensures numbers { (q : ℕ) → is_there slot.new q ≡ (is_there slot.old q || is_there other.now q) }
    ensures page { is_some slot.new ≡ is_some slot.old }
{
    let Some(other) = other else {
        return;
    };
    let Some(page) = slot else {
        return;
    };
    page.unite(other);
}

// Removes the numbers of another slot.
pub(crate) fn subtract(slot: &mut Option<Page>, other: &Option<Page>)
    ensures numbers { (q : ℕ) → is_there slot.new q ≡ (not (is_there other.now q) && is_there slot.old q) }
    ensures page { is_some slot.new ≡ is_some slot.old }
{
    let Some(other) = other else {
        return;
    };
    let Some(page) = slot else {
        return;
    };
    page.subtract(other);
}

// Whether each number is in another slot's page. A page counts as not empty.
pub(crate) fn is_within(slot: &Option<Page>, other: &Option<Page>) -> bool
    ensures { result ≡ true → (q : ℕ) → is_there slot.now q ≡ true → is_there other.now q ≡ true }
{
    let Some(page) = slot else {
        return true;
    };
    let Some(other) = other else {
        return false;
    };
    page.is_within(other)
}

// The smallest number that is at least this one.
pub(crate) fn next(slot: &Option<Page>, from: u32) -> Option<u32>
    ensures some { IfSome result (λ k. (k < 4096) × (from ≤ k) × (is_there slot.now k ≡ true)) }
    ensures first { IfSome result (λ k. (q : ℕ) → from ≤ q → q < k → is_there slot.now q ≡ false) }
    ensures none { IfNone result ((q : ℕ) → from ≤ q → q < 4096 → is_there slot.now q ≡ false) }
{
    let Some(page) = slot else {
        return None;
    };
    page.next(from)
}

// The smallest number that is at least this one and not in another slot's page.
pub(crate) fn next_beyond(slot: &Option<Page>, other: &Option<Page>, from: u32) -> Option<u32>
    ensures some { IfSome result (λ k. (k < 4096) × (from ≤ k) × ((not (is_there other.now k) && is_there slot.now k) ≡ true)) }
    ensures first { IfSome result (λ k. (q : ℕ) → from ≤ q → q < k → (not (is_there other.now q) && is_there slot.now q) ≡ false) }
    ensures none { IfNone result ((q : ℕ) → from ≤ q → q < 4096 → (not (is_there other.now q) && is_there slot.now q) ≡ false) }
{
    let Some(page) = slot else {
        return None;
    };
    let Some(other) = other else {
        return page.next(from);
    };
    page.next_beyond(other, from)
}
