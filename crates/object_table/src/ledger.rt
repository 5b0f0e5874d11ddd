ghost use Rattle.std.specs.Prelude.{◌≡◌, ◌<◌, ◌≤◌, ◌+◌, ◌^◌, ◌||◌, ◌&&◌, not, ℕ, true, false, nat_eq, OnOk, IfSome, IfNone, if◌then◌else◌};
ghost use Rattle.number_links.specs.Numbers.{has, has_room};
ghost use Rattle.object_table.specs.Views.{holds};

use fork_reach::OBJECT_USE;
use number_links::NumberSet;
use std::alloc::{AllocError, Global};
use std::marker::Model;

/// The numbers of the objects that a tenant sees and of those that it has staged, the use of the first, and the use
/// of both, in bytes.
#[derive(Drop)]
pub(crate) struct Ledger {
    visible: NumberSet,
    staged: NumberSet,
    used: u128,
    total: u128,
}

impl Model for Ledger {
    ghost use Rattle.number_links.specs.Numbers.{HasRoomOf};
    ghost use Rattle.object_table.specs.Views.{Sets, sets_code};

    ghost Value = { Sets };

    ghost coded = { sets_code };

    ghost view = { λ a. record { visible = a.visible; staged = a.staged; used = a.used; total = a.total } };

    ghost invariant = { λ a. HasRoomOf a.staged a.visible };
}

impl Ledger {
    /// An empty ledger.
    pub(crate) fn new(alloc: Global) -> Ledger
        ensures visible { (q : ℕ) → has result.visible q ≡ false }
        ensures staged { (q : ℕ) → has result.staged q ≡ false }
        ensures used { result.used ≡ 0 }
        ensures total { result.total ≡ 0 }
    {
        Ledger {
            visible: NumberSet::new(alloc),
            staged: NumberSet::new(alloc),
            used: 0,
            total: 0,
        }
    }

    /// Whether the tenant sees the object of a number.
    pub(crate) fn sees(&self, n: u32) -> bool
        ensures { result ≡ has self.now.visible n }
    {
        self.visible.contains(n)
    }

    /// The numbers of the objects that the tenant sees.
    pub(crate) fn visible(&self) -> &NumberSet
        ensures { result.now ≡ self.now.visible }
    {
        &self.visible
    }

    /// Whether the tenant has staged the object of a number.
    pub(crate) fn has_staged(&self, n: u32) -> bool
        ensures { result ≡ has self.now.staged n }
    {
        self.staged.contains(n)
    }

    /// Whether the tenant sees the object of a number or has staged it.
    pub(crate) fn holds(&self, n: u32) -> bool
        ensures { result ≡ holds self.now n }
    {
        self.visible.contains(n) || self.staged.contains(n)
    }

    /// The smallest visible number that is at least `from`.
    pub(crate) fn next_seen(&self, from: u32) -> Option<u32>
        ensures some { IfSome result (λ n. (from ≤ n) × (has self.now.visible n ≡ true)) }
        ensures first { IfSome result (λ n. (q : ℕ) → from ≤ q → q < n → has self.now.visible q ≡ false) }
        ensures none { IfNone result ((q : ℕ) → from ≤ q → has self.now.visible q ≡ false) }
    {
        self.visible.next(from)
    }

    /// The smallest visible number that is at least `from` and not in this set.
    pub(crate) fn next_beyond(&self, numbers: &NumberSet, from: u32) -> Option<u32>
        ensures some { IfSome result (λ n. (from ≤ n) × ((not (has numbers.now n) && has self.now.visible n) ≡ true)) }
        ensures first { IfSome result (λ n. (q : ℕ) → from ≤ q → q < n → (not (has numbers.now q) && has self.now.visible q) ≡ false) }
        ensures none { IfNone result ((q : ℕ) → from ≤ q → (not (has numbers.now q) && has self.now.visible q) ≡ false) }
    {
        self.visible.next_beyond(numbers, from)
    }

    /// The smallest staged number that is at least `from`.
    pub(crate) fn next_staged(&self, from: u32) -> Option<u32>
        ensures some { IfSome result (λ n. (from ≤ n) × (has self.now.staged n ≡ true)) }
        ensures first { IfSome result (λ n. (q : ℕ) → from ≤ q → q < n → has self.now.staged q ≡ false) }
        ensures none { IfNone result ((q : ℕ) → from ≤ q → has self.now.staged q ≡ false) }
    {
        self.staged.next(from)
    }

    /// The use of the objects that the tenant sees, in bytes.
    pub(crate) fn used(&self) -> u128
        ensures { result ≡ self.now.used }
    {
        self.used
    }

    /// The use of the objects that the tenant sees or has staged, in bytes.
    pub(crate) fn total(&self) -> u128
        ensures { result ≡ self.now.total }
    {
        self.total
    }

    /// Reserves room for a number in both sets. The tenant's objects stay as they are.
    pub(crate) fn reserve(&mut self, n: u32) -> Result<(), AllocError>
        ensures visible { (q : ℕ) → has self.new.visible q ≡ has self.old.visible q }
        ensures staged { (q : ℕ) → has self.new.staged q ≡ has self.old.staged q }
        ensures used { self.new.used ≡ self.old.used }
        ensures total { self.new.total ≡ self.old.total }
        ensures ok { OnOk result ((has_room self.new.visible n ≡ true) × (has_room self.new.staged n ≡ true)) }
        ensures room { (q : ℕ) → has_room self.old.visible q ≡ true → has_room self.new.visible q ≡ true }
        ensures waits { (q : ℕ) → has_room self.old.staged q ≡ true → has_room self.new.staged q ≡ true }
    {
        self.visible.reserve(n)?;
        self.staged.reserve(n)
    }

    /// Sets whether the tenant sees the object of a number, and whether it has staged it. `size` is the object's use.
    /// Allocates nothing.
    pub(crate) fn mark(&mut self, n: u32, size: u128, visible: bool, staged: bool)
        requires visible { visible ≡ true → has_room self.old.visible n ≡ true }
        requires staged { staged ≡ true → has_room self.old.staged n ≡ true }
        requires within { (if has self.old.visible n then size else 0) ≤ self.old.used }
        requires both { (if holds self.old n then size else 0) ≤ self.old.total }
        requires fits { self.old.used + (if visible then size else 0) < 2 ^ 128 + (if has self.old.visible n then size else 0) }
        requires all_fit { self.old.total + (if visible || staged then size else 0) < 2 ^ 128 + (if holds self.old n then size else 0) }
        ensures visible { (q : ℕ) → has self.new.visible q ≡ (if nat_eq q n then visible else has self.old.visible q) }
        ensures staged { (q : ℕ) → has self.new.staged q ≡ (if nat_eq q n then staged else has self.old.staged q) }
        ensures used { self.new.used + (if has self.old.visible n then size else 0) ≡ self.old.used + (if visible then size else 0) }
        ensures total { self.new.total + (if holds self.old n then size else 0) ≡ self.old.total + (if visible || staged then size else 0) }
        ensures room { (q : ℕ) → has_room self.new.visible q ≡ has_room self.old.visible q }
        ensures waits { (q : ℕ) → has_room self.new.staged q ≡ has_room self.old.staged q }
    {
        let saw = self.visible.contains(n);
        let held = saw || self.staged.contains(n);
        self.used = moved(self.used, size, saw, visible);
        self.total = moved(self.total, size, held, visible || staged);
        set(&mut self.visible, n, visible);
        set(&mut self.staged, n, staged);
    }

    /// Makes what is staged visible. Allocates nothing.
    pub(crate) fn publish(&mut self)
        ensures visible { (q : ℕ) → has self.new.visible q ≡ (has self.old.visible q || has self.old.staged q) }
        ensures staged { (q : ℕ) → has self.new.staged q ≡ false }
        ensures used { self.new.used ≡ self.old.total }
        ensures total { self.new.total ≡ self.old.total }
    {
        self.visible.unite(&self.staged);
        self.staged.clear();
        self.used = self.total;
    }

    /// Frees the room for staged numbers. No number may be staged.
    pub(crate) fn end_staging(&mut self)
        requires { (q : ℕ) → has self.old.staged q ≡ false }
        ensures visible { self.new.visible ≡ self.old.visible }
        ensures staged { (q : ℕ) → has self.new.staged q ≡ false }
        ensures used { self.new.used ≡ self.old.used }
        ensures total { self.new.total ≡ self.old.total }
    {
        self.staged.clear();
    }
}

// Adds a number to a set, or removes it.
fn set(numbers: &mut NumberSet, n: u32, is_in: bool)
    requires { is_in ≡ true → has_room numbers.old n ≡ true }
    ensures has { (q : ℕ) → has numbers.new q ≡ (if nat_eq q n then is_in else has numbers.old q) }
    ensures room { (q : ℕ) → has_room numbers.new q ≡ has_room numbers.old q }
{
    if is_in {
        numbers.insert(n);
    } else {
        numbers.remove(n);
    }
}

// Updates a sum of use for one object: `was` says whether the object counted, and `is` whether it counts now.
fn moved(sum: u128, size: u128, was: bool, is: bool) -> u128
    requires within { (if was then size else 0) ≤ sum }
    requires fits { sum + (if is then size else 0) < 2 ^ 128 + (if was then size else 0) }
    ensures { result + (if was then size else 0) ≡ sum + (if is then size else 0) }
{
    if was == is {
        return sum;
    }
    if was { sum - size } else { sum + size }
}

/// The use of an object with this length of content, in bytes.
pub(crate) fn size_of(length: u64) -> u128
    ensures { result ≡ length + OBJECT_USE }
{
    length as u128 + OBJECT_USE as u128
}
