ghost use Rattle.std.specs.Prelude.{◌≡◌, ◌<◌, ◌≤◌, ℕ, IfSome, IfNone, true, false, ◌||◌, ◌&&◌, not, nat_eq};
ghost use Rattle.number_links.specs.Numbers.{has_bit};

// A word with one bit set.
pub(crate) fn with_bit(word: u64, k: u32) -> u64
    requires { k < 64 }
    ensures { (q : ℕ) → has_bit result q ≡ (nat_eq q k || has_bit word q) }
{
    word | 1 << k
}

// A word without one bit.
pub(crate) fn without_bit(word: u64, k: u32) -> u64
    requires { k < 64 }
    ensures { (q : ℕ) → has_bit result q ≡ (not (nat_eq q k) && has_bit word q) }
{
    word ^ (word & 1 << k)
}

// The bits of both.
pub(crate) fn either(a: u64, b: u64) -> u64
    ensures { (q : ℕ) → has_bit result q ≡ (has_bit a q || has_bit b q) }
{
    a | b
}

// The bits of the first that the second does not have.
pub(crate) fn less(a: u64, b: u64) -> u64
    ensures { (q : ℕ) → has_bit result q ≡ (not (has_bit b q) && has_bit a q) }
{
    a ^ (a & b)
}

// Whether a word has only bits that another one has.
pub(crate) fn is_part(a: u64, b: u64) -> bool
    ensures { result ≡ true → (q : ℕ) → has_bit a q ≡ true → has_bit b q ≡ true }
{
    less(a, b) == 0
}

// Whether a word has a bit.
pub(crate) fn is_set(word: u64, k: u32) -> bool
    requires { k < 64 }
    ensures { result ≡ has_bit word k }
{
    word >> k & 1 == 1
}

// The lowest bit of a word that is at least this one.
pub(crate) fn next_bit(word: u64, from: u32) -> Option<u32>
    ensures some { IfSome result (λ k. (k < 64) × (from ≤ k) × (has_bit word k ≡ true)) }
    ensures first { IfSome result (λ k. (q : ℕ) → from ≤ q → q < k → has_bit word q ≡ false) }
    ensures none { IfNone result ((q : ℕ) → from ≤ q → q < 64 → has_bit word q ≡ false) }
{
    for k in from..64 {
        if is_set(word, k) {
            return Some(k);
        }
    }
    None
}
