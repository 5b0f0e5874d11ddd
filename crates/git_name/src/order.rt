ghost use Rattle.std.specs.Prelude.{◌≡◌, ◌+◌, ◌≤◌, drop};
ghost use Rattle.std.specs.Cmp.Lexicographic.{slice_cmp};
ghost use Rattle.std.specs.Int.{from_be_bytes, w64};
ghost use Rattle.std.specs.Ordering.{nat_cmp};
ghost use Rattle.git_name.specs.Same.{same_name};

use std::cmp::Ordering;

/// Compares two names by their bytes. The first eight nearly always decide, so only these are compared inline.
#[inline]
pub(crate) fn order(left: &[u8; 32], right: &[u8; 32]) -> Ordering
    ensures { result ≡ slice_cmp nat_cmp left.now right.now }
{
    let (first, second) = (word(left, 0), word(right, 0));
    if first != second {
        return first.cmp(&second);
    }
    order_behind(left, right)
}

/// Whether two names are equal.
#[inline]
pub(crate) fn same(left: &[u8; 32], right: &[u8; 32]) -> bool
    ensures { result ≡ same_name left.now right.now }
{
    let first = word(left, 0) == word(right, 0);
    let second = word(left, 8) == word(right, 8);
    let third = word(left, 16) == word(right, 16);
    let fourth = word(left, 24) == word(right, 24);
    first & second & third & fourth
}

// Compares what follows the first eight bytes.
#[inline(never)]
fn order_behind(left: &[u8; 32], right: &[u8; 32]) -> Ordering
    ensures { result ≡ slice_cmp nat_cmp (drop 8 left.now) (drop 8 right.now) }
{
    let second = word(left, 8).cmp(&word(right, 8));
    let third = word(left, 16).cmp(&word(right, 16));
    let fourth = word(left, 24).cmp(&word(right, 24));
    second.then(third).then(fourth)
}

// Eight bytes as a big-endian number. Such numbers are ordered as their bytes are.
#[inline]
fn word(bytes: &[u8; 32], at: usize) -> u64
    requires { at + 8 ≤ 32 }
    ensures { result ≡ from_be_bytes w64 (drop at bytes.now) }
{
    u64::from_be_bytes([
        bytes[at],
        bytes[at + 1],
        bytes[at + 2],
        bytes[at + 3],
        bytes[at + 4],
        bytes[at + 5],
        bytes[at + 6],
        bytes[at + 7],
    ])
}
