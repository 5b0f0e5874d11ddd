// A pool of records. A record has the clock when it was learned, the count of its numbers, and the numbers.
ghost use Rattle.std.specs.Prelude.{◌≡◌, ◌≢◌, ◌≤◌, ◌+◌, ℕ, Some, None, IfOk, IfSome, IfNone, OnErr, get_or, length};
ghost use Rattle.number_links.specs.Records.{IsWritten, are_still, told};

use crate::lists::get;
use std::alloc::AllocError;

// The place for no record.
pub(crate) const UNKNOWN: u32 = 4294967295;

// The place of every record without numbers.
pub(crate) const EMPTY: u32 = 4294967294;

// Appends a record, and returns its place.
pub(crate) fn write(pool: &mut Vec<u32>, clock: u32, to: &[u32]) -> Result<u32, AllocError>
    requires { length pool.old.items ≤ 4294967294 }
    ensures ok { IfOk result (λ begin. IsWritten clock to.now pool.old.items pool.new.items begin) }
    ensures err { OnErr result (pool.new.items ≡ pool.old.items) }
{
    if to.is_empty() {
        return Ok(EMPTY);
    }
    let begin = pool.len();
    if to.len() > EMPTY as usize - begin || to.len() + 2 > EMPTY as usize - begin {
        return Err(AllocError);
    }
    pool.reserve(to.len() + 2)?;
    pool.push_reserved(clock);
    pool.push_reserved(to.len() as u32);
    pool.extend_from_slice(to)?;
    Ok(begin as u32)
}

// The numbers of the record at a place, or `None` if one of them was renewed since it was learned.
pub(crate) fn read<'a>(
    clock: u32,
    renewed: &[u32],
    pool: &'a [u32],
    begin: u32,
) -> Option<&'a [u32]>
    requires by_now { (n : ℕ) → get_or renewed.now n 0 ≤ clock }
    requires place { begin ≢ 4294967295 → begin ≢ 4294967294 → begin + 2 + get_or pool.now (begin + 1) 0 ≤ length pool.now }
    ensures some { IfSome result (λ to. told renewed.now pool.now begin ≡ Some to.now) }
    ensures none { IfNone result (told renewed.now pool.now begin ≡ None) }
{
    if begin == UNKNOWN {
        return None;
    }
    if begin == EMPTY {
        return Some(&[]);
    }
    let start = begin as usize;
    let count = pool[start + 1] as usize;
    let to = &pool[start + 2..start + 2 + count];
    if !is_still(clock, renewed, pool[start], to) {
        return None;
    }
    Some(to)
}

// Whether none of these numbers was renewed after the clock `learned`.
fn is_still(clock: u32, renewed: &[u32], learned: u32, numbers: &[u32]) -> bool
    requires { (n : ℕ) → get_or renewed.now n 0 ≤ clock }
    ensures { result ≡ are_still renewed.now learned numbers.now }
{
    if learned == clock {
        return true;
    }
    for n in numbers {
        if get(renewed, *n, 0) > learned {
            return false;
        }
    }
    true
}

// How many words the record at a place takes in the pool.
pub(crate) fn words(pool: &[u32], begin: u32) -> usize {
    let at = begin as usize + 1;
    if at >= pool.len() {
        return 0;
    }
    pool[at] as usize + 2
}
