// The numbers of names, those in use first, and for each number its place.
ghost use Rattle.std.specs.Prelude.{◌≡◌, ◌<◌, ◌≤◌, ℕ, List, length, get_or, nat_eq, OnOk, if◌then◌else◌};
ghost use Rattle.object_table.specs.Numbers.{AreNoted};

use std::alloc::AllocError;

// Makes sure that there is a number at this place. Existing numbers stay, also on an `Err`.
pub(crate) fn extend(
    numbers: &mut Vec<u32>,
    places: &mut Vec<u32>,
    at: usize,
) -> Result<(), AllocError>
    requires noted { AreNoted numbers.old.items places.old.items }
    requires next { at ≤ length numbers.old.items }
    ensures noted { AreNoted numbers.new.items places.new.items }
    ensures ok { OnOk result (at < length numbers.new.items) }
    ensures long { length numbers.old.items ≤ length numbers.new.items }
    ensures kept { (i : ℕ) → i < length numbers.old.items → get_or numbers.new.items i 0 ≡ get_or numbers.old.items i 0 }
{
    let n = numbers.len();
    if at < n {
        return Ok(());
    }
    if n >= 4_294_967_295 {
        return Err(AllocError);
    }
    numbers.push(n as u32)?;
    let Ok(()) = places.push(n as u32) else {
        numbers.pop();
        return Err(AllocError);
    };
    Ok(())
}

// Swaps the places of two numbers.
pub(crate) fn switch(numbers: &mut Vec<u32>, places: &mut Vec<u32>, at: usize, last: usize)
    requires noted { AreNoted numbers.old.items places.old.items }
    requires at { at < length numbers.old.items }
    requires last { last < length numbers.old.items }
    ensures noted { AreNoted numbers.new.items places.new.items }
    ensures long { length numbers.new.items ≡ length numbers.old.items }
    ensures switched { (i : ℕ) → get_or numbers.new.items i 0 ≡ (if nat_eq i last then get_or numbers.old.items at 0 else if nat_eq i at then get_or numbers.old.items last 0 else get_or numbers.old.items i 0) }
{
    let n = numbers[at];
    let other = numbers[last];
    numbers[at] = other;
    numbers[last] = n;
    places[other as usize] = at as u32;
    places[n as usize] = last as u32;
}
