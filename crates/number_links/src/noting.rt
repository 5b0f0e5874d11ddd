ghost use Rattle.std.specs.Prelude.{[], ◌∷◌, OnOk};
ghost use Rattle.number_links.specs.Numbers.{has};
ghost use Rattle.number_links.specs.Reach.{past};
ghost use Rattle.number_links.specs.Seeing.{Sees};

use crate::number_set::NumberSet;
use std::alloc::AllocError;

// Adds a number to `seen` and `waiting` if it is allowed, not hidden, and not yet seen. A walk meets most numbers
// more than once, so `seen` is tested first.
pub(crate) fn note(
    allowed: &NumberSet,
    hidden: &NumberSet,
    n: u32,
    seen: &mut NumberSet,
    waiting: &mut Vec<u32>,
) -> Result<(), AllocError>
    ensures { OnOk result (Sees 4294967296 (past (has allowed.now) (has hidden.now)) (n ∷ []) (has seen.old) waiting.old.items (has seen.new) waiting.new.items) }
{
    if seen.contains(n) {
        return Ok(());
    }
    if hidden.contains(n) {
        return Ok(());
    }
    if !allowed.contains(n) {
        return Ok(());
    }
    waiting.push(n)?;
    seen.reserve(n)?;
    seen.insert(n);
    Ok(())
}

// Does the same for each of these numbers.
pub(crate) fn note_all(
    allowed: &NumberSet,
    hidden: &NumberSet,
    numbers: &[u32],
    seen: &mut NumberSet,
    waiting: &mut Vec<u32>,
) -> Result<(), AllocError>
    ensures { OnOk result (Sees 4294967296 (past (has allowed.now) (has hidden.now)) numbers.now (has seen.old) waiting.old.items (has seen.new) waiting.new.items) }
{
    for n in numbers {
        note(allowed, hidden, *n, seen, waiting)?;
    }
    Ok(())
}
