// Rebuilds a pool from its known records.
ghost use Rattle.std.specs.Prelude.{◌≡◌, ◌≢◌, ◌≤◌, ℕ, [], IfOk, OnOk, get_or, length};
ghost use Rattle.number_links.specs.Records.{AreRecords, IsCopied, IsRecord, told};

use crate::records::{UNKNOWN, read, write};
use std::alloc::AllocError;

// Copies the known records to another pool, as if each were learned now, and lists their places.
pub(crate) fn pack(
    clock: u32,
    renewed: &[u32],
    begins: &[u32],
    pool: &[u32],
    now_begins: &mut Vec<u32>,
    now_pool: &mut Vec<u32>,
) -> Result<(), AllocError>
    requires records { AreRecords clock renewed.now begins.now pool.now }
    requires begins { now_begins.old.items ≡ [] }
    requires pool { now_pool.old.items ≡ [] }
    ensures records { OnOk result (AreRecords clock renewed.now now_begins.new.items now_pool.new.items) }
    ensures told { OnOk result ((q : ℕ) → told renewed.now now_pool.new.items (get_or now_begins.new.items q 4294967295) ≡ told renewed.now pool.now (get_or begins.now q 4294967295)) }
{
    for begin in begins {
        let now = copy(clock, renewed, pool, *begin, now_pool)?;
        now_begins.push(now)?;
    }
    Ok(())
}

// Copies the record at a place to another pool if it is known, and returns its place there.
fn copy(
    clock: u32,
    renewed: &[u32],
    pool: &[u32],
    begin: u32,
    now_pool: &mut Vec<u32>,
) -> Result<u32, AllocError>
    requires by_now { (n : ℕ) → get_or renewed.now n 0 ≤ clock }
    requires place { begin ≢ 4294967295 → begin ≢ 4294967294 → IsRecord clock (length renewed.now) pool.now begin }
    requires few { length now_pool.old.items ≤ 4294967294 }
    ensures { IfOk result (λ now. IsCopied clock renewed.now pool.now begin now_pool.old.items now_pool.new.items now) }
{
    let Some(to) = read(clock, renewed, pool, begin) else {
        return Ok(UNKNOWN);
    };
    write(now_pool, clock, to)
}
