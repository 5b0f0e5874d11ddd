// Sets the standing of one object with one tenant, and updates the count of the name's holders.
ghost use Rattle.std.specs.Prelude.{◌≡◌, ◌<◌, ◌+◌, ◌^◌, ◌||◌, ℕ, List, true, false, nat_eq, Some, IfSome, IfNone, if◌then◌else◌};
ghost use Rattle.std.specs.FinMap.{get};
ghost use Rattle.git_name.specs.Same.{same_name};
ghost use Rattle.number_links.specs.Numbers.{has, has_room};
ghost use Rattle.object_table.specs.Rows.{row_in};
ghost use Rattle.object_table.specs.Views.{IsOne, Moves, standing_by, word_by, word_in, words_of};

use crate::ledger::{Ledger, size_of};
use crate::row::Row;
use crate::table::Table;
use crate::word::{Standing, Word};
use git_name::Name;

// The standing of an object, by whether it is visible and whether it is staged.
fn standing(seen: bool, staged: bool) -> Option<Standing>
    ensures { result ≡ standing_by seen staged }
{
    match (seen, staged) {
        (true, true) => Some(Standing::Both),
        (true, false) => Some(Standing::Visible),
        (false, true) => Some(Standing::Staged),
        (false, false) => None,
    }
}

// What a tenant's ledger says about the object of a row.
pub(crate) fn word_of(ledger: &Ledger, row: Row) -> Option<Word>
    ensures { result ≡ word_in ledger.now row }
{
    let seen = ledger.sees(row.number);
    let staged = ledger.has_staged(row.number);
    let Some(standing) = standing(seen, staged) else {
        return None;
    };
    Some(Word {
        length: row.length,
        kind: row.kind,
        standing,
    })
}

fn either(a: bool, b: bool) -> bool
    ensures { result ≡ (a || b) }
{
    a || b
}

// A count of holders, updated for one tenant: `held` says whether it counted, and `holds` whether it counts now.
fn counted(count: usize, held: bool, holds: bool) -> usize
    requires fits { held ≡ false → holds ≡ true → count + 1 < 2 ^ 64 }
    requires there { held ≡ true → 0 < count }
    ensures { result + (if held then 1 else 0) ≡ count + (if holds then 1 else 0) }
{
    if held == holds {
        return count;
    }
    if held { count - 1 } else { count + 1 }
}

// Sets whether a tenant sees the object of a row, and whether it has staged it. Allocates nothing.
pub(crate) fn settle(table: &mut Table, own: &mut Ledger, row: Row, visible: bool, staged: bool)
    requires there { (name : List ℕ) × (row_in table.old.entries name ≡ Some row) }
    requires one { IsOne table.old.entries own.old }
    requires visible { visible ≡ true → has_room own.old.visible row.number ≡ true }
    requires staged { staged ≡ true → has_room own.old.staged row.number ≡ true }
    ensures words { (name : List ℕ) → row_in table.old.entries name ≡ Some row → (q : List ℕ) → get (words_of table.new.entries own.new) q ≡ (if same_name name q then word_by row visible staged else get (words_of table.old.entries own.old) q) }
    ensures moves { Moves table.old table.new own.old own.new }
    ensures one { IsOne table.new.entries own.new }
    ensures staged { (q : ℕ) → has own.new.staged q ≡ (if nat_eq q row.number then staged else has own.old.staged q) }
    ensures room { (q : ℕ) → has_room own.new.visible q ≡ has_room own.old.visible q }
    ensures waits { (q : ℕ) → has_room own.new.staged q ≡ has_room own.old.staged q }
{
    table.invariant();
    let held = own.holds(row.number);
    let holders = counted(row.holders, held, either(visible, staged));
    own.mark(row.number, size_of(row.length), visible, staged);
    table.write(Row {
        length: row.length,
        holders,
        number: row.number,
        kind: row.kind,
    });
}
