// Stages objects for one tenant, or makes them visible to it. Room is reserved first, so that nothing can fail
// halfway.
ghost use Rattle.std.specs.Prelude.{◌≡◌, true, ℕ, OnErr, OnOk};
ghost use Rattle.std.specs.List.{All};
ghost use Rattle.number_links.specs.Numbers.{has_room};
ghost use Rattle.object_table.specs.AllStaged.{all_staged_words};
ghost use Rattle.object_table.specs.Clashes.{HasRow};
ghost use Rattle.object_table.specs.Coming.{all_seen_words, seen_words};
ghost use Rattle.object_table.specs.Views.{HasRoom, IsOne, Moves, SameSets, words_of};
ghost use Rattle.object_table.specs.Words.{staged_words};

use crate::entry::Entry;
use crate::ledger::Ledger;
use crate::settling::settle;
use crate::table::Table;
use std::alloc::AllocError;

// Reserves room for the number of an entry's name. The tenant's objects stay as they are.
fn reserve(table: &Table, own: &mut Ledger, entry: Entry) -> Result<(), AllocError>
    ensures same { SameSets own.old own.new }
    ensures ok { OnOk result (HasRoom table.now.entries own.new entry.name) }
    ensures room { (q : ℕ) → has_room own.old.visible q ≡ true → has_room own.new.visible q ≡ true }
    ensures waits { (q : ℕ) → has_room own.old.staged q ≡ true → has_room own.new.staged q ≡ true }
{
    let Some(row) = table.row(entry.name) else {
        return Ok(());
    };
    own.reserve(row.number)
}

// Does the same for each entry.
fn reserve_all(table: &Table, own: &mut Ledger, entries: &[Entry]) -> Result<(), AllocError>
    ensures same { SameSets own.old own.new }
    ensures ok { OnOk result (All (λ entry. HasRoom table.now.entries own.new entry.name) entries.now) }
{
    for entry in entries {
        reserve(table, own, *entry)?;
    }
    Ok(())
}

// Stages the object of an entry. Allocates nothing.
fn stage_one(table: &mut Table, own: &mut Ledger, entry: Entry)
    requires row { HasRow table.old.entries entry }
    requires one { IsOne table.old.entries own.old }
    requires room { HasRoom table.old.entries own.old entry.name }
    ensures words { words_of table.new.entries own.new ≡ staged_words entry.name entry.kind entry.length (words_of table.old.entries own.old) }
    ensures moves { Moves table.old table.new own.old own.new }
    ensures one { IsOne table.new.entries own.new }
    ensures room { (q : ℕ) → has_room own.new.visible q ≡ has_room own.old.visible q }
    ensures waits { (q : ℕ) → has_room own.new.staged q ≡ has_room own.old.staged q }
{
    table.invariant();
    let Some(row) = table.row(entry.name) else {
        unreachable!();
    };
    let seen = own.sees(row.number);
    settle(table, own, row, seen, true);
}

// Makes the object of an entry visible. Allocates nothing.
fn see_one(table: &mut Table, own: &mut Ledger, entry: Entry)
    requires row { HasRow table.old.entries entry }
    requires one { IsOne table.old.entries own.old }
    requires room { HasRoom table.old.entries own.old entry.name }
    ensures words { words_of table.new.entries own.new ≡ seen_words entry (words_of table.old.entries own.old) }
    ensures moves { Moves table.old table.new own.old own.new }
    ensures one { IsOne table.new.entries own.new }
    ensures room { (q : ℕ) → has_room own.new.visible q ≡ has_room own.old.visible q }
    ensures waits { (q : ℕ) → has_room own.new.staged q ≡ has_room own.old.staged q }
{
    table.invariant();
    let Some(row) = table.row(entry.name) else {
        unreachable!();
    };
    let staged = own.has_staged(row.number);
    settle(table, own, row, true, staged);
}

// Stages these objects, in order. On an `Err` none is staged.
pub(crate) fn stage_entries(
    table: &mut Table,
    own: &mut Ledger,
    entries: &[Entry],
) -> Result<(), AllocError>
    requires rows { All (HasRow table.old.entries) entries.now }
    requires one { IsOne table.old.entries own.old }
    ensures ok { OnOk result (words_of table.new.entries own.new ≡ all_staged_words entries.now (words_of table.old.entries own.old)) }
    ensures err { OnErr result (words_of table.new.entries own.new ≡ words_of table.old.entries own.old) }
    ensures moves { Moves table.old table.new own.old own.new }
    ensures one { IsOne table.new.entries own.new }
{
    table.invariant();
    reserve_all(table, own, entries)?;
    for entry in entries {
        stage_one(table, own, *entry);
    }
    Ok(())
}

// Makes these objects visible. On an `Err` none becomes visible.
pub(crate) fn see_entries(
    table: &mut Table,
    own: &mut Ledger,
    entries: &[Entry],
) -> Result<(), AllocError>
    requires rows { All (HasRow table.old.entries) entries.now }
    requires one { IsOne table.old.entries own.old }
    ensures ok { OnOk result (words_of table.new.entries own.new ≡ all_seen_words entries.now (words_of table.old.entries own.old)) }
    ensures err { OnErr result (words_of table.new.entries own.new ≡ words_of table.old.entries own.old) }
    ensures moves { Moves table.old table.new own.old own.new }
    ensures one { IsOne table.new.entries own.new }
{
    table.invariant();
    reserve_all(table, own, entries)?;
    for entry in entries {
        see_one(table, own, *entry);
    }
    Ok(())
}
