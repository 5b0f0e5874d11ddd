// Gives the rows of names that nobody holds the kinds and lengths of objects to stage.
ghost use Rattle.std.specs.Prelude.{◌≡◌, ◌⊎◌, ℕ, List, true, false, None, Some, IfErr, OnOk};
ghost use Rattle.std.specs.List.{All};
ghost use Rattle.git_name.specs.Same.{same_name};
ghost use Rattle.object_table.specs.AllStaged.{AreListed};
ghost use Rattle.object_table.specs.Clashes.{DescribesUnheld, HasRow, RowClash};
ghost use Rattle.object_table.specs.Rows.{places_of, row_in};
ghost use Rattle.object_table.specs.declared.row.Row.{Row};

use crate::entry::Entry;
use crate::row::Row;
use crate::stage_fault::StageFault;
use crate::table::Table;

// Whether a row has the kind and length of an entry.
pub(crate) fn is_as(row: &Row, entry: Entry) -> bool
    ensures alike { result ≡ true → (row.now.kind ≡ entry.kind) × (row.now.length ≡ entry.length) }
    ensures apart { result ≡ false → row.now.kind ≡ entry.kind → row.now.length ≡ entry.length → ⊥ }
{
    row.kind == entry.kind && row.length == entry.length
}

// Checks that an entry's name has a row, and that the row has the entry's kind and length.
fn check_row(table: &Table, entry: Entry) -> Result<(), StageFault>
    ensures has { OnOk result (HasRow table.now.entries entry) }
    ensures none { IfErr result (λ fault. fault ≡ StageFault.Unlisted → row_in table.now.entries entry.name ≡ None) }
    ensures lacks { IfErr result (λ fault. fault ≡ StageFault.Clash → (row : Row) × (row_in table.now.entries entry.name ≡ Some row) × (HasRow table.now.entries entry → ⊥)) }
{
    let Some(row) = table.row(entry.name) else {
        return Err(StageFault::Unlisted);
    };
    if !is_as(&row, entry) {
        return Err(StageFault::Clash);
    }
    Ok(())
}

// Gives the row of an entry's name the entry's kind and length if nobody holds the name.
fn describe(table: &mut Table, entry: Entry)
    ensures places { places_of table.new ≡ places_of table.old }
    ensures describes { DescribesUnheld table.old.entries table.new.entries }
    ensures others { (q : List ℕ) → same_name entry.name q ≡ false → row_in table.new.entries q ≡ row_in table.old.entries q }
    ensures row { (row : Row) → row_in table.old.entries entry.name ≡ Some row → row.holders ≡ 0 → HasRow table.new.entries entry }
{
    let Some(row) = table.row(entry.name) else {
        return;
    };
    if row.holders > 0 {
        return;
    }
    table.write(Row {
        length: entry.length,
        holders: 0,
        number: row.number,
        kind: entry.kind,
    });
}

// Does the same for each entry. On an `Ok` every entry's row then has its kind and length.
pub(crate) fn describe_all(table: &mut Table, entries: &[Entry]) -> Result<(), StageFault>
    ensures places { places_of table.new ≡ places_of table.old }
    ensures describes { DescribesUnheld table.old.entries table.new.entries }
    ensures rows { OnOk result (All (HasRow table.new.entries) entries.now) }
    ensures listed { OnOk result (AreListed (places_of table.old) entries.now) }
    ensures unlisted { IfErr result (λ fault. fault ≡ StageFault.Unlisted → AreListed (places_of table.old) entries.now → ⊥) }
    ensures clash { IfErr result (λ fault. fault ≡ StageFault.Clash → RowClash table.old.entries entries.now) }
{
    for entry in entries {
        describe(table, *entry);
    }
    for entry in entries {
        check_row(table, *entry)?;
    }
    Ok(())
}
