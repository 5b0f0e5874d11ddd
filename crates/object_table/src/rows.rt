// Names with their rows, each at a place.
ghost use Rattle.std.specs.Prelude.{◌≡◌, ◌<◌, ◌+◌, ◌++◌, ◌∷◌, [], ℕ, List, None, Some, is_some, length, nat_lt, slice_get, swap_remove, if◌then◌else◌};
ghost use Rattle.std.specs.HashMap.{Updates};
ghost use Rattle.std.specs.List.{IsDistinct};
ghost use Rattle.std.specs.Map.{keys_of, lookup};
ghost use Rattle.git_name.specs.Same.{same_name};
ghost use Rattle.indexmap.specs.IndexMap.{spare};
ghost use Rattle.object_table.specs.Numbers.{numbers_of};
ghost use Rattle.object_table.specs.declared.row.Row.{Row};

use crate::row::Row;
use git_name::{Hashing, Name, Nearby};
use indexmap::IndexMap;

// Whether a name has a row. One that stands beside the name that was found last is found faster.
pub(crate) fn has_row(rows: &IndexMap<Name, Row, Hashing>, nearby: &Nearby, name: Name) -> bool
    ensures { result ≡ is_some (lookup (same_name name) rows.now.entries) }
{
    match nearby.get(rows, name) {
        Some(_) => true,
        None => false,
    }
}

// Appends a new name, for which room was reserved. Allocates nothing.
pub(crate) fn put_last(rows: &mut IndexMap<Name, Row, Hashing>, name: Name, row: Row)
    requires absent { lookup (same_name name) rows.old.entries ≡ None }
    requires room { 0 < spare rows.old }
    ensures entries { rows.new.entries ≡ rows.old.entries ++ (name, row) ∷ [] }
    ensures distinct { IsDistinct same_name (keys_of rows.new.entries) }
{
    let Ok(_) = rows.insert(name, row) else {
        unreachable!();
    };
}

// The name at a place, and its row.
pub(crate) fn entry_at(rows: &IndexMap<Name, Row, Hashing>, at: usize) -> Option<(Name, Row)>
    ensures { result ≡ slice_get rows.now.entries at }
{
    match rows.get_index(at) {
        Some((name, row)) => Some((*name, *row)),
        None => None,
    }
}

// Replaces the row at a place.
pub(crate) fn write_at(rows: &mut IndexMap<Name, Row, Hashing>, at: usize, row: Row)
    requires { at < length rows.old.entries }
    ensures keys { keys_of rows.new.entries ≡ keys_of rows.old.entries }
    ensures rows { (p : List ℕ × Row) → slice_get rows.old.entries at ≡ Some p → (q : List ℕ) → lookup (same_name q) rows.new.entries ≡ (if same_name p.0 q then Some row else lookup (same_name q) rows.old.entries) }
    ensures numbers { (p : List ℕ × Row) → slice_get rows.old.entries at ≡ Some p → row.number ≡ p.1.number → numbers_of rows.new.entries ≡ numbers_of rows.old.entries }
    ensures distinct { IsDistinct same_name (keys_of rows.new.entries) }
{
    let Some(old) = rows.get_index_mut(at) else {
        unreachable!();
    };
    *old = row;
}

// Removes the name at a place, and moves the last name there.
pub(crate) fn take_out(rows: &mut IndexMap<Name, Row, Hashing>, at: usize)
    requires { at < length rows.old.entries }
    ensures entries { (p : List ℕ × Row) → slice_get rows.old.entries at ≡ Some p → rows.new.entries ≡ swap_remove rows.old.entries at p }
    ensures updates { (p : List ℕ × Row) → slice_get rows.old.entries at ≡ Some p → Updates same_name rows.old rows.new p.0 None }
    ensures distinct { IsDistinct same_name (keys_of rows.new.entries) }
{
    rows.swap_remove_index(at);
}

// The place that the sweep looks at next. After the last place it starts again at the first.
pub(crate) fn looked_place(place: usize, len: usize) -> usize
    ensures { result ≡ (if nat_lt place len then place else 0) }
{
    if place < len { place } else { 0 }
}
