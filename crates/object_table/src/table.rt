ghost use Rattle.std.specs.Prelude.{◌≡◌, ◌≢◌, ◌≤◌, ◌<◌, ◌+◌, ◌++◌, ◌∷◌, [], ◌⊎◌, ◌&&◌, ◌||◌, true, false, not, ℕ, List, None, OnOk, OnErr, IfOk, IfSome, IfNone, Some, length, slice_get, take, IsPermutation, if◌then◌else◌};
ghost use Rattle.git_name.specs.Same.{is_listed, same_name};
ghost use Rattle.looks.specs.Growth.{GrowsAmong};
ghost use Rattle.looks.specs.Places.{at_start, looked_at};
ghost use Rattle.object_table.specs.Rows.{AreRows, IsUsed, LooksNextAt, count_in, places_of, row_in};
ghost use Rattle.object_table.specs.declared.row.Row.{Row};

use crate::numbers::{extend, switch};
use crate::row::Row;
use crate::rows::{entry_at, has_row, looked_place, put_last, take_out, write_at};
use git_name::{Hashing, Kind, Name, Nearby};
use indexmap::IndexMap;
use std::alloc::{AllocError, Global};
use std::marker::Model;

/// Names in places, each with its row, and the place that the sweep looks at next. A name keeps its number as long as
/// it is in the table. After that, the number may be given to another name.
#[derive(Drop)]
pub struct Table {
    rows: IndexMap<Name, Row, Hashing>,
    nearby: Nearby,
    numbers: Vec<u32>,
    places: Vec<u32>,
    place: usize,
    hashing: Hashing,
}

impl Model for Table {
    ghost use Rattle.std.specs.Prelude.{◌≤◌, length};
    ghost use Rattle.object_table.specs.Numbers.{AreNumbered};
    ghost use Rattle.object_table.specs.Rows.{TableState, table_code};

    ghost Value = { TableState };

    ghost coded = { table_code };

    ghost view = { λ a. record { entries = a.rows.entries; place = a.place } };

    ghost invariant = { λ a. AreNumbered a.rows.entries a.numbers.items a.places.items × (a.place ≤ length a.rows.entries) };
}

impl Table {
    /// An empty table.
    pub(crate) fn new(alloc: Global, hashing: Hashing) -> Table
        ensures entries { result.entries ≡ [] }
        ensures place { result.place ≡ 0 }
    {
        Table {
            rows: IndexMap::with_hasher(alloc, hashing),
            nearby: Nearby::new(),
            numbers: Vec::new(alloc),
            places: Vec::new(alloc),
            place: 0,
            hashing,
        }
    }

    /// How to hash names.
    pub(crate) fn hashing(&self) -> Hashing {
        self.hashing
    }

    /// What is true of all rows. It does nothing. Proofs call it for its clauses.
    pub(crate) fn invariant(&self)
        ensures rows { AreRows self.now.entries }
        ensures place { self.now.place ≤ length self.now.entries }
    {
        let _count = self.rows.len();
    }

    /// The number of names.
    pub(crate) fn len(&self) -> usize
        ensures { result ≡ length (places_of self.now).names }
    {
        self.rows.len()
    }

    /// The row of a name.
    pub(crate) fn row(&self, name: Name) -> Option<Row>
        ensures { result ≡ row_in self.now.entries name }
    {
        self.nearby.get(&self.rows, name).copied()
    }

    /// The name that has a number, and its row.
    pub(crate) fn numbered(&self, number: u32) -> Option<(Name, Row)>
        ensures some { IfSome result (λ e. (row_in self.now.entries e.0 ≡ Some e.1) × (e.1.number ≡ number)) }
        ensures none { IfNone result (IsUsed self.now.entries number → ⊥) }
    {
        if number as usize >= self.places.len() {
            return None;
        }
        let Some(entry) = entry_at(&self.rows, self.places[number as usize] as usize) else {
            return None;
        };
        if entry.1.number == number {
            Some(entry)
        } else {
            None
        }
    }

    /// Appends a name that nobody holds, unless the table has it.
    pub(crate) fn enter(&mut self, name: Name) -> Result<(), AllocError>
        ensures listed { OnOk result ((q : List ℕ) → is_listed (places_of self.new).names q ≡ (same_name name q || is_listed (places_of self.old).names q)) }
        ensures grows { GrowsAmong (name ∷ []) (places_of self.old) (places_of self.new) }
        ensures kept { (q : List ℕ) (row : Row) → row_in self.old.entries q ≡ Some row → row_in self.new.entries q ≡ Some row }
        ensures fresh { (q : List ℕ) (row : Row) → row_in self.old.entries q ≡ None → row_in self.new.entries q ≡ Some row → (row.holders ≡ 0) × (IsUsed self.old.entries row.number → ⊥) }
        ensures place { self.new.place ≡ self.old.place }
        ensures err { OnErr result (self.new ≡ self.old) }
    {
        if has_row(&self.rows, &self.nearby, name) {
            return Ok(());
        }
        let at = self.rows.len();
        self.rows.reserve(1)?;
        extend(&mut self.numbers, &mut self.places, at)?;
        let row = Row {
            length: 0,
            holders: 0,
            number: self.numbers[at],
            kind: Kind::Blob,
        };
        put_last(&mut self.rows, name, row);
        Ok(())
    }

    /// Replaces the row of a number that is in use. Allocates nothing.
    pub(crate) fn write(&mut self, row: Row)
        requires used { IsUsed self.old.entries row.number }
        ensures places { places_of self.new ≡ places_of self.old }
        ensures rows { (name : List ℕ) (old : Row) → row_in self.old.entries name ≡ Some old → old.number ≡ row.number → (q : List ℕ) → row_in self.new.entries q ≡ (if same_name name q then Some row else row_in self.old.entries q) }
    {
        let at = self.places[row.number as usize] as usize;
        write_at(&mut self.rows, at, row);
    }

    /// The name at the place that the sweep looks at next, if nobody holds it.
    pub(crate) fn free_name(&self) -> Option<Name>
        ensures some { IfSome result (λ name. LooksNextAt (places_of self.now) name × (count_in self.now.entries name ≡ 0)) }
        ensures none { IfNone result (((places_of self.now).names ≡ []) ⊎ ((name : List ℕ) × LooksNextAt (places_of self.now) name × (0 < count_in self.now.entries name))) }
    {
        let at = looked_place(self.place, self.rows.len());
        let Some(entry) = entry_at(&self.rows, at) else {
            return None;
        };
        if entry.1.holders > 0 {
            None
        } else {
            Some(entry.0)
        }
    }

    /// The name at a place, if a tenant holds it.
    pub(crate) fn held_name(&self, at: usize) -> Option<Name>
        ensures some { IfSome result (λ name. (slice_get (places_of self.now).names at ≡ Some name) × (0 < count_in self.now.entries name)) }
        ensures first { IfSome result (λ name. is_listed (take at (places_of self.now).names) name ≡ false) }
        ensures none { IfNone result ((name : List ℕ) → slice_get (places_of self.now).names at ≡ Some name → count_in self.now.entries name ≡ 0) }
    {
        let Some(entry) = entry_at(&self.rows, at) else {
            return None;
        };
        if entry.1.holders == 0 {
            None
        } else {
            Some(entry.0)
        }
    }

    /// Moves the sweep on to the next place.
    pub(crate) fn pass(&mut self)
        requires { 0 < length (places_of self.old).names }
        ensures entries { self.new.entries ≡ self.old.entries }
        ensures place { self.new.place ≡ looked_at (places_of self.old) + 1 }
    {
        self.place = looked_place(self.place, self.rows.len()) + 1;
    }

    /// Removes the name that the sweep looks at, with its row, and frees its number. The last name moves to this
    /// place, and the sweep looks at it next.
    pub(crate) fn leave(&mut self, name: Name)
        requires next { LooksNextAt (places_of self.old) name }
        ensures left { (front back : List (List ℕ)) → (places_of self.old).names ≡ front ++ name ∷ back → length front ≡ looked_at (places_of self.old)
            → (left : List (List ℕ)) × ((places_of self.new).names ≡ front ++ left) × IsPermutation back left }
        ensures place { self.new.place ≡ looked_at (places_of self.old) }
        ensures rows { (q : List ℕ) → row_in self.new.entries q ≡ (if same_name name q then None else row_in self.old.entries q) }
        ensures listed { (q : List ℕ) → is_listed (places_of self.new).names q ≡ (not (same_name name q) && is_listed (places_of self.old).names q) }
    {
        let at = looked_place(self.place, self.rows.len());
        let last = self.rows.len() - 1;
        switch(&mut self.numbers, &mut self.places, at, last);
        take_out(&mut self.rows, at);
        self.place = at;
    }

    /// Moves the sweep back to the first place.
    pub(crate) fn restart(&mut self)
        ensures entries { self.new.entries ≡ self.old.entries }
        ensures place { self.new.place ≡ 0 }
    {
        let _count = self.rows.len();
        self.place = 0;
    }

    /// The place that the sweep looks at next. It may be the length of the table, which means the first place.
    pub(crate) fn place(&self) -> usize
        ensures place { result ≡ self.now.place }
        ensures within { result ≤ length (places_of self.now).names }
    {
        self.place
    }
}
