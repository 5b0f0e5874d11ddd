// Lists and counts the objects that a tenant sees.
ghost use Rattle.std.specs.Prelude.{◌≡◌, IfOk, ℕ, List, false};
ghost use Rattle.std.specs.FinMap.{contains_key, keys, len};
ghost use Rattle.std.specs.List.{IsDistinct};
ghost use Rattle.git_name.specs.Same.{is_listed, same_name};
ghost use Rattle.object_table.specs.Views.{IsOwn, words_of};
ghost use Rattle.object_table.specs.Words.{is_visible, words_that};

use crate::ledger::Ledger;
use crate::table::Table;
use git_name::Name;
use std::alloc::{AllocError, Global};

// The names of the visible objects, in the order of their numbers.
fn seen_among(alloc: Global, table: &Table, own: &Ledger) -> Result<Vec<Name>, AllocError>
    requires own { IsOwn table.now.entries own.now }
    ensures listed { IfOk result (λ names. (q : List ℕ) → is_listed names.items q ≡ contains_key (words_that is_visible (words_of table.now.entries own.now)) q) }
    ensures distinct { IfOk result (λ names. IsDistinct same_name names.items) }
{
    table.invariant();
    let mut names = Vec::new(alloc);
    let mut from = 0u32;
    while let Some(n) = own.next_seen(from) {
        let Some(entry) = table.numbered(n) else {
            unreachable!();
        };
        names.push(entry.0)?;
        from = n + 1;
    }
    Ok(names)
}

// The names of the visible objects, in ascending order.
pub(crate) fn seen_names(
    alloc: Global,
    table: &Table,
    own: &Ledger,
) -> Result<Vec<Name>, AllocError>
    requires own { IsOwn table.now.entries own.now }
    ensures { IfOk result (λ names. names.items ≡ keys (words_that is_visible (words_of table.now.entries own.now))) }
{
    let mut names = seen_among(alloc, table, own)?;
    names.sort_unstable();
    Ok(names)
}

// How many objects are visible.
pub(crate) fn count_seen(table: &Table, own: &Ledger) -> usize
    requires own { IsOwn table.now.entries own.now }
    ensures { result ≡ len (words_that is_visible (words_of table.now.entries own.now)) }
{
    table.invariant();
    let mut count = 0;
    let mut from = 0u32;
    while let Some(n) = own.next_seen(from) {
        let Some(_entry) = table.numbered(n) else {
            unreachable!();
        };
        count += 1;
        from = n + 1;
    }
    count
}
