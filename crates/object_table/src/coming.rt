// What a ledger adopts from another one. A tenant that does not exist has no words.
ghost use Rattle.std.specs.Prelude.{◌≡◌, ◌+◌, false, ℕ, IfOk, sum_by};
ghost use Rattle.std.specs.FinMap.{get};
ghost use Rattle.std.specs.Option.{option_copied, option_map_or};
ghost use Rattle.object_table.specs.Coming.{coming_at, coming_in, use_of_entry};
ghost use Rattle.object_table.specs.Totals.{capped};
ghost use Rattle.object_table.specs.Views.{words_under};
ghost use Rattle.object_table.specs.Words.{is_visible};

use crate::entry::Entry;
use crate::ledger::{Ledger, size_of};
use crate::settling::word_of;
use crate::table::Table;
use crate::word::Word;
use git_name::{Hashing, Name};
use indexmap::IndexSet;
use std::alloc::{AllocError, Global};

// The word of a name in a ledger.
pub(crate) fn word_under(table: &Table, ledger: Option<&Ledger>, name: Name) -> Option<Word>
    ensures { result ≡ get (words_under table.now.entries (option_copied ledger.entry)) name }
{
    table.invariant();
    let Some(ledger) = ledger else {
        return None;
    };
    let Some(row) = table.row(name) else {
        return None;
    };
    word_of(ledger, row)
}

// Whether a word says that its object is visible.
fn is_seen(word: Option<Word>) -> bool
    ensures { result ≡ option_map_or is_visible word false }
{
    match word {
        Some(word) => word.is_visible(),
        None => false,
    }
}

// The entry of an object that is visible in the other ledger and not in this one.
fn coming_at(name: Name, shown: Option<Word>, own: Option<Word>) -> Option<Entry>
    ensures { result ≡ coming_at name shown own }
{
    let Some(word) = shown else {
        return None;
    };
    if word.is_visible() && !is_seen(own) {
        return Some(Entry {
            name,
            kind: word.kind,
            length: word.length,
        });
    }
    None
}

// The entries of those of these names that are adopted.
pub(crate) fn coming(
    alloc: Global,
    table: &Table,
    shown: Option<&Ledger>,
    own: Option<&Ledger>,
    names: &IndexSet<Name, Hashing>,
) -> Result<Vec<Entry>, AllocError>
    ensures { IfOk result (λ entries. entries.items ≡ coming_in (words_under table.now.entries (option_copied shown.entry)) (words_under table.now.entries (option_copied own.entry)) names.now.keys) }
{
    let mut entries = Vec::new(alloc);
    for name in names.iter() {
        let comes = word_under(table, shown, *name);
        let word = word_under(table, own, *name);
        if let Some(entry) = coming_at(*name, comes, word) {
            entries.push(entry)?;
        }
    }
    Ok(entries)
}

// The bytes of use that an object adds, or 0 if it is not adopted.
fn coming_size(name: Name, shown: Option<Word>, own: Option<Word>) -> u128
    ensures { result ≡ option_map_or use_of_entry (coming_at name shown own) 0 }
{
    let Some(entry) = coming_at(name, shown, own) else {
        return 0;
    };
    size_of(entry.length)
}

// A total of use, plus the use of those of these objects that are adopted.
pub(crate) fn use_with_coming(
    table: &Table,
    shown: Option<&Ledger>,
    own: Option<&Ledger>,
    names: &IndexSet<Name, Hashing>,
    used: u128,
) -> u128
    ensures { (before : ℕ) → used ≡ capped before → result ≡ capped (before + sum_by use_of_entry (coming_in (words_under table.now.entries (option_copied shown.entry)) (words_under table.now.entries (option_copied own.entry)) names.now.keys)) }
{
    let mut total = used;
    for name in names.iter() {
        let comes = word_under(table, shown, *name);
        let word = word_under(table, own, *name);
        total = total.saturating_add(coming_size(*name, comes, word));
    }
    total
}
