// Links between objects, by the numbers of their names.
ghost use Rattle.std.specs.Prelude.{◌≡◌, ◌⊎◌, ℕ, List, [], Contains, Some, IfOk, IfSome, OnOk, false, is_some, map as mapped, true};
ghost use Rattle.std.specs.FinMap.{contains_key, get};
ghost use Rattle.std.specs.HashSet.{contains};
ghost use Rattle.std.specs.Option.{option_map_or};
ghost use Rattle.git_name.specs.Same.{same_name};
ghost use Rattle.number_links.specs.Facts.{Learned, nothing};
ghost use Rattle.number_links.specs.Numbers.{has};
ghost use Rattle.object_table.specs.Links.{AreLinks, is_among, leads_nowhere, named_links, next_named, numbered_name, parents_named, rests_in};
ghost use Rattle.object_table.specs.Rows.{IsUsed, row_in};
ghost use Rattle.object_table.specs.Views.{IsOwn, words_of};
ghost use Rattle.object_table.specs.Walked.{IsBetween, IsLedTo, IsMet};
ghost use Rattle.object_table.specs.Words.{is_visible, words_that};
ghost use Rattle.object_table.specs.declared.row.Row.{Row};

use crate::ledger::Ledger;
use crate::table::Table;
use git_name::{Hashing, Kind, Name};
use indexmap::IndexSet;
use number_links::{Graph, NumberSet, Resting};
use std::alloc::{AllocError, Global};

// Whether an object of this kind has no links.
fn is_leaf(kind: Kind) -> bool
    ensures { result ≡ leads_nowhere kind }
{
    match kind {
        Kind::Blob => true,
        Kind::Tree | Kind::Commit | Kind::Tag => false,
    }
}

impl Resting for Table {
    ghost use Rattle.object_table.specs.Links.{rests_in};

    ghost rests = { λ table. rests_in table.entries };

    fn rests(&self, n: u32) -> bool {
        self.invariant();
        let Some(entry) = self.numbered(n) else {
            return false;
        };
        is_leaf(entry.1.kind)
    }
}

// The numbers of these names, in the same order, or `None` if a name has no number.
pub(crate) fn numbers_of(
    alloc: Global,
    table: &Table,
    names: &[Name],
) -> Result<Option<Vec<u32>>, AllocError>
    ensures named { IfOk result (λ found. IfSome found (λ numbers. mapped (numbered_name table.now.entries) numbers.items ≡ names.now)) }
    ensures used { IfOk result (λ found. IfSome found (λ numbers. (m : ℕ) → Contains numbers.items m → IsUsed table.now.entries m)) }
{
    table.invariant();
    let mut numbers = Vec::with_capacity(alloc, names.len())?;
    for name in names {
        let Some(row) = table.row(*name) else {
            return Ok(None);
        };
        numbers.push(row.number)?;
    }
    Ok(Some(numbers))
}

// Appends the number of a name if it has one.
fn put_number(table: &Table, name: Name, numbers: &mut Vec<u32>) -> Result<(), AllocError>
    ensures only { OnOk result ((n : ℕ) → Contains numbers.new.items n → Contains numbers.old.items n ⊎ (IsUsed table.now.entries n × (numbered_name table.now.entries n ≡ name))) }
    ensures kept { OnOk result ((n : ℕ) → Contains numbers.old.items n → Contains numbers.new.items n) }
    ensures put { OnOk result ((row : Row) → row_in table.now.entries name ≡ Some row → Contains numbers.new.items row.number) }
{
    table.invariant();
    let Some(row) = table.row(name) else {
        return Ok(());
    };
    numbers.push(row.number)?;
    Ok(())
}

// The numbers of these names. Names without a number are skipped.
fn numbers_there(alloc: Global, table: &Table, names: &[Name]) -> Result<Vec<u32>, AllocError>
    ensures only { IfOk result (λ numbers. (n : ℕ) → Contains numbers.items n → IsUsed table.now.entries n × Contains names.now (numbered_name table.now.entries n)) }
    ensures all { IfOk result (λ numbers. (name : List ℕ) (row : Row) → Contains names.now name → row_in table.now.entries name ≡ Some row → Contains numbers.items row.number) }
{
    let mut numbers = Vec::new(alloc);
    for name in names {
        put_number(table, *name, &mut numbers)?;
    }
    Ok(numbers)
}

// The names of these numbers.
pub(crate) fn names_of(
    alloc: Global,
    table: &Table,
    numbers: &NumberSet,
) -> Result<IndexSet<Name, Hashing>, AllocError>
    requires used { (n : ℕ) → has numbers.now n ≡ true → IsUsed table.now.entries n }
    ensures { IfOk result (λ names. (name : List ℕ) → contains same_name names name ≡ option_map_or (λ row. has numbers.now row.number) (row_in table.now.entries name) false) }
{
    table.invariant();
    let mut names = IndexSet::with_hasher(alloc, table.hashing());
    let mut from = 0u32;
    while let Some(n) = numbers.next(from) {
        let Some(entry) = table.numbered(n) else {
            unreachable!();
        };
        names.insert(entry.0)?;
        from = n + 1;
    }
    Ok(names)
}

// Gives these commits and their ancestors generation numbers, if a history past others is asked for. Only that uses them.
fn learn_generations(alloc: Global, links: &mut Graph, wanted: &[u32], excluded: &[u32])
    ensures { links.new ≡ links.old }
{
    if excluded.is_empty() {
        return;
    }
    links.learn_generations(alloc, wanted);
    links.learn_generations(alloc, excluded);
}

// The names of the visible objects that are reachable from `wanted` but not from `excluded`, or `None` if the links
// of an object on the way are not known.
pub(crate) fn names_between(
    alloc: Global,
    table: &Table,
    links: &Graph,
    own: &Ledger,
    wanted: &[Name],
    excluded: &[Name],
) -> Result<Option<IndexSet<Name, Hashing>>, AllocError>
    requires own { IsOwn table.now.entries own.now }
    requires linked { AreLinks table.now.entries links.now }
    ensures only { IfOk result (λ found. IfSome found (λ names. (name : List ℕ) → contains same_name names name ≡ true → IsBetween (words_that is_visible (words_of table.now.entries own.now)) (next_named (named_links table.now.entries links.now)) wanted.now excluded.now name)) }
    ensures all { IfOk result (λ found. IfSome found (λ names. (name : List ℕ) → IsBetween (words_that is_visible (words_of table.now.entries own.now)) (next_named (named_links table.now.entries links.now)) wanted.now excluded.now name → contains same_name names name ≡ true)) }
    ensures known { IfOk result (λ found. IfSome found (λ names. (name : List ℕ) → IsMet (words_that is_visible (words_of table.now.entries own.now)) (next_named (named_links table.now.entries links.now)) wanted.now excluded.now name → (option_map_or (λ word. leads_nowhere word.kind) (get (words_that is_visible (words_of table.now.entries own.now)) name) false ≡ true) ⊎ (contains_key (named_links table.now.entries links.now) name ≡ true))) }
{
    table.invariant();
    let from = numbers_there(alloc, table, wanted)?;
    let past = numbers_there(alloc, table, excluded)?;
    let Some(numbers) = links.between(
        alloc,
        own.visible(),
        table,
        from.as_slice(),
        past.as_slice(),
    )?
    else {
        return Ok(None);
    };
    let names = names_of(alloc, table, &numbers)?;
    Ok(Some(names))
}

// The same, following only the parents of commits.
pub(crate) fn names_in_history(
    alloc: Global,
    table: &Table,
    links: &mut Graph,
    own: &Ledger,
    wanted: &[Name],
    excluded: &[Name],
) -> Result<Option<IndexSet<Name, Hashing>>, AllocError>
    requires own { IsOwn table.now.entries own.now }
    requires linked { AreLinks table.now.entries links.old }
    ensures same { links.new ≡ links.old }
    ensures only { IfOk result (λ found. IfSome found (λ names. (name : List ℕ) → contains same_name names name ≡ true → IsBetween (words_that is_visible (words_of table.now.entries own.now)) (parents_named (named_links table.now.entries links.old)) wanted.now excluded.now name)) }
    ensures all { IfOk result (λ found. IfSome found (λ names. (name : List ℕ) → IsBetween (words_that is_visible (words_of table.now.entries own.now)) (parents_named (named_links table.now.entries links.old)) wanted.now excluded.now name → contains same_name names name ≡ true)) }
    ensures known { IfOk result (λ found. IfSome found (λ names. (name : List ℕ) → IsMet (words_that is_visible (words_of table.now.entries own.now)) (parents_named (named_links table.now.entries links.old)) wanted.now excluded.now name → (option_map_or (λ word. leads_nowhere word.kind) (get (words_that is_visible (words_of table.now.entries own.now)) name) false ≡ true) ⊎ (contains_key (named_links table.now.entries links.old) name ≡ true))) }
{
    table.invariant();
    let wants = numbers_there(alloc, table, wanted)?;
    let haves = numbers_there(alloc, table, excluded)?;
    let from = wants.as_slice();
    let past = haves.as_slice();
    learn_generations(alloc, links, from, past);
    let Some(numbers) = links.history(alloc, own.visible(), table, from, past)? else {
        return Ok(None);
    };
    let names = names_of(alloc, table, &numbers)?;
    Ok(Some(names))
}

// The numbers of the visible objects that are reachable from these names, or `None` if the links of an object on the way
// are not known. A blob on the way is then known to have no links.
pub(crate) fn numbers_reached(
    alloc: Global,
    table: &Table,
    links: &mut Graph,
    own: &Ledger,
    roots: &[Name],
) -> Result<Option<NumberSet>, AllocError>
    requires own { IsOwn table.now.entries own.now }
    requires linked { AreLinks table.now.entries links.old }
    ensures linked { AreLinks table.now.entries links.new }
    ensures links { (q : List ℕ) (one : Learned (List ℕ)) → get (named_links table.now.entries links.new) q ≡ Some one → (get (named_links table.now.entries links.old) q ≡ Some one) ⊎ ((one ≡ nothing) × (option_map_or (λ word. leads_nowhere word.kind) (get (words_that is_visible (words_of table.now.entries own.now)) q) false ≡ true)) }
    ensures only { IfOk result (λ found. IfSome found (λ numbers. (name : List ℕ) → is_among table.now.entries numbers name ≡ true → IsLedTo (words_that is_visible (words_of table.now.entries own.now)) (next_named (named_links table.now.entries links.old)) roots.now name)) }
    ensures all { IfOk result (λ found. IfSome found (λ numbers. (name : List ℕ) → IsLedTo (words_that is_visible (words_of table.now.entries own.now)) (next_named (named_links table.now.entries links.old)) roots.now name → is_among table.now.entries numbers name ≡ true)) }
    ensures known { IfOk result (λ found. IfSome found (λ numbers. (name : List ℕ) → IsLedTo (words_that is_visible (words_of table.now.entries own.now)) (next_named (named_links table.now.entries links.old)) roots.now name → (option_map_or (λ word. leads_nowhere word.kind) (get (words_that is_visible (words_of table.now.entries own.now)) name) false ≡ true) ⊎ (contains_key (named_links table.now.entries links.old) name ≡ true))) }
{
    table.invariant();
    let from = numbers_there(alloc, table, roots)?;
    links.reached(alloc, own.visible(), table, from.as_slice())
}

// Keeps the sets of all objects reachable from these names, so that they need not be walked again. A set is kept only
// if all of it is visible and its links are known. A blob in it is then known to have no links.
pub(crate) fn keep_names(
    alloc: Global,
    table: &Table,
    links: &mut Graph,
    own: &Ledger,
    names: &[Name],
)
    requires own { IsOwn table.now.entries own.now }
    requires linked { AreLinks table.now.entries links.old }
    ensures linked { AreLinks table.now.entries links.new }
    ensures links { (q : List ℕ) (one : Learned (List ℕ)) → get (named_links table.now.entries links.new) q ≡ Some one → (get (named_links table.now.entries links.old) q ≡ Some one) ⊎ ((one ≡ nothing) × (option_map_or (λ word. leads_nowhere word.kind) (get (words_that is_visible (words_of table.now.entries own.now)) q) false ≡ true)) }
{
    table.invariant();
    let Ok(roots) = numbers_there(alloc, table, names) else {
        return;
    };
    links.keep(alloc, own.visible(), table, roots.as_slice());
}
