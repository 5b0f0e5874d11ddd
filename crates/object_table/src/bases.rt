// Finds best common ancestors by the numbers of names.
ghost use Rattle.std.specs.Prelude.{◌≡◌, [], ◌∷◌, ℕ, List, IfOk, IfSome, true};
ghost use Rattle.std.specs.FinMap.{contains_key};
ghost use Rattle.std.specs.HashSet.{contains};
ghost use Rattle.git_name.specs.Same.{same_name};
ghost use Rattle.object_table.specs.Links.{AreLinks, named_links, parents_named};
ghost use Rattle.object_table.specs.Views.{IsOwn, words_of};
ghost use Rattle.object_table.specs.Walked.{IsBest, IsMet};
ghost use Rattle.object_table.specs.Words.{is_visible, words_that};

use crate::ledger::Ledger;
use crate::linking::names_of;
use crate::table::Table;
use git_name::{Hashing, Name};
use indexmap::IndexSet;
use number_links::Graph;
use std::alloc::{AllocError, Global};

// The names of the best common ancestors of two commits among visible objects, or `None` if the parents of one of
// their ancestors are not known.
pub(crate) fn base_names(
    alloc: Global,
    table: &Table,
    links: &mut Graph,
    own: &Ledger,
    a: Name,
    b: Name,
) -> Result<Option<IndexSet<Name, Hashing>>, AllocError>
    requires own { IsOwn table.now.entries own.now }
    requires linked { AreLinks table.now.entries links.old }
    ensures same { links.new ≡ links.old }
    ensures only { IfOk result (λ found. IfSome found (λ names. (name : List ℕ) → contains same_name names name ≡ true → IsBest (words_that is_visible (words_of table.now.entries own.now)) (parents_named (named_links table.now.entries links.old)) a b name)) }
    ensures all { IfOk result (λ found. IfSome found (λ names. (name : List ℕ) → IsBest (words_that is_visible (words_of table.now.entries own.now)) (parents_named (named_links table.now.entries links.old)) a b name → contains same_name names name ≡ true)) }
    ensures known { IfOk result (λ found. IfSome found (λ names. (name : List ℕ) → IsMet (words_that is_visible (words_of table.now.entries own.now)) (parents_named (named_links table.now.entries links.old)) (a ∷ []) (b ∷ []) name → contains_key (named_links table.now.entries links.old) name ≡ true)) }
{
    table.invariant();
    let Some(first) = table.row(a) else {
        return Ok(None);
    };
    let Some(second) = table.row(b) else {
        return Ok(None);
    };
    links.learn_generations(alloc, &[first.number, second.number]);
    let Some(numbers) = links.bases(alloc, own.visible(), first.number, second.number)? else {
        return Ok(None);
    };
    let names = names_of(alloc, table, &numbers)?;
    Ok(Some(names))
}
