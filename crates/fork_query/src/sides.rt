ghost use Rattle.std.specs.Prelude.{◌≡◌, IsTrue, OnOk};
ghost use Rattle.git_name.specs.Text.{words_of};
ghost use Rattle.fork_reach.specs.Faults.{IsAsked};
ghost use Rattle.fork_query.specs.Followed.{AreEnds};
ghost use Rattle.fork_query.specs.Items.{named_item};
ghost use Rattle.fork_query.specs.Sides.{added_item, added_name, bare, is_excluded, selected, selection_of};
ghost use Rattle.fork_query.specs.Told.{Tells, query_fault};

use crate::followed::Followed;
use crate::items::named_item;
use crate::query_error::QueryError;
use crate::want::Want;
use fork_reach::{Source, SourceFault};
use git_name::{Name, first_word};
use git_reftx::Repository;
use std::alloc::{AllocError, Global};

// The names of a request's items: the wanted ones, and the excluded ones.
#[derive(Drop)]
pub(crate) struct Sides {
    pub(crate) wanted: Vec<Name>,
    pub(crate) excluded: Vec<Name>,
}

fn is_excluded(item: &[u8]) -> bool
    ensures { result ≡ is_excluded item.now }
{
    item.starts_with(b"^")
}

// The item without its leading `^`.
fn bare(item: &[u8]) -> &[u8]
    ensures { result.now ≡ bare item.now }
{
    if is_excluded(item) { &item[1..] } else { item }
}

// Appends the name to its side.
fn put(name: Name, is_excluded: bool, sides: &mut Sides) -> Result<(), AllocError>
    ensures { OnOk result (selection_of sides.new ≡ added_name (selection_of sides.old) is_excluded name) }
{
    if is_excluded {
        sides.excluded.push(name)?;
    } else {
        sides.wanted.push(name)?;
    }
    Ok(())
}

// Appends the item's name to its side.
fn put_item<S: Source>(
    alloc: Global,
    want: Want,
    source: &mut S,
    followed: &mut Followed,
    repository: &Repository,
    item: &[u8],
    sides: &mut Sides,
) -> Result<(), QueryError>
    ensures told { IsTrue (S.state source.old).honest → AreEnds (S.state source.old).objects followed.old → Tells (λ _. selection_of sides.new) (added_item (selection_of sides.old) (is_excluded item.now) (named_item want (S.state source.old).objects repository.now (bare item.now))) result }
    ensures known { IsTrue (S.state source.old).honest → AreEnds (S.state source.old).objects followed.old → OnOk result (AreEnds (S.state source.old).objects followed.new) }
    ensures asked { IsAsked (S.state source.old) (S.state source.new) (query_fault result) }
{
    let name = named_item(alloc, want, source, followed, repository, bare(item))?;
    match put(name, is_excluded(item), sides) {
        Ok(()) => Ok(()),
        Err(_) => Err(QueryError::Failed(SourceFault::Memory)),
    }
}

// The names of the items, which are separated by one SP. If items are refused, the first one decides.
pub(crate) fn select<S: Source>(
    alloc: Global,
    want: Want,
    source: &mut S,
    repository: &Repository,
    items: &[u8],
) -> Result<Sides, QueryError>
    ensures told { IsTrue (S.state source.old).honest → Tells selection_of (selected (named_item want (S.state source.old).objects repository.now) (words_of items.now)) result }
    ensures asked { IsAsked (S.state source.old) (S.state source.new) (query_fault result) }
{
    let mut followed = Followed::new(alloc);
    let mut sides = Sides {
        wanted: Vec::new(alloc),
        excluded: Vec::new(alloc),
    };
    let mut rest = items;
    'items: while let Some((item, behind)) = first_word(rest) {
        put_item(
            alloc,
            want,
            source,
            &mut followed,
            repository,
            item,
            &mut sides,
        )?;
        rest = behind;
    }
    match put_item(
        alloc,
        want,
        source,
        &mut followed,
        repository,
        rest,
        &mut sides,
    ) {
        Ok(()) => Ok(sides),
        Err(error) => Err(error),
    }
}
