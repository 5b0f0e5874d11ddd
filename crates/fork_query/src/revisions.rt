ghost use Rattle.std.specs.Prelude.{◌≡◌, IsTrue, IfOk, IfSome, map as mapped};
ghost use Rattle.std.specs.List.Sorted.{IsPermutation, IsSorted};
ghost use Rattle.std.specs.FinMap as map;
ghost use Rattle.git_name.specs.Text.{words_of};
ghost use Rattle.git_name.specs.Count.{fault_in};
ghost use Rattle.fork_reach.specs.Faults.{IsAsked};
ghost use Rattle.fork_reach.specs.Reach.{parent_names};
ghost use Rattle.fork_query.specs.Dates.{by_date, date_at, dated, newest_first, noted_date};
ghost use Rattle.fork_query.specs.Objects.{name_lines};
ghost use Rattle.fork_query.specs.Reached.{beyond};
ghost use Rattle.fork_query.specs.RevList.{revision_list, revisions_told};
ghost use Rattle.fork_query.specs.Told.{Tells, query_fault};

use crate::dated::Dated;
use crate::name_lines::{NAME_LINE, write_name};
use crate::query_error::QueryError;
use crate::sides::{Sides, select};
use crate::want::Want;
use fork_reach::{History, Source, SourceFault, ancestors, read_history};
use git_name::Name;
use git_reftx::Repository;
use std::alloc::{AllocError, Global};
use std::cmp::Reverse;

// The commits of the history with their times, newest first. Consumes the history.
fn dates_of(alloc: Global, history: History) -> Result<Vec<Dated>, AllocError>
    ensures { IfOk result (λ dates. dates.items ≡ newest_first (mapped noted_date (map.entries history))) }
{
    let (names, notes) = history.commits();
    let mut dates = Vec::with_capacity(alloc, names.len())?;
    for at in 0..names.len() {
        dates.push(Dated {
            seconds: Reverse(notes[at].seconds()),
            name: names[at],
        })?;
    }
    dates.sort_unstable();
    Ok(dates)
}

// The times of these commits, or `None` if the source does not know all of them.
fn dates_known<S: Source>(
    alloc: Global,
    source: &S,
    names: &[Name],
) -> Result<Option<Vec<Dated>>, AllocError>
    ensures { IsTrue (S.state source.now).honest → IfOk result (λ all. IfSome all (λ dates. dates.items ≡ mapped (date_at (S.state source.now).objects) names.now)) }
{
    let mut dates = Vec::with_capacity(alloc, names.len())?;
    for name in names {
        let Some(seconds) = source.known_seconds(*name) else {
            return Ok(None);
        };
        dates.push(Dated {
            seconds: Reverse(seconds),
            name: *name,
        })?;
    }
    Ok(Some(dates))
}

// The dates, newest first.
fn sorted(dates: Vec<Dated>) -> Vec<Dated>
    ensures moved { IsPermutation dates.items result.items }
    ensures sorted { IsSorted by_date result.items }
{
    let mut dates = dates;
    dates.sort_unstable();
    dates
}

// The ancestors of the wanted commits that are not ancestors of the excluded ones, newest first, or `None` if the
// source does not know them. Reads nothing.
fn known_dates<S: Source>(
    alloc: Global,
    source: &mut S,
    sides: &Sides,
) -> Result<Option<Vec<Dated>>, AllocError>
    ensures dates { IsTrue (S.state source.old).honest → IfOk result (λ all. IfSome all (λ dates. dates.items ≡ newest_first (mapped dated (map.entries (beyond (parent_names (S.state source.old).objects) (S.state source.old).objects sides.now.wanted.items sides.now.excluded.items))))) }
    ensures asked { IsAsked (S.state source.old) (S.state source.new) None }
{
    let Some(names) = source.known_history(
        alloc,
        sides.wanted.as_slice(),
        sides.excluded.as_slice(),
    )?
    else {
        return Ok(None);
    };
    let _count = names.len();
    let Some(dates) = dates_known(alloc, source, names.as_slice())? else {
        return Ok(None);
    };
    Ok(Some(sorted(dates)))
}

// Their names, one a line.
fn lines_of(alloc: Global, dates: &[Dated]) -> Result<Vec<u8>, AllocError>
    ensures { IfOk result (λ text. text.items ≡ name_lines (mapped (λ date. date.name) dates.now)) }
{
    let mut text = Vec::with_capacity(alloc, dates.len().saturating_mul(NAME_LINE))?;
    for date in dates {
        write_name(&mut text, date.name)?;
    }
    Ok(text)
}

// The ancestors of the wanted commits that are not ancestors of the excluded ones, newest first. The histories are
// read. The excluded one is walked first, and the walk from the wanted commits stops there.
fn read_dates<S: Source>(
    alloc: Global,
    source: &mut S,
    sides: &Sides,
) -> Result<Vec<Dated>, SourceFault>
    ensures dates { IsTrue (S.state source.old).honest → IfOk result (λ dates. dates.items ≡ newest_first (mapped dated (map.entries (beyond (parent_names (S.state source.old).objects) (S.state source.old).objects sides.now.wanted.items sides.now.excluded.items)))) }
    ensures asked { IsAsked (S.state source.old) (S.state source.new) (fault_in result) }
{
    let hidden = ancestors(alloc, source, sides.excluded.as_slice())?;
    let history = read_history(alloc, source, sides.wanted.as_slice(), &hidden)?;
    match dates_of(alloc, history) {
        Ok(dates) => Ok(dates),
        Err(_) => Err(SourceFault::Memory),
    }
}

// The same, from what the source knows. If it does not know enough, the histories are read.
fn dates<S: Source>(alloc: Global, source: &mut S, sides: &Sides) -> Result<Vec<Dated>, SourceFault>
    ensures dates { IsTrue (S.state source.old).honest → IfOk result (λ dates. dates.items ≡ newest_first (mapped dated (map.entries (beyond (parent_names (S.state source.old).objects) (S.state source.old).objects sides.now.wanted.items sides.now.excluded.items)))) }
    ensures asked { IsAsked (S.state source.old) (S.state source.new) (fault_in result) }
{
    match known_dates(alloc, source, sides) {
        Ok(Some(dates)) => Ok(dates),
        Ok(None) => read_dates(alloc, source, sides),
        Err(_) => Err(SourceFault::Memory),
    }
}

#[tactic(auto, unfolding(crate::specs::RevList::revision_list))]
// Their names, one a line.
fn revisions<S: Source>(
    alloc: Global,
    source: &mut S,
    sides: &Sides,
) -> Result<Vec<u8>, SourceFault>
    ensures listed { IsTrue (S.state source.old).honest → IfOk result (λ text. text.items ≡ name_lines (revision_list (S.state source.old).objects sides.now.wanted.items sides.now.excluded.items)) }
    ensures asked { IsAsked (S.state source.old) (S.state source.new) (fault_in result) }
{
    let dates = dates(alloc, source, sides)?;
    match lines_of(alloc, dates.as_slice()) {
        Ok(text) => Ok(text),
        Err(_) => Err(SourceFault::Memory),
    }
}

#[tactic(auto, unfolding(crate::specs::RevList::revisions_told))]
/// The ancestors of the items' commits that are not ancestors of items with a leading `^`, one per line. They are in
/// descending order of the committer's seconds, and in ascending order of their names if these are equal. A commit is
/// its own ancestor. If the source knows the histories, no commit is read. Otherwise each commit is read once. Items
/// are separated by one SP.
pub fn rev_list<S: Source>(
    alloc: Global,
    source: &mut S,
    repository: &Repository,
    items: &[u8],
) -> Result<Vec<u8>, QueryError>
    ensures told { IsTrue (S.state source.old).honest → Tells (λ text. text.items) (revisions_told (S.state source.old).objects repository.now (words_of items.now)) result }
    // Over any source.
    ensures asked { IsAsked (S.state source.old) (S.state source.new) (query_fault result) }
{
    let sides = select(alloc, Want::Commit, source, repository, items)?;
    Ok(revisions(alloc, source, &sides)?)
}
