ghost use Rattle.std.specs.Prelude.{◌≡◌, ◌++◌, IsTrue, IfOk};
ghost use Rattle.std.specs.HashSet.{contains};
ghost use Rattle.std.specs.List.{flat_map};
ghost use Rattle.git_name.specs.Same.{same_name};
ghost use Rattle.git_name.specs.Text.{words_of};
ghost use Rattle.git_name.specs.Count.{fault_in};
ghost use Rattle.fork_reach.specs.Faults.{IsAsked};
ghost use Rattle.fork_query.specs.Fetch.{fetch_told, fetched, record_named};
ghost use Rattle.fork_query.specs.Objects.{AreRecords};
ghost use Rattle.fork_query.specs.Sent.{IsSent};
ghost use Rattle.fork_query.specs.Told.{Tells, query_fault};

use crate::lent::lent_records;
use crate::query_error::QueryError;
use crate::sides::{Sides, select};
use crate::want::Want;
use fork_reach::{Source, SourceFault, ascending, reach_between};
use git_name::{Hashing, Name};
use git_reftx::Repository;
use indexmap::IndexSet;
use push_stream::add_record;
use std::alloc::Global;

// Appends the record of the object of this name to the text. The object is read once.
fn send<S: Source>(
    alloc: Global,
    source: &mut S,
    name: Name,
    text: Vec<u8>,
) -> Result<Vec<u8>, SourceFault>
    ensures sent { IsTrue (S.state source.old).honest → IfOk result (λ longer. longer.items ≡ text.items ++ record_named (S.state source.old).objects name) }
    ensures named { IfOk result (λ longer. AreRecords text.items → AreRecords longer.items) }
    ensures asked { IsAsked (S.state source.old) (S.state source.new) (fault_in result) }
{
    let Some(sealed) = source.read(alloc, name)? else {
        return Ok(text);
    };
    match add_record(text, sealed.name(), sealed.kind(), sealed.bytes()) {
        Ok(text) => Ok(text),
        Err(_) => Err(SourceFault::Memory),
    }
}

// The records of the objects of these names, in this order.
fn send_all<S: Source>(
    alloc: Global,
    source: &mut S,
    names: Vec<Name>,
) -> Result<Vec<u8>, SourceFault>
    ensures sent { IsTrue (S.state source.old).honest → IfOk result (λ text. text.items ≡ flat_map (record_named (S.state source.old).objects) names.items) }
    ensures named { IfOk result (λ text. AreRecords text.items) }
    ensures asked { IsAsked (S.state source.old) (S.state source.new) (fault_in result) }
{
    let mut text = Vec::new(alloc);
    for name in names {
        text = send(alloc, source, name, text)?;
    }
    Ok(text)
}

// The records of the objects of a set of names, in ascending order. They are read only if one of them cannot be
// borrowed.
fn records_of<S: Source>(
    alloc: Global,
    source: &mut S,
    names: &IndexSet<Name, Hashing>,
) -> Result<Vec<u8>, SourceFault>
    ensures sent { IsTrue (S.state source.old).honest → IfOk result (λ text. IsSent (S.state source.old).objects (contains same_name names.now) text.items) }
    ensures named { IfOk result (λ text. AreRecords text.items) }
    ensures asked { IsAsked (S.state source.old) (S.state source.new) (fault_in result) }
{
    match lent_records(alloc, source, names) {
        Ok(Some(text)) => return Ok(text),
        Ok(None) => {}
        Err(_) => return Err(SourceFault::Memory),
    }
    let Ok(names) = ascending(alloc, names) else {
        return Err(SourceFault::Memory);
    };
    send_all(alloc, source, names)
}

#[tactic(auto, unfolding(crate::specs::Fetch::fetched))]
// The records of the objects that are reachable from the wanted names but not from the excluded ones.
fn records<S: Source>(alloc: Global, source: &mut S, sides: &Sides) -> Result<Vec<u8>, SourceFault>
    ensures sent { IsTrue (S.state source.old).honest → IfOk result (λ text. text.items ≡ fetched (S.state source.old).objects sides.now.wanted.items sides.now.excluded.items) }
    ensures named { IfOk result (λ text. AreRecords text.items) }
    ensures asked { IsAsked (S.state source.old) (S.state source.new) (fault_in result) }
{
    let names = reach_between(
        alloc,
        source,
        sides.wanted.as_slice(),
        sides.excluded.as_slice(),
    )?;
    records_of(alloc, source, &names)
}

#[tactic(auto, unfolding(crate::specs::Fetch::fetch_told))]
/// The records of the objects that are reachable from the items but not from items with a leading `^`, in ascending
/// order of their names. Objects that can be borrowed are not read. The walk reads nothing if the source knows the
/// links. Otherwise each tree, commit and tag is read once for the walk and once to be sent, and a blob only to be
/// sent. Items are separated by one SP.
pub fn fetch<S: Source>(
    alloc: Global,
    source: &mut S,
    repository: &Repository,
    items: &[u8],
) -> Result<Vec<u8>, QueryError>
    ensures told { IsTrue (S.state source.old).honest → Tells (λ text. text.items) (fetch_told (S.state source.old).objects repository.now (words_of items.now)) result }
    // Over any source.
    ensures named { IfOk result (λ text. AreRecords text.items) }
    ensures asked { IsAsked (S.state source.old) (S.state source.new) (query_fault result) }
{
    let sides = select(alloc, Want::Object, source, repository, items)?;
    Ok(records(alloc, source, &sides)?)
}
