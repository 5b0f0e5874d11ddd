ghost use Rattle.std.specs.Prelude.{◌≡◌, List, ℕ, IsTrue, IfOk, IfSome, IsPermutation};
ghost use Rattle.std.specs.HashSet.{contains};
ghost use Rattle.std.specs.List.{AllByRecursion, flat_map};
ghost use Rattle.std.specs.List.Sorted.{IsSortedByKey};
ghost use Rattle.git_name.specs.Name.{name_cmp};
ghost use Rattle.git_name.specs.Same.{same_name};
ghost use Rattle.fork_query.specs.Lent.{HasOwnName, IsLent, lent_names, record_lent};
ghost use Rattle.fork_query.specs.Objects.{AreRecords};
ghost use Rattle.fork_query.specs.Sent.{IsSent};

use fork_reach::Source;
use git_name::{Hashing, Kind, Name};
use indexmap::IndexSet;
use push_stream::{BESIDE, add_record};
use std::alloc::{AllocError, Global};

/// An object, borrowed from where it is in memory.
#[derive(Clone, Copy)]
pub struct Lent<'a> {
    pub name: Name,
    pub kind: Kind,
    pub bytes: &'a [u8],
}

// Borrows the objects of these names, in order, or returns `None` if one of them has to be read.
fn lend_each<'a, S: Source>(
    alloc: Global,
    source: &'a S,
    names: &[Name],
) -> Result<Option<Vec<Lent<'a>>>, AllocError>
    ensures names { IfOk result (λ all. IfSome all (λ lent. lent_names lent.items ≡ names.now)) }
    ensures lent { IfOk result (λ all. IfSome all (λ lent. AllByRecursion (IsLent (S.state source.now)) lent.items)) }
{
    let mut lent = Vec::new(alloc);
    for name in names {
        let Some((kind, bytes)) = source.lend(*name) else {
            return Ok(None);
        };
        let Ok(()) = lent.push(Lent {
            name: *name,
            kind,
            bytes,
        }) else {
            return Err(AllocError);
        };
    }
    Ok(Some(lent))
}

// The borrowed objects, in ascending order of their names.
fn by_name(lent: Vec<Lent<'_>>) -> Vec<Lent<'_>>
    ensures moved { IsPermutation lent.entry.items result.items }
    ensures sorted { IsSortedByKey (λ one. one.name) name_cmp result.items }
{
    let mut lent = lent;
    lent.sort_unstable_by_key(|one| one.name);
    lent
}

// An upper bound of the total length of their records.
fn room_for(lent: &[Lent<'_>]) -> usize {
    let mut room = 0usize;
    for one in lent {
        room = room.saturating_add(one.bytes.len()).saturating_add(BESIDE);
    }
    room
}

// Their records.
fn write_all(alloc: Global, lent: &[Lent<'_>]) -> Result<Vec<u8>, AllocError>
    ensures { AllByRecursion HasOwnName lent.now → IfOk result (λ text. text.items ≡ flat_map record_lent lent.now) }
{
    let mut text = Vec::with_capacity(alloc, room_for(lent))?;
    for one in lent {
        text = add_record(text, one.name, one.kind, one.bytes)?;
    }
    Ok(text)
}

// The records of the objects of these names, in ascending order, or `None` if one of them has to be read. Objects are
// looked up in the order of the set. A walk made this order, so that each is found near the one before.
pub(crate) fn lent_records<S: Source>(
    alloc: Global,
    source: &S,
    names: &IndexSet<Name, Hashing>,
) -> Result<Option<Vec<u8>>, AllocError>
    ensures sent { IfOk result (λ all. IfSome all (λ text. IsSent (S.state source.now).objects (contains same_name names.now) text.items)) }
    ensures named { IfOk result (λ all. IfSome all (λ text. AreRecords text.items)) }
{
    let Some(lent) = lend_each(alloc, source, names.as_slice())? else {
        return Ok(None);
    };
    let lent = by_name(lent);
    Ok(Some(write_all(alloc, lent.as_slice())?))
}
