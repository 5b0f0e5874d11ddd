ghost use Rattle.std.specs.Prelude.{◌≡◌, ◌↔◌, ◌+◌, All, IsTrue, OnOk, OnErr, IfOk, IfSome, IfNone, Some, None, length, true};
ghost use Rattle.std.specs.Map.{keys_of, values_of};
ghost use Rattle.std.specs.FinMap as map;
ghost use Rattle.std.specs.List.{IsDistinct};
ghost use Rattle.git_name.specs.Same.{Sets, same_name};
ghost use Rattle.packed_store.specs.Place.{HasNoneIn, IsElsewhere, index_of};

use crate::place::{LAST_SEGMENT, Place, TITLE};
use git_name::{Hashing, Name, Nearby};
use indexmap::IndexMap;
use std::alloc::{AllocError, Global};

// The most files that are copied at once.
const SLICE_FILES: usize = 16_384;

// The most bytes that are copied at once: more than any file has.
const SLICE_BYTES: u64 = 16_777_216;

/// Places by names.
pub(crate) type Index = IndexMap<Name, Place, Hashing>;

fn insert_into(index: &mut Index, name: Name, place: Place) -> Result<(), AllocError>
    ensures ok { OnOk result (Sets index.old.entries index.new.entries name (Some place)) }
    ensures err { OnErr result (index.new.entries ≡ index.old.entries) }
{
    index.insert(name, place)?;
    Ok(())
}

fn remove_from(index: &mut Index, name: Name)
    ensures { Sets index.old.entries index.new.entries name None }
{
    index.swap_remove(&name);
}

/// No names.
pub(crate) fn new_index(alloc: Global, hashing: Hashing) -> Index
    ensures { index_of result.entries ≡ map.empty }
{
    IndexMap::with_hasher(alloc, hashing)
}

/// Takes all names out.
pub(crate) fn clear(index: &mut Index)
    ensures { index_of index.new.entries ≡ map.empty }
{
    index.clear()
}

/// Takes out the last name and its place.
pub(crate) fn take_last(index: &mut Index) -> Option<(Name, Place)>
    ensures found { IfSome result (λ last. map.get (index_of index.old.entries) last.0 ≡ Some last.1) }
    ensures rest { IfSome result (λ last. index_of index.new.entries ≡ map.remove (index_of index.old.entries) last.0) }
    ensures none { IfNone result (index_of index.old.entries ≡ map.empty) }
    ensures gone { IfNone result (index_of index.new.entries ≡ map.empty) }
    ensures shorter { IfSome result (λ _. length index.new.entries + 1 ≡ length index.old.entries) }
{
    let Some(last) = index.pop() else {
        return None;
    };
    Some(last)
}

/// Makes room for one more name, so that `set_place` finds it.
pub(crate) fn make_room(index: &mut Index) -> Result<(), AllocError>
    ensures { index.new.entries ≡ index.old.entries }
{
    index.reserve(1)
}

/// The place of a name.
pub(crate) fn place_of(index: &Index, name: Name) -> Option<Place>
    ensures { result ≡ map.get (index_of index.now.entries) name }
{
    index.get(&name).copied()
}

/// The place of a name. Looks near the places of names that were found last.
pub(crate) fn place_near(index: &Index, nearby: &Nearby, name: Name) -> Option<Place>
    ensures { result ≡ map.get (index_of index.now.entries) name }
{
    nearby.get(index, name).copied()
}

/// Brings the names into ascending order, if there is memory for it: names that are asked for in this order are beside one
/// another then.
pub(crate) fn put_in_order(index: &mut Index)
    ensures { index_of index.new.entries ≡ index_of index.old.entries }
{
    let Ok(()) = index.sort_unstable_keys() else {
        return;
    };
}

/// Sets the place of a name.
pub(crate) fn set_place(index: &mut Index, name: Name, place: Place) -> Result<(), AllocError>
    ensures ok { OnOk result (index_of index.new.entries ≡ map.insert (index_of index.old.entries) name place) }
    ensures err { OnErr result (index_of index.new.entries ≡ index_of index.old.entries) }
{
    insert_into(index, name, place)
}

/// Takes a name out.
pub(crate) fn remove_place(index: &mut Index, name: Name)
    ensures { index_of index.new.entries ≡ map.remove (index_of index.old.entries) name }
{
    remove_from(index, name)
}

// The names, in no particular order.
fn listed(alloc: Global, index: &Index) -> Result<Vec<Name>, AllocError>
    ensures names { IfOk result (λ names. names.items ≡ keys_of index.now.entries) }
    ensures distinct { IsDistinct same_name (keys_of index.now.entries) }
{
    let _count = index.len();
    index.keys().copied().collect(alloc)
}

/// The names, ascending.
pub(crate) fn names_in(alloc: Global, index: &Index) -> Result<Vec<Name>, AllocError>
    ensures { IfOk result (λ names. names.items ≡ map.keys (index_of index.now.entries)) }
{
    let mut names = listed(alloc, index)?;
    names.sort_unstable();
    Ok(names)
}

// Whether a place is in another segment.
fn is_elsewhere(place: &Place, segment: u32) -> bool
    ensures { IsTrue result ↔ IsElsewhere segment place.now }
{
    place.segment != segment && place.segment <= LAST_SEGMENT
}

// Whether all places are in other segments.
fn are_elsewhere(index: &Index, segment: u32) -> bool
    ensures { IsTrue result ↔ All (λ place. IsElsewhere segment place) (values_of index.now.entries) }
{
    index.values().all(|place| is_elsewhere(place, segment))
}

/// Whether no place is in a segment.
pub(crate) fn has_none_in(index: &Index, segment: u32) -> bool
    ensures { result ≡ true → HasNoneIn (index_of index.now.entries) segment }
{
    are_elsewhere(index, segment)
}

/// Names whose places are in a segment: so many that their files are copied at once.
pub(crate) fn some_in(alloc: Global, index: &Index, segment: u32) -> Result<Vec<Name>, AllocError> {
    let mut names = Vec::new(alloc);
    let mut bytes: u64 = 0;
    for (name, place) in index.iter() {
        if place.segment != segment {
            continue;
        }
        bytes = bytes.saturating_add(place.len as u64);
        if bytes > SLICE_BYTES || names.len() >= SLICE_FILES {
            return Ok(names);
        }
        names.push(*name)?;
    }
    Ok(names)
}

/// Whether the files of a segment are so few that all of them are copied at once.
pub(crate) fn are_few_in(index: &Index, segment: u32) -> bool {
    let mut count: usize = 0;
    let mut bytes: u64 = 0;
    for place in index.values() {
        if place.segment == segment {
            count = count.saturating_add(1);
            bytes = bytes.saturating_add(place.len as u64);
        }
    }
    count <= SLICE_FILES && bytes <= SLICE_BYTES
}

/// How many bytes the records at all places have, if each has a long title and no sum.
pub(crate) fn live_bytes(index: &Index) -> u64 {
    let mut bytes: u64 = 0;
    for place in index.values() {
        bytes = bytes.saturating_add(place.len as u64 + TITLE as u64);
    }
    bytes
}
