ghost use Rattle.std.specs.Prelude.{◌≡◌, ◌≤◌, ◌+◌, ◌++◌, [], IfOk, OnOk, length, min, take, drop, slice_index_or};
ghost use Rattle.shared_map.specs.Chunks.{AreFull, joined, kept};
ghost use Rattle.shared_map.specs.Building.{changed};

use crate::chunk::{Chunk, share_all, share_chunks, share_entries};
use crate::chunks::entries_at;
use crate::entry::Entry;
use crate::spot::Spot;
use git_name::Name;
use std::alloc::{AllocError, Global};

// The most entries in a chunk.
pub(crate) const MOST: usize = 32;

// The most entries that two chunks have together if they are joined.
const FEW: usize = 24;

// The chunks after a change at a key, which is, or would be, in chunk `at` at `spot`.
pub(crate) fn rebuilt(
    alloc: Global,
    chunks: &[Chunk],
    at: usize,
    spot: &Spot,
    key: &[u8],
    value: &Option<Name>,
) -> Result<Vec<Chunk>, AllocError>
    requires within { at ≤ length chunks.now }
    requires ordered { spot.now.at ≤ spot.now.past }
    requires inside { spot.now.past ≤ length (slice_index_or chunks.now at []) }
    requires full { AreFull chunks.now }
    ensures joined { IfOk result (λ new. joined new.items ≡ joined (take at chunks.now) ++ (changed (slice_index_or chunks.now at []) spot.now key.now value.now ++ joined (drop (at + 1) chunks.now))) }
    ensures full { IfOk result (λ new. AreFull new.items) }
{
    let first = first_to_join(chunks, at);
    let past = past_to_join(chunks, at);
    let mut entries = Vec::new(alloc);
    share_entries(&mut entries, &chunks[first..at])?;
    put(
        alloc,
        &mut entries,
        entries_at(chunks, at),
        spot,
        key,
        value,
    )?;
    share_entries(&mut entries, &chunks[(at + 1).min(chunks.len())..past])?;
    let mut new = Vec::with_capacity(alloc, chunks.len() + 1)?;
    share_chunks(&mut new, &chunks[..first])?;
    let front = front_of(entries.len(), past == chunks.len());
    push_parts(alloc, &mut new, entries.as_slice(), front)?;
    share_chunks(&mut new, &chunks[past..])?;
    Ok(new)
}

// The place of the chunk before this one if the two are small, or else of this one.
fn first_to_join(chunks: &[Chunk], at: usize) -> usize
    requires { at ≤ length chunks.now }
    ensures { result ≤ at }
{
    if at == 0 {
        return at;
    }
    if chunks[at - 1]
        .entries()
        .len()
        .saturating_add(entries_at(chunks, at).len())
        > FEW
    {
        return at;
    }
    at - 1
}

// The place after the next chunk if the two are small, or else after this one.
fn past_to_join(chunks: &[Chunk], at: usize) -> usize
    requires { at ≤ length chunks.now }
    ensures next { min (at + 1) (length chunks.now) ≤ result }
    ensures within { result ≤ length chunks.now }
{
    let next = (at + 1).min(chunks.len());
    if next == chunks.len() {
        return next;
    }
    if chunks[next]
        .entries()
        .len()
        .saturating_add(entries_at(chunks, at).len())
        > FEW
    {
        return next;
    }
    next + 1
}

// Appends the entries after the change.
fn put(
    alloc: Global,
    out: &mut Vec<Entry>,
    entries: &[Entry],
    spot: &Spot,
    key: &[u8],
    value: &Option<Name>,
) -> Result<(), AllocError>
    requires ordered { spot.now.at ≤ spot.now.past }
    requires inside { spot.now.past ≤ length entries.now }
    ensures { OnOk result (out.new.items ≡ out.old.items ++ changed entries.now spot.now key.now value.now) }
{
    share_all(out, &entries[..spot.at])?;
    put_kept(alloc, out, key, value)?;
    share_all(out, &entries[spot.past..])
}

// Appends the entry of a key, if it has a value.
fn put_kept(
    alloc: Global,
    out: &mut Vec<Entry>,
    key: &[u8],
    value: &Option<Name>,
) -> Result<(), AllocError>
    ensures { OnOk result (out.new.items ≡ out.old.items ++ kept key.now value.now) }
{
    let Some(value) = value else {
        return Ok(());
    };
    let entry = Entry::new(alloc, key, *value)?;
    out.push(entry)?;
    Ok(())
}

// How many of `len` entries go into the first chunk. The last chunk is filled, since names often come in order.
fn front_of(len: usize, is_last: bool) -> usize
    ensures { result ≤ len }
{
    if is_last {
        return len.min(MOST);
    }
    len / 2
}

// Appends these entries as one chunk, or as two if they are too many for one.
fn push_parts(
    alloc: Global,
    out: &mut Vec<Chunk>,
    entries: &[Entry],
    front: usize,
) -> Result<(), AllocError>
    requires { front ≤ length entries.now }
    ensures joined { OnOk result (joined out.new.items ≡ joined out.old.items ++ entries.now) }
    ensures full { AreFull out.old.items → AreFull out.new.items }
{
    if entries.len() <= MOST {
        return push_chunk(alloc, out, entries);
    }
    push_chunk(alloc, out, &entries[..front])?;
    push_chunk(alloc, out, &entries[front..])
}

// Appends a chunk of these entries, if there are any.
fn push_chunk(alloc: Global, out: &mut Vec<Chunk>, entries: &[Entry]) -> Result<(), AllocError>
    ensures joined { OnOk result (joined out.new.items ≡ joined out.old.items ++ entries.now) }
    ensures full { AreFull out.old.items → AreFull out.new.items }
{
    if entries.is_empty() {
        return Ok(());
    }
    let chunk = Chunk::new(alloc, entries)?;
    out.push(chunk)?;
    Ok(())
}
