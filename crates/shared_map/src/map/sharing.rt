// Copies of a map share its memory, and what two maps have in common at the same place is in memory once.
ghost use Rattle.std.specs.Prelude.{◌≡◌, ◌++◌, ◌∷◌, [], true, IfOk, OnOk};

use crate::chunk::Chunk;
use crate::chunks::{Chunks, slice_of};
use crate::entry::Entry;
use crate::map::SharedMap;
use std::alloc::{AllocError, Global};

impl SharedMap {
    /// A copy, which shares all its memory with this map.
    pub fn copy(&self) -> Result<SharedMap, AllocError>
        ensures { IfOk result (λ copied. copied ≡ self.now) }
    {
        let Some(chunks) = &self.chunks else {
            return Ok(SharedMap::new(self.alloc));
        };
        let chunks = chunks.share()?;
        Ok(SharedMap {
            alloc: self.alloc,
            count: self.len(),
            chunks: Some(chunks),
        })
    }

    /// Shares with another map what both have at the same place, so that it is in memory once. An `Err`
    /// leaves the map as it was. Its time is linear in this map.
    pub fn share_with(&mut self, other: &SharedMap) -> Result<(), AllocError>
        ensures { self.new ≡ self.old }
    {
        let alloc = self.alloc;
        let Some(chunks) = &self.chunks else {
            return Ok(());
        };
        let new = shared_with(alloc, chunks.as_slice(), slice_of(&other.chunks))?;
        let new = Chunks::new(alloc, new)?;
        *self = SharedMap {
            alloc,
            count: self.len(),
            chunks: Some(new),
        };
        Ok(())
    }
}

// A copy of the chunks. A chunk equal to the one at its place in the other list is shared with it.
fn shared_with(alloc: Global, chunks: &[Chunk], others: &[Chunk]) -> Result<Vec<Chunk>, AllocError>
    ensures { IfOk result (λ new. new.items ≡ chunks.now) }
{
    let mut new = Vec::with_capacity(alloc, chunks.len())?;
    for (at, chunk) in chunks.iter().enumerate() {
        push_one(&mut new, chunk, others, at)?;
    }
    Ok(new)
}

// Appends the chunk, or the equal one at this place in the other list.
fn push_one(
    out: &mut Vec<Chunk>,
    chunk: &Chunk,
    others: &[Chunk],
    at: usize,
) -> Result<(), AllocError>
    ensures { OnOk result (out.new.items ≡ out.old.items ++ chunk.now ∷ []) }
{
    let one = one_of(chunk, others, at)?;
    out.push(one)?;
    Ok(())
}

// The chunk, or the equal one at this place in the other list.
fn one_of(chunk: &Chunk, others: &[Chunk], at: usize) -> Result<Chunk, AllocError>
    ensures { IfOk result (λ one. one ≡ chunk.now) }
{
    if at >= others.len() {
        return chunk.share();
    }
    let other = &others[at];
    if !are_same(chunk.entries(), other.entries()) {
        return chunk.share();
    }
    other.share()
}

// Whether the entries are equal.
fn are_same(entries: &[Entry], others: &[Entry]) -> bool
    ensures { result ≡ true → entries.now ≡ others.now }
{
    if entries.len() != others.len() {
        return false;
    }
    for (at, entry) in entries.iter().enumerate() {
        if !entry.is_same(&others[at]) {
            return false;
        }
    }
    true
}
