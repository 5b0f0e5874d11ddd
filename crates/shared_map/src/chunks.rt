ghost use Rattle.std.specs.Prelude.{◌≡◌, [], IfOk, slice_index_or};
ghost use Rattle.std.specs.Option.{unwrap_or};
ghost use Rattle.shared_map.specs.Building.{appended};
ghost use Rattle.shared_map.specs.Chunks.{AreFull, joined};

use crate::chunk::Chunk;
use crate::entry::Entry;
use git_name::Name;
use std::alloc::{AllocError, Global};
use std::marker::Model;
use std::rc::Rc;

// A list of chunks, shared by its copies.
#[derive(Drop)]
pub(crate) struct Chunks {
    list: Rc<Vec<Chunk>>,
}

impl Model for Chunks {
    ghost use Rattle.std.specs.Prelude.{List};
    ghost use Rattle.shared_map.specs.Chunks.{Entries};

    ghost Value = { List Entries };

    ghost view = { λ a. a.list.value.items };
}

impl Chunks {
    pub(crate) fn new(alloc: Global, list: Vec<Chunk>) -> Result<Chunks, AllocError>
        ensures { IfOk result (λ chunks. chunks ≡ list.items) }
    {
        let list = Rc::new(alloc, list)?;
        Ok(Chunks { list })
    }

    pub(crate) fn as_slice(&self) -> &[Chunk]
        ensures { result.now ≡ self.now }
    {
        self.list.as_ref().as_slice()
    }

    // Appends an entry to the last chunk in place, and returns whether it did.
    pub(crate) fn push(&mut self, alloc: Global, key: &[u8], value: Name) -> bool
        ensures joined { joined self.new ≡ appended result (joined self.old) (key.now, value) }
        ensures full { AreFull self.old → AreFull self.new }
    {
        let Some(list) = Rc::get_mut(&mut self.list) else {
            return false;
        };
        push_last(alloc, list.as_mut_slice(), key, value)
    }

    // A copy that shares the memory of this list.
    pub(crate) fn share(&self) -> Result<Chunks, AllocError>
        ensures { IfOk result (λ chunks. chunks ≡ self.now) }
    {
        let list = self.list.clone()?;
        Ok(Chunks { list })
    }
}

// Appends an entry to the last of the chunks in place, and returns whether it did.
fn push_last(alloc: Global, chunks: &mut [Chunk], key: &[u8], value: Name) -> bool
    ensures joined { joined chunks.new ≡ appended result (joined chunks.old) (key.now, value) }
    ensures full { AreFull chunks.old → AreFull chunks.new }
{
    let Some(last) = chunks.last_mut() else {
        return false;
    };
    last.push(alloc, key, value)
}

// Appends an entry to the last chunk of a list in place, if there is one, and returns whether it did.
pub(crate) fn push_to(chunks: &mut Option<Chunks>, alloc: Global, key: &[u8], value: Name) -> bool
    ensures joined { joined (unwrap_or chunks.new []) ≡ appended result (joined (unwrap_or chunks.old [])) (key.now, value) }
    ensures full { AreFull (unwrap_or chunks.old []) → AreFull (unwrap_or chunks.new []) }
{
    let Some(list) = chunks.as_mut() else {
        return false;
    };
    list.push(alloc, key, value)
}

// The chunks of a list, or none if there is no list.
pub(crate) fn slice_of(chunks: &Option<Chunks>) -> &[Chunk]
    ensures { result.now ≡ unwrap_or chunks.now [] }
{
    match chunks {
        Some(chunks) => chunks.as_slice(),
        None => &[],
    }
}

// The entries of the chunk at a place, or none if there is no such chunk.
pub(crate) fn entries_at(chunks: &[Chunk], at: usize) -> &[Entry]
    ensures { result.now ≡ slice_index_or chunks.now at [] }
{
    if at >= chunks.len() {
        return &[];
    }
    chunks[at].entries()
}
