ghost use Rattle.std.specs.Prelude.{◌≡◌, ◌++◌, ◌<◌, true, false, IfOk, OnOk, length};
ghost use Rattle.shared_map.specs.Building.{appended};
ghost use Rattle.shared_map.specs.Chunks.{AreBefore, Reaches, Rises, joined};

use crate::building::MOST;
use crate::entry::Entry;
use git_name::Name;
use std::alloc::{AllocError, Global};
use std::marker::Model;
use std::rc::Rc;

// Some entries in a row, shared by the copies of the chunk.
#[derive(Drop)]
pub(crate) struct Chunk {
    entries: Rc<Vec<Entry>>,
}

impl Model for Chunk {
    ghost use Rattle.shared_map.specs.Chunks.{Entries};

    ghost Value = { Entries };

    ghost view = { λ a. a.entries.value.items };
}

impl Chunk {
    // A chunk of these entries. It takes no more memory than they need.
    pub(crate) fn new(alloc: Global, entries: &[Entry]) -> Result<Chunk, AllocError>
        ensures { IfOk result (λ chunk. chunk ≡ entries.now) }
    {
        let mut copy = Vec::with_capacity(alloc, entries.len())?;
        share_all(&mut copy, entries)?;
        let entries = Rc::new(alloc, copy)?;
        Ok(Chunk { entries })
    }

    pub(crate) fn entries(&self) -> &[Entry]
        ensures { result.now ≡ self.now }
    {
        self.entries.as_ref().as_slice()
    }

    // Appends an entry in place, and returns whether it did. It does not if copies share the chunk, the chunk
    // is full, or memory runs out.
    pub(crate) fn push(&mut self, alloc: Global, key: &[u8], value: Name) -> bool
        ensures { self.new ≡ appended result self.old (key.now, value) }
    {
        let Some(entries) = Rc::get_mut(&mut self.entries) else {
            return false;
        };
        push_entry(alloc, entries, key, value)
    }

    // A copy that shares the memory of this chunk.
    pub(crate) fn share(&self) -> Result<Chunk, AllocError>
        ensures { IfOk result (λ chunk. chunk ≡ self.now) }
    {
        let entries = self.entries.clone()?;
        Ok(Chunk { entries })
    }

    // Whether all keys come before this one.
    pub(crate) fn is_before(&self, key: &[u8]) -> bool
        requires some { 0 < length self.now }
        requires order { Rises self.now }
        ensures before { result ≡ true → AreBefore key.now self.now }
        ensures reaches { result ≡ false → Reaches key.now self.now }
    {
        let entries = self.entries();
        entries[entries.len() - 1].is_before(key)
    }
}

// Appends an entry, if there is room for it.
fn push_entry(alloc: Global, entries: &mut Vec<Entry>, key: &[u8], value: Name) -> bool
    ensures { entries.new.items ≡ appended result entries.old.items (key.now, value) }
{
    if entries.len() >= MOST {
        return false;
    }
    let Ok(entry) = Entry::new(alloc, key, value) else {
        return false;
    };
    let Ok(()) = entries.push(entry) else {
        return false;
    };
    true
}

// Appends copies of these entries, which share their bytes.
pub(crate) fn share_all(out: &mut Vec<Entry>, entries: &[Entry]) -> Result<(), AllocError>
    ensures { OnOk result (out.new.items ≡ out.old.items ++ entries.now) }
{
    for entry in entries {
        let same = entry.share()?;
        out.push(same)?;
    }
    Ok(())
}

// Appends copies of the entries of all chunks.
pub(crate) fn share_entries(out: &mut Vec<Entry>, chunks: &[Chunk]) -> Result<(), AllocError>
    ensures { OnOk result (out.new.items ≡ out.old.items ++ joined chunks.now) }
{
    for chunk in chunks {
        share_all(out, chunk.entries())?;
    }
    Ok(())
}

// Appends copies of these chunks, which share their memory.
pub(crate) fn share_chunks(out: &mut Vec<Chunk>, chunks: &[Chunk]) -> Result<(), AllocError>
    ensures { OnOk result (out.new.items ≡ out.old.items ++ chunks.now) }
{
    for chunk in chunks {
        let same = chunk.share()?;
        out.push(same)?;
    }
    Ok(())
}
