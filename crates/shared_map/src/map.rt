ghost use Rattle.std.specs.Prelude.{◌≡◌, ◌≤◌, ◌+◌, [], true, false, IfOk, OnOk, OnErr, length, not};
ghost use Rattle.std.specs.FinMap as map;
ghost use Rattle.std.specs.List.{find};
ghost use Rattle.std.specs.List.Sorted.{IsStrictlySortedBy};
ghost use Rattle.std.specs.Option.{option_copied};
ghost use Rattle.std.specs.Ordering.{is_lt};
ghost use Rattle.git_name.specs.Name.{name_cmp};
ghost use Rattle.shared_map.specs.Building.{set_in};
ghost use Rattle.shared_map.specs.Chunks.{kept};

mod sharing;

use crate::building::rebuilt;
use crate::chunks::{Chunks, entries_at, push_to, slice_of};
use crate::iter::Iter;
use crate::search::{are_chunks_before, chunk_for, count_before};
use crate::spot::spot_of;
use git_name::Name;
use std::alloc::{AllocError, Global};
use std::marker::Model;

/// A map from texts to names of objects. Texts are ordered bytewise. Copies share memory until one of them
/// changes.
#[derive(Drop)]
pub struct SharedMap {
    alloc: Global,
    count: usize,
    chunks: Option<Chunks>,
}

impl Model for SharedMap {
    ghost use Rattle.std.specs.Prelude.{[], List, ℕ};
    ghost use Rattle.std.specs.Coded.{coded_list, coded_ℕ};
    ghost use Rattle.std.specs.FinMap as map;
    ghost use Rattle.std.specs.Option.{unwrap_or};
    ghost use Rattle.git_name.specs.Name.{name_cmp};
    ghost use Rattle.shared_map.specs.Chunks.{AreChunks, joined};

    ghost Value = { map.FinMap name_cmp (List ℕ) };

    ghost coded = { map.code (coded_list coded_ℕ) (coded_list coded_ℕ) };

    ghost view = { λ a. map.from_entries (joined (unwrap_or a.chunks [])) };

    ghost invariant = { λ a. AreChunks (unwrap_or a.chunks []) a.count };
}

impl SharedMap {
    /// A map without texts. It takes no memory.
    pub fn new(alloc: Global) -> SharedMap
        ensures { result ≡ map.empty }
    {
        SharedMap {
            alloc,
            count: 0,
            chunks: None,
        }
    }

    /// The number of texts.
    pub fn len(&self) -> usize
        ensures { result ≡ map.len self.now }
    {
        self.count
    }

    /// The name that a text has.
    pub fn get(&self, key: &[u8]) -> Option<Name>
        ensures { result ≡ map.get self.now key.now }
    {
        let chunks = slice_of(&self.chunks);
        let at = chunk_for(chunks, key);
        spot_of(entries_at(chunks, at), key).value
    }

    /// The texts and their names, in ascending order.
    pub fn iter(&self) -> Iter<'_>
        ensures entries { result ≡ map.entries self.now }
        ensures ordered { IsStrictlySortedBy name_cmp (map.keys self.now) }
    {
        Iter::new(slice_of(&self.chunks))
    }

    /// The first text that does not come before this one.
    pub fn first_from(&self, key: &[u8]) -> Option<&[u8]>
        ensures { option_copied result ≡ find (λ other. not (is_lt (name_cmp other key.now))) (map.keys self.now) }
    {
        let chunks = slice_of(&self.chunks);
        let entries = entries_at(chunks, chunk_for(chunks, key));
        let at = count_before(entries, key);
        if at >= entries.len() {
            return None;
        }
        Some(entries[at].key())
    }

    /// Gives a text a name. An `Err` leaves the map as it was.
    pub fn insert(&mut self, key: &[u8], value: Name) -> Result<(), AllocError>
        ensures ok { OnOk result (self.new ≡ map.insert self.old key.now value) }
        ensures err { OnErr result (self.new ≡ self.old) }
    {
        if self.append(key, value) {
            return Ok(());
        }
        self.change(key, &Some(value))
    }

    /// Removes a text, if the map has it. An `Err` leaves the map as it was.
    pub fn remove(&mut self, key: &[u8]) -> Result<(), AllocError>
        ensures ok { OnOk result (self.new ≡ map.remove self.old key.now) }
        ensures err { OnErr result (self.new ≡ self.old) }
    {
        self.change(key, &None)
    }

    // Gives a text a name in place, and returns whether it did. It does so only if the text comes after all
    // others, and nothing has to be rebuilt.
    fn append(&mut self, key: &[u8], value: Name) -> bool
        ensures done { result ≡ true → self.new ≡ map.insert self.old key.now value }
        ensures kept { result ≡ false → self.new ≡ self.old }
    {
        if !are_chunks_before(slice_of(&self.chunks), key) {
            return false;
        }
        let Some(count) = self.count.checked_add(1) else {
            return false;
        };
        if !push_to(&mut self.chunks, self.alloc, key, value) {
            return false;
        }
        self.count = count;
        true
    }

    // Gives a text this name, or removes the text.
    fn change(&mut self, key: &[u8], value: &Option<Name>) -> Result<(), AllocError>
        ensures ok { OnOk result (self.new ≡ set_in self.old key.now value.now) }
        ensures err { OnErr result (self.new ≡ self.old) }
    {
        let alloc = self.alloc;
        let chunks = slice_of(&self.chunks);
        let at = chunk_for(chunks, key);
        let spot = spot_of(entries_at(chunks, at), key);
        let new = rebuilt(alloc, chunks, at, &spot, key, value)?;
        let count = len_with(len_without(self.len(), &spot.value), value)?;
        let new = Chunks::new(alloc, new)?;
        *self = SharedMap {
            alloc,
            count,
            chunks: Some(new),
        };
        Ok(())
    }
}

// The number of texts without this one, if the map has it.
fn len_without(len: usize, value: &Option<Name>) -> usize
    requires { length (kept [] value.now) ≤ len }
    ensures { result + length (kept [] value.now) ≡ len }
{
    if value.is_none() {
        return len;
    }
    len - 1
}

// The number of texts with this one, if it gets a name.
fn len_with(len: usize, value: &Option<Name>) -> Result<usize, AllocError>
    ensures { IfOk result (λ after. after ≡ len + length (kept [] value.now)) }
{
    if value.is_none() {
        return Ok(len);
    }
    let Some(after) = len.checked_add(1) else {
        return Err(AllocError);
    };
    Ok(after)
}
