ghost use Rattle.std.specs.Prelude.{◌≡◌, ◌+◌, ◌<◌, ◌^◌, ◌≤◌, IfSome, IfNone, OnOk, IfOk, Some, None, cond, drop, false, length, true};
ghost use Rattle.std.specs.FinMap as map;
ghost use Rattle.devices.specs.Device.{Files};
ghost use Rattle.packed_store.specs.Place.{index_of};
ghost use Rattle.packed_store.specs.Stored.{AllWritten, IsPart};
ghost use Rattle.packed_store.specs.Survey.{noted, nothing, opened, restored, shown_in, undone, without};
ghost use Rattle.packed_store.specs.Taking.{Reads, Takes, counts, seen_in};

use crate::index::{Index, clear, new_index, place_of, remove_place, set_place, take_last};
use crate::place::Place;
use crate::reading::{Record, Word, claimed_size, first_record};
use git_name::{Hashing, Name};
use std::alloc::{AllocError, Global};

/// What a survey has found so far: the places of live files, and those of files whose removal is not final.
#[derive(Drop)]
pub(crate) struct Found {
    pub(crate) live: Index,
    pub(crate) pending: Index,
    // Whether a damaged record of this segment was passed over, or of any.
    pub(crate) is_damaged: bool,
    was_damaged: bool,
}

// Moves the file of a name from the live ones to the pending ones.
fn move_out(live: &mut Index, pending: &mut Index, name: Name) -> Result<(), AllocError>
    ensures { OnOk result (shown_in live.new.entries pending.new.entries ≡ without (shown_in live.old.entries pending.old.entries) name (map.get (index_of live.old.entries) name)) }
{
    let Some(place) = place_of(live, name) else {
        return Ok(());
    };
    set_place(pending, name, place)?;
    remove_place(live, name);
    Ok(())
}

// Whether a record counts. After a damaged one only an object does, whose name is its hash: if a length was damaged, what
// looks like a record may be bytes that a tenant chose.
fn counts(is_damaged: bool, word: Word) -> bool
    ensures { result ≡ counts is_damaged word }
{
    match word {
        Word::Object => true,
        Word::File => !is_damaged,
        Word::Removal => !is_damaged,
        Word::Settled => !is_damaged,
        Word::Undone => !is_damaged,
    }
}

impl Found {
    /// Nothing.
    pub(crate) fn new(alloc: Global, hashing: Hashing) -> Found
        ensures { shown_in result.live.entries result.pending.entries ≡ nothing }
    {
        Found {
            live: new_index(alloc, hashing),
            pending: new_index(alloc, hashing),
            is_damaged: false,
            was_damaged: false,
        }
    }

    /// A segment begins.
    pub(crate) fn begin_segment(&mut self)
        ensures live { self.new.live.entries ≡ self.old.live.entries }
        ensures pending { self.new.pending.entries ≡ self.old.pending.entries }
        ensures damaged { self.new.is_damaged ≡ false }
    {
        self.is_damaged = false;
    }

    // Notes a record at a place.
    fn note(&mut self, one: Record, place: Place) -> Result<(), AllocError>
        ensures noted { OnOk result (shown_in self.new.live.entries self.new.pending.entries ≡ noted one.word one.name place (shown_in self.old.live.entries self.old.pending.entries)) }
        ensures same { self.new.is_damaged ≡ self.old.is_damaged }
    {
        match one.word {
            Word::Object => set_place(&mut self.live, one.name, place),
            Word::File => set_place(&mut self.live, one.name, place),
            Word::Removal => move_out(&mut self.live, &mut self.pending, one.name),
            Word::Settled => {
                clear(&mut self.pending);
                Ok(())
            }
            Word::Undone => self.undo(),
        }
    }

    // Notes a record at a place, if it counts.
    fn note_after(&mut self, one: Record, place: Place) -> Result<(), AllocError>
        ensures noted { OnOk result (shown_in self.new.live.entries self.new.pending.entries ≡ cond (counts self.old.is_damaged one.word) (noted one.word one.name place (shown_in self.old.live.entries self.old.pending.entries)) (shown_in self.old.live.entries self.old.pending.entries)) }
        ensures same { self.new.is_damaged ≡ self.old.is_damaged }
    {
        if !counts(self.is_damaged, one.word) {
            return Ok(());
        }
        self.note(one, place)
    }

    // Notes that a damaged record was passed over. Removals that are not final are undone: what was damaged may be what undid
    // them, and a later record would make them final.
    fn note_damage(&mut self) -> Result<(), AllocError>
        ensures shown { OnOk result (shown_in self.new.live.entries self.new.pending.entries ≡ undone (shown_in self.old.live.entries self.old.pending.entries)) }
        ensures damaged { OnOk result (self.new.is_damaged ≡ true) }
    {
        self.undo()?;
        self.is_damaged = true;
        self.was_damaged = true;
        Ok(())
    }

    // Takes in the record at the front of these bytes, which are in a segment from a byte on. Returns how many bytes it has.
    // One that is damaged is passed over, if its title says how long it is.
    fn take_first(&mut self, bytes: &[u8], segment: u32, at: u32) -> Result<Option<u32>, AllocError>
        requires { at + length bytes.now < 2 ^ 32 }
        ensures within { IfOk result (λ size. IfSome size (λ n. n ≤ length bytes.now)) }
        ensures takes { IfOk result (λ size. Takes bytes.now segment at (seen_in self.old.live.entries self.old.pending.entries self.old.is_damaged) (seen_in self.new.live.entries self.new.pending.entries self.new.is_damaged) size) }
        ensures written { OnOk result ((files : Files) → IsPart files segment at bytes.now → AllWritten files (shown_in self.old.live.entries self.old.pending.entries) → AllWritten files (shown_in self.new.live.entries self.new.pending.entries)) }
    {
        let Some(one) = first_record(bytes) else {
            let Some(size) = claimed_size(bytes) else {
                return Ok(None);
            };
            self.note_damage()?;
            return Ok(Some(size));
        };
        let size = one.size;
        let len = one.len;
        let at = at + one.title;
        self.note_after(one, Place { segment, at, len })?;
        Ok(Some(size))
    }

    // Takes in the record at this byte of these bytes, which are in a segment from a byte on. Returns how many bytes it has.
    fn take_at(
        &mut self,
        bytes: &[u8],
        segment: u32,
        from: u32,
        at: u32,
    ) -> Result<Option<u32>, AllocError>
        requires fits { from + length bytes.now < 2 ^ 32 }
        requires inside { at ≤ length bytes.now }
        ensures within { IfOk result (λ size. IfSome size (λ n. at + n ≤ length bytes.now)) }
        ensures takes { IfOk result (λ size. Takes (drop at bytes.now) segment (from + at) (seen_in self.old.live.entries self.old.pending.entries self.old.is_damaged) (seen_in self.new.live.entries self.new.pending.entries self.new.is_damaged) size) }
        ensures written { OnOk result ((files : Files) → IsPart files segment from bytes.now → AllWritten files (shown_in self.old.live.entries self.old.pending.entries) → AllWritten files (shown_in self.new.live.entries self.new.pending.entries)) }
    {
        let parts = bytes.split_at(at as usize);
        self.take_first(parts.1, segment, from + at)
    }

    /// Takes in the records at the front of these bytes, which are in a segment from a byte on. Returns how many
    /// bytes these records have.
    pub(crate) fn take_in(
        &mut self,
        bytes: &[u8],
        segment: u32,
        from: u32,
    ) -> Result<u32, AllocError>
        requires { from + length bytes.now < 2 ^ 32 }
        ensures within { IfOk result (λ taken. taken ≤ length bytes.now) }
        ensures reads { IfOk result (λ taken. Reads bytes.now segment from (seen_in self.old.live.entries self.old.pending.entries self.old.is_damaged) (seen_in self.new.live.entries self.new.pending.entries self.new.is_damaged) taken) }
        ensures ends { IfOk result (λ taken. Takes (drop taken bytes.now) segment (from + taken) (seen_in self.new.live.entries self.new.pending.entries self.new.is_damaged) (seen_in self.new.live.entries self.new.pending.entries self.new.is_damaged) None) }
        ensures written { OnOk result ((files : Files) → IsPart files segment from bytes.now → AllWritten files (shown_in self.old.live.entries self.old.pending.entries) → AllWritten files (shown_in self.new.live.entries self.new.pending.entries)) }
    {
        let mut at: u32 = 0;
        // No record is empty.
        for _ in 0..bytes.len() {
            let Some(size) = self.take_at(bytes, segment, from, at)? else {
                return Ok(at);
            };
            at += size;
        }
        Ok(at)
    }

    // Makes a pending file live again, if no file of its name is live.
    fn restore(&mut self, name: Name, place: Place) -> Result<(), AllocError>
        ensures kept { self.new.pending.entries ≡ self.old.pending.entries }
        ensures same { self.new.is_damaged ≡ self.old.is_damaged }
        ensures live { OnOk result (index_of self.new.live.entries ≡ restored (index_of self.old.live.entries) name place (map.get (index_of self.old.live.entries) name)) }
    {
        let Some(_place) = place_of(&self.live, name) else {
            return set_place(&mut self.live, name, place);
        };
        Ok(())
    }

    /// Whether removals are to be undone by a record: some are pending, or were taken for undone after damage.
    pub(crate) fn owes_undo(&self) -> bool {
        self.was_damaged || !self.pending.is_empty()
    }

    /// Makes each pending file live again, unless a file of its name is live.
    pub(crate) fn undo(&mut self) -> Result<(), AllocError>
        ensures live { OnOk result (index_of self.new.live.entries ≡ opened (shown_in self.old.live.entries self.old.pending.entries)) }
        ensures pending { OnOk result (index_of self.new.pending.entries ≡ map.empty) }
        ensures same { self.new.is_damaged ≡ self.old.is_damaged }
    {
        while let Some(last) = take_last(&mut self.pending) {
            self.restore(last.0, last.1)?;
        }
        Ok(())
    }
}
