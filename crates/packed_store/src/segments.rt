ghost use Rattle.std.specs.Prelude.{◌≡◌, ℕ, List, IfOk, IsErr, IsTrue, OnOk, Some, true};
ghost use Rattle.std.specs.FinMap as map;
ghost use Rattle.devices.specs.Device.{files_of};
ghost use Rattle.loose_store.specs.Durability.{IsSync};
ghost use Rattle.packed_store.specs.Contents.{contents_in};
ghost use Rattle.packed_store.specs.Lasting.{AllLast, AreLasting, HasSegment, IsUnfailed, durability_of};
ghost use Rattle.packed_store.specs.Opening.{Opens};
ghost use Rattle.packed_store.specs.Place.{AreRecorded, index_of};
ghost use Rattle.packed_store.specs.Stored.{IsWritten};

use crate::compaction::make_space;
use crate::found::Found;
use crate::index::{Index, are_few_in, put_in_order};
use crate::log::Log;
use crate::storing::{
    list_names, put_file, put_sealed, read_file, remove_file, settle_removed, sync_all, sync_some,
};
use crate::survey::survey;
use devices::{Device, DeviceFault};
use git_name::{Hashing, Name, Nearby, Sealed};
use host_folder::{Gate, answered, of_device};
use loose_store::{FileFault, LooseFiles};
use std::alloc::{AllocError, Global};

/// Files in the segments of a device, each at `segments/` and eight digits: records behind one another. A segment of 256 MiB
/// is full. Whenever the process is killed, a file is whole or does not exist. A loss of power may lose what was not synced
/// (`sync`). A removed file comes back when the segments are opened again, unless the removal was made final
/// (`forget_removed`). A file that is too long for any object is not put. If the segments have more than twice the bytes of
/// their live files, each `forget_removed` copies up to 16,384 files of the first one, 16 MiB at most, to the end, and removes
/// it once it has none; `has_removed` asks for the next one as long as one did something. While the gate is shut it copies only
/// what frees the segment at once. It is as honest as its device.
#[derive(Drop)]
pub struct Segments<D: Device> {
    log: Log<D>,
    index: Index,
    nearby: Nearby,
    has_removed: bool,
    // Whether another step towards fewer bytes is worth while.
    is_sparse: bool,
    failures: u64,
    gate: Gate,
    ghost there: { IsTrue (D.honest log.device) → AreRecorded (files_of (D.past log.device)) (index_of index.entries) },
}

impl<D: Device + Drop> Segments<D> {
    // The segments of a device. A removal that was not made final is undone.
    fn resumed(
        device: D,
        alloc: Global,
        hashing: Hashing,
        gate: Gate,
    ) -> Result<Segments<D>, DeviceFault>
        ensures shows { IsTrue (D.honest device) → IfOk result (λ store. (name bytes : List ℕ) → map.get (contents_in (D.honest store.log.device) (D.past store.log.device) (index_of store.index.entries)) name ≡ Some bytes → IsWritten (files_of (D.past device)) name bytes) }
        ensures exact { IsTrue (D.honest device) → IfOk result (λ store. Opens (files_of (D.past device)) (contents_in (D.honest store.log.device) (D.past store.log.device) (index_of store.index.entries))) }
        ensures honest { IfOk result (λ store. D.honest store.log.device ≡ D.honest device) }
    {
        let mut found = Found::new(alloc, hashing);
        let extent = survey(&device, alloc, &mut found)?;
        let owes_undo = found.owes_undo();
        found.undo()?;
        let log = Log::resume(device, alloc, extent, owes_undo)?;
        let mut index = found.live;
        put_in_order(&mut index);
        Ok(Segments {
            log,
            index,
            nearby: Nearby::new(),
            has_removed: false,
            is_sparse: false,
            failures: 0,
            gate,
        })
    }

    /// The segments of a device, in which no other process writes. Reads all of them, 16 MiB at a time, and writes nothing.
    /// Passes over a damaged record, if its title says how long it is, and ignores what follows the last one of a segment. To
    /// such a segment nothing is appended. A removal that was not made final is undone: a record says so before the next
    /// removal.
    pub fn over(device: D, alloc: Global, hashing: Hashing) -> Result<Segments<D>, FileFault>
        ensures shows { IsTrue (D.honest device) → IfOk result (λ store. (name bytes : List ℕ) → map.get (contents_in (D.honest store.log.device) (D.past store.log.device) (index_of store.index.entries)) name ≡ Some bytes → IsWritten (files_of (D.past device)) name bytes) }
        ensures exact { IsTrue (D.honest device) → IfOk result (λ store. Opens (files_of (D.past device)) (contents_in (D.honest store.log.device) (D.past store.log.device) (index_of store.index.entries))) }
        ensures honest { IfOk result (λ store. D.honest store.log.device ≡ D.honest device) }
    {
        let gate = Gate::new(alloc)?;
        of_device(Segments::resumed(device, alloc, hashing, gate))
    }

    /// The gate that the folder's reserve shuts (`Reserve::open`). While it is shut, nothing is put.
    pub fn gate(&self) -> Result<Gate, AllocError> {
        self.gate.share()
    }
}

#[cfg(test)]
impl<D: Device + Drop> Segments<D> {
    /// The device, without the store.
    pub(crate) fn into_device(self) -> D {
        let Segments { log, .. } = self;
        log.into_device()
    }

    /// Lets a segment with so many bytes be full.
    pub(crate) fn set_full(&mut self, full: u32) {
        self.log.full = full;
    }
}

impl<D: Device> LooseFiles for Segments<D> {
    ghost contents = { λ store. contents_in (D.honest store.log.device) (D.past store.log.device) (index_of store.index.entries) };

    ghost honest = { λ store. D.honest store.log.device };

    ghost failures = { λ store. store.failures };

    ghost durability = { λ store. durability_of store.log.is_dirty store.has_removed };

    fn get(&mut self, alloc: Global, name: Name) -> Result<Option<Vec<u8>>, FileFault> {
        let answer = read_file(&self.log, &self.index, &self.nearby, alloc, name);
        answered(&mut self.failures, answer)
    }

    fn put(&mut self, alloc: Global, name: Name, bytes: &[u8]) -> Result<(), FileFault> {
        if self.gate.is_shut() {
            return answered(&mut self.failures, Err(DeviceFault::Device));
        }
        let answer = put_file(&mut self.log, &mut self.index, alloc, name, bytes);
        answered(&mut self.failures, answer)
    }

    fn put_object(&mut self, alloc: Global, sealed: Sealed) -> Result<Option<Sealed>, FileFault> {
        if self.gate.is_shut() {
            return answered(&mut self.failures, Err(DeviceFault::Device));
        }
        let answer = put_sealed(&mut self.log, &mut self.index, alloc, &sealed);
        match answered(&mut self.failures, answer) {
            Ok(()) => Ok(Some(sealed)),
            Err(fault) => Err(fault),
        }
    }

    fn remove(&mut self, alloc: Global, name: Name) -> Result<(), FileFault> {
        self.has_removed = true;
        let answer = remove_file(&mut self.log, &mut self.index, alloc, name);
        answered(&mut self.failures, answer)
    }

    fn names(&mut self, alloc: Global) -> Result<Vec<Name>, FileFault> {
        let names = list_names(&self.log, &self.index, alloc);
        answered(&mut self.failures, names)
    }

    fn sync(&mut self, alloc: Global) -> Result<(), FileFault>
        ensures contents { contents_in (D.honest self.new.log.device) (D.past self.new.log.device) (index_of self.new.index.entries) ≡ contents_in (D.honest self.old.log.device) (D.past self.old.log.device) (index_of self.old.index.entries) }
        ensures honest { D.honest self.new.log.device ≡ D.honest self.old.log.device }
        ensures failures { self.new.failures ≡ self.old.failures }
        ensures lasts { IsTrue (D.honest self.old.log.device) → IsUnfailed (D.past self.old.log.device) → OnOk result (HasSegment (D.past self.new.log.device) → AreLasting (D.past self.new.log.device) self.old.log.first self.old.log.segment) }
        ensures all { IsTrue (D.honest self.old.log.device) → IsUnfailed (D.past self.old.log.device) → OnOk result (HasSegment (D.past self.new.log.device) → AllLast (D.past self.new.log.device)) }
        ensures failed { self.old.log.has_failed ≡ true → IsErr result }
        ensures durable { IsSync (durability_of self.old.log.is_dirty self.old.has_removed) (durability_of self.new.log.is_dirty self.new.has_removed) result }
    {
        match sync_all(&mut self.log, &self.index, alloc) {
            Ok(()) => Ok(()),
            Err(_) if self.log.has_failed() => Err(FileFault::Device),
            Err(_) => Err(FileFault::Memory),
        }
    }

    fn sync_ahead(&mut self, alloc: Global) -> Result<(), FileFault> {
        of_device(sync_some(&mut self.log, &self.index, alloc))
    }

    fn has_removed(&self) -> bool {
        self.has_removed || self.is_sparse
    }

    fn forget_removed(&mut self, alloc: Global) -> Result<(), FileFault> {
        if !self.has_removed && !self.is_sparse {
            return Ok(());
        }
        self.is_sparse = false;
        let has_removed = self.has_removed;
        of_device(settle_removed(&mut self.log, &self.index, alloc, has_removed))?;
        self.has_removed = false;
        // What is copied takes the room of the state, unless the step frees the segment.
        let may_copy = !self.gate.is_shut() || are_few_in(&self.index, self.log.first());
        self.is_sparse = make_space(&mut self.log, &mut self.index, alloc, may_copy);
        Ok(())
    }

    fn hashing(&self) -> Hashing {
        *self.index.hasher()
    }

    fn failures(&self) -> u64 {
        self.failures
    }
}
