ghost use Rattle.std.specs.Prelude.{◌≡◌, ◌+◌, ◌<◌, ◌≤◌, ℕ, IsTrue, IfOk, OnOk, codes, false, length, string_bytes};
ghost use Rattle.devices.specs.Device.{files_of};
ghost use Rattle.packed_store.specs.Lasting.{AreSure, HasSureNames, IsUnfailed};
ghost use Rattle.packed_store.specs.Place.{AreWithin, EndsWith, Grows, KeepsOthers, bytes_at, segment_of, segment_path};

use crate::calls::{append_to, remove_at};
use crate::next_segment::segment_after;
use crate::place::{Place, path_of};
use crate::survey::{Extent, length_of};
use devices::{Device, DeviceFault};
use std::alloc::Global;

// A segment that has so many bytes is full.
const FULL: u32 = 268_435_456;

/// The segments of a device. Records are appended to the last one. After an append that failed, the next record begins a
/// new segment, unless the last one has no bytes.
#[derive(Drop)]
pub(crate) struct Log<D: Device> {
    pub(crate) device: D,
    // The first segment that may exist.
    pub(crate) first: u32,
    // How many bytes all segments have.
    total: u64,
    // A segment that has so many bytes is full.
    pub(crate) full: u32,
    pub(crate) segment: u32,
    path: String,
    // How many bytes the segment has.
    end: u32,
    // Whether the segment may have more bytes than that, or is not begun yet.
    is_torn: bool,
    // Whether removals were undone, and no record says so yet. Also after a removal that failed: its record may be there.
    pub(crate) owes_undo: bool,
    // The record that is appended next.
    pub(crate) room: Vec<u8>,
    // The first segment that may have bytes that are not synced.
    pub(crate) unsynced: u32,
    // Whether there may be bytes that are not synced, and segments whose names are not.
    pub(crate) is_dirty: bool,
    pub(crate) is_new: bool,
    // Whether a sync failed. The system may have dropped what it could not write, and a later sync does not report that.
    pub(crate) has_failed: bool,
    ghost path_is: { is_torn ≡ false → string_bytes path ≡ segment_path segment },
    ghost end_is: { is_torn ≡ false → IsTrue (D.honest device) → length (segment_of (files_of (D.past device)) segment) ≡ end },
    ghost numbered: { 0 < first },
    ghost order: { unsynced ≤ segment },
    ghost within: { IsTrue (D.honest device) → AreWithin (files_of (D.past device)) first segment },
    ghost ahead: { (n : ℕ) → segment ≤ n → 0 < n → first ≤ n },
    ghost begun: { is_torn ≡ false → 0 < segment },
    ghost below: { IsTrue (D.honest device) → IsUnfailed (D.past device) → AreSure (D.past device) first unsynced },
    ghost clean: { is_dirty ≡ false → IsTrue (D.honest device) → IsUnfailed (D.past device) → AreSure (D.past device) first (segment + 1) },
    ghost known: { is_dirty ≡ false → is_new ≡ false },
    ghost named: { is_new ≡ false → IsTrue (D.honest device) → IsUnfailed (D.past device) → HasSureNames (codes "segments/") (D.past device) },
}

impl<D: Device + Drop> Log<D> {
    /// The segments of a device, whose extent is given, and whether removals in them were undone.
    pub(crate) fn resume(
        device: D,
        alloc: Global,
        extent: Extent,
        owes_undo: bool,
    ) -> Result<Log<D>, DeviceFault>
        requires within { IsTrue (D.honest device) → AreWithin (files_of (D.past device)) extent.first extent.last.segment }
        requires ahead { (n : ℕ) → extent.last.segment ≤ n → 0 < n → extent.first ≤ n }
        requires begun { extent.last.is_torn ≡ false → 0 < extent.last.segment }
        requires counted { extent.last.is_torn ≡ false → IsTrue (D.honest device) → length (segment_of (files_of (D.past device)) extent.last.segment) ≡ extent.last.end }
        ensures { IfOk result (λ log. log.device ≡ device) }
    {
        let last = extent.last;
        let path = path_of(alloc, last.segment)?;
        Ok(Log {
            device,
            first: extent.first.max(1),
            total: extent.total,
            full: FULL,
            segment: last.segment,
            path,
            end: last.end,
            is_torn: last.is_torn,
            owes_undo,
            room: Vec::new(alloc),
            // An earlier process may have synced none of them.
            unsynced: extent.first.min(last.segment),
            is_dirty: true,
            is_new: true,
            has_failed: false,
        })
    }
}

#[cfg(test)]
impl<D: Device + Drop> Log<D> {
    /// The device.
    pub(crate) fn into_device(self) -> D {
        let Log { device, .. } = self;
        device
    }
}

impl<D: Device> Log<D> {
    // Whether the next record begins a new segment.
    fn is_ended(&self) -> bool
        ensures { result ≡ false → self.now.is_torn ≡ false }
    {
        self.is_torn || self.end >= self.full
    }

    // Begins a segment.
    fn begin(&mut self, alloc: Global) -> Result<(), DeviceFault>
        ensures begun { OnOk result (self.new.is_torn ≡ false) }
        ensures past { IsTrue (D.honest self.old.device) → D.past self.new.device ≡ D.past self.old.device }
        ensures room { self.new.room.items ≡ self.old.room.items }
        ensures honest { D.honest self.new.device ≡ D.honest self.old.device }
    {
        self.is_torn = true;
        let segment = segment_after(&self.device, alloc, self.segment)?;
        let path = path_of(alloc, segment)?;
        self.segment = segment;
        self.path = path;
        self.end = 0;
        self.is_dirty = true;
        self.is_new = true;
        self.is_torn = false;
        Ok(())
    }

    // Begins a segment, if the next record is to be in a new one.
    fn make_ready(&mut self, alloc: Global) -> Result<(), DeviceFault>
        ensures ready { OnOk result (self.new.is_torn ≡ false) }
        ensures past { IsTrue (D.honest self.old.device) → D.past self.new.device ≡ D.past self.old.device }
        ensures room { self.new.room.items ≡ self.old.room.items }
        ensures honest { D.honest self.new.device ≡ D.honest self.old.device }
    {
        if !self.is_ended() {
            return Ok(());
        }
        self.begin(alloc)
    }

    // Appends the record to the segment. Returns where it begins.
    fn append(&mut self) -> Result<u32, DeviceFault>
        requires { self.old.is_torn ≡ false }
        ensures added { IsTrue (D.honest self.old.device) → IfOk result (λ at. EndsWith (files_of (D.past self.new.device)) self.new.segment at self.old.room.items) }
        ensures grows { IsTrue (D.honest self.old.device) → Grows (files_of (D.past self.old.device)) (files_of (D.past self.new.device)) }
        ensures honest { D.honest self.new.device ≡ D.honest self.old.device }
    {
        let _segment = self.segment;
        let at = self.end;
        let Ok(size) = u32::try_from(self.room.len()) else {
            return Err(DeviceFault::Device);
        };
        let Some(end) = at.checked_add(size) else {
            return Err(DeviceFault::Device);
        };
        self.is_torn = true;
        self.is_dirty = true;
        // A segment without bytes may not exist yet.
        self.is_new = self.is_new | (at == 0);
        append_to(&mut self.device, self.path.as_str(), self.room.as_slice())?;
        self.end = end;
        self.total = self.total.saturating_add(size as u64);
        self.is_torn = false;
        Ok(at)
    }

    /// Appends the record to a segment. Returns where it begins.
    pub(crate) fn add(&mut self, alloc: Global) -> Result<u32, DeviceFault>
        ensures added { IsTrue (D.honest self.old.device) → IfOk result (λ at. EndsWith (files_of (D.past self.new.device)) self.new.segment at self.old.room.items) }
        ensures grows { IsTrue (D.honest self.old.device) → Grows (files_of (D.past self.old.device)) (files_of (D.past self.new.device)) }
        ensures honest { D.honest self.new.device ≡ D.honest self.old.device }
    {
        self.make_ready(alloc)?;
        self.append()
    }

    /// The bytes at a place.
    pub(crate) fn read(&self, alloc: Global, place: Place) -> Result<Vec<u8>, DeviceFault>
        ensures { IsTrue (D.honest self.now.device) → IfOk result (λ bytes. bytes.items ≡ bytes_at (files_of (D.past self.now.device)) place) }
    {
        let path = path_of(alloc, place.segment)?;
        let at = place.at as u64;
        let Some(bytes) = self
            .device
            .read_part(alloc, path.as_str(), at, place.len as usize)?
        else {
            return Err(DeviceFault::Device);
        };
        Ok(bytes)
    }

    /// The first segment that may exist.
    pub(crate) fn first(&self) -> u32
        ensures { result ≡ self.now.first }
    {
        self.first
    }

    /// Whether the segments have more than twice as many bytes as this.
    pub(crate) fn has_twice(&self, bytes: u64) -> bool {
        self.total / 2 > bytes
    }

    /// Lets the next record begin a new segment, if there is one segment only.
    pub(crate) fn leave_first(&mut self)
        ensures { self.new.device ≡ self.old.device }
    {
        if self.first < self.segment {
            return;
        }
        self.is_torn = true;
    }

    /// Removes the first segment. The last one is kept. The next sync keeps the removal, so that a loss of
    /// power undoes none while a later one lasts.
    pub(crate) fn remove_segment(&mut self, alloc: Global, segment: u32) -> Result<(), DeviceFault>
        requires synced { self.old.is_dirty ≡ false }
        requires first { segment ≡ self.old.first }
        ensures others { IsTrue (D.honest self.old.device) → KeepsOthers segment (files_of (D.past self.old.device)) (files_of (D.past self.new.device)) }
        ensures honest { D.honest self.new.device ≡ D.honest self.old.device }
    {
        if segment >= self.segment {
            return Ok(());
        }
        let path = path_of(alloc, segment)?;
        let size = length_of(&self.device, alloc, path.as_str())?;
        self.is_new = true;
        self.is_dirty = true;
        remove_at(&mut self.device, path.as_str())?;
        self.total = self.total.saturating_sub(size as u64);
        self.first = self.first.max(segment + 1);
        Ok(())
    }
}
