// The syncs of a log.
ghost use Rattle.std.specs.Prelude.{◌≡◌, ◌+◌, Err, IsTrue, OnOk, codes, false, true};
ghost use Rattle.devices.specs.Device.{files_of};
ghost use Rattle.packed_store.specs.Lasting.{AllLast, AreLasting, AreSure, HasSegment, HasSureBytes, HasSureNames, IsUnfailed, Narrows};
ghost use Rattle.packed_store.specs.Place.{segment_path};

use crate::calls::{sync_bytes, sync_names};
use crate::log::Log;
use crate::place::{SEGMENTS, path_of};
use devices::{Device, DeviceFault};
use std::alloc::Global;

// Passes on the result of a sync. After a failure no more syncs are tried.
fn was_synced(has_failed: &mut bool, synced: Result<(), DeviceFault>) -> Result<(), DeviceFault>
    ensures passed { result ≡ synced }
    ensures failed { synced ≡ Err DeviceFault.Device → has_failed.new ≡ true }
    ensures stays { has_failed.old ≡ true → has_failed.new ≡ true }
{
    if let Err(DeviceFault::Device) = &synced {
        *has_failed = true;
    }
    synced
}

// Syncs the bytes of a segment.
fn sync_segment<D: Device>(
    device: &mut D,
    has_failed: &mut bool,
    alloc: Global,
    segment: u32,
) -> Result<(), DeviceFault>
    ensures narrows { IsTrue (D.honest device.old) → Narrows (D.past device.old) (D.past device.new) }
    ensures unfailed { IsTrue (D.honest device.old) → OnOk result (IsUnfailed (D.past device.old) → IsUnfailed (D.past device.new)) }
    ensures sure { IsTrue (D.honest device.old) → OnOk result (IsUnfailed (D.past device.new) → HasSureBytes (D.past device.new) (segment_path segment)) }
    ensures files { IsTrue (D.honest device.old) → files_of (D.past device.new) ≡ files_of (D.past device.old) }
    ensures honest { D.honest device.new ≡ D.honest device.old }
{
    let path = path_of(alloc, segment)?;
    let synced = sync_bytes(device, path.as_str());
    was_synced(has_failed, synced)
}

// Syncs the bytes of the segments from one on, and below another.
fn sync_below<D: Device>(
    device: &mut D,
    has_failed: &mut bool,
    alloc: Global,
    from: u32,
    end: u32,
) -> Result<(), DeviceFault>
    ensures narrows { IsTrue (D.honest device.old) → Narrows (D.past device.old) (D.past device.new) }
    ensures unfailed { IsTrue (D.honest device.old) → OnOk result (IsUnfailed (D.past device.old) → IsUnfailed (D.past device.new)) }
    ensures sure { IsTrue (D.honest device.old) → OnOk result (IsUnfailed (D.past device.new) → AreSure (D.past device.new) from end) }
    ensures files { IsTrue (D.honest device.old) → files_of (D.past device.new) ≡ files_of (D.past device.old) }
    ensures honest { D.honest device.new ≡ D.honest device.old }
{
    for segment in from..end {
        sync_segment(device, has_failed, alloc, segment)?;
    }
    Ok(())
}

// Syncs the bytes of the segments from one on, up to another.
fn sync_through<D: Device>(
    device: &mut D,
    has_failed: &mut bool,
    alloc: Global,
    from: u32,
    last: u32,
) -> Result<(), DeviceFault>
    ensures narrows { IsTrue (D.honest device.old) → Narrows (D.past device.old) (D.past device.new) }
    ensures unfailed { IsTrue (D.honest device.old) → OnOk result (IsUnfailed (D.past device.old) → IsUnfailed (D.past device.new)) }
    ensures sure { IsTrue (D.honest device.old) → OnOk result (IsUnfailed (D.past device.new) → AreSure (D.past device.new) from (last + 1)) }
    ensures files { IsTrue (D.honest device.old) → files_of (D.past device.new) ≡ files_of (D.past device.old) }
    ensures honest { D.honest device.new ≡ D.honest device.old }
{
    sync_below(device, has_failed, alloc, from, last)?;
    sync_segment(device, has_failed, alloc, last)
}

// Syncs the names in a folder.
fn sync_folder<D: Device>(
    device: &mut D,
    has_failed: &mut bool,
    alloc: Global,
    folder: &str,
) -> Result<(), DeviceFault>
    ensures narrows { IsTrue (D.honest device.old) → Narrows (D.past device.old) (D.past device.new) }
    ensures unfailed { IsTrue (D.honest device.old) → OnOk result (IsUnfailed (D.past device.old) → IsUnfailed (D.past device.new)) }
    ensures sure { IsTrue (D.honest device.old) → OnOk result (IsUnfailed (D.past device.new) → HasSureNames folder.now (D.past device.new)) }
    ensures files { IsTrue (D.honest device.old) → files_of (D.past device.new) ≡ files_of (D.past device.old) }
    ensures honest { D.honest device.new ≡ D.honest device.old }
{
    let synced = sync_names(device, alloc, folder);
    was_synced(has_failed, synced)
}

// Syncs the names of the segments, and that of their folder.
fn sync_folders<D: Device>(
    device: &mut D,
    has_failed: &mut bool,
    alloc: Global,
) -> Result<(), DeviceFault>
    ensures narrows { IsTrue (D.honest device.old) → Narrows (D.past device.old) (D.past device.new) }
    ensures unfailed { IsTrue (D.honest device.old) → OnOk result (IsUnfailed (D.past device.old) → IsUnfailed (D.past device.new)) }
    ensures sure { IsTrue (D.honest device.old) → OnOk result (IsUnfailed (D.past device.new) → HasSureNames (codes "segments/") (D.past device.new)) }
    ensures files { IsTrue (D.honest device.old) → files_of (D.past device.new) ≡ files_of (D.past device.old) }
    ensures honest { D.honest device.new ≡ D.honest device.old }
{
    sync_folder(device, has_failed, alloc, SEGMENTS)?;
    sync_folder(device, has_failed, alloc, "")
}

impl<D: Device> Log<D> {
    /// Whether a sync failed, so that each later call of `sync` fails too.
    pub(crate) fn has_failed(&self) -> bool
        ensures { result ≡ self.now.has_failed }
    {
        self.has_failed
    }

    // Syncs the bytes of all segments that may have bytes that are not synced.
    fn sync_segments(&mut self, alloc: Global) -> Result<(), DeviceFault>
        ensures first { self.new.first ≡ self.old.first }
        ensures segment { self.new.segment ≡ self.old.segment }
        ensures narrows { IsTrue (D.honest self.old.device) → Narrows (D.past self.old.device) (D.past self.new.device) }
        ensures unfailed { IsTrue (D.honest self.old.device) → OnOk result (IsUnfailed (D.past self.old.device) → IsUnfailed (D.past self.new.device)) }
        ensures sure { IsTrue (D.honest self.old.device) → OnOk result (IsUnfailed (D.past self.new.device) → AreSure (D.past self.new.device) self.new.first (self.new.segment + 1)) }
        ensures files { IsTrue (D.honest self.old.device) → files_of (D.past self.new.device) ≡ files_of (D.past self.old.device) }
        ensures honest { D.honest self.new.device ≡ D.honest self.old.device }
    {
        sync_through(
            &mut self.device,
            &mut self.has_failed,
            alloc,
            self.unsynced.max(1),
            self.segment,
        )?;
        self.unsynced = self.segment;
        Ok(())
    }

    // Syncs the names of the segments, if any may not be synced.
    fn sync_new(&mut self, alloc: Global) -> Result<(), DeviceFault>
        ensures named { OnOk result (self.new.is_new ≡ false) }
        ensures first { self.new.first ≡ self.old.first }
        ensures segment { self.new.segment ≡ self.old.segment }
        ensures narrows { IsTrue (D.honest self.old.device) → Narrows (D.past self.old.device) (D.past self.new.device) }
        ensures unfailed { IsTrue (D.honest self.old.device) → OnOk result (IsUnfailed (D.past self.old.device) → IsUnfailed (D.past self.new.device)) }
        ensures files { IsTrue (D.honest self.old.device) → files_of (D.past self.new.device) ≡ files_of (D.past self.old.device) }
        ensures honest { D.honest self.new.device ≡ D.honest self.old.device }
    {
        if !self.is_new {
            return Ok(());
        }
        sync_folders(&mut self.device, &mut self.has_failed, alloc)?;
        self.is_new = false;
        Ok(())
    }

    // Where nothing is marked as not synced, all segments last.
    fn lasting(&self)
        ensures lasts { self.now.is_dirty ≡ false → IsTrue (D.honest self.now.device) → IsUnfailed (D.past self.now.device) → HasSegment (D.past self.now.device) → AreLasting (D.past self.now.device) self.now.first self.now.segment }
        ensures all { self.now.is_dirty ≡ false → IsTrue (D.honest self.now.device) → IsUnfailed (D.past self.now.device) → HasSegment (D.past self.now.device) → AllLast (D.past self.now.device) }
    {}

    /// Makes all records survive a loss of power.
    pub(crate) fn sync(&mut self, alloc: Global) -> Result<(), DeviceFault>
        ensures lasts { IsTrue (D.honest self.old.device) → IsUnfailed (D.past self.old.device) → OnOk result (HasSegment (D.past self.new.device) → AreLasting (D.past self.new.device) self.new.first self.new.segment) }
        ensures all { IsTrue (D.honest self.old.device) → IsUnfailed (D.past self.old.device) → OnOk result (HasSegment (D.past self.new.device) → AllLast (D.past self.new.device)) }
        ensures failed { self.old.has_failed ≡ true → result ≡ Err DeviceFault.Device }
        ensures first { self.new.first ≡ self.old.first }
        ensures segment { self.new.segment ≡ self.old.segment }
        ensures clean { OnOk result (self.new.is_dirty ≡ false) }
        ensures files { IsTrue (D.honest self.old.device) → files_of (D.past self.new.device) ≡ files_of (D.past self.old.device) }
        ensures honest { D.honest self.new.device ≡ D.honest self.old.device }
    {
        if self.has_failed {
            return Err(DeviceFault::Device);
        }
        if !self.is_dirty {
            self.lasting();
            return Ok(());
        }
        self.sync_segments(alloc)?;
        self.sync_new(alloc)?;
        self.is_dirty = false;
        self.lasting();
        Ok(())
    }

    /// Syncs the bytes of one segment in which no more is written, if there is one. What cannot be opened is left for later.
    pub(crate) fn sync_ahead(&mut self, alloc: Global) -> Result<(), DeviceFault>
        ensures files { IsTrue (D.honest self.old.device) → files_of (D.past self.new.device) ≡ files_of (D.past self.old.device) }
        ensures honest { D.honest self.new.device ≡ D.honest self.old.device }
    {
        let segment = self.unsynced;
        if segment >= self.segment {
            return Ok(());
        }
        if let Err(fault) = sync_segment(&mut self.device, &mut self.has_failed, alloc, segment) {
            return if self.has_failed { Err(fault) } else { Ok(()) };
        }
        self.unsynced = segment + 1;
        Ok(())
    }
}
