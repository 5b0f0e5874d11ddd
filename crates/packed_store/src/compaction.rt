// Room that is free again: the files of the first segment are copied to the end, and it is removed.
ghost use Rattle.std.specs.Prelude.{◌≡◌, IsTrue, false};
ghost use Rattle.devices.specs.Device.{files_of};
ghost use Rattle.packed_store.specs.Contents.{contents_in};
ghost use Rattle.packed_store.specs.Place.{AreRecorded, KeepsOthers, index_of};

use crate::index::{Index, has_none_in, live_bytes, make_room, place_of, set_place, some_in};
use crate::log::Log;
use crate::storing::sync_all;
use devices::{Device, DeviceFault};
use git_name::Name;
use std::alloc::Global;

// Appends the file of a name once more, so that its place moves to the end.
fn put_again<D: Device>(
    log: &mut Log<D>,
    index: &mut Index,
    alloc: Global,
    name: Name,
) -> Result<(), DeviceFault>
    ensures kept { (IsTrue (D.honest log.old.device) → AreRecorded (files_of (D.past log.old.device)) (index_of index.old.entries)) → contents_in (D.honest log.new.device) (D.past log.new.device) (index_of index.new.entries) ≡ contents_in (D.honest log.old.device) (D.past log.old.device) (index_of index.old.entries) }
    ensures there { IsTrue (D.honest log.old.device) → AreRecorded (files_of (D.past log.old.device)) (index_of index.old.entries) → AreRecorded (files_of (D.past log.new.device)) (index_of index.new.entries) }
    ensures honest { D.honest log.new.device ≡ D.honest log.old.device }
{
    let Some(place) = place_of(index, name) else {
        return Ok(());
    };
    let bytes = log.read(alloc, place)?;
    make_room(index)?;
    let copied = log.add_file(alloc, name, bytes.as_slice())?;
    set_place(index, name, copied)?;
    Ok(())
}

// Copies some files of the first segment to the end. Returns whether there are any.
fn copy_some<D: Device>(
    log: &mut Log<D>,
    index: &mut Index,
    alloc: Global,
) -> Result<bool, DeviceFault>
    ensures kept { (IsTrue (D.honest log.old.device) → AreRecorded (files_of (D.past log.old.device)) (index_of index.old.entries)) → contents_in (D.honest log.new.device) (D.past log.new.device) (index_of index.new.entries) ≡ contents_in (D.honest log.old.device) (D.past log.old.device) (index_of index.old.entries) }
    ensures there { IsTrue (D.honest log.old.device) → AreRecorded (files_of (D.past log.old.device)) (index_of index.old.entries) → AreRecorded (files_of (D.past log.new.device)) (index_of index.new.entries) }
    ensures honest { D.honest log.new.device ≡ D.honest log.old.device }
{
    let names = some_in(alloc, index, log.first())?;
    let has_some = !names.is_empty();
    for name in names {
        put_again(log, index, alloc, name)?;
    }
    Ok(has_some)
}

// Removes the first segment, if no file is in it. Syncs first: a loss of power must not keep the removal without the copies.
fn drop_first<D: Device>(log: &mut Log<D>, index: &Index, alloc: Global) -> Result<(), DeviceFault>
    ensures others { IsTrue (D.honest log.old.device) → KeepsOthers log.old.first (files_of (D.past log.old.device)) (files_of (D.past log.new.device)) }
    ensures kept { contents_in (D.honest log.new.device) (D.past log.new.device) (index_of index.now.entries) ≡ contents_in (D.honest log.old.device) (D.past log.old.device) (index_of index.now.entries) }
    ensures there { IsTrue (D.honest log.old.device) → AreRecorded (files_of (D.past log.old.device)) (index_of index.now.entries) → AreRecorded (files_of (D.past log.new.device)) (index_of index.now.entries) }
    ensures honest { D.honest log.new.device ≡ D.honest log.old.device }
{
    let first = log.first();
    if !has_none_in(index, first) {
        return Ok(());
    }
    sync_all(log, index, alloc)?;
    log.remove_segment(alloc, first)
}

// Copies some files of the first segment to the end, and removes it if none is left in it. A fault loses nothing. Returns
// whether anything was done.
fn compact<D: Device>(
    log: &mut Log<D>,
    index: &mut Index,
    alloc: Global,
) -> Result<bool, DeviceFault>
    ensures kept { (IsTrue (D.honest log.old.device) → AreRecorded (files_of (D.past log.old.device)) (index_of index.old.entries)) → contents_in (D.honest log.new.device) (D.past log.new.device) (index_of index.new.entries) ≡ contents_in (D.honest log.old.device) (D.past log.old.device) (index_of index.old.entries) }
    ensures there { IsTrue (D.honest log.old.device) → AreRecorded (files_of (D.past log.old.device)) (index_of index.old.entries) → AreRecorded (files_of (D.past log.new.device)) (index_of index.new.entries) }
    ensures honest { D.honest log.new.device ≡ D.honest log.old.device }
{
    let first = log.first();
    log.leave_first();
    let has_copied = copy_some(log, index, alloc)?;
    drop_first(log, index, alloc)?;
    Ok(has_copied || log.first() != first)
}

// Does one step, which copies files only if it may. Returns whether anything was done.
fn step<D: Device>(
    log: &mut Log<D>,
    index: &mut Index,
    alloc: Global,
    may_copy: bool,
) -> Result<bool, DeviceFault>
    ensures kept { (IsTrue (D.honest log.old.device) → AreRecorded (files_of (D.past log.old.device)) (index_of index.old.entries)) → contents_in (D.honest log.new.device) (D.past log.new.device) (index_of index.new.entries) ≡ contents_in (D.honest log.old.device) (D.past log.old.device) (index_of index.old.entries) }
    ensures there { IsTrue (D.honest log.old.device) → AreRecorded (files_of (D.past log.old.device)) (index_of index.old.entries) → AreRecorded (files_of (D.past log.new.device)) (index_of index.new.entries) }
    ensures shut { IsTrue (D.honest log.old.device) → may_copy ≡ false → KeepsOthers log.old.first (files_of (D.past log.old.device)) (files_of (D.past log.new.device)) }
    ensures honest { D.honest log.new.device ≡ D.honest log.old.device }
{
    if may_copy {
        return compact(log, index, alloc);
    }
    let first = log.first();
    drop_first(log, index, alloc)?;
    Ok(log.first() != first)
}

// Whether the segments have more than twice the bytes of all live files.
fn are_sparse<D: Device>(log: &Log<D>, index: &Index) -> bool {
    log.has_twice(live_bytes(index))
}

/// Does one step towards fewer bytes, if the segments have more than twice those of all live files. Call it only while all
/// removals are final or undone. It copies files only if it may: while a disk is full they would take the room of the state.
/// Returns whether another step is worth while: this one did something, and the segments still have so many bytes.
pub(crate) fn make_space<D: Device>(
    log: &mut Log<D>,
    index: &mut Index,
    alloc: Global,
    may_copy: bool,
) -> bool
    ensures kept { (IsTrue (D.honest log.old.device) → AreRecorded (files_of (D.past log.old.device)) (index_of index.old.entries)) → contents_in (D.honest log.new.device) (D.past log.new.device) (index_of index.new.entries) ≡ contents_in (D.honest log.old.device) (D.past log.old.device) (index_of index.old.entries) }
    ensures there { IsTrue (D.honest log.old.device) → AreRecorded (files_of (D.past log.old.device)) (index_of index.old.entries) → AreRecorded (files_of (D.past log.new.device)) (index_of index.new.entries) }
    ensures shut { IsTrue (D.honest log.old.device) → may_copy ≡ false → KeepsOthers log.old.first (files_of (D.past log.old.device)) (files_of (D.past log.new.device)) }
    ensures honest { D.honest log.new.device ≡ D.honest log.old.device }
{
    if !are_sparse(log, index) {
        return false;
    }
    match step(log, index, alloc, may_copy) {
        Ok(true) => are_sparse(log, index),
        _ => false,
    }
}
