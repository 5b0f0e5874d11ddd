// What is done to a log and its index together.
ghost use Rattle.std.specs.Prelude.{◌≡◌, Err, IsTrue, IfOk, OnOk, Some, None, false, true, option_map};
ghost use Rattle.std.specs.FinMap as map;
ghost use Rattle.devices.specs.Device.{files_of};
ghost use Rattle.git_name.specs.Object.{object_name, typed_bytes};
ghost use Rattle.loose_store.specs.Files.{SameBut};
ghost use Rattle.packed_store.specs.Appended.{IsAppended, IsRemoved};
ghost use Rattle.packed_store.specs.Contents.{contents_in};
ghost use Rattle.packed_store.specs.Entry.{Settled, Undone};
ghost use Rattle.packed_store.specs.Lasting.{AllLast, AreLasting, HasSegment, IsUnfailed};
ghost use Rattle.packed_store.specs.Place.{AreRecorded, index_of};
ghost use Rattle.packed_store.specs.Stored.{IsWritten};

use crate::index::{Index, make_room, names_in, place_near, place_of, remove_place, set_place};
use crate::log::Log;
use devices::{Device, DeviceFault};
use git_name::{Name, Nearby, Sealed};
use std::alloc::Global;

/// The file of a name, if there is one.
pub(crate) fn read_file<D: Device>(
    log: &Log<D>,
    index: &Index,
    nearby: &Nearby,
    alloc: Global,
    name: Name,
) -> Result<Option<Vec<u8>>, DeviceFault>
    ensures { IsTrue (D.honest log.now.device) → IfOk result (λ found. option_map (λ bytes. bytes.items) found ≡ map.get (contents_in (D.honest log.now.device) (D.past log.now.device) (index_of index.now.entries)) name) }
{
    let Some(place) = place_near(index, nearby, name) else {
        return Ok(None);
    };
    let bytes = log.read(alloc, place)?;
    Ok(Some(bytes))
}

/// The names of all files, ascending.
pub(crate) fn list_names<D: Device>(
    log: &Log<D>,
    index: &Index,
    alloc: Global,
) -> Result<Vec<Name>, DeviceFault>
    ensures { IsTrue (D.honest log.now.device) → IfOk result (λ names. names.items ≡ map.keys (contents_in (D.honest log.now.device) (D.past log.now.device) (index_of index.now.entries))) }
{
    let _log = log;
    Ok(names_in(alloc, index)?)
}

/// Puts a file under a name.
pub(crate) fn put_file<D: Device>(
    log: &mut Log<D>,
    index: &mut Index,
    alloc: Global,
    name: Name,
    bytes: &[u8],
) -> Result<(), DeviceFault>
    ensures ok { IsTrue (D.honest log.old.device) → AreRecorded (files_of (D.past log.old.device)) (index_of index.old.entries) → OnOk result (contents_in (D.honest log.new.device) (D.past log.new.device) (index_of index.new.entries) ≡ map.insert (contents_in (D.honest log.old.device) (D.past log.old.device) (index_of index.old.entries)) name bytes.now) }
    ensures others { IsTrue (D.honest log.old.device) → AreRecorded (files_of (D.past log.old.device)) (index_of index.old.entries) → SameBut name (contents_in (D.honest log.old.device) (D.past log.old.device) (index_of index.old.entries)) (contents_in (D.honest log.new.device) (D.past log.new.device) (index_of index.new.entries)) }
    ensures there { IsTrue (D.honest log.old.device) → AreRecorded (files_of (D.past log.old.device)) (index_of index.old.entries) → AreRecorded (files_of (D.past log.new.device)) (index_of index.new.entries) }
    ensures written { IsTrue (D.honest log.old.device) → OnOk result (IsWritten (files_of (D.past log.new.device)) name bytes.now) }
    ensures honest { D.honest log.new.device ≡ D.honest log.old.device }
{
    make_room(index)?;
    let place = log.add_file(alloc, name, bytes)?;
    set_place(index, name, place)?;
    Ok(())
}

/// Puts the file of an object under its name.
pub(crate) fn put_sealed<D: Device>(
    log: &mut Log<D>,
    index: &mut Index,
    alloc: Global,
    sealed: &Sealed,
) -> Result<(), DeviceFault>
    ensures ok { IsTrue (D.honest log.old.device) → AreRecorded (files_of (D.past log.old.device)) (index_of index.old.entries) → OnOk result (contents_in (D.honest log.new.device) (D.past log.new.device) (index_of index.new.entries) ≡ map.insert (contents_in (D.honest log.old.device) (D.past log.old.device) (index_of index.old.entries)) (object_name sealed.now) (typed_bytes sealed.now)) }
    ensures others { IsTrue (D.honest log.old.device) → AreRecorded (files_of (D.past log.old.device)) (index_of index.old.entries) → SameBut (object_name sealed.now) (contents_in (D.honest log.old.device) (D.past log.old.device) (index_of index.old.entries)) (contents_in (D.honest log.new.device) (D.past log.new.device) (index_of index.new.entries)) }
    ensures there { IsTrue (D.honest log.old.device) → AreRecorded (files_of (D.past log.old.device)) (index_of index.old.entries) → AreRecorded (files_of (D.past log.new.device)) (index_of index.new.entries) }
    ensures written { IsTrue (D.honest log.old.device) → OnOk result (IsWritten (files_of (D.past log.new.device)) (object_name sealed.now) (typed_bytes sealed.now)) }
    ensures honest { D.honest log.new.device ≡ D.honest log.old.device }
{
    make_room(index)?;
    let name = sealed.name();
    let place = log.add_object(alloc, sealed)?;
    set_place(index, name, place)?;
    Ok(())
}

/// Removes the file of a name. If there is none, nothing is appended.
pub(crate) fn remove_file<D: Device>(
    log: &mut Log<D>,
    index: &mut Index,
    alloc: Global,
    name: Name,
) -> Result<(), DeviceFault>
    ensures ok { IsTrue (D.honest log.old.device) → AreRecorded (files_of (D.past log.old.device)) (index_of index.old.entries) → OnOk result (contents_in (D.honest log.new.device) (D.past log.new.device) (index_of index.new.entries) ≡ map.remove (contents_in (D.honest log.old.device) (D.past log.old.device) (index_of index.old.entries)) name) }
    ensures others { IsTrue (D.honest log.old.device) → AreRecorded (files_of (D.past log.old.device)) (index_of index.old.entries) → SameBut name (contents_in (D.honest log.old.device) (D.past log.old.device) (index_of index.old.entries)) (contents_in (D.honest log.new.device) (D.past log.new.device) (index_of index.new.entries)) }
    ensures there { IsTrue (D.honest log.old.device) → AreRecorded (files_of (D.past log.old.device)) (index_of index.old.entries) → AreRecorded (files_of (D.past log.new.device)) (index_of index.new.entries) }
    ensures removed { IsTrue (D.honest log.old.device) → OnOk result (IsRemoved (files_of (D.past log.new.device)) name (map.get (index_of index.old.entries) name)) }
    ensures honest { D.honest log.new.device ≡ D.honest log.old.device }
{
    let Some(_place) = place_of(index, name) else {
        return Ok(());
    };
    log.add_removal(alloc, name)?;
    remove_place(index, name);
    Ok(())
}

/// Makes all files survive a loss of power.
pub(crate) fn sync_all<D: Device>(
    log: &mut Log<D>,
    index: &Index,
    alloc: Global,
) -> Result<(), DeviceFault>
    ensures lasts { IsTrue (D.honest log.old.device) → IsUnfailed (D.past log.old.device) → OnOk result (HasSegment (D.past log.new.device) → AreLasting (D.past log.new.device) log.new.first log.new.segment) }
    ensures all { IsTrue (D.honest log.old.device) → IsUnfailed (D.past log.old.device) → OnOk result (HasSegment (D.past log.new.device) → AllLast (D.past log.new.device)) }
    ensures failed { log.old.has_failed ≡ true → result ≡ Err DeviceFault.Device }
    ensures first { log.new.first ≡ log.old.first }
    ensures segment { log.new.segment ≡ log.old.segment }
    ensures clean { OnOk result (log.new.is_dirty ≡ false) }
    ensures files { IsTrue (D.honest log.old.device) → files_of (D.past log.new.device) ≡ files_of (D.past log.old.device) }
    ensures kept { contents_in (D.honest log.new.device) (D.past log.new.device) (index_of index.now.entries) ≡ contents_in (D.honest log.old.device) (D.past log.old.device) (index_of index.now.entries) }
    ensures there { IsTrue (D.honest log.old.device) → AreRecorded (files_of (D.past log.old.device)) (index_of index.now.entries) → AreRecorded (files_of (D.past log.new.device)) (index_of index.now.entries) }
    ensures honest { D.honest log.new.device ≡ D.honest log.old.device }
{
    let _index = index;
    log.sync(alloc)
}

/// Makes some of the files survive a loss of power.
pub(crate) fn sync_some<D: Device>(
    log: &mut Log<D>,
    index: &Index,
    alloc: Global,
) -> Result<(), DeviceFault>
    ensures kept { contents_in (D.honest log.new.device) (D.past log.new.device) (index_of index.now.entries) ≡ contents_in (D.honest log.old.device) (D.past log.old.device) (index_of index.now.entries) }
    ensures there { IsTrue (D.honest log.old.device) → AreRecorded (files_of (D.past log.old.device)) (index_of index.now.entries) → AreRecorded (files_of (D.past log.new.device)) (index_of index.now.entries) }
    ensures honest { D.honest log.new.device ≡ D.honest log.old.device }
{
    let _index = index;
    log.sync_ahead(alloc)
}

// Makes removals final. Says first what was undone, and syncs what came before: a loss of power must not keep the last record
// alone.
fn settle<D: Device>(log: &mut Log<D>, index: &Index, alloc: Global) -> Result<(), DeviceFault>
    ensures kept { (IsTrue (D.honest log.old.device) → AreRecorded (files_of (D.past log.old.device)) (index_of index.now.entries)) → contents_in (D.honest log.new.device) (D.past log.new.device) (index_of index.now.entries) ≡ contents_in (D.honest log.old.device) (D.past log.old.device) (index_of index.now.entries) }
    ensures there { IsTrue (D.honest log.old.device) → AreRecorded (files_of (D.past log.old.device)) (index_of index.now.entries) → AreRecorded (files_of (D.past log.new.device)) (index_of index.now.entries) }
    ensures settled { IsTrue (D.honest log.old.device) → OnOk result (IsAppended (files_of (D.past log.new.device)) Settled) }
    ensures honest { D.honest log.new.device ≡ D.honest log.old.device }
{
    add_undone(log, index, alloc)?;
    sync_all(log, index, alloc)?;
    add_settled(log, index, alloc)
}

/// Makes removals final, if there are any.
pub(crate) fn settle_removed<D: Device>(
    log: &mut Log<D>,
    index: &Index,
    alloc: Global,
    has_removed: bool,
) -> Result<(), DeviceFault>
    ensures kept { (IsTrue (D.honest log.old.device) → AreRecorded (files_of (D.past log.old.device)) (index_of index.now.entries)) → contents_in (D.honest log.new.device) (D.past log.new.device) (index_of index.now.entries) ≡ contents_in (D.honest log.old.device) (D.past log.old.device) (index_of index.now.entries) }
    ensures there { IsTrue (D.honest log.old.device) → AreRecorded (files_of (D.past log.old.device)) (index_of index.now.entries) → AreRecorded (files_of (D.past log.new.device)) (index_of index.now.entries) }
    ensures settled { IsTrue (D.honest log.old.device) → has_removed ≡ true → OnOk result (IsAppended (files_of (D.past log.new.device)) Settled) }
    ensures honest { D.honest log.new.device ≡ D.honest log.old.device }
{
    if has_removed {
        return settle(log, index, alloc);
    }
    Ok(())
}

// Appends that removals were undone, if that is owed.
fn add_undone<D: Device>(log: &mut Log<D>, index: &Index, alloc: Global) -> Result<(), DeviceFault>
    ensures kept { (IsTrue (D.honest log.old.device) → AreRecorded (files_of (D.past log.old.device)) (index_of index.now.entries)) → contents_in (D.honest log.new.device) (D.past log.new.device) (index_of index.now.entries) ≡ contents_in (D.honest log.old.device) (D.past log.old.device) (index_of index.now.entries) }
    ensures there { IsTrue (D.honest log.old.device) → AreRecorded (files_of (D.past log.old.device)) (index_of index.now.entries) → AreRecorded (files_of (D.past log.new.device)) (index_of index.now.entries) }
    ensures undone { IsTrue (D.honest log.old.device) → log.old.owes_undo ≡ true → OnOk result (IsAppended (files_of (D.past log.new.device)) Undone) }
    ensures owes { OnOk result (log.new.owes_undo ≡ false) }
    ensures honest { D.honest log.new.device ≡ D.honest log.old.device }
{
    let _index = index;
    log.undo(alloc)
}

// Appends that removals so far are final.
fn add_settled<D: Device>(log: &mut Log<D>, index: &Index, alloc: Global) -> Result<(), DeviceFault>
    ensures kept { (IsTrue (D.honest log.old.device) → AreRecorded (files_of (D.past log.old.device)) (index_of index.now.entries)) → contents_in (D.honest log.new.device) (D.past log.new.device) (index_of index.now.entries) ≡ contents_in (D.honest log.old.device) (D.past log.old.device) (index_of index.now.entries) }
    ensures there { IsTrue (D.honest log.old.device) → AreRecorded (files_of (D.past log.old.device)) (index_of index.now.entries) → AreRecorded (files_of (D.past log.new.device)) (index_of index.now.entries) }
    ensures settled { IsTrue (D.honest log.old.device) → OnOk result (IsAppended (files_of (D.past log.new.device)) Settled) }
    ensures honest { D.honest log.new.device ≡ D.honest log.old.device }
{
    let _index = index;
    log.add_settled(alloc)
}
