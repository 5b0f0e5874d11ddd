ghost use Rattle.std.specs.Prelude.{◌≡◌, ◌+◌, ◌<◌, ◌≤◌, ℕ, true, false, IsTrue, IfOk, OnOk, OnErr, slice_index_or};
ghost use Rattle.std.specs.FinMap as map;
ghost use Rattle.indexmap.specs.IndexSet.{IsUnchanged, Updates, contains, index_set_len};
ghost use Rattle.devices.specs.Device.{Does, SyncedFile, SyncedFolder, files_of};
ghost use Rattle.devices.specs.Runs.{Runs};
ghost use Rattle.git_name.specs.Same.{same_name};
ghost use Rattle.folder_store.specs.Contents.{contents_in};
ghost use Rattle.folder_store.specs.Place.{swept_of};
ghost use Rattle.folder_store.specs.Swept.{move_syncs};
ghost use Rattle.folder_store.specs.Synced.{AreSynced, HasOnlySyncs, SyncsBoth, SyncsFiles, SyncsHomes, are_synced, failed_after};

use crate::object_file::{is_there, sync_bytes, sync_names};
use crate::place::{OBJECTS, home_of, swept_path};
use crate::swept::SWEPT;
use crate::syncing::{sync_home_of, sync_object};
use devices::{Device, DeviceFault};
use git_name::{Hashing, Name};
use indexmap::IndexSet;
use std::alloc::{AllocError, Global};

// From this many names on, half of the files are synced ahead.
const MANY: usize = 1024;

/// The names of files that a loss of power may lose or damage.
#[derive(Drop)]
pub(crate) struct Unsynced {
    names: IndexSet<Name, Hashing>,
    // By the first byte of a name: whether its folder has files that were synced, and was not synced itself.
    homes: [bool; 256],
    // Whether a sync failed. The system may have dropped what it could not write, and a later sync does not report
    // that.
    has_failed: bool,
}

impl Unsynced {
    /// No names.
    pub(crate) fn new(alloc: Global, hashing: Hashing) -> Unsynced
        ensures names { index_set_len result.names ≡ 0 }
        ensures homes { (first : ℕ) → slice_index_or result.homes first false ≡ false }
        ensures failed { result.has_failed ≡ false }
    {
        Unsynced {
            names: IndexSet::with_hasher(alloc, hashing),
            homes: [false; 256],
            has_failed: false,
        }
    }

    /// Whether a sync failed, so that each later call of `sync` fails too.
    pub(crate) fn has_failed(&self) -> bool
        ensures { result ≡ self.now.has_failed }
    {
        self.has_failed
    }

    /// Adds the name of a file that was written, or that may have been left unsynced by an earlier process.
    pub(crate) fn note(&mut self, name: Name) -> Result<(), AllocError>
        ensures noted { OnOk result (Updates same_name self.old.names self.new.names name true) }
        ensures err { OnErr result (IsUnchanged self.old.names self.new.names) }
        ensures homes { self.new.homes ≡ self.old.homes }
        ensures failed { self.new.has_failed ≡ self.old.has_failed }
    {
        self.names.insert(name)?;
        Ok(())
    }

    /// Drops the name of a file that was removed.
    pub(crate) fn forget(&mut self, name: Name)
        ensures forgotten { Updates same_name self.old.names self.new.names name false }
        ensures homes { self.new.homes ≡ self.old.homes }
        ensures failed { self.new.has_failed ≡ self.old.has_failed }
    {
        self.names.swap_remove(&name);
    }

    // Passes on the result of a sync. After a failure no more syncs are tried.
    fn was_synced(&mut self, synced: Result<(), DeviceFault>) -> Result<(), DeviceFault>
        ensures same { result ≡ synced }
        ensures names { self.new.names ≡ self.old.names }
        ensures homes { self.new.homes ≡ self.old.homes }
        ensures failed { self.new.has_failed ≡ failed_after self.old.has_failed synced }
    {
        if let Err(DeviceFault::Device) = &synced {
            self.has_failed = true;
        }
        synced
    }

    // Syncs the names right in a folder.
    fn sync_folder<D: Device>(&mut self, device: &mut D, folder: &str) -> Result<(), DeviceFault>
        ensures effect { IsTrue (D.honest device.old) → Does (SyncedFolder folder.now) (D.past device.old) (D.past device.new) result }
        ensures only { IsTrue (D.honest device.old) → self.new.has_failed ≡ false → HasOnlySyncs (D.past device.old) (D.past device.new) }
        ensures untried { IsTrue (D.honest device.old) → self.new.has_failed ≡ false → OnErr result (D.past device.new ≡ D.past device.old) }
        ensures names { self.new.names ≡ self.old.names }
        ensures homes { self.new.homes ≡ self.old.homes }
        ensures passed { OnOk result (self.new.has_failed ≡ self.old.has_failed) }
        ensures failed { self.new.has_failed ≡ false → self.old.has_failed ≡ false }
        ensures kept { contents_in (D.honest device.new) (D.past device.new) ≡ contents_in (D.honest device.old) (D.past device.old) }
        ensures honest { D.honest device.new ≡ D.honest device.old }
    {
        let synced = sync_names(device, folder);
        self.was_synced(synced)
    }

    /// Syncs the bytes of a file that is still a part.
    pub(crate) fn sync_part<D: Device>(
        &mut self,
        device: &mut D,
        part: &str,
    ) -> Result<(), DeviceFault>
        ensures effect { IsTrue (D.honest device.old) → Does (SyncedFile part.now) (D.past device.old) (D.past device.new) result }
        ensures only { IsTrue (D.honest device.old) → self.new.has_failed ≡ false → HasOnlySyncs (D.past device.old) (D.past device.new) }
        ensures names { self.new.names ≡ self.old.names }
        ensures homes { self.new.homes ≡ self.old.homes }
        ensures failed { self.new.has_failed ≡ false → self.old.has_failed ≡ false }
        ensures kept { contents_in (D.honest device.new) (D.past device.new) ≡ contents_in (D.honest device.old) (D.past device.old) }
        ensures honest { D.honest device.new ≡ D.honest device.old }
    {
        let synced = sync_bytes(device, part);
        self.was_synced(synced)
    }

    /// Makes the move of the swept file of a name, if there is one, survive a loss of power. Returns whether there is one. Call
    /// it before another file takes its old place: otherwise both could be lost together. After a failed sync it fails if
    /// there is one, and `sync` fails.
    pub(crate) fn sync_move<D: Device>(
        &mut self,
        device: &mut D,
        alloc: Global,
        name: Name,
    ) -> Result<bool, DeviceFault>
        ensures found { IsTrue (D.honest device.old) → IfOk result (λ is. is ≡ map.contains_key (files_of (D.past device.old)) (swept_of name)) }
        ensures refused { IsTrue (D.honest device.old) → self.old.has_failed ≡ true → OnOk result (map.contains_key (files_of (D.past device.old)) (swept_of name) ≡ false) }
        ensures effects { IsTrue (D.honest device.old) → Runs (move_syncs name (map.contains_key (files_of (D.past device.old)) (swept_of name))) (D.past device.old) (D.past device.new) result }
        ensures only { IsTrue (D.honest device.old) → self.new.has_failed ≡ false → HasOnlySyncs (D.past device.old) (D.past device.new) }
        ensures names { self.new.names ≡ self.old.names }
        ensures homes { self.new.homes ≡ self.old.homes }
        ensures failed { self.new.has_failed ≡ false → self.old.has_failed ≡ false }
        ensures kept { contents_in (D.honest device.new) (D.past device.new) ≡ contents_in (D.honest device.old) (D.past device.old) }
        ensures honest { D.honest device.new ≡ D.honest device.old }
    {
        let swept = swept_path(alloc, name)?;
        if !is_there(device, alloc, swept.as_str())? {
            return Ok(false);
        }
        if self.has_failed {
            return Err(DeviceFault::Device);
        }
        self.sync_both(device, alloc, name)?;
        Ok(true)
    }

    // Syncs the names of the swept files, and those in the folder of a name.
    fn sync_both<D: Device>(
        &mut self,
        device: &mut D,
        alloc: Global,
        name: Name,
    ) -> Result<(), DeviceFault>
        ensures effects { IsTrue (D.honest device.old) → Runs (move_syncs name true) (D.past device.old) (D.past device.new) result }
        ensures only { IsTrue (D.honest device.old) → self.new.has_failed ≡ false → HasOnlySyncs (D.past device.old) (D.past device.new) }
        ensures names { self.new.names ≡ self.old.names }
        ensures homes { self.new.homes ≡ self.old.homes }
        ensures failed { self.new.has_failed ≡ false → self.old.has_failed ≡ false }
        ensures kept { contents_in (D.honest device.new) (D.past device.new) ≡ contents_in (D.honest device.old) (D.past device.old) }
        ensures honest { D.honest device.new ≡ D.honest device.old }
    {
        let home = home_of(alloc, &name.as_bytes()[..1])?;
        self.sync_folder(device, SWEPT)?;
        self.sync_folder(device, home.as_str())
    }

    // Syncs the bytes of the file that was noted last, and forgets its name. Returns whether there was one.
    fn sync_last<D: Device>(&mut self, device: &mut D, alloc: Global) -> Result<bool, DeviceFault>
        ensures files { IsTrue (D.honest device.old) → self.new.has_failed ≡ false → SyncsFiles (contains same_name self.old.names) (contains same_name self.new.names) self.old.homes self.new.homes (D.past device.old) (D.past device.new) }
        ensures fewer { IfOk result (λ was. was ≡ true → index_set_len self.new.names + 1 ≡ index_set_len self.old.names) }
        ensures none { IfOk result (λ was. was ≡ false → index_set_len self.new.names ≡ 0) }
        ensures passed { IfOk result (λ _. self.new.has_failed ≡ self.old.has_failed) }
        ensures failed { self.new.has_failed ≡ false → self.old.has_failed ≡ false }
        ensures kept { contents_in (D.honest device.new) (D.past device.new) ≡ contents_in (D.honest device.old) (D.past device.old) }
        ensures honest { D.honest device.new ≡ D.honest device.old }
    {
        let Some(name) = self.names.last() else {
            return Ok(false);
        };
        let name = *name;
        let synced = sync_object(device, alloc, name);
        self.was_synced(synced)?;
        self.homes[name.as_bytes()[0] as usize] = true;
        self.names.pop();
        Ok(true)
    }

    // Syncs at most `most` of the files, and forgets their names.
    fn sync_files<D: Device>(
        &mut self,
        device: &mut D,
        alloc: Global,
        most: usize,
    ) -> Result<(), DeviceFault>
        ensures files { IsTrue (D.honest device.old) → self.new.has_failed ≡ false → SyncsFiles (contains same_name self.old.names) (contains same_name self.new.names) self.old.homes self.new.homes (D.past device.old) (D.past device.new) }
        ensures left { OnOk result (index_set_len self.old.names ≤ most → index_set_len self.new.names ≡ 0) }
        ensures passed { OnOk result (self.new.has_failed ≡ self.old.has_failed) }
        ensures failed { self.new.has_failed ≡ false → self.old.has_failed ≡ false }
        ensures kept { contents_in (D.honest device.new) (D.past device.new) ≡ contents_in (D.honest device.old) (D.past device.old) }
        ensures honest { D.honest device.new ≡ D.honest device.old }
    {
        for _ in 0..most {
            if !self.sync_last(device, alloc)? {
                return Ok(());
            }
        }
        Ok(())
    }

    // Syncs the names in the folder of names that begin with this byte, if it has synced files.
    fn sync_home<D: Device>(
        &mut self,
        device: &mut D,
        alloc: Global,
        first: u8,
    ) -> Result<(), DeviceFault>
        ensures folders { IsTrue (D.honest device.old) → self.new.has_failed ≡ false → SyncsHomes self.old.homes self.new.homes (D.past device.old) (D.past device.new) }
        ensures unmarked { OnOk result (slice_index_or self.new.homes first false ≡ false) }
        ensures passed { OnOk result (self.new.has_failed ≡ self.old.has_failed) }
        ensures others { (other : ℕ) → slice_index_or self.old.homes other false ≡ false → slice_index_or self.new.homes other false ≡ false }
        ensures names { self.new.names ≡ self.old.names }
        ensures failed { self.new.has_failed ≡ false → self.old.has_failed ≡ false }
        ensures kept { contents_in (D.honest device.new) (D.past device.new) ≡ contents_in (D.honest device.old) (D.past device.old) }
        ensures honest { D.honest device.new ≡ D.honest device.old }
    {
        if !self.homes[first as usize] {
            return Ok(());
        }
        let synced = sync_home_of(device, alloc, first);
        self.was_synced(synced)?;
        self.homes[first as usize] = false;
        Ok(())
    }

    // Syncs the names of the folders of objects, and the names in each that has synced files.
    fn sync_homes<D: Device>(&mut self, device: &mut D, alloc: Global) -> Result<(), DeviceFault>
        ensures folders { IsTrue (D.honest device.old) → self.new.has_failed ≡ false → SyncsHomes self.old.homes self.new.homes (D.past device.old) (D.past device.new) }
        ensures unmarked { OnOk result ((first : ℕ) → first < 256 → slice_index_or self.new.homes first false ≡ false) }
        ensures passed { OnOk result (self.new.has_failed ≡ self.old.has_failed) }
        ensures names { self.new.names ≡ self.old.names }
        ensures failed { self.new.has_failed ≡ false → self.old.has_failed ≡ false }
        ensures kept { contents_in (D.honest device.new) (D.past device.new) ≡ contents_in (D.honest device.old) (D.past device.old) }
        ensures honest { D.honest device.new ≡ D.honest device.old }
    {
        self.sync_folder(device, OBJECTS)?;
        for first in 0..256u64 {
            self.sync_home(device, alloc, first as u8)?;
        }
        Ok(())
    }

    // Syncs at most `most` of the files and forgets their names, and syncs the folders of synced files.
    fn sync_some<D: Device>(
        &mut self,
        device: &mut D,
        alloc: Global,
        most: usize,
    ) -> Result<(), DeviceFault>
        ensures all { index_set_len self.old.names ≤ most → OnOk result (are_synced (index_set_len self.new.names) self.new.homes ≡ true) }
        ensures synced { IsTrue (D.honest device.old) → index_set_len self.old.names ≤ most → OnOk result (AreSynced (contains same_name self.old.names) self.old.homes (D.past device.old) (D.past device.new)) }
        ensures both { IsTrue (D.honest device.old) → self.new.has_failed ≡ false → SyncsBoth (contains same_name self.old.names) (contains same_name self.new.names) self.old.homes self.new.homes (D.past device.old) (D.past device.new) }
        ensures failed { OnOk result (self.old.has_failed ≡ false) }
        ensures unfailed { self.new.has_failed ≡ false → self.old.has_failed ≡ false }
        ensures kept { contents_in (D.honest device.new) (D.past device.new) ≡ contents_in (D.honest device.old) (D.past device.old) }
        ensures honest { D.honest device.new ≡ D.honest device.old }
    {
        if self.has_failed {
            return Err(DeviceFault::Device);
        }
        self.sync_files(device, alloc, most)?;
        if !self.homes.contains(&true) {
            return Ok(());
        }
        self.sync_homes(device, alloc)
    }

    /// Syncs all of the files, and forgets their names. If something cannot be opened, it may be called again. After a
    /// failed sync it always fails.
    pub(crate) fn sync<D: Device>(
        &mut self,
        device: &mut D,
        alloc: Global,
    ) -> Result<(), DeviceFault>
        ensures all { OnOk result (are_synced (index_set_len self.new.names) self.new.homes ≡ true) }
        ensures synced { IsTrue (D.honest device.old) → OnOk result (AreSynced (contains same_name self.old.names) self.old.homes (D.past device.old) (D.past device.new)) }
        ensures both { IsTrue (D.honest device.old) → self.new.has_failed ≡ false → SyncsBoth (contains same_name self.old.names) (contains same_name self.new.names) self.old.homes self.new.homes (D.past device.old) (D.past device.new) }
        ensures failed { OnOk result (self.old.has_failed ≡ false) }
        ensures unfailed { self.new.has_failed ≡ false → self.old.has_failed ≡ false }
        ensures kept { contents_in (D.honest device.new) (D.past device.new) ≡ contents_in (D.honest device.old) (D.past device.old) }
        ensures honest { D.honest device.new ≡ D.honest device.old }
    {
        let count = self.names.len();
        self.sync_some(device, alloc, count)
    }

    /// Syncs half of the files, if there are many. What cannot be opened is left for later.
    pub(crate) fn sync_ahead<D: Device>(
        &mut self,
        device: &mut D,
        alloc: Global,
    ) -> Result<(), DeviceFault>
        ensures both { IsTrue (D.honest device.old) → self.new.has_failed ≡ false → SyncsBoth (contains same_name self.old.names) (contains same_name self.new.names) self.old.homes self.new.homes (D.past device.old) (D.past device.new) }
        ensures unfailed { self.new.has_failed ≡ false → self.old.has_failed ≡ false }
        ensures kept { contents_in (D.honest device.new) (D.past device.new) ≡ contents_in (D.honest device.old) (D.past device.old) }
        ensures honest { D.honest device.new ≡ D.honest device.old }
    {
        let count = self.names.len();
        if count < MANY {
            return Ok(());
        }
        let synced = self.sync_some(device, alloc, count / 2);
        if self.has_failed { synced } else { Ok(()) }
    }
}
