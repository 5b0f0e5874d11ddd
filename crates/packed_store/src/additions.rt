// The records that are appended to a log.
ghost use Rattle.std.specs.Prelude.{◌≡◌, ◌++◌, ℕ, List, IsTrue, IfOk, OnOk, false, true, length};
ghost use Rattle.sha2.specs.Sha256.{sha256};
ghost use Rattle.git_name.specs.Object.{object_name, typed_bytes};
ghost use Rattle.devices.specs.Device.{files_of};
ghost use Rattle.packed_store.specs.Appended.{HasRecord, IsAppended, IsPlaced};
ghost use Rattle.packed_store.specs.Entry.{Removal, Settled, Undone, title_size, titled};
ghost use Rattle.packed_store.specs.Place.{EndsAround, Grows, Holds};

use crate::log::Log;
use crate::place::{Place, TITLE};
use crate::reading::is_hash;
use crate::record::{
    object_title, spell_file, spell_hashed, spell_object, spell_removal, spell_settled,
    spell_undone,
};
use devices::{Device, DeviceFault};
use git_name::{Name, Sealed};
use std::alloc::Global;

impl<D: Device> Log<D> {
    // Appends the record, which has so many bytes before its own, and so many of its own. Returns the place of these.
    fn add_bytes(&mut self, alloc: Global, title: u32, len: u32) -> Result<Place, DeviceFault>
        ensures added { IsTrue (D.honest self.old.device) → (kind : ℕ) (name bytes rest : List ℕ) → self.old.room.items ≡ titled kind name bytes ++ rest → length name ≡ 32 → title_size kind ≡ title → length bytes ≡ len → IfOk result (λ place. Holds (files_of (D.past self.new.device)) place bytes) }
        ensures ended { IsTrue (D.honest self.old.device) → IfOk result (λ place. EndsAround (files_of (D.past self.new.device)) place title self.old.room.items) }
        ensures grows { IsTrue (D.honest self.old.device) → Grows (files_of (D.past self.old.device)) (files_of (D.past self.new.device)) }
        ensures honest { D.honest self.new.device ≡ D.honest self.old.device }
    {
        let start = self.add(alloc)?;
        let Some(at) = start.checked_add(title) else {
            return Err(DeviceFault::Device);
        };
        Ok(Place {
            segment: self.segment,
            at,
            len,
        })
    }

    // Appends a file with a sum. Returns its place.
    fn add_summed(&mut self, alloc: Global, name: Name, bytes: &[u8]) -> Result<Place, DeviceFault>
        ensures added { IsTrue (D.honest self.old.device) → IfOk result (λ place. Holds (files_of (D.past self.new.device)) place bytes.now) }
        ensures placed { IsTrue (D.honest self.old.device) → IfOk result (λ place. IsPlaced (files_of (D.past self.new.device)) name bytes.now place) }
        ensures grows { IsTrue (D.honest self.old.device) → Grows (files_of (D.past self.old.device)) (files_of (D.past self.new.device)) }
        ensures honest { D.honest self.new.device ≡ D.honest self.old.device }
    {
        let len = spell_file(&mut self.room, name, bytes)?;
        self.add_bytes(alloc, TITLE, len)
    }

    // Appends an object by its file. Returns its place.
    fn add_hashed(&mut self, alloc: Global, name: Name, bytes: &[u8]) -> Result<Place, DeviceFault>
        requires { name ≡ sha256 bytes.now }
        ensures added { IsTrue (D.honest self.old.device) → IfOk result (λ place. Holds (files_of (D.past self.new.device)) place bytes.now) }
        ensures placed { IsTrue (D.honest self.old.device) → IfOk result (λ place. IsPlaced (files_of (D.past self.new.device)) name bytes.now place) }
        ensures grows { IsTrue (D.honest self.old.device) → Grows (files_of (D.past self.old.device)) (files_of (D.past self.new.device)) }
        ensures honest { D.honest self.new.device ≡ D.honest self.old.device }
    {
        let len = spell_hashed(&mut self.room, name, bytes)?;
        let title = object_title(len);
        self.add_bytes(alloc, title, len)
    }

    /// Appends a file, as an object's if its name is its hash. Returns its place.
    pub(crate) fn add_file(
        &mut self,
        alloc: Global,
        name: Name,
        bytes: &[u8],
    ) -> Result<Place, DeviceFault>
        ensures added { IsTrue (D.honest self.old.device) → IfOk result (λ place. Holds (files_of (D.past self.new.device)) place bytes.now) }
        ensures placed { IsTrue (D.honest self.old.device) → IfOk result (λ place. IsPlaced (files_of (D.past self.new.device)) name bytes.now place) }
        ensures grows { IsTrue (D.honest self.old.device) → Grows (files_of (D.past self.old.device)) (files_of (D.past self.new.device)) }
        ensures honest { D.honest self.new.device ≡ D.honest self.old.device }
    {
        if is_hash(name.as_bytes().as_slice(), bytes) {
            return self.add_hashed(alloc, name, bytes);
        }
        self.add_summed(alloc, name, bytes)
    }

    /// Appends an object. Returns its place.
    pub(crate) fn add_object(
        &mut self,
        alloc: Global,
        sealed: &Sealed,
    ) -> Result<Place, DeviceFault>
        ensures added { IsTrue (D.honest self.old.device) → IfOk result (λ place. Holds (files_of (D.past self.new.device)) place (typed_bytes sealed.now)) }
        ensures placed { IsTrue (D.honest self.old.device) → IfOk result (λ place. IsPlaced (files_of (D.past self.new.device)) (object_name sealed.now) (typed_bytes sealed.now) place) }
        ensures grows { IsTrue (D.honest self.old.device) → Grows (files_of (D.past self.old.device)) (files_of (D.past self.new.device)) }
        ensures honest { D.honest self.new.device ≡ D.honest self.old.device }
    {
        let len = spell_object(&mut self.room, sealed)?;
        let title = object_title(len);
        self.add_bytes(alloc, title, len)
    }

    /// Appends that removals were undone, if that is owed. Otherwise what comes next would make them final.
    pub(crate) fn undo(&mut self, alloc: Global) -> Result<(), DeviceFault>
        ensures undone { IsTrue (D.honest self.old.device) → self.old.owes_undo ≡ true → OnOk result (IsAppended (files_of (D.past self.new.device)) Undone) }
        ensures owes { OnOk result (self.new.owes_undo ≡ false) }
        ensures grows { IsTrue (D.honest self.old.device) → Grows (files_of (D.past self.old.device)) (files_of (D.past self.new.device)) }
        ensures honest { D.honest self.new.device ≡ D.honest self.old.device }
    {
        if !self.owes_undo {
            return Ok(());
        }
        spell_undone(&mut self.room)?;
        self.add(alloc)?;
        self.owes_undo = false;
        Ok(())
    }

    /// Appends that a name is removed.
    pub(crate) fn add_removal(&mut self, alloc: Global, name: Name) -> Result<(), DeviceFault>
        ensures undone { IsTrue (D.honest self.old.device) → self.old.owes_undo ≡ true → OnOk result (HasRecord (files_of (D.past self.new.device)) Undone) }
        ensures removed { IsTrue (D.honest self.old.device) → OnOk result (IsAppended (files_of (D.past self.new.device)) (Removal name)) }
        ensures grows { IsTrue (D.honest self.old.device) → Grows (files_of (D.past self.old.device)) (files_of (D.past self.new.device)) }
        ensures honest { D.honest self.new.device ≡ D.honest self.old.device }
    {
        self.undo(alloc)?;
        spell_removal(&mut self.room, name)?;
        self.owes_undo = true;
        self.add(alloc)?;
        self.owes_undo = false;
        Ok(())
    }

    /// Appends that removals so far are final.
    pub(crate) fn add_settled(&mut self, alloc: Global) -> Result<(), DeviceFault>
        ensures undone { IsTrue (D.honest self.old.device) → self.old.owes_undo ≡ true → OnOk result (HasRecord (files_of (D.past self.new.device)) Undone) }
        ensures settled { IsTrue (D.honest self.old.device) → OnOk result (IsAppended (files_of (D.past self.new.device)) Settled) }
        ensures grows { IsTrue (D.honest self.old.device) → Grows (files_of (D.past self.old.device)) (files_of (D.past self.new.device)) }
        ensures honest { D.honest self.new.device ≡ D.honest self.old.device }
    {
        self.undo(alloc)?;
        spell_settled(&mut self.room)?;
        self.add(alloc)?;
        Ok(())
    }
}
