// The state in the folder of a host that is served, over a device.
ghost use Rattle.std.specs.Prelude.{◌≡◌, ◌⊎◌, [], ℕ, IfErr, IfOk, IfSome, IsTrue, List, None, OnErr, OnOk, Option, Some, false, string_bytes, true};
ghost use Rattle.devices.specs.Crash.{folder_has_failed};
ghost use Rattle.devices.specs.Device.{Past};
ghost use Rattle.devices.specs.Moments.{Throughout};
ghost use Rattle.devices.specs.Parts.{IsSure, IsWritten};
ghost use Rattle.fork_host.specs.Shown.{IsSameHost, Trusted};
ghost use Rattle.host_folder.specs.Journal.{journal_file, journal_folder};
ghost use Rattle.host_folder.specs.State.{LeavesStateOr, part_file, state_file};
ghost use Rattle.sha2.specs.Sha256.{sha256};
ghost use Rattle.fork_program.specs.Journaling.{IsBegun, IsNamed};
ghost use Rattle.fork_program.specs.Keeping.{IsNameOf, IsSaved};
ghost use Rattle.fork_program.specs.Saving.{IsRestoredOf, IsStanding, LeavesNameOf, LeavesStateOrOf, OnlySyncs, SettlesOn, StandsIfSure};

use crate::draft::{Begun, Draft, closed, drafted};
use crate::fault::Fault;
use crate::saving::{Settled, put, resume, save_over};
use crate::upload_log::{NotLogged, UploadLog};
use devices::Device;
use fork_host::Host;
use git_name::Name;
use host_folder::{Reserve, RoomyDevice, a_synced_state_is_sure, a_tried_part_leaves_the_state};
use loose_store::LooseFiles;
use std::alloc::Global;

/// A state in a host's folder, and the device of that folder.
#[derive(Drop)]
pub(crate) struct KeptState<D> {
    device: D,
    // Its name, which is that of its journal.
    name: Name,
    // How many bytes it has.
    len: u64,
    // Whether it is sure that the folder's state has this name.
    is_sure: bool,
}

// The state of a host that begins to be served: the one of this name and length that it was restored of, if that is the host's
// own, or else a new one.
fn first<S: LooseFiles, D: Device, J: Device + Drop>(
    alloc: Global,
    name: Name,
    len: u64,
    is_current: bool,
    host: &mut Host<S>,
    device: &mut D,
    journals: J,
) -> Result<Settled<J>, Fault>
    requires { is_current ≡ true → IsRestoredOf host.old name (D.honest device.old) (D.past device.old) }
    ensures cause { IfErr result (λ fault. fault ≡ Fault.NotSaved) }
    ensures saved { IsSaved host.old host.new }
    ensures named { Trusted host.old → IfOk result (λ settled. IsNameOf host.old settled.name) }
    ensures skips { is_current ≡ true → IsTrue (D.honest device.old) → OnlySyncs (D.past device.old) (D.past device.new) }
    ensures each { (before : Option (List ℕ)) → IsTrue (D.honest device.old) → IsSure (D.past device.old) state_file before → Throughout (LeavesStateOrOf before host.old) (D.past device.old) (D.past device.new) }
    ensures settles { (before : Option (List ℕ)) → IsTrue (D.honest device.old) → IsSure (D.past device.old) state_file before → folder_has_failed (D.past device.old).effects [] ≡ false → OnOk result (SettlesOn before host.old (D.past device.new)) }
    ensures stands { IsTrue (D.honest device.old) → folder_has_failed (D.past device.new).effects [] ≡ false → IfOk result (λ settled. IsStanding settled.name (D.past device.new)) }
    ensures honest { D.honest device.new ≡ D.honest device.old }
    ensures journal { IsTrue (J.honest journals) → folder_has_failed (J.past journals).effects journal_folder ≡ false → IfOk result (λ settled. (text : List ℕ) × IsNamed settled.name text (J.past settled.begun.journal.writer.device)) }
    ensures path { IfOk result (λ settled. string_bytes settled.begun.journal.writer.path ≡ journal_file settled.name) }
{
    a_synced_state_is_sure();
    if is_current {
        return resume(alloc, name, len, host, device, journals);
    }
    save_over(alloc, name, host, device, journals)
}

impl<D: Device> KeptState<D> {
    /// A state that was read from this device. It is not known to survive a loss of power.
    pub(crate) fn read(device: D, name: Name, len: u64) -> KeptState<D>
        ensures { (result.device ≡ device) × (result.name ≡ name) × (result.is_sure ≡ false) }
    {
        KeptState {
            device,
            name,
            len,
            is_sure: false,
        }
    }

    /// The same state over a device that may take the room of a reserve.
    pub(crate) fn with_reserve(self, reserve: Reserve) -> KeptState<RoomyDevice<D>>
        ensures { (result.device.device ≡ self.device) × (result.name ≡ self.name) × (result.is_sure ≡ self.is_sure) }
    {
        let KeptState {
            device,
            name,
            len,
            is_sure,
        } = self;
        KeptState {
            device: RoomyDevice { device, reserve },
            name,
            len,
            is_sure,
        }
    }

    /// Goes on with this state, or with a new one, for a host that begins to be served, and begins its journal. This one stays
    /// if it `is_current`: the host's own, in the newest version.
    pub(crate) fn begin<S: LooseFiles, J: Device + Drop>(
        &mut self,
        alloc: Global,
        is_current: bool,
        host: &mut Host<S>,
        journals: J,
    ) -> Result<Begun<J>, Fault>
        requires { is_current ≡ true → IsRestoredOf host.old self.old.name (D.honest self.old.device) (D.past self.old.device) }
        ensures cause { IfErr result (λ fault. fault ≡ Fault.NotSaved) }
        ensures saved { IsSaved host.old host.new }
        ensures named { Trusted host.old → OnOk result (IsNameOf host.old self.new.name) }
        ensures sure { OnOk result (self.new.is_sure ≡ true) }
        ensures stands { StandsIfSure self.new.is_sure (D.honest self.new.device) self.new.name (D.past self.new.device) }
        ensures skips { is_current ≡ true → IsTrue (D.honest self.old.device) → OnlySyncs (D.past self.old.device) (D.past self.new.device) }
        ensures each { (before : Option (List ℕ)) → IsTrue (D.honest self.old.device) → IsSure (D.past self.old.device) state_file before → Throughout (LeavesStateOrOf before host.old) (D.past self.old.device) (D.past self.new.device) }
        ensures settles { (before : Option (List ℕ)) → IsTrue (D.honest self.old.device) → IsSure (D.past self.old.device) state_file before → folder_has_failed (D.past self.old.device).effects [] ≡ false → OnOk result (SettlesOn before host.old (D.past self.new.device)) }
        ensures honest { D.honest self.new.device ≡ D.honest self.old.device }
        ensures journal { IsTrue (J.honest journals) → folder_has_failed (J.past journals).effects journal_folder ≡ false → IfOk result (λ begun. (text : List ℕ) × IsNamed self.new.name text (J.past begun.journal.writer.device)) }
        ensures path { IfOk result (λ begun. string_bytes begun.journal.writer.path ≡ journal_file self.new.name) }
    {
        self.is_sure = false;
        let settled = first(
            alloc,
            self.name,
            self.len,
            is_current,
            host,
            &mut self.device,
            journals,
        )?;
        let Settled { name, len, begun } = settled;
        self.name = name;
        self.len = len;
        self.is_sure = true;
        Ok(begun)
    }

    /// Its device.
    pub(crate) fn device(&self) -> &D
        ensures { result.now ≡ self.now.device }
    {
        &self.device
    }

    /// The state's name.
    pub(crate) fn name(&self) -> Name
        ensures { result ≡ self.now.name }
    {
        self.name
    }

    /// How many bytes the state has.
    pub(crate) fn len(&self) -> u64 {
        self.len
    }

    /// A log with what this state's journal, which refers to it, has of uploads.
    pub(crate) fn copied_to<J: Device + Drop>(
        &self,
        alloc: Global,
        log: UploadLog<J>,
    ) -> Result<UploadLog<J>, NotLogged> {
        log.go_on(alloc, &self.device, self.name)
    }

    // The name of the state that the folder is sure to have.
    fn standing(&self) -> Option<Name>
        ensures { IfSome result (λ name. (name ≡ self.now.name) × (self.now.is_sure ≡ true)) }
    {
        if self.is_sure {
            return Some(self.name);
        }
        None
    }

    // Puts a drafted state in the place of this one.
    fn replace<S: LooseFiles, J: Device + Drop>(
        &mut self,
        alloc: Global,
        host: &mut Host<S>,
        draft: Draft<J>,
    ) -> Result<Begun<J>, Fault>
        requires { StandsIfSure self.old.is_sure (D.honest self.old.device) self.old.name (D.past self.old.device) }
        ensures cause { IfErr result (λ fault. fault ≡ Fault.NotSaved) }
        ensures host { IsSameHost host.old host.new }
        ensures removed { OnErr result (host.new.vault.durability.removed ≡ host.old.vault.durability.removed) }
        ensures unsure { OnErr result (self.new.is_sure ≡ false) }
        ensures name { OnOk result (self.new.name ≡ draft.name) }
        ensures each { (text : List ℕ) (before : Option (List ℕ)) (first : Past) → IsTrue (D.honest self.old.device) → IsSure first state_file before → IsWritten part_file text first (D.past self.old.device) → Throughout (LeavesStateOr before text) first (D.past self.new.device) }
        ensures settles { (text : List ℕ) (before : Option (List ℕ)) (first : Past) → IsTrue (D.honest self.old.device) → IsSure first state_file before → IsWritten part_file text first (D.past self.old.device) → folder_has_failed first.effects [] ≡ false → OnOk result (IsSure (D.past self.new.device) state_file before ⊎ IsSure (D.past self.new.device) state_file (Some text)) }
        ensures stands { (text : List ℕ) (first : Past) → IsTrue (D.honest self.old.device) → IsWritten part_file text first (D.past self.old.device) → draft.name ≡ sha256 text → folder_has_failed (D.past self.new.device).effects [] ≡ false → OnOk result (IsStanding draft.name (D.past self.new.device)) }
        ensures honest { D.honest self.new.device ≡ D.honest self.old.device }
        ensures journal { IsTrue (J.honest draft.begun.journal.writer.device) → IsBegun (J.past draft.begun.journal.writer.device) → IfOk result (λ begun. (text : List ℕ) × IsNamed self.new.name text (J.past begun.journal.writer.device)) }
        ensures path { IfOk result (λ begun. string_bytes begun.journal.writer.path ≡ journal_file self.new.name) }
    {
        let standing = self.standing();
        self.is_sure = false;
        let settled = put(alloc, host, standing, draft, &mut self.device)?;
        let Settled { name, len, begun } = settled;
        self.name = name;
        self.len = len;
        self.is_sure = true;
        Ok(begun)
    }

    /// Saves the host's state in the place of this one, with a journal that has the host's open uploads, in this log if there is
    /// one. Returns `None`, and the old state and its journal stay, if there is no memory, or if the new ones cannot be begun.
    pub(crate) fn save<S: LooseFiles, J: Device + Drop>(
        &mut self,
        alloc: Global,
        host: &mut Host<S>,
        journals: J,
        log: Option<UploadLog<J>>,
    ) -> Result<Option<Begun<J>>, Fault>
        requires { StandsIfSure self.old.is_sure (D.honest self.old.device) self.old.name (D.past self.old.device) }
        ensures cause { IfErr result (λ fault. fault ≡ Fault.NotSaved) }
        ensures saved { IsSaved host.old host.new }
        ensures stands { StandsIfSure self.new.is_sure (D.honest self.new.device) self.new.name (D.past self.new.device) }
        ensures each { (before : Option (List ℕ)) → IsTrue (D.honest self.old.device) → IsSure (D.past self.old.device) state_file before → Throughout (LeavesStateOrOf before host.old) (D.past self.old.device) (D.past self.new.device) }
        ensures settles { (before : Option (List ℕ)) → IsTrue (D.honest self.old.device) → IsSure (D.past self.old.device) state_file before → folder_has_failed (D.past self.old.device).effects [] ≡ false → OnOk result (SettlesOn before host.old (D.past self.new.device)) }
        ensures sure { IsTrue (D.honest self.old.device) → folder_has_failed (D.past self.new.device).effects [] ≡ false → IfOk result (λ found. IfSome found (λ _. LeavesNameOf host.old (D.past self.new.device))) }
        ensures stays { (before : Option (List ℕ)) → IsTrue (D.honest self.old.device) → IsSure (D.past self.old.device) state_file before → IfOk result (λ found. found ≡ None → IsSure (D.past self.new.device) state_file before) }
        ensures name { IfOk result (λ found. found ≡ None → self.new.name ≡ self.old.name) }
        ensures honest { D.honest self.new.device ≡ D.honest self.old.device }
        ensures journal { IsTrue (J.honest journals) → folder_has_failed (J.past journals).effects journal_folder ≡ false → IfOk result (λ found. IfSome found (λ begun. (text : List ℕ) × IsNamed self.new.name text (J.past begun.journal.writer.device))) }
        ensures path { IfOk result (λ found. IfSome found (λ begun. string_bytes begun.journal.writer.path ≡ journal_file self.new.name)) }
    {
        a_tried_part_leaves_the_state();
        let name = self.name;
        let drafted = drafted(alloc, name, host, &mut self.device, journals, log)?;
        let Some(draft) = drafted else {
            return Ok(None);
        };
        let begun = self.replace(alloc, host, draft)?;
        Ok(Some(begun))
    }

    /// Saves the host's state in the place of this one, with an empty journal.
    pub(crate) fn close<S: LooseFiles, J: Device + Drop>(
        &mut self,
        alloc: Global,
        host: &mut Host<S>,
        journals: J,
    ) -> Result<(), Fault>
        requires { StandsIfSure self.old.is_sure (D.honest self.old.device) self.old.name (D.past self.old.device) }
        ensures cause { IfErr result (λ fault. fault ≡ Fault.NotSaved) }
        ensures stands { StandsIfSure self.new.is_sure (D.honest self.new.device) self.new.name (D.past self.new.device) }
        ensures each { (before : Option (List ℕ)) → IsTrue (D.honest self.old.device) → IsSure (D.past self.old.device) state_file before → Throughout (LeavesStateOrOf before host.old) (D.past self.old.device) (D.past self.new.device) }
        ensures settles { (before : Option (List ℕ)) → IsTrue (D.honest self.old.device) → IsSure (D.past self.old.device) state_file before → folder_has_failed (D.past self.old.device).effects [] ≡ false → OnOk result (SettlesOn before host.old (D.past self.new.device)) }
        ensures sure { IsTrue (D.honest self.old.device) → folder_has_failed (D.past self.new.device).effects [] ≡ false → OnOk result (LeavesNameOf host.old (D.past self.new.device)) }
        ensures honest { D.honest self.new.device ≡ D.honest self.old.device }
    {
        a_tried_part_leaves_the_state();
        let name = self.name;
        let drafted = closed(alloc, name, host, &mut self.device, journals)?;
        let Some(draft) = drafted else {
            return Err(Fault::NotSaved);
        };
        let _begun = self.replace(alloc, host, draft)?;
        Ok(())
    }
}
