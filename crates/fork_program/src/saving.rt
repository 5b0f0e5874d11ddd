ghost use Rattle.std.specs.Prelude.{◌≡◌, ◌≢◌, [], ℕ, IfErr, IfOk, IfSome, IsTrue, List, Ok, OnErr, OnOk, Option, Result, Some, false, string_bytes, true};
ghost use Rattle.devices.specs.Crash.{folder_has_failed};
ghost use Rattle.devices.specs.Device.{Past};
ghost use Rattle.devices.specs.Moments.{Throughout};
ghost use Rattle.devices.specs.Parts.{DropsPart, IsSure, IsWritten};
ghost use Rattle.devices.specs.Runs.{Runs};
ghost use Rattle.devices.specs.declared.device.DeviceFault.{DeviceFault};
ghost use Rattle.fork_host.specs.Shown.{IsSameHost};
ghost use Rattle.host_folder.specs.Appending.{bytes_at};
ghost use Rattle.host_folder.specs.Journal.{journal_file, journal_folder, journal_part, naming};
ghost use Rattle.host_folder.specs.State.{LeavesStateOr, PlacesPart, SettlesPart, part_file, state_file, syncing};
ghost use Rattle.sha2.specs.Sha256.{sha256};
ghost use Rattle.state_text.specs.Text.{state_text};
ghost use Rattle.state_text.specs.declared.version.Version.TheVariants.{Two};
ghost use Rattle.fork_program.specs.Journaling.{IsBegun, IsNamed};
ghost use Rattle.fork_program.specs.Keeping.{IsNameOf, IsSaved, IsTextOf};
ghost use Rattle.fork_program.specs.Saving.{IsStanding, LeavesStateOrOf, OnlySyncs};

use crate::draft::{Begun, Draft, drafted, drafted_as, unnamed};
use crate::fault::Fault;
use crate::settling::{Placed, clear, place, placed_before, settle_others};
use crate::state_device::state_device;
use devices::Device;
use fork_host::Host;
use git_name::Name;
use host_folder::{
    a_settled_part_leaves_one_state, a_tried_part_leaves_the_state, drop_state, sync_state,
};
use loose_store::LooseFiles;
use state_text::States;
use std::alloc::Global;
use std::fs::{File, Files};

// A drafted state that is in place, and its length.
#[derive(Drop)]
pub(crate) struct Settled<J> {
    pub(crate) name: Name,
    pub(crate) len: u64,
    pub(crate) begun: Begun<J>,
}

// Whether this state stands in the folder.
fn stands(standing: Option<Name>, name: Name) -> bool
    ensures same { result ≡ true → standing ≡ Some name }
    ensures other { result ≡ false → standing ≢ Some name }
{
    match standing {
        Some(standing) => standing == name,
        None => false,
    }
}

// Settles a drafted state of this name: first all that it needs, and then the state itself. After an `Err` the part is
// removed, if it can be.
fn settle_all<S: LooseFiles, D: Device, J: Device + Drop>(
    alloc: Global,
    host: &mut Host<S>,
    standing: Option<Name>,
    name: Name,
    begun: &mut Begun<J>,
    device: &mut D,
) -> Result<Placed, Fault>
    ensures cause { IfErr result (λ fault. fault ≡ Fault.NotSaved) }
    ensures host { IsSameHost host.old host.new }
    ensures synced { OnOk result (host.new.vault.durability.synced ≡ true) }
    ensures removed { host.new.vault.durability.removed ≡ host.old.vault.durability.removed }
    ensures settled { IsTrue (D.honest device.old) → SettlesPart (D.past device.old) (D.past device.new) }
    ensures placed { IsTrue (D.honest device.old) → standing ≢ Some name → OnOk result (PlacesPart (D.past device.old) (D.past device.new)) }
    ensures dropped { IsTrue (D.honest device.old) → standing ≡ Some name → OnOk result (DropsPart part_file (D.past device.old) (D.past device.new)) }
    ensures honest { D.honest device.new ≡ D.honest device.old }
    ensures name { IfOk result (λ placed. placed.name ≡ name) }
    ensures named { IsTrue (J.honest begun.old.journal.writer.device) → OnOk result (Runs {A = Unit {0}} {E = DeviceFault} (naming name) (J.past begun.old.journal.writer.device) (J.past begun.new.journal.writer.device) (Ok tt)) }
    ensures path { OnOk result (string_bytes begun.new.journal.writer.path ≡ journal_file name) }
    ensures journals { J.honest begun.new.journal.writer.device ≡ J.honest begun.old.journal.writer.device }
{
    let Ok(synced) = settle_others(alloc, host, name, begun) else {
        drop_state(device);
        return Err(Fault::NotSaved);
    };
    let stands = stands(standing, name);
    let Ok(placed) = place(host, device, stands, synced) else {
        drop_state(device);
        return Err(Fault::NotSaved);
    };
    Ok(placed)
}

// Puts a host's drafted state in its place. The object files and the log of open uploads are synced first. Then the journal
// gets the name of the new state. Then the part becomes the state, unless the folder already has that state. So at each
// moment the state in the folder has its journal, its log and its objects. A single rename, of the state or of the journal,
// replaces the old ones. After an `Err` the part is removed, if it can be, and this made no removal final. `standing` is the
// name of the state that the folder is sure to have, or `None` if the drafted one is to be placed in any case.
pub(crate) fn put<S: LooseFiles, D: Device, J: Device + Drop>(
    alloc: Global,
    host: &mut Host<S>,
    standing: Option<Name>,
    draft: Draft<J>,
    device: &mut D,
) -> Result<Settled<J>, Fault>
    requires standing { IfSome standing (λ name. IsTrue (D.honest device.old) → folder_has_failed (D.past device.old).effects [] ≡ false → IsStanding name (D.past device.old)) }
    ensures cause { IfErr result (λ fault. fault ≡ Fault.NotSaved) }
    ensures host { IsSameHost host.old host.new }
    ensures removed { OnErr result (host.new.vault.durability.removed ≡ host.old.vault.durability.removed) }
    ensures name { IfOk result (λ settled. settled.name ≡ draft.name) }
    ensures each { (text : List ℕ) (before : Option (List ℕ)) (first : Past) → IsTrue (D.honest device.old) → IsSure first state_file before → IsWritten part_file text first (D.past device.old) → Throughout (LeavesStateOr before text) first (D.past device.new) }
    ensures placed { (text : List ℕ) (first : Past) → IsTrue (D.honest device.old) → standing ≢ Some draft.name → IsWritten part_file text first (D.past device.old) → folder_has_failed first.effects [] ≡ false → OnOk result (IsSure (D.past device.new) state_file (Some text)) }
    ensures stays { (text : List ℕ) (before : Option (List ℕ)) (first : Past) → IsTrue (D.honest device.old) → standing ≡ Some draft.name → IsSure first state_file before → IsWritten part_file text first (D.past device.old) → OnOk result (IsSure (D.past device.new) state_file before) }
    ensures stands { (text : List ℕ) (first : Past) → IsTrue (D.honest device.old) → IsWritten part_file text first (D.past device.old) → draft.name ≡ sha256 text → folder_has_failed (D.past device.new).effects [] ≡ false → OnOk result (IsStanding draft.name (D.past device.new)) }
    ensures honest { D.honest device.new ≡ D.honest device.old }
    ensures journal { IsTrue (J.honest draft.begun.journal.writer.device) → IsBegun (J.past draft.begun.journal.writer.device) → IfOk result (λ settled. IsNamed settled.name (bytes_at journal_part (J.past draft.begun.journal.writer.device)) (J.past settled.begun.journal.writer.device)) }
    ensures path { IfOk result (λ settled. string_bytes settled.begun.journal.writer.path ≡ journal_file settled.name) }
{
    a_settled_part_leaves_one_state();
    a_tried_part_leaves_the_state();
    let Draft {
        name,
        len,
        mut begun,
    } = draft;
    let Ok(placed) = settle_all(alloc, host, standing, name, &mut begun, device) else {
        return Err(Fault::NotSaved);
    };
    clear(alloc, host, &placed, &mut begun);
    Ok(Settled { name, len, begun })
}

/// Saves the host's state over a device, which is that of its folder, replacing the one there, whose name is `standing`, with a
/// journal of its open uploads, over a device of that folder too.
pub(crate) fn save_over<S: LooseFiles, D: Device, J: Device + Drop>(
    alloc: Global,
    standing: Name,
    host: &mut Host<S>,
    device: &mut D,
    journals: J,
) -> Result<Settled<J>, Fault>
    ensures cause { IfErr result (λ fault. fault ≡ Fault.NotSaved) }
    ensures saved { IsSaved host.old host.new }
    ensures named { IfOk result (λ settled. IsNameOf host.old settled.name) }
    ensures each { (before : Option (List ℕ)) → IsTrue (D.honest device.old) → IsSure (D.past device.old) state_file before → Throughout (LeavesStateOrOf before host.old) (D.past device.old) (D.past device.new) }
    ensures sure { IsTrue (D.honest device.old) → folder_has_failed (D.past device.old).effects [] ≡ false → OnOk result ((text : List ℕ) × IsTextOf host.old text × IsSure (D.past device.new) state_file (Some text)) }
    ensures stands { IsTrue (D.honest device.old) → folder_has_failed (D.past device.new).effects [] ≡ false → IfOk result (λ settled. IsStanding settled.name (D.past device.new)) }
    ensures honest { D.honest device.new ≡ D.honest device.old }
    ensures journal { IsTrue (J.honest journals) → folder_has_failed (J.past journals).effects journal_folder ≡ false → IfOk result (λ settled. (text : List ℕ) × IsNamed settled.name text (J.past settled.begun.journal.writer.device)) }
    ensures path { IfOk result (λ settled. string_bytes settled.begun.journal.writer.path ≡ journal_file settled.name) }
{
    a_tried_part_leaves_the_state();
    let drafted = drafted(alloc, standing, host, device, journals, None)?;
    let Some(draft) = drafted else {
        return Err(Fault::NotSaved);
    };
    put(alloc, host, None, draft, device)
}

/// Goes on with the state of this name and length in the folder, which is the host's own, so it is not written again: it is synced as it stands, and
/// its journal is begun anew.
pub(crate) fn resume<S: LooseFiles, D: Device, J: Device + Drop>(
    alloc: Global,
    name: Name,
    len: u64,
    host: &mut Host<S>,
    device: &mut D,
    journals: J,
) -> Result<Settled<J>, Fault>
    ensures cause { IfErr result (λ fault. fault ≡ Fault.NotSaved) }
    ensures host { IsSameHost host.old host.new }
    ensures removed { OnErr result (host.new.vault.durability.removed ≡ host.old.vault.durability.removed) }
    ensures name { IfOk result (λ settled. settled.name ≡ name) }
    ensures len { IfOk result (λ settled. settled.len ≡ len) }
    ensures tried { IsTrue (D.honest device.old) → OnlySyncs (D.past device.old) (D.past device.new) }
    ensures synced { IsTrue (D.honest device.old) → OnOk result (Runs {A = Unit {0}} {E = DeviceFault} syncing (D.past device.old) (D.past device.new) (Ok tt)) }
    ensures honest { D.honest device.new ≡ D.honest device.old }
    ensures journal { IsTrue (J.honest journals) → folder_has_failed (J.past journals).effects journal_folder ≡ false → IfOk result (λ settled. (text : List ℕ) × IsNamed settled.name text (J.past settled.begun.journal.writer.device)) }
    ensures path { IfOk result (λ settled. string_bytes settled.begun.journal.writer.path ≡ journal_file settled.name) }
{
    let Ok(()) = sync_state(device) else {
        return Err(Fault::NotSaved);
    };
    let journal = unnamed(alloc, journals, name, name, None)?;
    let mut begun = Begun {
        journal,
        log: None,
        uploads: 0,
    };
    let synced = settle_others(alloc, host, name, &mut begun)?;
    clear(alloc, host, &placed_before(synced), &mut begun);
    Ok(Settled { name, len, begun })
}

/// Saves the host's state in its folder, replacing the one there, whose name is `standing`, with a journal of its open
/// uploads. After an `Err` the folder has its old state or the new one, and what belongs to that state.
pub fn save<H: Files<File = File> + AllocGlobal, S: LooseFiles>(
    rt: &H,
    alloc: Global,
    dir: &str,
    standing: Name,
    host: &mut Host<S>,
) -> Result<(), Fault>
    ensures cause { IfErr result (λ fault. fault ≡ Fault.NotSaved) }
    ensures text { OnOk result ((text : List ℕ) × IsTextOf host.old text) }
{
    let Ok(mut device) = state_device(rt, alloc, dir) else {
        return Err(Fault::NotSaved);
    };
    let Ok(journals) = state_device(rt, alloc, dir) else {
        return Err(Fault::NotSaved);
    };
    match save_over(alloc, standing, host, &mut device, journals) {
        Ok(_settled) => Ok(()),
        Err(fault) => Err(fault),
    }
}

// Saves these states over a device, which is that of the folder.
fn save_as_over<S: LooseFiles, D: Device, J: Device + Drop>(
    alloc: Global,
    standing: Name,
    host: &mut Host<S>,
    states: &States,
    device: &mut D,
    journals: J,
) -> Result<(), Fault>
    ensures cause { IfErr result (λ fault. fault ≡ Fault.NotSaved) }
    ensures each { (before : Option (List ℕ)) → IsTrue (D.honest device.old) → IsSure (D.past device.old) state_file before → Throughout (LeavesStateOr before (state_text Two states.now)) (D.past device.old) (D.past device.new) }
    ensures sure { IsTrue (D.honest device.old) → folder_has_failed (D.past device.old).effects [] ≡ false → OnOk result (IsSure (D.past device.new) state_file (Some (state_text Two states.now))) }
{
    a_tried_part_leaves_the_state();
    let drafted = drafted_as(alloc, standing, host, states, device, journals, None)?;
    let Some(draft) = drafted else {
        return Err(Fault::NotSaved);
    };
    match put(alloc, host, None, draft, device) {
        Ok(_settled) => Ok(()),
        Err(fault) => Err(fault),
    }
}

/// Saves these states in the host's folder, with a journal of the host's open uploads. After an `Err`
/// the folder has its old state or the new one, and what belongs to that state.
pub fn save_as<H: Files<File = File> + AllocGlobal, S: LooseFiles>(
    rt: &H,
    alloc: Global,
    dir: &str,
    standing: Name,
    host: &mut Host<S>,
    states: &States,
) -> Result<(), Fault>
    ensures cause { IfErr result (λ fault. fault ≡ Fault.NotSaved) }
{
    let Ok(mut device) = state_device(rt, alloc, dir) else {
        return Err(Fault::NotSaved);
    };
    let Ok(journals) = state_device(rt, alloc, dir) else {
        return Err(Fault::NotSaved);
    };
    save_as_over(alloc, standing, host, states, &mut device, journals)
}
