// What is done before and after a state gets its place, so that at each moment the state in a folder has its journal, its log and
// its objects.
ghost use Rattle.std.specs.Prelude.{◌≡◌, ℕ, IfErr, IfOk, IsTrue, List, Ok, OnErr, OnOk, false, string_bytes, true};
ghost use Rattle.devices.specs.Parts.{DropsPart};
ghost use Rattle.devices.specs.Runs.{Runs};
ghost use Rattle.devices.specs.declared.device.DeviceFault.{DeviceFault as DeviceFaultValue};
ghost use Rattle.fork_host.specs.Shown.{IsSameHost};
ghost use Rattle.host_folder.specs.Journal.{journal_file, naming};
ghost use Rattle.host_folder.specs.State.{PlacesPart, SettlesPart, TriesPlace, part_file};
ghost use Rattle.fork_program.specs.Journaling.{IsNamed};

use crate::draft::Begun;
use crate::fault::Fault;
use crate::upload_log::{UploadLog, clear_logs};
use chained_log::{FileWriter, LogWriter};
use devices::{Device, DeviceFault};
use fork_host::Host;
use git_name::Name;
use host_folder::{
    clear_journals, drop_journal, drop_state, journal_path, place_state, settle_journal,
};
use loose_store::LooseFiles;
use std::alloc::Global;

/// What a state of this name needs beside its own file was synced, as `settle_others` does it, which alone makes one.
#[derive(Drop)]
pub(crate) struct Synced {
    name: Name,
}

/// A state of this name has its place, as `place` gives it, or had it before.
#[derive(Drop)]
pub(crate) struct Placed {
    name: Name,
}

// Syncs a log of open uploads, if there is one.
fn sync_log<J: Device + Drop>(log: &mut Option<UploadLog<J>>) -> Result<(), Fault>
    ensures { IfErr result (λ fault. fault ≡ Fault.NotSaved) }
{
    let Some(log) = log else {
        return Ok(());
    };
    match log.sync() {
        Ok(()) => Ok(()),
        Err(_) => Err(Fault::NotSaved),
    }
}

// Syncs a journal that was begun, and gives it its name.
fn rename_journal<J: Device>(
    alloc: Global,
    journal: &mut LogWriter<FileWriter<J>>,
    name: Name,
) -> Result<(), DeviceFault>
    ensures named { IsTrue (J.honest journal.old.writer.device) → OnOk result (Runs {A = Unit {0}} {E = DeviceFaultValue} (naming name) (J.past journal.old.writer.device) (J.past journal.new.writer.device) (Ok tt)) }
    ensures path { OnOk result (string_bytes journal.new.writer.path ≡ journal_file name) }
    ensures honest { J.honest journal.new.writer.device ≡ J.honest journal.old.writer.device }
{
    let path = journal_path(alloc, name)?;
    settle_journal(alloc, &mut journal.writer.device, name)?;
    journal.writer.path = path;
    Ok(())
}

// The same. After an `Err` its part is removed, if it can be.
fn name_journal<J: Device>(
    alloc: Global,
    journal: &mut LogWriter<FileWriter<J>>,
    name: Name,
) -> Result<(), Fault>
    ensures cause { IfErr result (λ fault. fault ≡ Fault.NotSaved) }
    ensures named { IsTrue (J.honest journal.old.writer.device) → OnOk result (Runs {A = Unit {0}} {E = DeviceFaultValue} (naming name) (J.past journal.old.writer.device) (J.past journal.new.writer.device) (Ok tt)) }
    ensures path { OnOk result (string_bytes journal.new.writer.path ≡ journal_file name) }
    ensures honest { J.honest journal.new.writer.device ≡ J.honest journal.old.writer.device }
{
    match rename_journal(alloc, journal, name) {
        Ok(()) => Ok(()),
        Err(_) => {
            drop_journal(&mut journal.writer.device);
            Err(Fault::NotSaved)
        }
    }
}

/// Makes all that a drafted state of this name needs survive a loss of power: first the object files and the log of open uploads
/// are synced, then the journal gets the name of the new state. No removal is made final.
pub(crate) fn settle_others<S: LooseFiles, J: Device + Drop>(
    alloc: Global,
    host: &mut Host<S>,
    name: Name,
    begun: &mut Begun<J>,
) -> Result<Synced, Fault>
    ensures cause { IfErr result (λ fault. fault ≡ Fault.NotSaved) }
    ensures host { IsSameHost host.old host.new }
    ensures synced { OnOk result (host.new.vault.durability.synced ≡ true) }
    ensures removed { host.new.vault.durability.removed ≡ host.old.vault.durability.removed }
    ensures name { IfOk result (λ synced. synced.name ≡ name) }
    ensures named { IsTrue (J.honest begun.old.journal.writer.device) → OnOk result (Runs {A = Unit {0}} {E = DeviceFaultValue} (naming name) (J.past begun.old.journal.writer.device) (J.past begun.new.journal.writer.device) (Ok tt)) }
    ensures path { OnOk result (string_bytes begun.new.journal.writer.path ≡ journal_file name) }
    ensures journals { J.honest begun.new.journal.writer.device ≡ J.honest begun.old.journal.writer.device }
{
    let Ok(()) = host.sync(alloc) else {
        return Err(Fault::NotSaved);
    };
    sync_log(&mut begun.log)?;
    name_journal(alloc, &mut begun.journal, name)?;
    Ok(Synced { name })
}

/// Makes the part the state, or removes it if the folder already has that state. Call it once the host's objects are synced.
pub(crate) fn place<S: LooseFiles, D: Device>(
    host: &Host<S>,
    device: &mut D,
    stands: bool,
    synced: Synced,
) -> Result<Placed, Fault>
    requires objects { host.now.vault.durability.synced ≡ true }
    ensures cause { IfErr result (λ fault. fault ≡ Fault.NotSaved) }
    ensures settled { IsTrue (D.honest device.old) → SettlesPart (D.past device.old) (D.past device.new) }
    ensures placed { IsTrue (D.honest device.old) → stands ≡ false → OnOk result (PlacesPart (D.past device.old) (D.past device.new)) }
    ensures dropped { IsTrue (D.honest device.old) → stands ≡ true → DropsPart part_file (D.past device.old) (D.past device.new) }
    ensures failed { IsTrue (D.honest device.old) → OnErr result (TriesPlace (D.past device.old) (D.past device.new)) }
    ensures name { IfOk result (λ placed. placed.name ≡ synced.name) }
    ensures honest { D.honest device.new ≡ D.honest device.old }
{
    // Taken for what it asks.
    let _host = host;
    let Synced { name } = synced;
    if stands {
        drop_state(device);
        return Ok(Placed { name });
    }
    match place_state(device) {
        Ok(()) => Ok(Placed { name }),
        Err(_) => Err(Fault::NotSaved),
    }
}

/// For a state that stood in its place already.
pub(crate) fn placed_before(synced: Synced) -> Placed
    ensures { result.name ≡ synced.name }
{
    let Synced { name } = synced;
    Placed { name }
}

/// The number of a log, and 0 if there is none.
pub(crate) fn number_of<J: Device + Drop>(log: &Option<UploadLog<J>>) -> u64 {
    match log {
        Some(log) => log.reference().number,
        None => 0,
    }
}

/// Removes what a state that is in its place, with this journal, does not need: older journals, other logs and swept objects. What is
/// left of them does no harm, and the next save removes it.
pub(crate) fn clear<S: LooseFiles, J: Device + Drop>(
    alloc: Global,
    host: &mut Host<S>,
    placed: &Placed,
    begun: &mut Begun<J>,
)
    ensures host { IsSameHost host.old host.new }
    ensures journal { (text : List ℕ) → IsTrue (J.honest begun.old.journal.writer.device) → IsNamed placed.now.name text (J.past begun.old.journal.writer.device) → IsNamed placed.now.name text (J.past begun.new.journal.writer.device) }
    ensures path { begun.new.journal.writer.path ≡ begun.old.journal.writer.path }
    ensures journals { J.honest begun.new.journal.writer.device ≡ J.honest begun.old.journal.writer.device }
{
    let number = number_of(&begun.log);
    let device = &mut begun.journal.writer.device;
    let _cleared = clear_journals(alloc, device, placed.name);
    clear_logs(alloc, device, number);
    let _forgotten = host.forget_removed(alloc);
}
