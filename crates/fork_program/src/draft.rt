ghost use Rattle.std.specs.Prelude.{◌≡◌, ◌+◌, ◌++◌, [], IfErr, IfOk, IfSome, IsTrue, None, OnOk, Some, false, length, string_bytes};
ghost use Rattle.chained_log.specs.Writing.{log_known};
ghost use Rattle.devices.specs.Crash.{folder_has_failed};
ghost use Rattle.devices.specs.Device.{Added, with_effect};
ghost use Rattle.devices.specs.Parts.{IsWritten};
ghost use Rattle.devices.specs.Sink.{bytes_known};
ghost use Rattle.host_folder.specs.Appending.{bytes_at};
ghost use Rattle.host_folder.specs.Journal.{first_line, journal_folder, journal_part as unnamed_file};
ghost use Rattle.host_folder.specs.State.{TriesPart, part_file};
ghost use Rattle.sha2.specs.Sha256.{sha256};
ghost use Rattle.state_text.specs.Text.{state_text};
ghost use Rattle.state_text.specs.declared.version.Version.TheVariants.{Two};
ghost use Rattle.fork_program.specs.Journaling.{IsBegun, reference_lines};
ghost use Rattle.fork_program.specs.Keeping.{IsNameOf, IsSaved};
ghost use Rattle.fork_program.specs.Saving.{IsDrafted};
ghost use Rattle.fork_program.specs.UploadLog.{reference_line};

use crate::fault::Fault;
use crate::log_reference::LogReference;
use crate::upload_log::UploadLog;
use chained_log::{FileWriter, LogWriter};
use devices::{Device, DeviceFault};
use fork_host::Host;
use fork_state::save;
use fork_wire::write_uploads;
use git_name::Name;
use host_folder::{
    JOURNAL_LINE, begin_journal, clear_journals, drop_state, journal_part, state_part,
};
use loose_store::LooseFiles;
use state_text::{Spelled, States, write_file};
use std::alloc::Global;

// A journal that is begun: the log of open uploads to which it refers, if there is one, and how many bytes the uploads
// had at the beginning of that log, or have at that of the journal.
#[derive(Drop)]
pub(crate) struct Begun<J> {
    pub(crate) journal: LogWriter<FileWriter<J>>,
    pub(crate) log: Option<UploadLog<J>>,
    pub(crate) uploads: u64,
}

// A state to be saved, whose text is in the part of the folder's state: its name and length. And its journal.
#[derive(Drop)]
pub(crate) struct Draft<J> {
    pub(crate) name: Name,
    pub(crate) len: u64,
    pub(crate) begun: Begun<J>,
}

// Why a state was not written. That is no fault if its part could not be opened, as without descriptors, or if there was no
// memory.
fn unwritten(fault: DeviceFault) -> Result<Option<Spelled>, Fault>
    ensures cause { IfErr result (λ fault. fault ≡ Fault.NotSaved) }
    ensures none { IfOk result (λ found. found ≡ None) }
{
    match fault {
        DeviceFault::Unopened => Ok(None),
        DeviceFault::Memory => Ok(None),
        _ => Err(Fault::NotSaved),
    }
}

// Writes the text of these states into the part of the folder's state, and syncs it. Returns `None` if the part cannot be
// opened, as without descriptors, or if there is no memory. After a `None` or an `Err` the part is removed, if it can be.
fn written<D: Device>(
    alloc: Global,
    device: &mut D,
    states: &States,
) -> Result<Option<Spelled>, Fault>
    ensures cause { IfErr result (λ fault. fault ≡ Fault.NotSaved) }
    ensures name { IfOk result (λ found. IfSome found (λ spelled. spelled.name ≡ sha256 (state_text Two states.now))) }
    ensures tried { IsTrue (D.honest device.old) → TriesPart (D.past device.old) (D.past device.new) }
    ensures text { IsTrue (D.honest device.old) → IfOk result (λ found. IfSome found (λ _. IsWritten part_file (state_text Two states.now) (D.past device.old) (D.past device.new))) }
    ensures honest { D.honest device.new ≡ D.honest device.old }
{
    match write_file(alloc, states, device, state_part()) {
        Ok(spelled) => Ok(Some(spelled)),
        Err(fault) => {
            drop_state(device);
            unwritten(fault)
        }
    }
}

// Writes the line that refers to a log of open uploads behind the first one, and returns how many bytes both have.
fn refer<J: Device>(
    alloc: Global,
    device: &mut J,
    reference: LogReference,
) -> Result<u64, DeviceFault>
    ensures effect { IsTrue (J.honest device.old) → OnOk result (J.past device.new ≡ with_effect (J.past device.old) (Added unnamed_file (reference_line reference.number reference.len reference.sum))) }
    ensures start { IfOk result (λ start. start ≡ 75 + length (reference_line reference.number reference.len reference.sum)) }
    ensures honest { J.honest device.new ≡ J.honest device.old }
{
    let line = reference.line(alloc)?;
    device.append(journal_part(), line.as_bytes())?;
    Ok(JOURNAL_LINE + line.len() as u64)
}

// Begins an empty journal with its first lines, and returns how many bytes these have.
fn write_lines<J: Device>(
    alloc: Global,
    device: &mut J,
    standing: Name,
    reference: Option<LogReference>,
) -> Result<u64, DeviceFault>
    ensures begun { IsTrue (J.honest device.old) → folder_has_failed (J.past device.old).effects journal_folder ≡ false → OnOk result (IsBegun (J.past device.new)) }
    ensures text { IsTrue (J.honest device.old) → OnOk result (bytes_at unnamed_file (J.past device.new) ≡ first_line standing ++ reference_lines reference) }
    ensures start { IfOk result (λ start. start ≡ length (first_line standing ++ reference_lines reference)) }
    ensures honest { J.honest device.new ≡ J.honest device.old }
{
    // Called for its clause: the bytes are a name.
    let _name = standing.as_bytes();
    clear_journals(alloc, device, standing)?;
    begin_journal(device, standing)?;
    match reference {
        Some(reference) => refer(alloc, device, reference),
        None => Ok(JOURNAL_LINE),
    }
}

/// Begins an empty journal for the state `name` over a device, which is that of the folder, while `standing` is the state in the folder.
/// It may refer to a log of open uploads. Whatever is beside the journal of `standing` is removed first, so a kill leaves at most the
/// new journal beside it.
pub(crate) fn unnamed<J: Device + Drop>(
    alloc: Global,
    mut device: J,
    standing: Name,
    name: Name,
    reference: Option<LogReference>,
) -> Result<LogWriter<FileWriter<J>>, Fault>
    ensures cause { IfErr result (λ fault. fault ≡ Fault.NotSaved) }
    ensures begun { IsTrue (J.honest device) → folder_has_failed (J.past device).effects journal_folder ≡ false → IfOk result (λ journal. IsBegun (J.past journal.writer.device)) }
    ensures text { IsTrue (J.honest device) → IfOk result (λ journal. bytes_at unnamed_file (J.past journal.writer.device) ≡ first_line standing ++ reference_lines reference) }
    ensures path { IfOk result (λ journal. string_bytes journal.writer.path ≡ unnamed_file) }
    ensures log { IfOk result (λ journal. journal.first ≡ name) }
    ensures empty { IsTrue (J.honest device) → IfOk result (λ journal. log_known journal.first journal.start journal.sum (bytes_known (J.honest journal.writer.device) (J.past journal.writer.device) (string_bytes journal.writer.path)) ≡ Some []) }
    ensures honest { IfOk result (λ journal. J.honest journal.writer.device ≡ J.honest device) }
{
    let Ok(start) = write_lines(alloc, &mut device, standing, reference) else {
        return Err(Fault::NotSaved);
    };
    let Ok(path) = String::from_str(alloc, journal_part()) else {
        return Err(Fault::NotSaved);
    };
    let writer = FileWriter { device, path };
    match LogWriter::new(alloc, writer, start, *name.as_bytes()) {
        Ok(journal) => Ok(journal),
        Err(_) => Err(Fault::NotSaved),
    }
}

// The same, but the journal refers to this log of the host's open uploads, or begins with these if there is none.
fn with_uploads<S: LooseFiles, J: Device + Drop>(
    alloc: Global,
    journals: J,
    standing: Name,
    name: Name,
    host: &mut Host<S>,
    log: Option<UploadLog<J>>,
) -> Result<Begun<J>, Fault>
    ensures cause { IfErr result (λ fault. fault ≡ Fault.NotSaved) }
    ensures saved { IsSaved host.old host.new }
    ensures begun { IsTrue (J.honest journals) → folder_has_failed (J.past journals).effects journal_folder ≡ false → IfOk result (λ begun. IsBegun (J.past begun.journal.writer.device)) }
    ensures honest { IfOk result (λ begun. J.honest begun.journal.writer.device ≡ J.honest journals) }
{
    if let Some(log) = log {
        let reference = log.reference();
        let uploads = log.begun();
        let journal = unnamed(alloc, journals, standing, name, Some(reference))?;
        let log = Some(log);
        return Ok(Begun {
            journal,
            log,
            uploads,
        });
    }
    let mut journal = unnamed(alloc, journals, standing, name, None)?;
    let Ok(uploads) = write_uploads(host, alloc, &mut journal) else {
        return Err(Fault::NotSaved);
    };
    Ok(Begun {
        journal,
        log: None,
        uploads,
    })
}

// Drafts the host's state, with an empty journal. The folder still has its old state and its journal. Returns `None` if
// there is no memory, or if the part or the journal cannot be begun. After a `None` or an `Err` the part is
// removed, if it can be.
pub(crate) fn closed<S: LooseFiles, D: Device, J: Device + Drop>(
    alloc: Global,
    standing: Name,
    host: &Host<S>,
    device: &mut D,
    journals: J,
) -> Result<Option<Draft<J>>, Fault>
    ensures cause { IfErr result (λ fault. fault ≡ Fault.NotSaved) }
    ensures name { IfOk result (λ found. IfSome found (λ draft. IsNameOf host.now draft.name)) }
    ensures tried { IsTrue (D.honest device.old) → TriesPart (D.past device.old) (D.past device.new) }
    ensures text { IsTrue (D.honest device.old) → IfOk result (λ found. IfSome found (λ draft. IsDrafted host.now draft.name (D.past device.old) (D.past device.new))) }
    ensures honest { D.honest device.new ≡ D.honest device.old }
    ensures begun { IsTrue (J.honest journals) → folder_has_failed (J.past journals).effects journal_folder ≡ false → IfOk result (λ found. IfSome found (λ draft. IsBegun (J.past draft.begun.journal.writer.device))) }
    ensures line { IsTrue (J.honest journals) → IfOk result (λ found. IfSome found (λ draft. bytes_at unnamed_file (J.past draft.begun.journal.writer.device) ≡ first_line standing)) }
    ensures journals { IfOk result (λ found. IfSome found (λ draft. J.honest draft.begun.journal.writer.device ≡ J.honest journals)) }
{
    let Ok(states) = save(alloc, host) else {
        return Ok(None);
    };
    closed_as(alloc, standing, &states, device, journals)
}

// Drafts these states, with an empty journal.
fn closed_as<D: Device, J: Device + Drop>(
    alloc: Global,
    standing: Name,
    states: &States,
    device: &mut D,
    journals: J,
) -> Result<Option<Draft<J>>, Fault>
    ensures cause { IfErr result (λ fault. fault ≡ Fault.NotSaved) }
    ensures name { IfOk result (λ found. IfSome found (λ draft. draft.name ≡ sha256 (state_text Two states.now))) }
    ensures tried { IsTrue (D.honest device.old) → TriesPart (D.past device.old) (D.past device.new) }
    ensures text { IsTrue (D.honest device.old) → IfOk result (λ found. IfSome found (λ _. IsWritten part_file (state_text Two states.now) (D.past device.old) (D.past device.new))) }
    ensures honest { D.honest device.new ≡ D.honest device.old }
    ensures begun { IsTrue (J.honest journals) → folder_has_failed (J.past journals).effects journal_folder ≡ false → IfOk result (λ found. IfSome found (λ draft. IsBegun (J.past draft.begun.journal.writer.device))) }
    ensures line { IsTrue (J.honest journals) → IfOk result (λ found. IfSome found (λ draft. bytes_at unnamed_file (J.past draft.begun.journal.writer.device) ≡ first_line standing)) }
    ensures journals { IfOk result (λ found. IfSome found (λ draft. J.honest draft.begun.journal.writer.device ≡ J.honest journals)) }
{
    let Some(spelled) = written(alloc, device, states)? else {
        return Ok(None);
    };
    let Spelled { name, len } = spelled;
    match unnamed(alloc, journals, standing, name, None) {
        Ok(journal) => Ok(Some(Draft {
            name,
            len,
            begun: Begun {
                journal,
                log: None,
                uploads: 0,
            },
        })),
        Err(_) => {
            drop_state(device);
            Ok(None)
        }
    }
}

// The same, but the journal has the open uploads, in this log if there is one. It is `None` too if one of these cannot be
// read or written.
pub(crate) fn drafted<S: LooseFiles, D: Device, J: Device + Drop>(
    alloc: Global,
    standing: Name,
    host: &mut Host<S>,
    device: &mut D,
    journals: J,
    log: Option<UploadLog<J>>,
) -> Result<Option<Draft<J>>, Fault>
    ensures cause { IfErr result (λ fault. fault ≡ Fault.NotSaved) }
    ensures saved { IsSaved host.old host.new }
    ensures name { IfOk result (λ found. IfSome found (λ draft. IsNameOf host.old draft.name)) }
    ensures tried { IsTrue (D.honest device.old) → TriesPart (D.past device.old) (D.past device.new) }
    ensures text { IsTrue (D.honest device.old) → IfOk result (λ found. IfSome found (λ draft. IsDrafted host.old draft.name (D.past device.old) (D.past device.new))) }
    ensures honest { D.honest device.new ≡ D.honest device.old }
    ensures begun { IsTrue (J.honest journals) → folder_has_failed (J.past journals).effects journal_folder ≡ false → IfOk result (λ found. IfSome found (λ draft. IsBegun (J.past draft.begun.journal.writer.device))) }
    ensures journals { IfOk result (λ found. IfSome found (λ draft. J.honest draft.begun.journal.writer.device ≡ J.honest journals)) }
{
    let Ok(states) = save(alloc, host) else {
        return Ok(None);
    };
    drafted_as(alloc, standing, host, &states, device, journals, log)
}

// Drafts these states, with a journal that has the host's open uploads, in this log if there is one.
pub(crate) fn drafted_as<S: LooseFiles, D: Device, J: Device + Drop>(
    alloc: Global,
    standing: Name,
    host: &mut Host<S>,
    states: &States,
    device: &mut D,
    journals: J,
    log: Option<UploadLog<J>>,
) -> Result<Option<Draft<J>>, Fault>
    ensures cause { IfErr result (λ fault. fault ≡ Fault.NotSaved) }
    ensures saved { IsSaved host.old host.new }
    ensures name { IfOk result (λ found. IfSome found (λ draft. draft.name ≡ sha256 (state_text Two states.now))) }
    ensures tried { IsTrue (D.honest device.old) → TriesPart (D.past device.old) (D.past device.new) }
    ensures text { IsTrue (D.honest device.old) → IfOk result (λ found. IfSome found (λ _. IsWritten part_file (state_text Two states.now) (D.past device.old) (D.past device.new))) }
    ensures honest { D.honest device.new ≡ D.honest device.old }
    ensures begun { IsTrue (J.honest journals) → folder_has_failed (J.past journals).effects journal_folder ≡ false → IfOk result (λ found. IfSome found (λ draft. IsBegun (J.past draft.begun.journal.writer.device))) }
    ensures journals { IfOk result (λ found. IfSome found (λ draft. J.honest draft.begun.journal.writer.device ≡ J.honest journals)) }
{
    let Some(spelled) = written(alloc, device, states)? else {
        return Ok(None);
    };
    let Spelled { name, len } = spelled;
    match with_uploads(alloc, journals, standing, name, host, log) {
        Ok(begun) => Ok(Some(Draft { name, len, begun })),
        Err(_) => {
            drop_state(device);
            Ok(None)
        }
    }
}
