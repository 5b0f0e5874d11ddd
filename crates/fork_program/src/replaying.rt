ghost use Rattle.std.specs.Prelude.{◌≡◌, IfErr, IfOk, IsTrue, None, OnOk, option_map, true};
ghost use Rattle.std.specs.FinMap as map;
ghost use Rattle.chained_log.specs.Reading.{log_contents};
ghost use Rattle.devices.specs.Device.{files_of};
ghost use Rattle.fork_program.specs.Keeping.{IsUnkept};
ghost use Rattle.fork_program.specs.Repeating.{IsOldRepeated, IsRepeated, IsRestRepeated};
ghost use Rattle.fork_wire.specs.Again.{IsServedAgain};
ghost use Rattle.host_folder.specs.Journal.{old_journal_file};
ghost use Rattle.host_folder.specs.OtherJournals.{HasNoOther};

use crate::fault::Fault;
use crate::log_reference::{LogReference, read_reference};
use crate::noting_reader::NotingReader;
use crate::telling::{of_again, of_journal};
use crate::upload_log::{log_path, open_log};
use chained_log::{Ended, LogReader};
use devices::Device;
use fork_host::Host;
use fork_wire::{AgainFault, EndedUploads, reopen_uploads, serve_again};
use git_name::Name;
use host_folder::{
    JOURNAL_LINE, has_other_journal, journal_path, of_device, old_journal_path, open_file,
    open_journal,
};
use loose_store::LooseFiles;
use std::alloc::Global;
use std::cell::Cell;
use std::io;
use std::io::{BufReader, ErrorKind, Read};

/// What of a journal was repeated.
#[derive(Clone, Copy, Debug, Drop)]
pub struct Replayed {
    /// How many requests.
    pub(crate) count: u64,
    /// Whether it has none and refers to no log of open uploads, so that the host is as it was.
    pub(crate) is_quiet: bool,
}

// This many requests of a journal that refers to no log.
fn counted(count: u64) -> Replayed
    ensures count { result.count ≡ count }
    ensures quiet { result.is_quiet ≡ true → count ≡ 0 }
{
    Replayed {
        count,
        is_quiet: count == 0,
    }
}

// Checks that a device has no journal of a state other than this one, except what a kill leaves.
fn has_no_other<D: Device>(alloc: Global, device: &D, name: Name) -> Result<(), Fault>
    ensures none { IsTrue (D.honest device.now) → OnOk result (HasNoOther (files_of (D.past device.now)) name) }
    ensures err { IfErr result IsUnkept }
{
    match has_other_journal(device, alloc, name) {
        Ok(false) => Ok(()),
        Ok(true) => Err(Fault::OtherJournal),
        Err(fault) => Err(of_journal(fault)),
    }
}

// How many bytes the file at this path has behind so many.
fn left_of<D: Device>(device: &D, path: &str, behind: u64) -> Result<u64, Fault>
    ensures { IfErr result IsUnkept }
{
    match of_device(device.len(path)) {
        Ok(Some(len)) => Ok(len.saturating_sub(behind)),
        Ok(None) => Err(Fault::Journal),
        Err(fault) => Err(of_journal(fault)),
    }
}

/// Repeats the requests of the journal of this name on a device, and before them those of the log of open uploads to which it
/// refers, up to its end or to where it was cut. An alteration is reported, and so is a journal of another state.
pub fn replay<S: LooseFiles, D: Device>(
    alloc: Global,
    device: &D,
    name: Name,
    host: &mut Host<S>,
) -> Result<Replayed, Fault>
    ensures quiet { IfOk result (λ replayed. replayed.is_quiet ≡ true → host.new ≡ host.old) }
    ensures alone { IsTrue (D.honest device.now) → OnOk result (HasNoOther (files_of (D.past device.now)) name) }
    ensures repeated { IsTrue (D.honest device.now) → IfOk result (λ replayed. IsRepeated (files_of (D.past device.now)) name host.old host.new replayed.count) }
    ensures err { IfErr result IsUnkept }
{
    has_no_other(alloc, device, name)?;
    let Ok(path) = journal_path(alloc, name) else {
        return Err(Fault::Memory);
    };
    match open_journal(alloc, device, path.as_str()) {
        Ok(Some(reader)) => {
            let left = left_of(device, path.as_str(), JOURNAL_LINE)?;
            repeat(alloc, device, reader, left, name, host)
        }
        Ok(None) => replay_old(alloc, device, name, host),
        Err(fault) => Err(of_journal(fault)),
    }
}

// The fault that reports that a journal's file, or that of its log, could not be read.
fn of_file(error: &io::Error) -> Fault
    ensures { IsUnkept result }
{
    match error.kind() {
        ErrorKind::OutOfMemory => Fault::Memory,
        _ => Fault::Journal,
    }
}

// The fault that reports that requests could not be repeated, if it was noted whether memory was lacking.
fn noted(fault: AgainFault, lacks_memory: &Cell<bool>) -> Fault
    ensures { IsUnkept result }
{
    match fault {
        AgainFault::Read if lacks_memory.get() => Fault::Memory,
        fault => of_again(fault),
    }
}

// Repeats the requests of the journal of this name, from behind the line that refers to a log.
fn repeat_log<S: LooseFiles, R: Read + Drop>(
    alloc: Global,
    reader: R,
    lacks_memory: &Cell<bool>,
    name: Name,
    host: &mut Host<S>,
) -> Result<u64, Fault>
    ensures again { IfOk result (IsServedAgain host.old host.new (option_map (log_contents name) (R.remaining reader))) }
    ensures err { IfErr result IsUnkept }
{
    let Ok(mut log) = LogReader::new(alloc, reader, *name.as_bytes()) else {
        return Err(Fault::Memory);
    };
    match serve_again(host, alloc, &mut log) {
        // If more follows what is not a frame, the log was not cut there.
        Ok(_) if log.ended().is_none() => Err(Fault::Journal),
        Ok(count) => Ok(count),
        Err(fault) => Err(noted(fault, lacks_memory)),
    }
}

// Repeats the requests of a journal of this name, which this reader reads from behind its first line, where so many bytes are left,
// after those of the log to which it refers.
fn repeat<S: LooseFiles, D: Device, R: Read + Drop>(
    alloc: Global,
    device: &D,
    reader: R,
    left: u64,
    name: Name,
    host: &mut Host<S>,
) -> Result<Replayed, Fault>
    ensures quiet { IfOk result (λ replayed. replayed.is_quiet ≡ true → host.new ≡ host.old) }
    ensures repeated { IfOk result (λ replayed. IsRestRepeated (R.remaining reader) name host.old host.new replayed.count) }
    ensures err { IfErr result IsUnkept }
{
    let lacks_memory = Cell::new(false);
    let reader = NotingReader {
        reader,
        lacks_memory: &lacks_memory,
        left,
    };
    let Ok(mut reader) = BufReader::new(alloc, reader) else {
        return Err(Fault::Memory);
    };
    let reference = match read_reference(alloc, &mut reader) {
        Ok(reference) => reference,
        Err(error) => return Err(of_file(&error)),
    };
    let Some(reference) = reference else {
        let count = repeat_log(alloc, reader, &lacks_memory, name, host)?;
        return Ok(counted(count));
    };
    let before = repeat_uploads(alloc, device, &reference, host)?;
    let count = repeat_log(alloc, reader, &lacks_memory, name, host)?;
    Ok(Replayed {
        count: before.saturating_add(count),
        is_quiet: false,
    })
}

// Reads the log of open uploads to which a journal refers, if it is whole: what of it was ended.
fn ended_in<D: Device>(
    alloc: Global,
    device: &D,
    path: &str,
    reference: &LogReference,
) -> Result<EndedUploads, Fault>
    ensures { IfErr result IsUnkept }
{
    let lacks_memory = Cell::new(false);
    let mut log = match open_log(alloc, device, path, reference, &lacks_memory) {
        Ok(log) => log,
        Err(error) => return Err(of_file(&error)),
    };
    let ended = match EndedUploads::read(alloc, &mut log) {
        Ok(ended) => ended,
        Err(fault) => return Err(noted(fault, &lacks_memory)),
    };
    match log.ended() {
        Some(Ended::Whole) if Name::new(*log.sum()) == reference.sum => Ok(ended),
        _ => Err(Fault::Journal),
    }
}

// Repeats the requests of the log of open uploads to which a journal refers, if it is whole.
fn repeat_uploads<S: LooseFiles, D: Device>(
    alloc: Global,
    device: &D,
    reference: &LogReference,
    host: &mut Host<S>,
) -> Result<u64, Fault>
    ensures again { IfOk result (IsServedAgain host.old host.new None) }
    ensures err { IfErr result IsUnkept }
{
    let Ok(path) = log_path(alloc, reference.number) else {
        return Err(Fault::Memory);
    };
    let mut ended = ended_in(alloc, device, path.as_str(), reference)?;
    let lacks_memory = Cell::new(false);
    let mut log = match open_log(alloc, device, path.as_str(), reference, &lacks_memory) {
        Ok(log) => log,
        Err(error) => return Err(of_file(&error)),
    };
    match reopen_uploads(host, alloc, &mut log, &mut ended) {
        Ok(count) => Ok(count),
        Err(fault) => Err(noted(fault, &lacks_memory)),
    }
}

// Repeats the requests that this reader, which has so many bytes left, reads as frames.
fn repeat_frames<S: LooseFiles, R: Read + Drop>(
    alloc: Global,
    reader: R,
    left: u64,
    host: &mut Host<S>,
) -> Result<u64, Fault>
    ensures again { IfOk result (IsServedAgain host.old host.new (R.remaining reader)) }
    ensures err { IfErr result IsUnkept }
{
    let lacks_memory = Cell::new(false);
    let reader = NotingReader {
        reader,
        lacks_memory: &lacks_memory,
        left,
    };
    let Ok(mut reader) = BufReader::new(alloc, reader) else {
        return Err(Fault::Memory);
    };
    match serve_again(host, alloc, &mut reader) {
        Ok(count) => Ok(count),
        Err(fault) => Err(noted(fault, &lacks_memory)),
    }
}

// Repeats the requests of the journal of this name in the previous format, which is only frames.
fn replay_old<S: LooseFiles, D: Device>(
    alloc: Global,
    device: &D,
    name: Name,
    host: &mut Host<S>,
) -> Result<Replayed, Fault>
    ensures quiet { IfOk result (λ replayed. replayed.is_quiet ≡ true → host.new ≡ host.old) }
    ensures repeated { IsTrue (D.honest device.now) → IfOk result (λ replayed. IsOldRepeated (map.get (files_of (D.past device.now)) (old_journal_file name)) host.old host.new replayed.count) }
    ensures err { IfErr result IsUnkept }
{
    let Ok(path) = old_journal_path(alloc, name) else {
        return Err(Fault::Memory);
    };
    let reader = match open_file(alloc, device, path.as_str()) {
        Ok(Some(reader)) => reader,
        Ok(None) => return Ok(counted(0)),
        Err(fault) => return Err(of_journal(fault)),
    };
    let left = left_of(device, path.as_str(), 0)?;
    let count = repeat_frames(alloc, reader, left, host)?;
    Ok(counted(count))
}
