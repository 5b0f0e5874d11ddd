// The log of a host's open uploads, in its folder.
ghost use Rattle.std.specs.Prelude.{◌≡◌, ℕ, IfOk, IsTrue, List, string_bytes};
ghost use Rattle.fork_program.specs.Journaling.{IsNamed};
ghost use Rattle.fork_program.specs.Keeping.{IsSaved};
ghost use Rattle.fork_program.specs.UploadLog.{log_file};

use crate::log_reference::{LogReference, read_reference};
use crate::noting_reader::NotingReader;
use chained_log::{Ended, FileWriter, LogReader, LogWriter, SyncData};
use devices::{Device, FileReader};
use fork_host::Host;
use fork_wire::{copy_uploads, write_uploads};
use git_name::Name;
use host_folder::{journal_path, open_journal};
use loose_store::LooseFiles;
use std::alloc::{AllocError, Global};
use std::cell::Cell;
use std::io;
use std::io::{BufReader, ErrorKind, Read, Take};

// The sum before the first piece of such a log.
const FIRST: [u8; 32] = [0; 32];

// A log may always grow by this many bytes.
const SPARE: u64 = 1_048_576;

/// The log could not be written, or what it is to have could not be read.
#[derive(Clone, Copy, Debug)]
pub(crate) struct NotLogged;

/// A log of the uploads that were open at the last saving, to which the journal refers, over the device of its host's folder. It is
/// only appended to.
#[derive(Drop)]
pub(crate) struct UploadLog<J> {
    number: u64,
    log: LogWriter<FileWriter<J>>,
    // How many bytes it has, and how many it had when it was begun.
    len: u64,
    begun: u64,
    // Whether its name may be lost with the power.
    is_new: bool,
}

/// The path of the log of this number, on the device of its host's folder.
pub(crate) fn log_path(alloc: Global, number: u64) -> Result<String, AllocError>
    ensures { IfOk result (λ path. string_bytes path ≡ log_file number) }
{
    format!(in alloc; "uploads.{number}")
}

// A new and empty log. One of this number is removed first, since a system may empty a file that is written over in place of making
// a new one.
fn created<J: Device + Drop>(
    alloc: Global,
    mut device: J,
    number: u64,
) -> io::Result<LogWriter<FileWriter<J>>> {
    let path = log_path(alloc, number)?;
    device.remove(path.as_str())?;
    device.write(path.as_str(), b"".as_slice())?;
    Ok(LogWriter::new(alloc, FileWriter { device, path }, 0, FIRST)?)
}

// How many bytes a file has.
fn len_of<J: Device>(writer: &FileWriter<J>) -> io::Result<u64> {
    match writer.device.len(writer.path.as_str())? {
        Some(len) => Ok(len),
        None => Err(io::Error::from(ErrorKind::NotFound)),
    }
}

// Removes a file, if it can be.
fn remove<J: Device>(writer: &mut FileWriter<J>) {
    let _removed = writer.device.remove(writer.path.as_str());
}

// Writes the host's open uploads to a log, and returns how many bytes it has then.
fn fill<S: LooseFiles, J: Device + Drop>(
    alloc: Global,
    host: &mut Host<S>,
    log: &mut LogWriter<FileWriter<J>>,
) -> Result<u64, NotLogged>
    ensures saved { IsSaved host.old host.new }
{
    let Ok(_bytes) = write_uploads(host, alloc, log) else {
        return Err(NotLogged);
    };
    match len_of(&log.writer) {
        Ok(len) => Ok(len),
        Err(_) => Err(NotLogged),
    }
}

impl<J: Device + Drop> UploadLog<J> {
    /// Begins the log of this number with the host's open uploads, in the place of one of that number. After an `Err` there is
    /// none that takes room, if it can be removed.
    pub(crate) fn begin<S: LooseFiles>(
        alloc: Global,
        device: J,
        number: u64,
        host: &mut Host<S>,
    ) -> Result<UploadLog<J>, NotLogged>
        ensures saved { IsSaved host.old host.new }
    {
        let Ok(mut log) = created(alloc, device, number) else {
            return Err(NotLogged);
        };
        let Ok(len) = fill(alloc, host, &mut log) else {
            remove(&mut log.writer);
            return Err(NotLogged);
        };
        Ok(UploadLog {
            number,
            log,
            len,
            begun: len,
            is_new: true,
        })
    }

    /// Appends what the journal of this name, which refers to the log, has of uploads. After an `Err` the log is not appended to
    /// any more; the journal says how many of its bytes count.
    pub(crate) fn go_on<D: Device>(
        self,
        alloc: Global,
        device: &D,
        journal: Name,
    ) -> Result<UploadLog<J>, NotLogged> {
        let UploadLog {
            number,
            mut log,
            begun,
            is_new,
            ..
        } = self;
        copy_journal(alloc, device, journal, &mut log)?;
        let Ok(len) = len_of(&log.writer) else {
            return Err(NotLogged);
        };
        Ok(UploadLog {
            number,
            log,
            len,
            begun,
            is_new,
        })
    }

    /// Makes all of the log survive a loss of power.
    pub(crate) fn sync(&mut self) -> io::Result<()> {
        self.log.sync()?;
        if !self.is_new {
            return Ok(());
        }
        self.log.writer.device.sync_folder("")?;
        self.is_new = false;
        Ok(())
    }

    /// How many bytes it had when it was begun.
    pub(crate) fn begun(&self) -> u64 {
        self.begun
    }

    /// Which log it is, and what it has now.
    pub(crate) fn reference(&self) -> LogReference {
        LogReference {
            number: self.number,
            len: self.len,
            sum: Name::new(*self.log.sum()),
        }
    }

    /// Whether more was appended than what the log had when it was begun, and a spare.
    pub(crate) fn is_long(&self) -> bool {
        self.len > self.begun.saturating_add(self.begun).saturating_add(SPARE)
    }
}

// Copies what a journal has of uploads.
fn copy_journal<D: Device, J: Device>(
    alloc: Global,
    device: &D,
    journal: Name,
    log: &mut LogWriter<FileWriter<J>>,
) -> Result<(), NotLogged> {
    let Ok(path) = journal_path(alloc, journal) else {
        return Err(NotLogged);
    };
    let Ok(Some(reader)) = open_journal(alloc, device, path.as_str()) else {
        return Err(NotLogged);
    };
    let Ok(mut reader) = BufReader::new(alloc, reader) else {
        return Err(NotLogged);
    };
    let Ok(_reference) = read_reference(alloc, &mut reader) else {
        return Err(NotLogged);
    };
    let Ok(mut kept) = LogReader::new(alloc, reader, *journal.as_bytes()) else {
        return Err(NotLogged);
    };
    let Ok(()) = copy_uploads(alloc, &mut kept, log) else {
        return Err(NotLogged);
    };
    match kept.ended() {
        Some(Ended::Whole) => Ok(()),
        _ => Err(NotLogged),
    }
}

/// A reader of the log to which a journal refers, which is at this path, as far as it counts. It is noted whether a read lacks
/// memory.
pub(crate) fn open_log<'a, D: Device>(
    alloc: Global,
    device: &'a D,
    path: &'a str,
    reference: &LogReference,
    lacks_memory: &'a Cell<bool>,
) -> io::Result<LogReader<Take<BufReader<NotingReader<'a, FileReader<'a, D>>>>>> {
    match device.len(path)? {
        Some(len) if len >= reference.len => {}
        _ => return Err(io::Error::from(ErrorKind::UnexpectedEof)),
    }
    let reader = NotingReader {
        reader: FileReader::new(alloc, device, path),
        lacks_memory,
        left: reference.len,
    };
    let reader = BufReader::new(alloc, reader)?;
    Ok(LogReader::new(alloc, reader.take(reference.len), FIRST)?)
}

// Removes the log of this number, if it can be, unless it is the one to be kept.
fn clear_log<J: Device>(alloc: Global, device: &mut J, number: u64, kept: u64)
    ensures journal { (name text : List ℕ) → IsTrue (J.honest device.old) → IsNamed name text (J.past device.old) → IsNamed name text (J.past device.new) }
    ensures honest { J.honest device.new ≡ J.honest device.old }
{
    if number == kept {
        return;
    }
    let Ok(path) = log_path(alloc, number) else {
        return;
    };
    let _removed = device.remove(path.as_str());
}

/// Removes the logs to which no journal refers: all but that of this number, if any.
pub(crate) fn clear_logs<J: Device>(alloc: Global, device: &mut J, kept: u64)
    ensures journal { (name text : List ℕ) → IsTrue (J.honest device.old) → IsNamed name text (J.past device.old) → IsNamed name text (J.past device.new) }
    ensures honest { J.honest device.new ≡ J.honest device.old }
{
    clear_log(alloc, device, 1, kept);
    clear_log(alloc, device, 2, kept);
}
