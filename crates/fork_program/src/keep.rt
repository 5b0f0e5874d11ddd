ghost use Rattle.std.specs.Prelude.{◌≡◌, IfErr, IfOk};
ghost use Rattle.fork_host.specs.Shown.{IsSameHost};
ghost use Rattle.fork_program.specs.Keeping.{IsSaved};

use crate::draft::Begun;
use crate::fault::Fault;
use crate::kept_state::KeptState;
use crate::restored::Restored;
use crate::settling::number_of;
use crate::state_device::journal_device;
use crate::upload_log::{NotLogged, UploadLog};
use crate::watching::is_in_place;
use chained_log::{FileWriter, LogWriter};
use devices::{Device, Real};
use fork_host::Host;
use fork_wire::Written;
use host_folder::{Reserve, RoomyDevice, Watch};
use loose_store::{FileFault, LooseFiles};
use std::alloc::Global;
use std::cell::Cell;
use std::fs::{File, Files};
use std::time::Instant;

// A journal may always grow by this many bytes.
const SPARE: u64 = 1_048_576;

// How many objects and references the requests of a journal may visit: some seconds of work, minutes over a folder.
const MOST_VISITED: u64 = 16_777_216;

// Of so many frames it is copied what they have of uploads: less than half a second of work.
const MOST_COPIED: u64 = 16_384;

/// A folder that keeps a host: its state as it was last saved, and the journal of what was done since.
#[derive(Drop)]
pub struct Keep<'a, H> {
    pub(crate) rt: &'a H,
    pub(crate) dir: &'a str,
    pub(crate) journal: Written<LogWriter<FileWriter<RoomyDevice<Real<&'a H>>>>>,
    // The state in the folder, whose name is the journal's too.
    state: KeptState<RoomyDevice<Real<&'a H>>>,
    // How many bytes the open uploads had at the beginning of the log to which the journal refers, or have at its own.
    uploads: u64,
    // With fewer bytes the journal is not long, since a try to save the state at 1 MiB less had no result.
    again: u64,
    // The number of that log, 0 if there is none, and the log itself unless it could not be written.
    number: u64,
    log: Option<UploadLog<RoomyDevice<Real<&'a H>>>>,
    // Whether its journals are synced.
    pub(crate) syncs: bool,
    pub(crate) reserve: Reserve,
    // When a reserve that was given back is tried to be made again, and how many seconds after that once more.
    pub(crate) due: Cell<Option<Instant>>,
    pub(crate) gap: Cell<u64>,
    // By which it is noticed that the folder is gone, and when that is looked for again.
    pub(crate) watch: Option<Watch>,
    pub(crate) next_look: Cell<Option<Instant>>,
}

// Syncs some object files before the next save does, if there are many.
fn sync_ahead<S: LooseFiles>(alloc: Global, host: &mut Host<S>) -> Result<(), Fault>
    ensures cause { IfErr result (λ fault. fault ≡ Fault.NotSaved) }
    ensures host { IsSameHost host.old host.new }
    ensures removed { host.new.vault.durability.removed ≡ host.old.vault.durability.removed }
{
    match host.sync_ahead(alloc) {
        Ok(()) => Ok(()),
        Err(_) => Err(Fault::NotSaved),
    }
}

// Whether a tenant has an open upload. It is also true if there is no memory to find out.
fn is_uploading<S: LooseFiles>(alloc: Global, host: &Host<S>) -> bool {
    match host.uploading(alloc) {
        Ok(names) => !names.is_empty(),
        Err(_) => true,
    }
}

// A journal of what is done from now on.
fn written<J: Device + Drop>(
    alloc: Global,
    journal: LogWriter<FileWriter<J>>,
    syncs: bool,
) -> Result<Written<LogWriter<FileWriter<J>>>, Fault>
    ensures cause { IfErr result (λ fault. fault ≡ Fault.NotSaved) }
    ensures syncs { IfOk result (λ written. written.syncs ≡ syncs) }
{
    match Written::new(alloc, journal, syncs) {
        Ok(written) => Ok(written),
        Err(_) => Err(Fault::NotSaved),
    }
}

impl<'a, H: Files<File = File> + AllocGlobal> Keep<'a, H> {
    /// Begins a journal after the state that a host was restored of, if that is the host's own in the newest version, or else
    /// after a state that is saved first, and gives the host. After an `Err` the folder has its old state or the new one, and what belongs to that state. The reserve is
    /// for this and all that is kept later. The watch is on the folder's lock since it was locked.
    pub(crate) fn begin<S: LooseFiles + Drop>(
        rt: &'a H,
        alloc: Global,
        dir: &'a str,
        restored: Restored<S, Real<&'a H>>,
        syncs: bool,
        reserve: Reserve,
        watch: Watch,
    ) -> Result<(Host<S>, Keep<'a, H>), Fault>
        ensures cause { IfErr result (λ fault. fault ≡ Fault.NotSaved) }
        ensures syncs { IfOk result (λ begun. (begun.1.syncs ≡ syncs) × (begun.1.journal.syncs ≡ syncs)) }
        ensures saved { IfOk result (λ begun. IsSaved restored.entry begun.0) }
    {
        if !is_in_place(rt, &watch) {
            return Err(Fault::NotSaved);
        }
        let Ok(shared) = reserve.share() else {
            return Err(Fault::NotSaved);
        };
        let journals = journal_device(rt, alloc, dir, &reserve)?;
        let (host, state, begun) = restored.begin(alloc, shared, journals)?;
        let Begun {
            journal,
            log,
            uploads,
        } = begun;
        let Ok(journal) = written(alloc, journal, syncs) else {
            return Err(Fault::NotSaved);
        };
        let keep = Keep {
            rt,
            dir,
            journal,
            state,
            uploads,
            again: 0,
            number: number_of(&log),
            log,
            syncs,
            reserve,
            due: Cell::new(None),
            gap: Cell::new(1),
            watch: Some(watch),
            next_look: Cell::new(None),
        };
        Ok((host, keep))
    }

    /// Saves the host's state at the end of serving, with an empty journal, and makes sweeps final. So no open
    /// upload survives the end. If serving ended because the folder could not be written, or if the folder is not where
    /// it was, it is left as it is, as after a kill. After an `Err` the folder has what it had, or the new state.
    pub fn end<S: LooseFiles>(
        &mut self,
        alloc: Global,
        host: &mut Host<S>,
        served: &Result<(), Fault>,
    ) -> Result<(), Fault>
        ensures { IfErr result (λ fault. fault ≡ Fault.NotSaved) }
    {
        if let Err(Fault::NotKept | Fault::NotSaved) = served {
            return Ok(());
        }
        if !self.is_in_place() {
            return Err(Fault::NotSaved);
        }
        if self.journal.bytes() == 0 && !is_uploading(alloc, host) {
            let _forgotten = host.forget_removed(alloc);
            return Ok(());
        }
        let journals = self.journals(alloc)?;
        self.state.close(alloc, host, journals)
    }

    // A device for the next journal, or for a log of uploads.
    fn journals(&self, alloc: Global) -> Result<RoomyDevice<Real<&'a H>>, Fault>
        ensures { IfErr result (λ fault. fault ≡ Fault.NotSaved) }
    {
        journal_device(self.rt, alloc, self.dir, &self.reserve)
    }

    // Whether a start would take long to repeat the journal: by its bytes, or by what its requests
    // visit.
    fn is_long(&self) -> bool {
        let bytes = self.journal.bytes();
        bytes >= self.again
            && (bytes > self.state.len().saturating_add(self.uploads).max(SPARE)
                || self.journal.visits() > MOST_VISITED)
    }

    // Whether the open uploads are to be in a log. Few bytes are spelled in each journal anew.
    fn needs_log(&self) -> bool {
        self.number != 0 || self.uploads.saturating_add(self.journal.bytes()) > SPARE
    }

    // Whether it takes less time to copy what the journal has of uploads than to begin a log anew.
    fn is_copied(&self, log: &UploadLog<RoomyDevice<Real<&'a H>>>) -> bool {
        !log.is_long()
            && self.journal.bytes() <= self.uploads
            && self.journal.frames() <= MOST_COPIED
    }

    // The log of open uploads to which the next journal is to refer, if any. After an `Err` this journal goes on.
    fn next_log<S: LooseFiles>(
        &mut self,
        alloc: Global,
        host: &mut Host<S>,
    ) -> Result<Option<UploadLog<RoomyDevice<Real<&'a H>>>>, NotLogged>
        ensures syncs { (self.new.journal ≡ self.old.journal) × (self.new.syncs ≡ self.old.syncs) }
        ensures saved { IsSaved host.old host.new }
    {
        let log = self.log.take();
        if !is_uploading(alloc, host) || !self.needs_log() {
            return Ok(None);
        }
        if let Some(log) = log {
            if self.is_copied(&log) {
                let log = self.state.copied_to(alloc, log)?;
                return Ok(Some(log));
            }
        }
        // The other one: this journal still refers to its own.
        let number = if self.number == 1 { 2 } else { 1 };
        let Ok(device) = self.journals(alloc) else {
            return Err(NotLogged);
        };
        let log = UploadLog::begin(alloc, device, number, host)?;
        Ok(Some(log))
    }

    /// Saves the host's state if the journal is long, or if anything was swept. The old state stays and its
    /// journal goes on if an upload's object cannot be read, if there is no memory, or if there are no descriptors
    /// to sync object files, or to begin a state or a journal. Then the journal counts as long once it has 1 MiB
    /// more. A folder that is not where it was is left as it is. After an `Err` nothing more may be kept.
    pub fn settle<S: LooseFiles>(&mut self, alloc: Global, host: &mut Host<S>) -> Result<(), Fault>
        ensures cause { IfErr result (λ fault. fault ≡ Fault.NotSaved) }
        ensures syncs { (self.old.journal.syncs ≡ self.old.syncs) → (self.new.journal.syncs ≡ self.old.syncs) × (self.new.syncs ≡ self.old.syncs) }
        ensures saved { IsSaved host.old host.new }
    {
        if !self.is_long() && !host.has_removed() {
            return sync_ahead(alloc, host);
        }
        if !self.is_in_place() {
            return Err(Fault::NotSaved);
        }
        if self.journal.bytes() == 0 {
            let _forgotten = host.forget_removed(alloc);
            return Ok(());
        }
        self.again = self.journal.bytes().saturating_add(SPARE);
        self.save(alloc, host)
    }

    // Saves the host's state, if nothing is lacking.
    fn save<S: LooseFiles>(&mut self, alloc: Global, host: &mut Host<S>) -> Result<(), Fault>
        ensures cause { IfErr result (λ fault. fault ≡ Fault.NotSaved) }
        ensures syncs { (self.old.journal.syncs ≡ self.old.syncs) → (self.new.journal.syncs ≡ self.old.syncs) × (self.new.syncs ≡ self.old.syncs) }
        ensures saved { IsSaved host.old host.new }
    {
        match host.sync(alloc) {
            Ok(()) => {}
            Err(FileFault::Memory) => return Ok(()),
            Err(FileFault::Device) => return Err(Fault::NotSaved),
        }
        let Ok(log) = self.next_log(alloc, host) else {
            return Ok(());
        };
        let Ok(journals) = self.journals(alloc) else {
            return Ok(());
        };
        match self.state.save(alloc, host, journals, log)? {
            Some(begun) => self.go_on(alloc, begun),
            None => Ok(()),
        }
    }

    // Goes on with this journal, which was begun after a saving.
    fn go_on(&mut self, alloc: Global, begun: Begun<RoomyDevice<Real<&'a H>>>) -> Result<(), Fault>
        ensures cause { IfErr result (λ fault. fault ≡ Fault.NotSaved) }
        ensures syncs { (self.old.journal.syncs ≡ self.old.syncs) → (self.new.journal.syncs ≡ self.old.syncs) × (self.new.syncs ≡ self.old.syncs) }
    {
        let Begun {
            journal,
            log,
            uploads,
        } = begun;
        self.journal = written(alloc, journal, self.syncs)?;
        self.uploads = uploads;
        self.again = 0;
        self.number = number_of(&log);
        self.log = log;
        Ok(())
    }

    /// Like `settle`, after a round of many connections: what was swept counts only if one of them ended.
    pub fn settle_after<S: LooseFiles>(
        &mut self,
        alloc: Global,
        host: &mut Host<S>,
        ended: bool,
    ) -> Result<(), Fault>
        ensures cause { IfErr result (λ fault. fault ≡ Fault.NotSaved) }
        ensures syncs { (self.old.journal.syncs ≡ self.old.syncs) → (self.new.journal.syncs ≡ self.old.syncs) × (self.new.syncs ≡ self.old.syncs) }
        ensures saved { IsSaved host.old host.new }
    {
        if !ended && !self.is_long() {
            return sync_ahead(alloc, host);
        }
        self.settle(alloc, host)
    }
}
