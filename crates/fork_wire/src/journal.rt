ghost use Rattle.std.specs.Prelude.{◌≡◌, ℕ, Bool, true, false, List, Option, IfErr, IfOk, OnErr, OnOk};
ghost use Rattle.std.specs.Io.KnownBytes.{Appends, Keeps};
ghost use Rattle.fork_frame.specs.Frame.{frame_bytes};

use chained_log::SyncData;
use devices::Sink;
use fork_frame::{Frame, write_frame};
use fork_request::MAX_PAYLOAD;
use std::alloc::{AllocError, Global};

/// A frame could not be kept, or was kept only in part, or what was kept could not be synced. After this,
/// nothing more may be kept.
#[derive(Clone, Copy, Debug, PartialEq, Eq)]
pub struct NotKept;

/// Keeps frames in order, so that they can be repeated.
pub trait Journal {
    /// The bytes of the frames that it has, if they are known.
    ghost kept: { Self → Option (List ℕ) };

    /// The bytes that survive a power loss, if they are known.
    ghost synced: { Self → Option (List ℕ) };

    /// Whether keeping or syncing may fail.
    ghost can_fail: { Type 0 };

    /// Whether keeping or syncing failed, so that the last frames may be incomplete.
    ghost is_cut: { Self → Bool };

    /// Appends a frame, which visits so many objects and references when it is repeated. A journal that was cut keeps nothing more.
    fn keep(&mut self, frame: &Frame, visited: u64) -> Result<(), NotKept>
        ensures ok { OnOk result (Appends (kept self.old) (kept self.new) (frame_bytes frame.now)) }
        ensures cause { IfErr result (λ _. can_fail) }
        ensures open { OnOk result (is_cut self.old ≡ false) }
        ensures whole { OnOk result (is_cut self.new ≡ is_cut self.old) }
        ensures cut { OnErr result (is_cut self.new ≡ true) };

    /// Syncs all that was kept, so that it survives a power loss. A journal that was cut is not synced.
    fn sync(&mut self) -> Result<(), NotKept>
        ensures ok { OnOk result (Keeps (synced self.new) (kept self.new)) }
        ensures kept { Keeps (kept self.old) (kept self.new) }
        ensures cause { IfErr result (λ _. can_fail) }
        ensures open { OnOk result (is_cut self.old ≡ false) }
        ensures whole { OnOk result (is_cut self.new ≡ is_cut self.old) }
        ensures cut { OnErr result (is_cut self.new ≡ true) };
}

/// A journal that keeps nothing.
#[derive(Clone, Copy, Debug, PartialEq, Eq)]
pub struct NoJournal;

impl Journal for NoJournal {
    ghost use Rattle.std.specs.Prelude.{None, false};

    ghost kept = { λ _. None };

    ghost synced = { λ _. None };

    ghost can_fail = { ⊥ };

    ghost is_cut = { λ _. false };

    fn keep(&mut self, _frame: &Frame, _visited: u64) -> Result<(), NotKept> {
        Ok(())
    }

    fn sync(&mut self) -> Result<(), NotKept> {
        Ok(())
    }
}

/// A journal that writes each frame immediately. It syncs what it wrote if it was created with `syncs`.
#[derive(Drop)]
pub struct Written<W> {
    writer: W,
    // The frame that is being kept.
    frame: Vec<u8>,
    bytes: u64,
    // How many frames were kept.
    frames: u64,
    // How many objects and references the frames visit when they are repeated.
    visits: u64,
    is_cut: bool,
    // Whether `sync` syncs the writer.
    syncs: bool,
}

// Room for the longest frame: its line, LF, and the payload.
const LONGEST_FRAME: usize = MAX_PAYLOAD + 41;

impl<W: SyncData + Drop> Written<W> {
    /// Creates a journal that appends to what the writer has, and syncs the writer if `syncs`. All its memory
    /// is allocated here.
    pub fn new(alloc: Global, writer: W, syncs: bool) -> Result<Written<W>, AllocError>
        ensures begins { IfOk result (λ journal. (journal.writer ≡ writer) × (journal.bytes ≡ 0) × (journal.frames ≡ 0) × (journal.is_cut ≡ false)) }
        ensures syncs { IfOk result (λ journal. journal.syncs ≡ syncs) }
    {
        let frame = Vec::with_capacity(alloc, LONGEST_FRAME)?;
        Ok(Written {
            writer,
            frame,
            bytes: 0,
            frames: 0,
            visits: 0,
            is_cut: false,
            syncs,
        })
    }
}

impl<W> Written<W> {
    /// How many bytes were kept, up to 2^64 - 1.
    pub fn bytes(&self) -> u64
        ensures { result ≡ self.now.bytes }
    {
        self.bytes
    }

    /// How many frames were kept, up to 2^64 - 1.
    pub fn frames(&self) -> u64
        ensures { result ≡ self.now.frames }
    {
        self.frames
    }

    /// How many objects and references the frames that were kept visit when they are repeated, up to 2^64 - 1. A short frame may
    /// take long to repeat.
    pub fn visits(&self) -> u64
        ensures { result ≡ self.now.visits }
    {
        self.visits
    }
}

impl<W: SyncData> Journal for Written<W> {
    ghost use Rattle.std.specs.Prelude.{None, cond};

    ghost kept = { λ journal. W.contents journal.writer };

    ghost synced = { λ journal. cond journal.syncs (W.synced journal.writer) None };

    ghost can_fail = { Unit {0} };

    ghost is_cut = { λ journal. journal.is_cut };

    fn keep(&mut self, frame: &Frame, visited: u64) -> Result<(), NotKept> {
        if self.is_cut {
            return Err(NotKept);
        }
        self.frame.clear();
        let Ok(()) = write_frame(&mut self.frame, frame) else {
            self.is_cut = true;
            return Err(NotKept);
        };
        let Ok(()) = self.writer.append(self.frame.as_slice()) else {
            self.is_cut = true;
            return Err(NotKept);
        };
        self.bytes = self.bytes.saturating_add(self.frame.len() as u64);
        self.frames = self.frames.saturating_add(1);
        self.visits = self.visits.saturating_add(visited);
        Ok(())
    }

    fn sync(&mut self) -> Result<(), NotKept> {
        match (self.is_cut, self.syncs) {
            (true, _) => Err(NotKept),
            (false, false) => Ok(()),
            (false, true) => {
                let Ok(()) = self.writer.sync() else {
                    self.is_cut = true;
                    return Err(NotKept);
                };
                Ok(())
            }
        }
    }
}
