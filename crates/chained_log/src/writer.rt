ghost use Rattle.std.specs.Prelude.{◌≡◌, ℕ, List, [], Some, IfOk, OnOk, length};
ghost use Rattle.std.specs.Io.KnownBytes.{Appends, Keeps};
ghost use Rattle.chained_log.specs.Writing.{AppendsPieces, log_known, synced_log};

use crate::format::put_piece;
use crate::sums::{LONGEST, ROOM};
use crate::sync::SyncData;
use devices::Sink;
use std::alloc::{AllocError, Global};
use std::io;

/// Writes a log. Each append is a piece for each 65,536 bytes and one for the rest, and none for no bytes.
#[derive(Drop)]
pub struct LogWriter<W> {
    /// The sink that the log is written to.
    pub writer: W,
    // The sum before the first piece.
    first: [u8; 32],
    // How many bytes of the sink precede the log.
    start: u64,
    // The sum before the next piece.
    sum: [u8; 32],
    // Room for a piece with its head and its last sum.
    room: Vec<u8>,
}

impl<W: Sink + Drop> LogWriter<W> {
    /// A log without pieces yet, after this sum, behind the first `start` bytes of the sink. It allocates all
    /// its memory here.
    pub fn new(
        alloc: Global,
        writer: W,
        start: u64,
        first: [u8; 32],
    ) -> Result<LogWriter<W>, AllocError>
        ensures fields { IfOk result (λ log. (log.writer ≡ writer) × (log.first ≡ first) × (log.start ≡ start) × (log.sum ≡ first)) }
        ensures none { IfOk result (λ log. (bytes : List ℕ) → W.contents writer ≡ Some bytes → length bytes ≡ start
            → log_known log.first log.start log.sum (W.contents log.writer) ≡ Some []) }
    {
        let room = Vec::with_capacity(alloc, ROOM)?;
        Ok(LogWriter {
            writer,
            first,
            start,
            sum: first,
            room,
        })
    }

    /// The sum after the last piece.
    pub fn sum(&self) -> &[u8; 32]
        ensures { result.now ≡ self.now.sum }
    {
        &self.sum
    }
}

impl<W: Sink> Sink for LogWriter<W> {
    ghost Rest = { W.Rest };

    ghost contents = { λ log. log_known log.first log.start log.sum (W.contents log.writer) };

    ghost rest = { λ log. W.rest log.writer };

    /// Appends pieces, one after another. After an `Err` some of them, and a part of the next, may be
    /// appended, and nothing more must be.
    fn append(&mut self, bytes: &[u8]) -> io::Result<()>
        ensures bytes { OnOk result (Appends (log_known self.old.first self.old.start self.old.sum (W.contents self.old.writer)) (log_known self.new.first self.new.start self.new.sum (W.contents self.new.writer)) bytes.now) }
        ensures rest { W.rest self.new.writer ≡ W.rest self.old.writer }
        ensures pieces { OnOk result (AppendsPieces bytes.now (W.contents self.old.writer) (W.contents self.new.writer) self.old.sum self.new.sum) }
        ensures first { self.new.first ≡ self.old.first }
        ensures start { self.new.start ≡ self.old.start }
    {
        let mut at = 0;
        while at < bytes.len() {
            let n = (bytes.len() - at).min(LONGEST);
            let piece = &bytes[at..at + n];
            self.sum = put_piece(&mut self.writer, &mut self.room, &self.sum, piece)?;
            at += n;
        }
        Ok(())
    }
}

impl<W: SyncData> SyncData for LogWriter<W> {
    ghost synced = { λ log. synced_log log.first log.start log.sum (W.contents log.writer) (W.synced log.writer) };

    /// Syncs the pieces that were appended.
    fn sync(&mut self) -> io::Result<()>
        ensures ok { OnOk result (Keeps (synced_log self.new.first self.new.start self.new.sum (W.contents self.new.writer) (W.synced self.new.writer)) (log_known self.new.first self.new.start self.new.sum (W.contents self.new.writer))) }
        ensures kept { Keeps (log_known self.old.first self.old.start self.old.sum (W.contents self.old.writer)) (log_known self.new.first self.new.start self.new.sum (W.contents self.new.writer)) }
        ensures writer { OnOk result (Keeps (W.synced self.new.writer) (W.contents self.new.writer)) }
        ensures bytes { Keeps (W.contents self.old.writer) (W.contents self.new.writer) }
        ensures sum { self.new.sum ≡ self.old.sum }
        ensures first { self.new.first ≡ self.old.first }
        ensures start { self.new.start ≡ self.old.start }
    {
        self.writer.sync()
    }
}
