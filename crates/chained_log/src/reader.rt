ghost use Rattle.std.specs.Prelude.{◌≡◌, ◌≤◌, ◌<◌, ◌+◌, ◌⊎◌, ◌++◌, ℕ, List, [], Option, None, IfOk, IfErr, IfSome, IsSome, OnOk, OnErr, length, max, take, drop, vec_len};
ghost use Rattle.std.specs.Option.{option_map};
ghost use Rattle.std.specs.Io.KnownBytes.{Consumes, IsAtEnd, Keeps};
ghost use Rattle.std.specs.Io.{ReadsAtMost};
ghost use Rattle.chained_log.specs.declared.fault.Ended.TheVariants.{Whole, Cut};
ghost use Rattle.chained_log.specs.Log.{SumKind, Fits, piece_bytes};
ghost use Rattle.chained_log.specs.Next.{BeginsPiece, IsNextOf};
ghost use Rattle.chained_log.specs.Reading.{IsOnePiece, length_told, log_contents, log_left};

use crate::fault::Ended;
use crate::next::{Found, next_piece};
use crate::sums::{HEAD, LENGTH, ROOM, SUM, length_at};
use std::alloc::{AllocError, Global};
use std::io;
use std::io::{ErrorKind, Read};

// The most bytes that one read asks for, so that memory is allocated for what arrives.
const CHUNK: usize = 65_536;

// Appends up to `most` bytes, and returns how many; none only at the end.
fn read_onto<R: Read>(reader: &mut R, most: usize, came: &mut Vec<u8>) -> io::Result<usize>
    requires { (0 < most) × (most ≤ CHUNK) }
    ensures some { IfOk result (λ n. (more : List ℕ) × (length more ≡ n) × (n ≤ most)
        × Consumes (R.remaining reader.old) (R.remaining reader.new) more
        × (came.new.items ≡ came.old.items ++ more)) }
    ensures end { IfOk result (λ n. n ≡ 0 → IsAtEnd (R.remaining reader.new)) }
    ensures err { OnErr result (Keeps (R.remaining reader.old) (R.remaining reader.new) × (came.new.items ≡ came.old.items)) }
{
    let at = came.len();
    came.resize(at + most, 0)?;
    match reader.read(&mut came[at..]) {
        Ok(n) => {
            came.truncate(at + n);
            Ok(n)
        }
        Err(error) => {
            came.truncate(at);
            Err(error)
        }
    }
}

// Reads until `came` has `most` bytes, or to the end.
fn fill<R: Read>(reader: &mut R, most: usize, came: &mut Vec<u8>) -> io::Result<()>
    ensures bytes { (more : List ℕ) × Consumes (R.remaining reader.old) (R.remaining reader.new) more
        × (came.new.items ≡ came.old.items ++ more) }
    ensures bound { length came.new.items ≤ max (length came.old.items) most }
    ensures end { OnOk result ((most ≤ length came.new.items) ⊎ IsAtEnd (R.remaining reader.new)) }
{
    while came.len() < most {
        let wanted = (most - came.len()).min(CHUNK);
        if read_onto(reader, wanted, came)? == 0 {
            return Ok(());
        }
    }
    Ok(())
}

// How many of the last bytes of a text are zero, if what precedes `bytes` ends in `before` zeros.
fn zeros_at_end(before: usize, bytes: &[u8]) -> usize {
    let mut zeros = before;
    for byte in bytes {
        zeros = if *byte == 0 {
            zeros.saturating_add(1)
        } else {
            0
        };
    }
    zeros
}

// Reads what is left after `came`, and returns whether the log's last `SUM` bytes are all zero.
fn ends_in_zeros<R: Read>(reader: &mut R, came: &mut Vec<u8>) -> io::Result<bool>
    ensures { (more : List ℕ) × Consumes (R.remaining reader.old) (R.remaining reader.new) more }
{
    let mut zeros = zeros_at_end(0, came.as_slice());
    for _ in 0..u64::MAX {
        came.clear();
        if read_onto(reader, CHUNK, came)? == 0 {
            return Ok(zeros >= SUM);
        }
        zeros = zeros_at_end(zeros, came.as_slice());
    }
    Ok(false)
}

// The length in bytes of the piece that begins so, with its head and its last sum.
fn whole_length(front: &[u8]) -> usize
    ensures told { LENGTH ≤ length front.now → result ≡ length_told front.now + 68 }
    ensures whole { (kind : SumKind) (before piece lost : List ℕ) → Fits piece → LENGTH ≤ length front.now → front.now ++ lost ≡ piece_bytes kind before piece → result ≡ length (piece_bytes kind before piece) }
{
    HEAD + length_at(front) as usize + SUM
}

// Reads the next piece with its head and its last sum, or what there is of it, and returns what it is.
fn next_in<R: Read>(reader: &mut R, before: &[u8; 32], came: &mut Vec<u8>) -> io::Result<Found>
    ensures bytes { (more : List ℕ) × Consumes (R.remaining reader.old) (R.remaining reader.new) more
        × (came.new.items ≡ came.old.items ++ more) }
    ensures bound { length came.old.items ≤ length_told came.old.items + 68 → length came.new.items ≤ length_told came.new.items + 68 }
    ensures came { IfOk result (IsNextOf before.now came.new.items) }
    ensures found { IfOk result (λ found. IfSome (R.remaining reader.old) (λ left. IsNextOf before.now (came.old.items ++ left) found)) }
{
    fill(reader, HEAD, came)?;
    let found = next_piece(before, came.as_slice());
    let Found::Cut = found else {
        return Ok(found);
    };
    if came.len() < HEAD {
        return Ok(found);
    }
    let whole = whole_length(came.as_slice());
    fill(reader, whole, came)?;
    Ok(next_piece(before, came.as_slice()))
}

// How a log ends in which no whole piece follows, if this is what was received after the last one.
fn ended_by(came: &[u8]) -> Ended
    ensures whole { length came.now ≡ 0 → result ≡ Whole }
    ensures cut { 0 < length came.now → result ≡ Cut }
{
    if came.is_empty() {
        return Ended::Whole;
    }
    Ended::Cut
}

/// Reads the contents of a log, piece by piece. No byte is returned before its piece is known to be valid.
/// Altered bytes are an error of the kind `InvalidData`. What was received before a fault is kept, so a later
/// read goes on there.
#[derive(Drop)]
pub struct LogReader<R> {
    reader: R,
    // The sum before the piece being read.
    sum: [u8; 32],
    // What was received of the piece, with its head and its last sum, and nothing behind it.
    came: Vec<u8>,
    // The range of its contents that were not returned yet. It is empty if the piece is not whole.
    at: usize,
    end: usize,
    ended: Option<Ended>,
    ghost within: { (at ≤ end) × (end ≤ vec_len came) },
    ghost one_piece: { IsOnePiece came.items end ended },
}

impl<R: Read + Drop> LogReader<R> {
    /// A reader of a log after this sum. It allocates its memory here, unless a piece is longer than
    /// `LogWriter` writes: for such a piece it allocates as the bytes arrive.
    pub fn new(alloc: Global, reader: R, first: [u8; 32]) -> Result<LogReader<R>, AllocError>
        ensures { IfOk result (λ log. log_left (R.remaining log.reader) log.sum log.came.items log.at log.end log.ended
            ≡ option_map (log_contents first) (R.remaining reader)) }
    {
        let came = Vec::with_capacity(alloc, ROOM)?;
        Ok(LogReader {
            reader,
            sum: first,
            came,
            at: 0,
            end: 0,
            ended: None,
        })
    }

    /// How the log ended, if it was read to its end.
    pub fn ended(&self) -> Option<Ended>
        ensures { result ≡ self.now.ended }
    {
        self.ended
    }

    /// The sum after the last whole piece that was read.
    pub fn sum(&self) -> &[u8; 32]
        ensures { result.now ≡ self.now.sum }
    {
        &self.sum
    }
}

impl<R: Read> LogReader<R> {
    // Reads the next piece after one that was given, or finds how the log ends.
    fn advance(&mut self) -> io::Result<()>
        requires { (self.old.at ≡ self.old.end) × (self.old.ended ≡ None) }
        ensures on { OnOk result ((0 < self.new.end) ⊎ IsSome self.new.ended) }
        ensures left { Keeps (log_left (R.remaining self.old.reader) self.old.sum self.old.came.items self.old.at self.old.end self.old.ended)
            (log_left (R.remaining self.new.reader) self.new.sum self.new.came.items self.new.at self.new.end self.new.ended) }
    {
        self.leave();
        match next_in(&mut self.reader, &self.sum, &mut self.came)? {
            Found::Piece(len) => self.open(len),
            Found::Cut => self.ended = Some(ended_by(self.came.as_slice())),
            Found::Altered => return self.end_altered(),
        }
        Ok(())
    }

    // Leaves the piece that was given, if there is one.
    fn leave(&mut self)
        requires { (self.old.at ≡ self.old.end) × (self.old.ended ≡ None) }
        ensures none { (self.new.at ≡ 0) × (self.new.end ≡ 0) × (self.new.ended ≡ None) }
        ensures left { log_left (R.remaining self.new.reader) self.new.sum self.new.came.items self.new.at self.new.end self.new.ended
            ≡ log_left (R.remaining self.old.reader) self.old.sum self.old.came.items self.old.at self.old.end self.old.ended }
    {
        if self.end == 0 {
            return;
        }
        self.at = 0;
        self.end = 0;
        self.came.clear();
    }

    // Makes the contents of the piece that was received the next to be given.
    fn open(&mut self, len: usize)
        requires none { (self.old.at ≡ 0) × (self.old.end ≡ 0) × (self.old.ended ≡ None) }
        requires piece { BeginsPiece self.old.sum self.old.came.items len }
        ensures given { (self.new.at ≡ HEAD) × (self.new.end ≡ HEAD + len) }
        ensures left { log_left (R.remaining self.new.reader) self.new.sum self.new.came.items self.new.at self.new.end self.new.ended
            ≡ log_left (R.remaining self.old.reader) self.old.sum self.old.came.items self.old.at self.old.end self.old.ended }
    {
        let end = HEAD + len;
        self.end = end;
        self.at = HEAD;
        self.sum.copy_from_slice(&self.came[end..end + SUM]);
    }

    // Ends the log before altered bytes: as cut off if its last bytes are zero, and as altered otherwise, also
    // if the rest cannot be read.
    fn end_altered(&mut self) -> io::Result<()>
        requires { (self.old.at ≡ 0) × (self.old.end ≡ 0) }
        ensures ended { IsSome self.new.ended }
        ensures left { Keeps (option_map (λ _. []) (R.remaining self.old.reader))
            (log_left (R.remaining self.new.reader) self.new.sum self.new.came.items self.new.at self.new.end self.new.ended) }
    {
        self.ended = Some(Ended::Altered);
        if ends_in_zeros(&mut self.reader, &mut self.came)? {
            self.ended = Some(Ended::Cut);
        }
        Ok(())
    }

    // Copies as many of the contents as there are and as fit, and returns how many.
    fn give(&mut self, buf: &mut [u8]) -> usize
        ensures bound { result ≤ length buf.new }
        ensures some { 0 < length buf.new → self.old.at < self.old.end → 0 < result }
        ensures left { Consumes (log_left (R.remaining self.old.reader) self.old.sum self.old.came.items self.old.at self.old.end self.old.ended)
            (log_left (R.remaining self.new.reader) self.new.sum self.new.came.items self.new.at self.new.end self.new.ended) (take result buf.new) }
    {
        let ready = &self.came[self.at..self.end];
        let n = buf.len().min(ready.len());
        buf[..n].copy_from_slice(&ready[..n]);
        self.at += n;
        n
    }
}

impl<R: Read> Read for LogReader<R> {
    ghost remaining = { λ log. log_left (R.remaining log.reader) log.sum log.came.items log.at log.end log.ended };

    fn read(&mut self, buf: &mut [u8]) -> io::Result<usize> {
        for _ in 0..u64::MAX {
            if self.at < self.end {
                return Ok(self.give(buf));
            }
            match self.ended {
                Some(Ended::Altered) => return Err(io::Error::from(ErrorKind::InvalidData)),
                Some(_) => return Ok(0),
                None => self.advance()?,
            }
        }
        Err(io::Error::from(ErrorKind::InvalidData))
    }
}
