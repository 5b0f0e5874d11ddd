// The lines of a text that is read in pieces, and its hash.
ghost use Rattle.std.specs.Prelude.{◌≡◌, ◌≢◌, ◌≤◌, ◌<◌, ◌∷◌, ◌++◌, [], ℕ, List, Option, IfErr, IfNone, IfOk, IfSome, All, drop, length, true, false};
ghost use Rattle.std.specs.Io.{ReadsAtMost};
ghost use Rattle.std.specs.Io.KnownBytes.{IsAtEnd, ReadConsumes};
ghost use Rattle.state_text.specs.Reading.{IsNoWrongLine};

use crate::fault::StateFault;
use git_name::{Name, split_once};
use sha2::{Digest, Sha256};
use std::alloc::Global;
use std::io::{ErrorKind, Read};

/// The most bytes that a right line may have before its LF.
pub(crate) const LONGEST_LINE: usize = 1_024;

// How many bytes are read at once.
const PIECE: usize = 16_384;

// One read, retried if a signal interrupts it.
fn read_some<R: Read>(reader: &mut R, buf: &mut [u8]) -> Result<usize, StateFault>
    ensures bound { ReadsAtMost result buf.new }
    ensures bytes { ReadConsumes (R.remaining reader.old) (R.remaining reader.new) result buf.new }
    ensures cause { IfErr result IsNoWrongLine }
{
    for _ in 0..u64::MAX {
        match reader.read(buf) {
            Ok(n) => return Ok(n),
            Err(error) => {
                if error.kind() != ErrorKind::Interrupted {
                    return Err(StateFault::Read);
                }
            }
        }
    }
    Err(StateFault::Read)
}

// Copies the first line of a text, without its LF, and returns its length. Or returns `None` if the text has no LF.
fn copy_line(text: &[u8], line: &mut Vec<u8>) -> Result<Option<usize>, StateFault>
    ensures whole { IfOk result (λ found. IfSome found (λ len. (rest : List ℕ) × (text.now ≡ line.new.items ++ 10 ∷ rest) × (len ≡ length line.new.items) × All (λ byte. byte ≢ 10) line.new.items)) }
    ensures none { IfOk result (λ found. IfNone found (All (λ byte. byte ≢ 10) text.now)) }
    ensures cause { IfErr result IsNoWrongLine }
{
    line.clear();
    let Some((front, _)) = split_once(text, b'\n') else {
        return Ok(None);
    };
    let Ok(()) = line.extend_from_slice(front) else {
        return Err(StateFault::Memory);
    };
    Ok(Some(front.len()))
}

/// The lines that are taken of a reader, one after another.
#[derive(Drop)]
pub(crate) struct Lines {
    // What was read. The bytes from `at` on were not taken.
    text: Vec<u8>,
    at: usize,
    // Of all that was read.
    hasher: Sha256,
    // The line that was taken last, without its LF.
    pub(crate) line: Vec<u8>,
    ghost within: { at ≤ length text.items },
}

impl Lines {
    ghost use Rattle.state_text.specs.Lines.{EndsAt, GoesBeyond, HasNoLine, IsTaken, Refills, TakesLine, rest_of};

    /// Nothing yet.
    pub(crate) fn new(alloc: Global) -> Lines
        ensures { (first : Option (List ℕ)) → IsTaken first first result [] }
    {
        Lines {
            text: Vec::new(alloc),
            at: 0,
            hasher: Sha256::new(),
            line: Vec::new(alloc),
        }
    }

    // Reads more. It returns false at the end.
    fn refill<R: Read>(&mut self, alloc: Global, reader: &mut R) -> Result<bool, StateFault>
        ensures refills { IfOk result (λ is_more. Refills (R.remaining reader.old) (R.remaining reader.new) self.old self.new) }
        ensures more { IfOk result (λ is_more. is_more ≡ true → length (rest_of self.old) < length (rest_of self.new)) }
        ensures end { IfOk result (λ is_more. is_more ≡ false → (rest_of self.new ≡ rest_of self.old) × IsAtEnd (R.remaining reader.new)) }
        ensures cause { IfErr result IsNoWrongLine }
    {
        let mut piece = [0; PIECE];
        let n = read_some(reader, &mut piece)?;
        let mut text = Vec::new(alloc);
        let Ok(()) = text.extend_from_slice(&self.text[self.at..]) else {
            return Err(StateFault::Memory);
        };
        let Ok(()) = text.extend_from_slice(&piece[..n]) else {
            return Err(StateFault::Memory);
        };
        self.hasher.update(&piece[..n]);
        self.at = 0;
        self.text = text;
        Ok(n > 0)
    }

    // Takes the next line, if all of it was read.
    fn take(&mut self) -> Result<bool, StateFault>
        ensures line { IfOk result (λ is_taken. is_taken ≡ true → (rest_of self.old ≡ self.new.line.items ++ 10 ∷ rest_of self.new) × All (λ byte. byte ≢ 10) self.new.line.items) }
        ensures none { IfOk result (λ is_taken. is_taken ≡ false → (rest_of self.new ≡ rest_of self.old) × All (λ byte. byte ≢ 10) (rest_of self.new)) }
        ensures hasher { self.new.hasher ≡ self.old.hasher }
        ensures cause { IfErr result IsNoWrongLine }
    {
        let Some(len) = copy_line(&self.text[self.at..], &mut self.line)? else {
            return Ok(false);
        };
        self.at += len + 1;
        Ok(true)
    }

    /// Takes the next line. It returns false if there is none: the text ends before its LF, or the line is too long.
    pub(crate) fn next<R: Read>(
        &mut self,
        alloc: Global,
        reader: &mut R,
    ) -> Result<bool, StateFault>
        ensures line { IfOk result (λ is_taken. is_taken ≡ true → TakesLine (R.remaining reader.old) (R.remaining reader.new) self.old self.new) }
        ensures none { IfOk result (λ is_taken. is_taken ≡ false → HasNoLine (R.remaining reader.old) (R.remaining reader.new) self.old self.new) }
        ensures cause { IfErr result IsNoWrongLine }
    {
        for _ in 0..u64::MAX {
            if self.take()? {
                return Ok(true);
            }
            if self.text.len() - self.at > LONGEST_LINE {
                return Ok(false);
            }
            if !self.refill(alloc, reader)? {
                return Ok(false);
            }
        }
        Err(StateFault::Read)
    }

    /// The SHA-256 of the text, if its last line was taken. It returns `None` if bytes follow that line.
    pub(crate) fn end<R: Read>(
        self,
        alloc: Global,
        reader: &mut R,
    ) -> Result<Option<Name>, StateFault>
        ensures name { IfOk result (λ found. IfSome found (EndsAt (R.remaining reader.old) (R.remaining reader.new) self)) }
        ensures none { IfOk result (λ found. IfNone found (GoesBeyond (R.remaining reader.old) self)) }
        ensures cause { IfErr result IsNoWrongLine }
    {
        let mut lines = self;
        if lines.at < lines.text.len() {
            return Ok(None);
        }
        if lines.refill(alloc, reader)? {
            return Ok(None);
        }
        let Lines { hasher, .. } = lines;
        Ok(Some(Name::new(hasher.finalize())))
    }
}
