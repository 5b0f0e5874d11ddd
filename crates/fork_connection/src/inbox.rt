ghost use Rattle.std.specs.Prelude.{◌≡◌, ◌≢◌, ◌<◌, ◌≤◌, ◌++◌, [], true, false, List, ℕ, IfOk, OnErr, length};
ghost use Rattle.std.specs.Io.KnownBytes.{Consumes, IsAtEnd};
ghost use Rattle.fork_frame.specs.Frame.{EndsAt};
ghost use Rattle.fork_connection.specs.Inbox.{Arrives, IsPart, MOST_PENDING as most};

use fork_frame::{Ended, Frame, FrameFault, Line};
use fork_request::{ByteString, MAX_PAYLOAD};
use git_name::split_once;
use std::alloc::{AllocError, Global};
use std::io::{ErrorKind, Read};
use std::marker::Model;

/// The line of a frame must end with its LF within this many bytes.
pub(crate) const LONGEST_LINE: usize = 41;

/// The greatest length of a frame in bytes.
pub(crate) const LONGEST_FRAME: usize = MAX_PAYLOAD + LONGEST_LINE;

// How many bytes are asked for before any byte of a frame came.
const FIRST_READ: usize = 4096;

/// What a read found.
#[derive(Clone, Copy, Debug, PartialEq, Eq)]
pub(crate) enum Came {
    /// Bytes.
    Some,
    /// Nothing yet.
    Nothing,
    /// The peer sends no more.
    End,
}

/// What comes next in the bytes received.
#[derive(Debug, Drop)]
pub(crate) enum Arrival {
    /// A frame, which was taken.
    Frame(Frame),
    /// Too few bytes to say whether it is a frame.
    Part,
    /// No frame, whatever may follow.
    Bad,
}

/// The bytes that came from a peer and were not taken yet, in whatever pieces they came. They are at most one
/// unfinished frame and what one read brings.
#[derive(Debug, Drop)]
pub(crate) struct Inbox {
    bytes: Vec<u8>,
}

impl Model for Inbox {
    ghost use Rattle.std.specs.Prelude.{List, ℕ};
    ghost use Rattle.std.specs.Coded.{coded_list, coded_ℕ};

    ghost Value = { List ℕ };

    ghost coded = { coded_list coded_ℕ };

    ghost view = { λ a. a.bytes.items };
}

impl Inbox {
    /// An inbox that has received nothing.
    pub(crate) fn new(alloc: Global) -> Inbox
        ensures { result ≡ [] }
    {
        Inbox {
            bytes: Vec::new(alloc),
        }
    }

    /// Whether no bytes are left to take.
    pub(crate) fn is_empty(&self) -> bool
        ensures none { result ≡ true → self.now ≡ [] }
        ensures some { result ≡ false → 1 ≤ length self.now }
    {
        self.bytes.is_empty()
    }

    /// Reads once, through the caller's buffer. A reader that has nothing now reports `WouldBlock`. After
    /// an `Err` bytes may be missing, so nothing more may be taken.
    pub(crate) fn fill<R: Read>(
        &mut self,
        reader: &mut R,
        buffer: &mut [u8],
    ) -> Result<Came, FrameFault>
        requires room { length self.old < most }
        requires buffer { 0 < length buffer.old }
        ensures came { IfOk result (λ _. (more : List ℕ) × Consumes (R.remaining reader.old) (R.remaining reader.new) more
            × (self.new ≡ self.old ++ more)) }
        ensures bound { length self.new ≤ most }
        ensures end { IfOk result (λ came. came ≡ Came.End → IsAtEnd (R.remaining reader.new)) }
        ensures some { IfOk result (λ came. came ≡ Came.Some → length self.old < length self.new) }
        ensures nothing { IfOk result (λ came. came ≢ Came.Some → self.new ≡ self.old) }
        ensures buffer { length buffer.new ≡ length buffer.old }
    {
        let wanted = if self.bytes.is_empty() {
            FIRST_READ
        } else {
            LONGEST_FRAME - self.bytes.len()
        };
        let most = wanted.min(buffer.len());
        match reader.read(&mut buffer[..most]) {
            Ok(n) => {
                if n == 0 {
                    return Ok(Came::End);
                }
                let Ok(()) = self.bytes.extend_from_slice(&buffer[..n]) else {
                    return Err(FrameFault::Memory);
                };
                Ok(Came::Some)
            }
            Err(error) => {
                let kind = error.kind();
                if kind == ErrorKind::WouldBlock || kind == ErrorKind::Interrupted {
                    return Ok(Came::Nothing);
                }
                Err(FrameFault::Read)
            }
        }
    }

    /// Takes the next frame, and nothing more. After an `Err` nothing was taken.
    pub(crate) fn take(&mut self, alloc: Global) -> Result<Arrival, AllocError>
        ensures arrives { IfOk result (Arrives self.old self.new) }
        ensures kept { OnErr result (self.new ≡ self.old) }
    {
        let Some((text, after)) = split_once(self.bytes.as_slice(), b'\n') else {
            if self.bytes.len() < LONGEST_LINE {
                return Ok(Arrival::Part);
            }
            return Ok(Arrival::Bad);
        };
        let Some(line) = Line::read(text) else {
            return Ok(Arrival::Bad);
        };
        let Line { asker, len } = line;
        if after.len() < len {
            return Ok(Arrival::Part);
        }
        let payload = Vec::from_slice(alloc, &after[..len])?;
        let rest = Vec::from_slice(alloc, &after[len..])?;
        self.bytes = rest;
        Ok(Arrival::Frame(Frame {
            asker,
            payload: ByteString::new(payload),
        }))
    }

    /// Returns how the session ends if the peer sends no more, and no whole frame is left.
    pub(crate) fn ended(&self) -> Ended
        ensures { IsPart self.now → EndsAt result self.now }
    {
        if self.bytes.is_empty() {
            return Ended::Clean;
        }
        Ended::BadFrame
    }
}
