// Lines that are written together, and hashed as they are written.
ghost use Rattle.std.specs.Prelude.{◌≡◌, IfOk, List, ℕ, OnOk, Option, []};
ghost use Rattle.std.specs.Io.KnownBytes.{Appends};
ghost use Rattle.sha2.specs.Sha256.{sha256};

use devices::Sink;
use git_name::Name;
use sha2::{Digest, Sha256};
use std::alloc::{AllocError, Global};
use std::io;

// How many bytes are enough to be written.
const ENOUGH: usize = 65_536;

// Room for so many bytes and the longest line.
const ROOM: usize = 66_560;

/// Lines that wait to be written, and the hash of what was written before them.
#[derive(Drop)]
pub(crate) struct Waiting {
    pub(crate) lines: Vec<u8>,
    hasher: Sha256,
    // How many bytes were written.
    len: u64,
}

/// What was written of a text that is whole.
#[derive(Clone, Copy, Debug)]
pub struct Spelled {
    /// The SHA-256 of the text (FIPS 180-4, 6.2).
    pub name: Name,
    /// How many bytes it has.
    pub len: u64,
}

impl Waiting {
    ghost use Rattle.state_text.specs.Writing.{IsUnderWay, Puts};

    /// Nothing yet.
    pub(crate) fn new(alloc: Global) -> Result<Waiting, AllocError>
        ensures { IfOk result (λ waiting. (first : Option (List ℕ)) → IsUnderWay first first waiting []) }
    {
        Ok(Waiting {
            lines: Vec::with_capacity(alloc, ROOM)?,
            hasher: Sha256::new(),
            len: 0,
        })
    }

    // Writes what waits.
    fn write_out<W: Sink>(&mut self, writer: &mut W) -> io::Result<()>
        ensures puts { OnOk result (Puts (W.contents writer.old) (W.contents writer.new) self.old self.new []) }
        ensures none { OnOk result (self.new.lines.items ≡ []) }
        ensures rest { W.rest writer.new ≡ W.rest writer.old }
    {
        writer.append(self.lines.as_slice())?;
        self.hasher.update(self.lines.as_slice());
        self.len = self.len.saturating_add(self.lines.len() as u64);
        self.lines.clear();
        Ok(())
    }

    /// Writes what waits, if it is enough.
    pub(crate) fn settle<W: Sink>(&mut self, writer: &mut W) -> io::Result<()>
        ensures puts { OnOk result (Puts (W.contents writer.old) (W.contents writer.new) self.old self.new []) }
        ensures rest { W.rest writer.new ≡ W.rest writer.old }
    {
        if self.lines.len() < ENOUGH {
            return Ok(());
        }
        self.write_out(writer)
    }

    /// Writes what waits, at the end of the text.
    pub(crate) fn end<W: Sink>(self, writer: &mut W) -> io::Result<Spelled>
        ensures whole { IfOk result (λ spelled. (first : Option (List ℕ)) (text : List ℕ) → IsUnderWay first (W.contents writer.old) self text → Appends first (W.contents writer.new) text × (spelled.name ≡ sha256 text)) }
        ensures rest { W.rest writer.new ≡ W.rest writer.old }
    {
        let mut waiting = self;
        waiting.write_out(writer)?;
        let Waiting { hasher, len, .. } = waiting;
        Ok(Spelled {
            name: Name::new(hasher.finalize()),
            len,
        })
    }
}
