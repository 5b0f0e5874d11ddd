ghost use Rattle.std.specs.Prelude.{◌≡◌, ◌++◌, ◌<◌, ◌^◌, [], List, ℕ, IfOk, length};
ghost use Rattle.std.specs.Io.KnownBytes.{Appends};

use fork_request::ByteString;
use std::alloc::Global;
use std::io;
use std::io::{ErrorKind, Write};
use std::marker::Model;

/// Bytes that are sent in order, from where they are, as far as a writer takes them. Once all are out it
/// holds no memory.
#[derive(Debug, Drop)]
pub(crate) struct Piece {
    bytes: ByteString,
    sent: usize,
}

impl Model for Piece {
    ghost use Rattle.std.specs.Prelude.{◌≤◌, List, ℕ, drop, length};
    ghost use Rattle.std.specs.Coded.{coded_list, coded_ℕ};

    ghost Value = { List ℕ };

    ghost coded = { coded_list coded_ℕ };

    ghost view = { λ a. drop a.sent a.bytes };

    ghost invariant = { λ a. a.sent ≤ length a.bytes };
}

impl Piece {
    /// No bytes.
    pub(crate) fn new(alloc: Global) -> Piece
        ensures { result ≡ [] }
    {
        Piece {
            bytes: ByteString::new(Vec::new(alloc)),
            sent: 0,
        }
    }

    /// All of these bytes.
    pub(crate) fn of(bytes: ByteString) -> Piece
        ensures { result ≡ bytes }
    {
        Piece { bytes, sent: 0 }
    }

    /// How many bytes are still to be sent.
    pub(crate) fn len(&self) -> usize
        ensures value { result ≡ length self.now }
        ensures bound { result < 2 ^ 63 }
    {
        self.bytes.as_bytes().len() - self.sent
    }

    /// Writes once, and returns how many bytes went out; none if the writer takes nothing now (`WouldBlock`).
    pub(crate) fn send<W: Write>(&mut self, alloc: Global, writer: &mut W) -> io::Result<usize>
        ensures went { (gone : List ℕ) × (self.old ≡ gone ++ self.new) × Appends (W.contents writer.old) (W.contents writer.new) gone
            × IfOk result (λ n. n ≡ length gone) }
    {
        match writer.write(&self.bytes.as_bytes()[self.sent..]) {
            Ok(n) => {
                self.sent += n;
                if self.sent == self.bytes.as_bytes().len() {
                    self.bytes = ByteString::new(Vec::new(alloc));
                    self.sent = 0;
                }
                Ok(n)
            }
            Err(error) => {
                let kind = error.kind();
                if kind == ErrorKind::WouldBlock || kind == ErrorKind::Interrupted {
                    return Ok(0);
                }
                Err(error)
            }
        }
    }
}
