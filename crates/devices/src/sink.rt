ghost use Rattle.std.specs.Prelude.{◌≡◌, ℕ, List, Option, Some, OnOk};
ghost use Rattle.std.specs.Io.KnownBytes.{Appends};

use std::io;

/// Takes bytes, and does nothing but append them.
pub trait Sink {
    /// What is known of a sink beside the bytes that it has taken.
    ghost Rest: { Type 0 };

    /// The bytes that it has taken, where they are known.
    ghost contents: { Self → Option (List ℕ) };

    /// All else, which no call changes.
    ghost rest: { Self → Rest };

    /// Appends these bytes. After an `Err` a front of them may be appended.
    fn append(&mut self, bytes: &[u8]) -> io::Result<()>
        ensures bytes { OnOk result (Appends (contents self.old) (contents self.new) bytes.now) }
        ensures rest { rest self.new ≡ rest self.old };
}

impl Sink for Vec<u8> {
    ghost Rest = { Unit {0} };

    ghost contents = { λ bytes. Some bytes.items };

    ghost rest = { λ bytes. tt };

    fn append(&mut self, bytes: &[u8]) -> io::Result<()> {
        self.extend_from_slice(bytes)?;
        Ok(())
    }
}
