ghost use Rattle.std.specs.Prelude.{ℕ, List, Option, OnOk};
ghost use Rattle.std.specs.Io.KnownBytes.{Keeps};

use devices::Sink;
use std::io;

/// A sink that can be synced, so that what it has taken survives a loss of power.
pub trait SyncData: Sink {
    /// The bytes that survive a loss of power if its file's name does, where they are known.
    ghost synced: { Self → Option (List ℕ) };

    /// Syncs what was appended (fdatasync(2)). After an `Err` a part of it may be lost, and a later call that
    /// succeeds does not bring it back, so nothing more must be appended.
    fn sync(&mut self) -> io::Result<()>
        ensures ok { OnOk result (Keeps (synced self.new) (Self.contents self.new)) }
        ensures kept { Keeps (Self.contents self.old) (Self.contents self.new) };
}
