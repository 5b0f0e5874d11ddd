ghost use Rattle.std.specs.Prelude.{◌≡◌, ◌≤◌, ◌&&◌, [], false, true, length, not};
ghost use Rattle.fork_connection.specs.Turns.{peer_of};

use crate::connection::Connection;
use std::alloc::Global;

/// A connection with the two ends of its stream.
#[derive(Drop)]
pub struct Party<R, W> {
    pub(crate) connection: Connection,
    pub(crate) reader: R,
    pub(crate) writer: W,
    // As far as is known, there may be more to do.
    pub(crate) is_busy: bool,
    // The session has ended, or the connection cannot go on.
    pub(crate) is_over: bool,
    pub(crate) frames: u64,
}

impl<R: Drop, W: Drop> Party<R, W> {
    /// A new connection.
    pub fn new(alloc: Global, reader: R, writer: W) -> Party<R, W>
        ensures ends { (result.reader ≡ reader) × (result.writer ≡ writer) }
        ensures talk { result.connection ≡ record { pending = []; waiting = []; is_ending = false } }
        ensures goes_on { (result.is_over ≡ false) × (result.is_busy ≡ true) }
        ensures none { result.frames ≡ 0 }
    {
        Party {
            connection: Connection::new(alloc),
            reader,
            writer,
            is_busy: true,
            is_over: false,
            frames: 0,
        }
    }
}

impl<R, W> Party<R, W> {
    /// Notes that the peer may have sent something, or may take something again.
    pub fn wake(&mut self)
        ensures { self.new ≡ record self.old { is_busy = true } }
    {
        self.is_busy = true;
    }

    /// Whether, as far as is known, there may be more to do.
    pub fn is_busy(&self) -> bool
        ensures { result ≡ (not self.now.is_over && self.now.is_busy) }
    {
        !self.is_over && self.is_busy
    }

    /// Whether the session has ended, or the connection cannot go on. Its stream must then be closed.
    pub fn is_over(&self) -> bool
        ensures { result ≡ self.now.is_over }
    {
        self.is_over
    }

    /// How many frames were answered, up to 2^64 - 1.
    pub fn frames(&self) -> u64
        ensures { result ≡ self.now.frames }
    {
        self.frames
    }

    /// How many bytes wait for the peer to take them.
    pub fn waiting(&self) -> usize
        ensures { result ≡ length self.now.connection.waiting }
    {
        self.connection.waiting()
    }

    /// Whether a frame has begun to arrive.
    pub fn has_begun(&self) -> bool
        ensures none { result ≡ false → self.now.connection.pending ≡ [] }
        ensures some { result ≡ true → 1 ≤ length self.now.connection.pending }
    {
        self.connection.has_begun()
    }

    /// Where its replies go.
    pub fn writer(&self) -> &W
        ensures { result.now ≡ self.now.writer }
    {
        &self.writer
    }
}
