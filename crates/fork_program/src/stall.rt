ghost use Rattle.std.specs.Prelude.{◌≡◌, false};

use crate::deadlines::{end_of, left_until};
use std::time::{Duration, Instant};

/// Since when a peer has taken nothing of what waits for it.
#[derive(Clone, Copy)]
pub struct Stall {
    since: Instant,
    // How many of its frames had been answered then, and how many bytes of a reply waited.
    frames: u64,
    waiting: usize,
}

impl Stall {
    /// For a new connection.
    pub fn new(now: Instant) -> Stall {
        Stall {
            since: now,
            frames: 0,
            waiting: 0,
        }
    }

    /// After a turn: `frames` frames were answered, and `waiting` bytes of a reply wait.
    pub fn after(self, now: Instant, frames: u64, waiting: usize) -> Stall {
        if self.frames == frames && self.waiting == waiting {
            return self;
        }
        Stall {
            since: now,
            frames,
            waiting,
        }
    }

    /// Gives the peer this much more time.
    pub fn put_off(self, by: Duration) -> Stall {
        Stall {
            since: self.since.checked_add(by).unwrap_or(self.since),
            frames: self.frames,
            waiting: self.waiting,
        }
    }

    /// Whether something has waited for the peer for 30 seconds, and the peer took nothing of it.
    pub fn is_over(&self, now: Instant) -> bool
        ensures { self.now.waiting ≡ 0 → result ≡ false }
    {
        if self.waiting == 0 {
            return false;
        }
        match end_of(self.since) {
            Some(end) => left_until(end, now).is_none(),
            None => false,
        }
    }
}
