ghost use Rattle.std.specs.Prelude.{◌≡◌, ◌+◌, ◌*◌, ◌/◌, ◌≤◌, IfSome, IsTrue};
ghost use Rattle.std.specs.Time.{instant_nanos};

use crate::deadlines::{end_of, left_until};
use std::time::{Duration, Instant};

// How many bytes of a reply earn the peer one more second.
const BYTES_A_SECOND: usize = 65536;

// What a connection waits for.
#[derive(Clone, Copy)]
enum Awaited {
    // The first byte of a frame, since this time, without a deadline.
    Beginning(Instant),
    // The rest of the frame, until this deadline.
    Rest(Instant),
    // The peer to take a reply, until this deadline.
    Taking(Instant),
}

/// What a connection that is served along with others waits for, and how long it may.
#[derive(Clone, Copy)]
pub struct Watch {
    awaited: Awaited,
    // How many of its frames had been answered when the wait began.
    frames: u64,
}

// The deadline to take a reply of `len` bytes that is sent from now on: 30 seconds, and one more second for
// each 64 KiB.
fn end_of_reply(now: Instant, len: usize) -> Option<Instant>
    ensures { IfSome result (λ end. instant_nanos end ≡ instant_nanos now + 30000000000 + len / 65536 * 1000000000) }
{
    let Some(end) = end_of(now) else {
        return None;
    };
    end.checked_add(Duration::from_secs((len / BYTES_A_SECOND) as u64))
}

impl Watch {
    /// For a new connection.
    pub fn new(now: Instant) -> Watch {
        Watch {
            awaited: Awaited::Beginning(now),
            frames: 0,
        }
    }

    // Starts to wait until a reply of `waiting` bytes is taken, unless it waits for that reply already.
    fn of_reply(self, now: Instant, frames: u64, waiting: usize) -> Watch {
        if let Awaited::Taking(_) = self.awaited {
            if self.frames == frames {
                return self;
            }
        }
        match end_of_reply(now, waiting) {
            Some(end) => Watch {
                awaited: Awaited::Taking(end),
                frames,
            },
            None => self,
        }
    }

    // The same for the rest of a frame.
    fn of_frame(self, now: Instant, frames: u64) -> Watch {
        if let Awaited::Rest(_) = self.awaited {
            if self.frames == frames {
                return self;
            }
        }
        match end_of(now) {
            Some(end) => Watch {
                awaited: Awaited::Rest(end),
                frames,
            },
            None => self,
        }
    }

    /// After a turn: `frames` frames were answered, `waiting` bytes of a reply wait, and `has_begun` says whether
    /// a frame has begun.
    pub fn after(self, now: Instant, frames: u64, waiting: usize, has_begun: bool) -> Watch {
        if waiting > 0 {
            return self.of_reply(now, frames, waiting);
        }
        if has_begun {
            return self.of_frame(now, frames);
        }
        match self.awaited {
            Awaited::Beginning(_) if self.frames == frames => self,
            _ => Watch {
                awaited: Awaited::Beginning(now),
                frames,
            },
        }
    }

    /// Gives the peer this much more time.
    pub fn put_off(self, by: Duration) -> Watch {
        let awaited = match self.awaited {
            Awaited::Beginning(since) => Awaited::Beginning(since),
            Awaited::Rest(end) => Awaited::Rest(end.checked_add(by).unwrap_or(end)),
            Awaited::Taking(end) => Awaited::Taking(end.checked_add(by).unwrap_or(end)),
        };
        Watch {
            awaited,
            frames: self.frames,
        }
    }

    /// Whether the peer's time is over.
    pub fn is_over(&self, now: Instant) -> bool {
        match self.awaited {
            Awaited::Beginning(_) => false,
            Awaited::Rest(end) | Awaited::Taking(end) => left_until(end, now).is_none(),
        }
    }

    /// Since when nothing has been asked, if nothing is being asked.
    pub fn idle_since(&self) -> Option<Instant> {
        match self.awaited {
            Awaited::Beginning(since) => Some(since),
            _ => None,
        }
    }
}
