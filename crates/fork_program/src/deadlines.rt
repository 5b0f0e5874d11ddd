ghost use Rattle.std.specs.Prelude.{◌≡◌, ◌+◌, ◌-◌, ◌≤◌, IfNone, IfSome};
ghost use Rattle.std.specs.Duration.{as_nanos};
ghost use Rattle.std.specs.Time.{instant_nanos};

use std::alloc::Global;
use std::cell::Cell;
use std::io;
use std::io::{BufReader, ErrorKind, Read, Write};
use std::os::unix::net::UnixStream;
use std::time::{Clock, Duration, Instant};

// How many seconds a peer has to send a frame that it began, and to take a whole reply, if one is served after another.
const PATIENCE: u64 = 30;

// The most bytes that are written in one call. The kernel waits again for each piece of what it is given, and
// makes one piece of so few bytes.
const PIECE: usize = 16384;

// What a connection waits for.
#[derive(Clone, Copy)]
enum Awaited {
    // The first byte of a frame, without a deadline.
    Beginning,
    // The rest of the frame, until this deadline.
    Rest(Instant),
    // The peer to take a reply, until this deadline.
    Taking(Instant),
}

// The deadline for what begins now.
pub(crate) fn end_of(now: Instant) -> Option<Instant>
    ensures { IfSome result (λ end. instant_nanos end ≡ instant_nanos now + 30000000000) }
{
    now.checked_add(Duration::from_secs(PATIENCE))
}

// How much time is left until `end`, if any.
pub(crate) fn left_until(end: Instant, now: Instant) -> Option<Duration>
    ensures left { IfSome result (λ left. as_nanos left ≡ instant_nanos end - instant_nanos now) }
    ensures some { IfSome result (λ left. 1 ≤ as_nanos left) }
    ensures none { IfNone result (instant_nanos end ≤ instant_nanos now) }
{
    let left = end.duration_since(now);
    if left.is_zero() {
        return None;
    }
    Some(left)
}

/// A connection on which each wait ends when the peer's time is over.
#[derive(Drop)]
pub struct TimedConnection<'a, H> {
    clock: &'a H,
    stream: &'a UnixStream,
    awaited: Cell<Awaited>,
    // If more bytes than this were taken, the connection pauses before the next frame.
    most: u64,
    // How many bytes were taken since the last pause.
    taken: Cell<u64>,
}

impl<'a, H: Clock> TimedConnection<'a, H> {
    /// A connection of which nothing was taken yet. It pauses before a frame if more than `most` bytes were taken.
    pub fn new(clock: &'a H, stream: &'a UnixStream, most: u64) -> TimedConnection<'a, H> {
        TimedConnection {
            clock,
            stream,
            awaited: Cell::new(Awaited::Beginning),
            most,
            taken: Cell::new(0),
        }
    }

    // Whether the next frame has not begun, and enough bytes were taken before it for a pause.
    fn is_due(&self) -> bool {
        match self.awaited.get() {
            Awaited::Beginning => self.taken.get() > self.most,
            _ => false,
        }
    }

    /// Whether the connection paused, and so is to go on.
    pub fn goes_on(&self) -> bool {
        let due = self.is_due();
        if due {
            self.taken.set(0);
        }
        due
    }

    fn end(&self) -> io::Result<Instant> {
        match end_of(Instant::now(self.clock)?) {
            Some(end) => Ok(end),
            None => Err(io::Error::from(ErrorKind::InvalidData)),
        }
    }

    fn left(&self, end: Instant) -> io::Result<Duration> {
        match left_until(end, Instant::now(self.clock)?) {
            Some(left) => Ok(left),
            None => Err(io::Error::from(ErrorKind::TimedOut)),
        }
    }

    // Notes that so many bytes of a frame were taken.
    fn take(&self, count: u64) -> io::Result<()> {
        self.taken.set(self.taken.get().saturating_add(count));
        match self.awaited.get() {
            Awaited::Rest(_) => Ok(()),
            _ => {
                self.awaited.set(Awaited::Rest(self.end()?));
                Ok(())
            }
        }
    }

    // How long the peer may still take for the reply that is being written.
    fn taking(&self) -> io::Result<Duration> {
        match self.awaited.get() {
            Awaited::Taking(end) => self.left(end),
            _ => {
                self.awaited.set(Awaited::Taking(self.end()?));
                Ok(Duration::from_secs(PATIENCE))
            }
        }
    }
}

// The input from a peer.
#[derive(Drop)]
struct Coming<'a, H> {
    connection: &'a TimedConnection<'a, H>,
}

impl<H: Clock> Read for Coming<'_, H> {
    fn read(&mut self, buf: &mut [u8]) -> io::Result<usize> {
        let left = match self.connection.awaited.get() {
            Awaited::Rest(end) => Some(self.connection.left(end)?),
            _ => None,
        };
        self.connection.stream.set_read_timeout(left)?;
        let mut stream = self.connection.stream;
        stream.read(buf)
    }
}

/// The frames of a peer. At a pause, they end.
#[derive(Drop)]
pub struct Frames<'a, H: Clock> {
    connection: &'a TimedConnection<'a, H>,
    coming: BufReader<Coming<'a, H>>,
}

impl<'a, H: Clock> Frames<'a, H> {
    /// Reads from this peer.
    pub fn new(alloc: Global, connection: &'a TimedConnection<'a, H>) -> io::Result<Frames<'a, H>> {
        let coming = BufReader::new(alloc, Coming { connection })?;
        Ok(Frames { connection, coming })
    }
}

impl<H: Clock> Read for Frames<'_, H> {
    fn read(&mut self, buf: &mut [u8]) -> io::Result<usize> {
        if self.connection.is_due() {
            return Ok(0);
        }
        let n = self.coming.read(buf)?;
        if n > 0 {
            self.connection.take(n as u64)?;
        }
        Ok(n)
    }
}

/// The replies to a peer. A reply has been taken completely when it is flushed.
#[derive(Drop)]
pub struct Replies<'a, H> {
    connection: &'a TimedConnection<'a, H>,
}

impl<'a, H: Clock> Replies<'a, H> {
    /// Writes to this peer.
    pub fn new(connection: &'a TimedConnection<'a, H>) -> Replies<'a, H> {
        Replies { connection }
    }
}

impl<H: Clock> Write for Replies<'_, H> {
    fn write(&mut self, buf: &[u8]) -> io::Result<usize> {
        let left = self.connection.taking()?;
        self.connection.stream.set_write_timeout(Some(left))?;
        let mut stream = self.connection.stream;
        stream.write(&buf[..buf.len().min(PIECE)])
    }

    fn flush(&mut self) -> io::Result<()> {
        self.connection.awaited.set(Awaited::Beginning);
        Ok(())
    }
}
