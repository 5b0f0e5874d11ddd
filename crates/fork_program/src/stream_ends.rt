use crate::deadlines_at_once::Watch;
use crate::stall::Stall;
use mio::net::UnixStream;
use std::alloc::{AllocError, Global};
use std::cell::Cell;
use std::io;
use std::io::{Read, Write};
use std::net::Shutdown;
use std::rc::Rc;
use std::time::{Duration, Instant};

/// The input from a peer that is served along with others.
#[derive(Drop)]
pub struct Incoming {
    stream: Rc<UnixStream>,
}

/// The output to such a peer.
#[derive(Drop)]
pub struct Outgoing {
    stream: Rc<UnixStream>,
    /// The number by which the system reports an event at the connection.
    pub number: usize,
    watch: Cell<Watch>,
    stall: Cell<Stall>,
}

/// The two ends of a new connection.
pub fn ends_of(
    alloc: Global,
    stream: UnixStream,
    number: usize,
    now: Instant,
) -> Result<(Incoming, Outgoing), AllocError> {
    let Ok(stream) = Rc::new(alloc, stream) else {
        return Err(AllocError);
    };
    let other = stream.clone()?;
    let incoming = Incoming { stream: other };
    let outgoing = Outgoing {
        stream,
        number,
        watch: Cell::new(Watch::new(now)),
        stall: Cell::new(Stall::new(now)),
    };
    Ok((incoming, outgoing))
}

impl Read for Incoming {
    fn read(&mut self, buf: &mut [u8]) -> io::Result<usize> {
        let mut stream: &UnixStream = self.stream.as_ref();
        stream.read(buf)
    }
}

impl Write for Outgoing {
    fn write(&mut self, buf: &[u8]) -> io::Result<usize> {
        let mut stream: &UnixStream = self.stream.as_ref();
        stream.write(buf)
    }

    fn flush(&mut self) -> io::Result<()> {
        Ok(())
    }
}

impl Outgoing {
    /// Records the state of the connection after a turn.
    pub fn note(&self, now: Instant, frames: u64, waiting: usize, has_begun: bool) {
        self.watch
            .set(self.watch.get().after(now, frames, waiting, has_begun));
        self.stall.set(self.stall.get().after(now, frames, waiting));
    }

    /// Gives the peer this much more time for what it is doing, because the host did something else.
    pub fn put_off(&self, by: Duration) {
        self.watch.set(self.watch.get().put_off(by));
        self.stall.set(self.stall.get().put_off(by));
    }

    /// What the connection waits for.
    pub fn watch(&self) -> Watch {
        self.watch.get()
    }

    /// Since when the peer has taken nothing of a reply.
    pub fn stall(&self) -> Stall {
        self.stall.get()
    }

    /// Tells the peer that nothing more will be sent.
    pub fn end(&self) {
        let stream: &UnixStream = self.stream.as_ref();
        let _shut = stream.shutdown(Shutdown::Write);
    }
}
