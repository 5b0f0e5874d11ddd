use crate::accepting::{is_full, is_passing};
use crate::peer::{Peer, are_full, has_turn, is_idle, stays};
use crate::stream_ends::ends_of;
use fork_connection::Party;
use mio::net::{UnixListener, UnixStream};
use mio::{Events, Interest, Poll, Token};
use std::alloc::Global;
use std::io;
use std::io::ErrorKind;
use std::net::Net;
use std::os::unix::net;
use std::time::{Clock, Duration, Instant};

// The listener's number: no connection has it.
const LISTENER: Token = Token(usize::MAX);

// The longest wait for the system, in milliseconds, while a peer's time runs or after a connection could not
// be accepted.
const TICK: u64 = 500;

// While there is something to do, this many rounds run before the system is asked again.
const ROUNDS: u32 = 8;

/// The open connections, and the listener that new ones come from.
#[derive(Drop)]
pub struct Table {
    poll: Poll,
    events: Events<Global>,
    listener: UnixListener,
    peers: Vec<Peer>,
    // How many connections may be open.
    most: usize,
    // How many are still to be accepted.
    left: u32,
    // The number of the next connection.
    next: usize,
    // Whether more may be accepted at once.
    is_calling: bool,
    // Whether the system had no file or no memory for the last one.
    is_short: bool,
    // How many rounds ran since the system was last asked.
    rounds: u32,
    // When the last round ended.
    tidied: Option<Instant>,
}

impl Table {
    /// A table without open connections. `connections` are to be accepted, and `most` may be open at once.
    pub fn new<H: Net>(
        rt: &H,
        alloc: Global,
        listener: net::UnixListener,
        most: u32,
        connections: u32,
    ) -> io::Result<Table> {
        listener.set_nonblocking(true)?;
        let mut listener = UnixListener::from_std(listener);
        let poll = Poll::new(rt)?;
        poll.registry()
            .register(&mut listener, LISTENER, Interest::READABLE)?;
        let events = Events::with_capacity(alloc, 256)?;
        Ok(Table {
            poll,
            events,
            listener,
            peers: Vec::new(alloc),
            most: most as usize,
            left: connections,
            next: 0,
            is_calling: true,
            is_short: false,
            rounds: 0,
            tidied: None,
        })
    }

    /// The open connections.
    pub fn peers(&mut self) -> &mut [Peer] {
        self.peers.as_mut_slice()
    }

    /// Whether all connections were accepted, and none is open any more.
    pub fn is_done(&self) -> bool {
        self.left == 0 && self.peers.is_empty()
    }

    // Whether the next round may do something.
    fn has_turns(&self) -> bool {
        let is_full = are_full(self.peers.as_slice());
        self.peers.iter().any(|peer| has_turn(peer, is_full))
    }

    // Whether a place is free, or a connection is idle.
    fn has_place(&self) -> bool {
        self.peers.len() < self.most || self.peers.iter().any(|peer| is_idle(peer))
    }

    // Whether a waiting connection may be accepted at once.
    fn may_accept(&self) -> bool {
        self.is_calling && self.left > 0 && !self.is_short && self.has_place()
    }

    // Whether there is something to do even without an event: a peer's time runs, or more are to be accepted.
    fn is_timed(&self) -> bool {
        if self.is_calling && self.left > 0 {
            return true;
        }
        self.peers
            .iter()
            .any(|peer| peer.writer().watch().idle_since().is_none())
    }

    // How long to wait for the system.
    fn wait(&self) -> Option<Duration> {
        if self.has_turns() || self.may_accept() {
            return Some(Duration::ZERO);
        }
        if self.is_timed() {
            return Some(Duration::from_millis(TICK));
        }
        None
    }

    // Notes at which connections the system reports an event.
    fn hear(&mut self) {
        for event in self.events.iter() {
            let Token(number) = event.token();
            if number == usize::MAX {
                self.is_calling = true;
                continue;
            }
            for peer in self.peers.iter_mut() {
                if peer.writer().number == number {
                    peer.wake();
                }
            }
        }
    }

    // Waits until there is something to do.
    fn listen(&mut self) -> io::Result<()> {
        let wait = self.wait();
        if wait == Some(Duration::ZERO) && self.rounds < ROUNDS {
            self.rounds += 1;
            return Ok(());
        }
        self.rounds = 0;
        if let Err(error) = self.poll.poll(&mut self.events, wait) {
            if error.kind() != ErrorKind::Interrupted {
                return Err(error);
            }
        }
        self.hear();
        Ok(())
    }

    // If no place is free, ends the connection that has been idle longest.
    fn make_place(&mut self) {
        if self.peers.len() < self.most {
            return;
        }
        let mut oldest: Option<(usize, Instant)> = None;
        for peer in self.peers.iter() {
            if !is_idle(peer) {
                continue;
            }
            let Some(since) = peer.writer().watch().idle_since() else {
                continue;
            };
            let is_older = match oldest {
                Some((_, other)) => since < other,
                None => true,
            };
            if is_older {
                oldest = Some((peer.writer().number, since));
            }
        }
        let Some((number, _)) = oldest else {
            return;
        };
        self.peers.retain(|peer| {
            if peer.writer().number == number {
                peer.writer().end();
                return false;
            }
            true
        });
    }

    // Adds a connection. If there is no memory for it, only that connection ends.
    fn add(&mut self, alloc: Global, stream: UnixStream, now: Instant) {
        let mut stream = stream;
        let number = self.next;
        self.next = self.next.wrapping_add(1);
        if self
            .poll
            .registry()
            .register(
                &mut stream,
                Token(number),
                Interest::READABLE | Interest::WRITABLE,
            )
            .is_err()
        {
            return;
        }
        let Ok((incoming, outgoing)) = ends_of(alloc, stream, number, now) else {
            return;
        };
        let _kept = self.peers.push(Party::new(alloc, incoming, outgoing));
    }

    // Accepts the waiting connections, as long as there are places.
    fn accept(&mut self, alloc: Global, now: Instant) -> io::Result<()> {
        self.is_short = false;
        for _ in 0..self.most {
            if !self.is_calling || self.left == 0 || !self.has_place() {
                return Ok(());
            }
            match self.listener.accept() {
                Ok((stream, _)) => {
                    self.left -= 1;
                    self.make_place();
                    self.add(alloc, stream, now);
                }
                Err(error) => {
                    if error.kind() == ErrorKind::WouldBlock {
                        self.is_calling = false;
                        return Ok(());
                    }
                    if is_passing(&error) {
                        continue;
                    }
                    if is_full(&error) {
                        self.is_short = true;
                        return Ok(());
                    }
                    return Err(error);
                }
            }
        }
        Ok(())
    }

    // No peer's time runs while the host does something else between two rounds, such as saving its state.
    fn put_off(&mut self, now: Instant) {
        let Some(tidied) = self.tidied else {
            return;
        };
        let away = now.duration_since(tidied);
        if away < Duration::from_millis(TICK) {
            return;
        }
        for peer in self.peers.iter() {
            peer.writer().put_off(away);
        }
    }

    /// Waits until there is something to do, and accepts the waiting connections.
    pub fn attend<H: Clock>(&mut self, rt: &H, alloc: Global) -> io::Result<()> {
        let now = Instant::now(rt)?;
        self.put_off(now);
        self.listen()?;
        if self.is_calling {
            let now = Instant::now(rt)?;
            self.accept(alloc, now)?;
        }
        Ok(())
    }

    /// After a round, ends the connections that are finished, that cannot go on, or whose peer's time is over.
    /// Returns whether there were any.
    pub fn tidy<H: Clock>(&mut self, rt: &H) -> io::Result<bool> {
        let now = Instant::now(rt)?;
        let before = self.peers.len();
        let is_full = are_full(self.peers.as_slice());
        self.peers.retain(|peer| stays(peer, now, is_full));
        self.tidied = Some(now);
        Ok(self.peers.len() < before)
    }
}
