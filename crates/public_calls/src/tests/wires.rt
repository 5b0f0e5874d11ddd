use super::hosts::{host_of, names};
use fork_frame::Ended;
use fork_host::Host;
use fork_wire::{SessionFault, serve};
use loose_store::Memory;
use std::alloc::{AllocError, Global};
use std::cell::Cell;
use std::io;
use std::io::{ErrorKind, Read, Write};
use std::test::Fail;

const TURNS: [(&str, &str, &str); 5] = [
    ("alice", "init r\n", "ok\n"),
    (
        "alice",
        "push r\n\n2cf8d83d9ee29543b34a87727421fdecb7e3f3a183d337639025de576db9ebb4 blob 6\nhello\n\n",
        "ok\n",
    ),
    (
        "bob",
        "cat-file 2cf8d83d9ee29543b34a87727421fdecb7e3f3a183d337639025de576db9ebb4\n",
        "no missing 2cf8d83d9ee29543b34a87727421fdecb7e3f3a183d337639025de576db9ebb4\n",
    ),
    (
        "alice",
        "cat-file 2cf8d83d9ee29543b34a87727421fdecb7e3f3a183d337639025de576db9ebb4\n",
        "ok\n2cf8d83d9ee29543b34a87727421fdecb7e3f3a183d337639025de576db9ebb4 blob 6\nhello\n\n",
    ),
    ("carol", "init r\n", "no unknown-tenant\n"),
];

// Adds the frame of a text, which begins with these words.
fn put_frame(
    alloc: Global,
    words: &str,
    text: &str,
    frames: &mut String,
) -> Result<(), AllocError> {
    let len = text.len();
    let line = format!(in alloc; "{words}{len}\n{text}")?;
    frames.push_str(line.as_str())
}

// Requests of tenants and the replies to them, as streams of frames.
fn streams(alloc: Global, turns: &[(&str, &str, &str)]) -> Result<(String, String), AllocError> {
    let mut input = String::new(alloc);
    let mut output = String::new(alloc);
    for (asker, payload, text) in turns {
        let words = format!(in alloc; "{asker} ")?;
        put_frame(alloc, words.as_str(), payload, &mut input)?;
        put_frame(alloc, "", text, &mut output)?;
    }
    Ok((input, output))
}

// Where each frame ends, and where its reply's frame does.
fn ends(alloc: Global) -> Result<Vec<(usize, usize)>, Fail> {
    let mut ends = Vec::new(alloc);
    ends.push((0, 0))?;
    for count in 1..6 {
        let turns = TURNS.get(..count).ok_or("few")?;
        let (input, output) = streams(alloc, turns)?;
        ends.push((input.len(), output.len()))?;
    }
    Ok(ends)
}

// A peer that waits for its reply: a read fails if bytes were written and not flushed.
#[derive(Drop)]
struct Peer<'a> {
    bytes: &'a [u8],
    reads: usize,
    unflushed: &'a Cell<usize>,
}

impl Read for Peer<'_> {
    fn read(&mut self, buf: &mut [u8]) -> io::Result<usize> {
        if self.reads == 0 || self.unflushed.get() > 0 {
            return Err(ErrorKind::BrokenPipe.into());
        }
        self.reads -= 1;
        if self.reads % 3 == 1 {
            return Err(ErrorKind::Interrupted.into());
        }
        let most = buf.len().min(3);
        let n = self.bytes.read(&mut buf[..most])?;
        Ok(n)
    }
}

// A writer that fails after so many writes and flushes.
#[derive(Drop)]
struct Wire<'a> {
    steps: usize,
    sent: Vec<u8>,
    unflushed: &'a Cell<usize>,
}

impl Write for Wire<'_> {
    fn write(&mut self, buf: &[u8]) -> io::Result<usize> {
        if self.steps == 0 {
            return Err(ErrorKind::BrokenPipe.into());
        }
        self.steps -= 1;
        let Ok(()) = self.sent.extend_from_slice(buf) else {
            return Err(ErrorKind::OutOfMemory.into());
        };
        self.unflushed.set(1);
        Ok(buf.len())
    }

    fn flush(&mut self) -> io::Result<()> {
        if self.steps == 0 {
            return Err(ErrorKind::BrokenPipe.into());
        }
        self.steps -= 1;
        self.unflushed.set(0);
        Ok(())
    }
}

// How a session ended, how much was sent, and whether that is a front of the replies.
type Told = (Result<Ended, SessionFault>, usize, bool);

// A session with a host over a peer and a wire that fail.
fn talk(
    alloc: Global,
    host: &mut Host<Memory>,
    reads: usize,
    steps: usize,
) -> Result<Told, AllocError> {
    let (input, output) = streams(alloc, TURNS.as_slice())?;
    let unflushed = Cell::new(0);
    let mut peer = Peer {
        bytes: input.as_bytes(),
        reads,
        unflushed: &unflushed,
    };
    let mut wire = Wire {
        steps,
        sent: Vec::new(alloc),
        unflushed: &unflushed,
    };
    let ended = serve(host, alloc, &mut peer, &mut wire);
    let is_front = output.as_bytes().starts_with(wire.sent.as_slice());
    Ok((ended, wire.sent.len(), is_front))
}

// As `talk`, with a host of alice and bob.
fn session(alloc: Global, reads: usize, steps: usize) -> Result<Told, Fail> {
    let names = names(alloc, &["alice", "bob"])?;
    let mut host = host_of(alloc, names.as_slice())?;
    let told = talk(alloc, &mut host, reads, steps);
    drop(host);
    Ok(told?)
}

#[test]
fn a_read_that_fails_ends_the_session(rt: HostRuntime) -> Result<(), Fail> {
    let alloc = rt.alloc();
    let ends = ends(alloc)?;
    let mut last = 0;
    for reads in 0..1000 {
        last = reads;
        let (ended, sent, is_front) = session(alloc, reads, 1000)?;
        assert!(rt; is_front);
        if ended == Ok(Ended::Clean) {
            break;
        }
        assert_eq!(rt; ended, Err(SessionFault::Read));
        assert!(rt; ends.iter().any(|end| end.1 == sent));
    }
    assert!(rt; last > 100 && last < 900);
    Ok(())
}

#[test]
fn a_write_that_fails_ends_the_session(rt: HostRuntime) -> Result<(), Fail> {
    let alloc = rt.alloc();
    let mut last = 0;
    for steps in 0..1000 {
        last = steps;
        let (ended, _, is_front) = session(alloc, 1000, steps)?;
        assert!(rt; is_front);
        if ended == Ok(Ended::Clean) {
            break;
        }
        assert_eq!(rt; ended, Err(SessionFault::Write));
    }
    assert!(rt; last > 10 && last < 100);
    Ok(())
}
