use std::io::ErrorKind;
use std::os::unix::net::{UnixListener, UnixStream};
use std::time::{Clock, Duration};
use std::{io, thread};

// How long to wait after a connection could not be accepted, in milliseconds.
const PAUSE: u64 = 500;

// Errors of accept(2) that only time, or the end of a connection, can cure, by errno(3): ENOMEM, ENFILE,
// EMFILE, ENOBUFS.
const FULL: [i32; 4] = [12, 23, 24, 105];

/// Whether accept(2) failed for lack of a resource that others may release.
pub fn is_full(error: &io::Error) -> bool {
    if error.kind() == ErrorKind::OutOfMemory {
        return true;
    }
    match error.raw_os_error() {
        Some(errno) => FULL.contains(&errno),
        None => false,
    }
}

/// Whether accept(2) failed for one connection alone, so that the next one may be accepted at once.
pub fn is_passing(error: &io::Error) -> bool {
    error.kind() == ErrorKind::ConnectionAborted || error.kind() == ErrorKind::Interrupted
}

/// Accepts the next connection. If there is no room for one, waits until there is.
pub fn next_stream<H: Clock>(rt: &H, listener: &UnixListener) -> io::Result<UnixStream> {
    for _ in 0..u64::MAX {
        let error = match listener.accept() {
            Ok((stream, _)) => return Ok(stream),
            Err(error) => error,
        };
        if is_passing(&error) {
            continue;
        }
        if !is_full(&error) {
            return Err(error);
        }
        thread::sleep(rt, Duration::from_millis(PAUSE));
    }
    Err(io::Error::from(ErrorKind::TimedOut))
}
