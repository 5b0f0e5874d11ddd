use std::cell::Cell;
use std::io;
use std::io::{ErrorKind, Read};

/// Reads a file of which it is known how many bytes it has, and notes whether a read failed for want of memory. An end before
/// that many bytes is an error: the file was taken away while it was read.
#[derive(Drop)]
pub(crate) struct NotingReader<'a, R> {
    pub(crate) reader: R,
    pub(crate) lacks_memory: &'a Cell<bool>,
    // How many bytes are still to come.
    pub(crate) left: u64,
}

impl<R: Read> Read for NotingReader<'_, R> {
    ghost remaining = { λ noting. R.remaining noting.reader };

    fn read(&mut self, buf: &mut [u8]) -> io::Result<usize> {
        let is_asked = !buf.is_empty();
        match self.reader.read(buf) {
            Ok(0) if is_asked && self.left > 0 => Err(io::Error::from(ErrorKind::UnexpectedEof)),
            Ok(n) => {
                self.left = self.left.saturating_sub(n as u64);
                Ok(n)
            }
            Err(error) => {
                self.lacks_memory
                    .set(error.kind() == ErrorKind::OutOfMemory);
                Err(error)
            }
        }
    }
}
