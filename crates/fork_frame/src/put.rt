// Writing, with a record of all that was written.
ghost use Rattle.std.specs.Prelude.{◌≡◌, ◌∷◌, ◌++◌, [], IfErr, OnErr, OnOk, decimal};
ghost use Rattle.std.specs.Io.KnownBytes.{Appends, WriteAppends};
ghost use Rattle.std.specs.Io.{WritesAtMost};
ghost use Rattle.fork_frame.specs.Reply.{WritesFront};

use crate::fault::ReplyFault;
use itoa::Buffer;
use std::io::{ErrorKind, Write};

// One write, retried if a signal interrupts it.
fn write_some<W: Write>(writer: &mut W, bytes: &[u8]) -> Result<usize, ReplyFault>
    ensures bound { WritesAtMost result bytes.now }
    ensures bytes { WriteAppends (W.contents writer.old) (W.contents writer.new) result bytes.now }
    ensures cause { IfErr result (λ fault. fault ≡ ReplyFault.Write) }
{
    for _ in 0..u64::MAX {
        match writer.write(bytes) {
            Ok(n) => return Ok(n),
            Err(error) => {
                if error.kind() != ErrorKind::Interrupted {
                    return Err(ReplyFault::Write);
                }
            }
        }
    }
    Err(ReplyFault::Write)
}

// Writes all bytes. If that fails, a prefix of them was written.
pub(crate) fn put<W: Write>(writer: &mut W, bytes: &[u8]) -> Result<(), ReplyFault>
    ensures ok { OnOk result (Appends (W.contents writer.old) (W.contents writer.new) bytes.now) }
    ensures err { OnErr result (WritesFront (W.contents writer.old) (W.contents writer.new) bytes.now) }
    ensures cause { IfErr result (λ fault. fault ≡ ReplyFault.Write) }
{
    let mut rest = bytes;
    while !rest.is_empty() {
        let n = write_some(writer, rest)?;
        if n == 0 {
            return Err(ReplyFault::Write);
        }
        rest = &rest[n..];
    }
    Ok(())
}

// Writes the line that gives a reply's length.
pub(crate) fn put_length<W: Write>(writer: &mut W, len: usize) -> Result<(), ReplyFault>
    ensures ok { OnOk result (Appends (W.contents writer.old) (W.contents writer.new) (decimal len ++ 10 ∷ [])) }
    ensures err { OnErr result (WritesFront (W.contents writer.old) (W.contents writer.new) (decimal len ++ 10 ∷ [])) }
    ensures cause { IfErr result (λ fault. fault ≡ ReplyFault.Write) }
{
    let mut digits = Buffer::new();
    put(writer, digits.format(len).as_bytes())?;
    put(writer, b"\n")
}
