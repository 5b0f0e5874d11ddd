ghost use Rattle.std.specs.Prelude.{◌≡◌, ◌++◌, IfErr, OnErr, OnOk, codes};
ghost use Rattle.std.specs.Io.KnownBytes.{Appends, Keeps};
ghost use Rattle.fork_request.specs.Told.{bytes_of};
ghost use Rattle.fork_frame.specs.Reply.{WritesFront, last_line, reply_frame};

use crate::fault::ReplyFault;
use crate::put::{put, put_length};
use crate::session_end::Ended;
use fork_request::Reply;
use std::alloc::Global;
use std::io::Write;

// Writes all bytes and flushes, so that the peer has them before more is read.
fn send<W: Write>(writer: &mut W, bytes: &[u8]) -> Result<(), ReplyFault>
    ensures ok { OnOk result (Appends (W.contents writer.old) (W.contents writer.new) bytes.now) }
    ensures err { OnErr result (WritesFront (W.contents writer.old) (W.contents writer.new) bytes.now) }
    ensures cause { IfErr result (λ fault. fault ≡ ReplyFault.Write) }
{
    put(writer, bytes)?;
    let Ok(()) = writer.flush() else {
        return Err(ReplyFault::Write);
    };
    Ok(())
}

/// Sends the frame of a reply with these bytes, and flushes. It allocates nothing.
pub fn send_bytes<W: Write>(writer: &mut W, bytes: &[u8]) -> Result<(), ReplyFault>
    ensures ok { OnOk result (Appends (W.contents writer.old) (W.contents writer.new) (reply_frame bytes.now)) }
    ensures err { OnErr result (WritesFront (W.contents writer.old) (W.contents writer.new) (reply_frame bytes.now)) }
    ensures cause { IfErr result (λ fault. fault ≡ ReplyFault.Write) }
{
    put_length(writer, bytes.len())?;
    send(writer, bytes)
}

// What comes before a reply's data.
const OK: &[u8] = b"ok\n";

// Sends the frame of a reply with this data, without copying it, and flushes.
fn send_data<W: Write>(writer: &mut W, text: &[u8]) -> Result<(), ReplyFault>
    ensures ok { OnOk result (Appends (W.contents writer.old) (W.contents writer.new) (reply_frame (codes "ok\n" ++ text.now))) }
    ensures err { OnErr result (WritesFront (W.contents writer.old) (W.contents writer.new) (reply_frame (codes "ok\n" ++ text.now))) }
    ensures cause { IfErr result (λ fault. fault ≡ ReplyFault.Write) }
{
    put_length(writer, OK.len() + text.len())?;
    put(writer, OK)?;
    send(writer, text)
}

/// Sends the frame of a reply, and flushes. It allocates only for a reply that has no data.
pub fn send_reply<W: Write>(alloc: Global, writer: &mut W, reply: Reply) -> Result<(), ReplyFault>
    ensures ok { OnOk result (Appends (W.contents writer.old) (W.contents writer.new) (reply_frame (bytes_of reply))) }
    ensures err { OnErr result (WritesFront (W.contents writer.old) (W.contents writer.new) (reply_frame (bytes_of reply))) }
    ensures kept { IfErr result (λ fault. fault ≡ ReplyFault.Memory → Keeps (W.contents writer.old) (W.contents writer.new)) }
{
    if let Reply::Done(data) = &reply {
        return send_data(writer, data.as_bytes());
    }
    let Ok(bytes) = reply.bytes(alloc) else {
        return Err(ReplyFault::Memory);
    };
    send_bytes(writer, bytes.as_slice())
}

/// Tells the peer that its bytes were not a frame, and flushes.
pub fn send_bad_frame<W: Write>(writer: &mut W) -> Result<(), ReplyFault>
    ensures ok { OnOk result (Appends (W.contents writer.old) (W.contents writer.new) (last_line Ended.BadFrame)) }
    ensures err { OnErr result (WritesFront (W.contents writer.old) (W.contents writer.new) (last_line Ended.BadFrame)) }
    ensures cause { IfErr result (λ fault. fault ≡ ReplyFault.Write) }
{
    send(writer, b"! bad-frame\n")
}
