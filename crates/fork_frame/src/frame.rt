ghost use Rattle.std.specs.Prelude.{◌≡◌, IfErr, IfOk, IfSome};
ghost use Rattle.fork_frame.specs.Next.{BeginsFrame, IsNext};

use crate::asker::Asker;
use crate::fault::FrameFault;
use crate::line::Line;
use crate::payload::take_payload;
use crate::reader::{Taken, take_line};
use fork_request::ByteString;
use std::alloc::Global;
use std::io::Read;

/// A request as received.
#[derive(Debug, Drop)]
pub struct Frame {
    pub asker: Asker,
    pub payload: ByteString,
}

/// What comes next in the input.
#[derive(Debug, Drop)]
pub enum Next {
    /// A frame. It was taken.
    Frame(Frame),
    /// The end.
    End,
    /// Not a frame. Nothing after it may be read as one.
    Bad,
}

/// Takes the next frame, and not a byte more. Retries an interrupted read. The line is read one byte at a
/// time, so the reader should be buffered. Memory for the payload is allocated as it is received. After an
/// `Err` nothing more may be read as a frame.
pub fn next_frame<R: Read>(alloc: Global, reader: &mut R) -> Result<Next, FrameFault>
    ensures next { IfOk result (λ next. IsNext (R.remaining reader.old) (R.remaining reader.new) next) }
    ensures memory { IfErr result (λ fault. fault ≡ FrameFault.Memory → IfSome (R.remaining reader.old) BeginsFrame) }
{
    let text = match take_line(reader)? {
        Taken::Line(text) => text,
        Taken::Nothing => return Ok(Next::End),
        Taken::NoLine => return Ok(Next::Bad),
    };
    let Some(line) = Line::read(text.as_bytes()) else {
        return Ok(Next::Bad);
    };
    let Line { asker, len } = line;
    let Some(payload) = take_payload(alloc, reader, len)? else {
        return Ok(Next::Bad);
    };
    Ok(Next::Frame(Frame { asker, payload }))
}
