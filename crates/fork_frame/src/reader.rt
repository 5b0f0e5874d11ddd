ghost use Rattle.std.specs.Prelude.{◌≡◌, ◌≤◌, ◌<◌, ◌∷◌, ◌++◌, [], ℕ, List, IfSome, IfNone, IfOk, IfErr, length};
ghost use Rattle.std.specs.Io.KnownBytes.{Keeps, Consumes, IsAtEnd, ReadConsumes};
ghost use Rattle.std.specs.Io.{ReadsAtMost};
ghost use Rattle.fork_frame.specs.declared.reader.TheConstants.{CHUNK};
ghost use Rattle.fork_frame.specs.Reading.{TakesLine};

use crate::fault::FrameFault;
use crate::text::{LONGEST, Text};
use std::io::{ErrorKind, Read};

/// What comes before the next LF.
#[derive(Debug, Drop)]
pub(crate) enum Taken {
    /// A line. It and its LF were taken.
    Line(Text),
    /// The end.
    Nothing,
    /// There is no LF within the bytes that are searched, or before the end.
    NoLine,
}

// The most bytes of one read: more than a buffered reader keeps, so that they bypass its buffer.
pub(crate) const CHUNK: usize = 65536;

/// One read, retried if a signal interrupts it.
pub fn read_some<R: Read>(reader: &mut R, buf: &mut [u8]) -> Result<usize, FrameFault>
    ensures bound { ReadsAtMost result buf.new }
    ensures bytes { ReadConsumes (R.remaining reader.old) (R.remaining reader.new) result buf.new }
    ensures cause { IfErr result (λ fault. fault ≡ FrameFault.Read) }
{
    for _ in 0..u64::MAX {
        match reader.read(buf) {
            Ok(n) => return Ok(n),
            Err(error) => {
                if error.kind() != ErrorKind::Interrupted {
                    return Err(FrameFault::Read);
                }
            }
        }
    }
    Err(FrameFault::Read)
}

// The next byte, or none at the end.
fn read_byte<R: Read>(reader: &mut R) -> Result<Option<u8>, FrameFault>
    ensures some { IfOk result (λ o. IfSome o (λ byte. Consumes (R.remaining reader.old) (R.remaining reader.new) (byte ∷ []))) }
    ensures none { IfOk result (λ o. IfNone o (Keeps (R.remaining reader.old) (R.remaining reader.new)
        × IsAtEnd (R.remaining reader.old) × IsAtEnd (R.remaining reader.new))) }
    ensures cause { IfErr result (λ fault. fault ≡ FrameFault.Read) }
{
    let mut one = [0u8; 1];
    let n = read_some(reader, &mut one)?;
    if n == 0 {
        return Ok(None);
    }
    Ok(Some(one[0]))
}

/// Appends up to `most` bytes and returns how many; none only at the end. They are read into their final place.
pub(crate) fn read_onto<R: Read>(
    reader: &mut R,
    most: usize,
    out: &mut Vec<u8>,
) -> Result<usize, FrameFault>
    requires { (0 < most) × (most ≤ CHUNK) }
    ensures some { IfOk result (λ n. (more : List ℕ) × (length more ≡ n) × (n ≤ most)
        × Consumes (R.remaining reader.old) (R.remaining reader.new) more
        × (out.new.items ≡ out.old.items ++ more)) }
    ensures end { IfOk result (λ n. n ≡ 0 → IsAtEnd (R.remaining reader.new)) }
{
    let at = out.len();
    let Ok(()) = out.resize(at + most, 0) else {
        return Err(FrameFault::Memory);
    };
    let n = read_some(reader, &mut out[at..])?;
    out.truncate(at + n);
    Ok(n)
}

/// Takes a line. It allocates nothing.
pub(crate) fn take_line<R: Read>(reader: &mut R) -> Result<Taken, FrameFault>
    ensures taken { IfOk result (λ taken. TakesLine (R.remaining reader.old) (R.remaining reader.new) taken) }
    ensures cause { IfErr result (λ fault. fault ≡ FrameFault.Read) }
{
    let mut text = Text::new();
    while text.len() < LONGEST {
        let Some(byte) = read_byte(reader)? else {
            if text.len() == 0 {
                return Ok(Taken::Nothing);
            }
            return Ok(Taken::NoLine);
        };
        if byte == b'\n' {
            return Ok(Taken::Line(text));
        }
        text.push(byte);
    }
    Ok(Taken::NoLine)
}
