ghost use Rattle.std.specs.Prelude.{◌≡◌, ◌<◌, ◌≤◌, ℕ, List, IfSome, IfNone, IfOk, IfErr, length};
ghost use Rattle.std.specs.Io.KnownBytes.{Consumes, IsAtEnd};

use crate::fault::FrameFault;
use crate::reader::{CHUNK, read_onto};
use fork_request::ByteString;
use std::alloc::Global;
use std::io::Read;

/// Takes a payload of `len` bytes, or returns `None` if the input ends before. It allocates only for what was
/// received and for one more read, never for all that `len` announces.
pub(crate) fn take_payload<R: Read>(
    alloc: Global,
    reader: &mut R,
    len: usize,
) -> Result<Option<ByteString>, FrameFault>
    ensures some { IfOk result (λ o. IfSome o (λ payload. (length payload ≡ len)
        × Consumes (R.remaining reader.old) (R.remaining reader.new) payload)) }
    ensures none { IfOk result (λ o. IfNone o ((front : List ℕ) × (length front < len)
        × Consumes (R.remaining reader.old) (R.remaining reader.new) front
        × IsAtEnd (R.remaining reader.new))) }
    ensures wanted { IfErr result (λ _. 1 ≤ len) }
{
    let mut bytes = Vec::new(alloc);
    while bytes.len() < len {
        let most = (len - bytes.len()).min(CHUNK);
        if read_onto(reader, most, &mut bytes)? == 0 {
            return Ok(None);
        }
    }
    Ok(Some(ByteString::new(bytes)))
}
