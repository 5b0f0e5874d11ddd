ghost use Rattle.std.specs.Prelude.{◌≡◌, ◌⊎◌, ◌++◌, List, ℕ, IfOk, IfErr, length};
ghost use Rattle.std.specs.Io.KnownBytes.{Consumes, IsAtEnd};
ghost use Rattle.fork_program.specs.Hashing.{IsContent, IsUnread};

use crate::fault::Fault;
use fork_frame::read_some;
use push_stream::MAX_CONTENT;
use std::alloc::Global;
use std::io::Read;

const CHUNK: usize = 16384;

// Appends the bytes of one read, and returns how many there were. It returns 0 only at the end.
fn read_onto<R: Read>(reader: &mut R, out: &mut Vec<u8>) -> Result<usize, Fault>
    ensures some { IfOk result (λ n. (more : List ℕ) × (length more ≡ n)
        × Consumes (R.remaining reader.old) (R.remaining reader.new) more
        × (out.new.items ≡ out.old.items ++ more)) }
    ensures end { IfOk result (λ n. n ≡ 0 → IsAtEnd (R.remaining reader.new)) }
    ensures cause { IfErr result (λ fault. (fault ≡ Fault.Read) ⊎ (fault ≡ Fault.Memory)) }
{
    let mut chunk = [0u8; CHUNK];
    let Ok(n) = read_some(reader, &mut chunk) else {
        return Err(Fault::Read);
    };
    let Ok(()) = out.extend_from_slice(&chunk[..n]) else {
        return Err(Fault::Memory);
    };
    Ok(n)
}

/// Reads the whole input, if it is no longer than an object may be. A longer input is not read to its end.
pub fn read_content<R: Read>(alloc: Global, reader: &mut R) -> Result<Vec<u8>, Fault>
    ensures ok { IfOk result (λ content. IsContent (R.remaining reader.old) content.items) }
    ensures err { IfErr result (IsUnread (R.remaining reader.old)) }
{
    let mut content = Vec::new(alloc);
    while content.len() <= MAX_CONTENT {
        if read_onto(reader, &mut content)? == 0 {
            return Ok(content);
        }
    }
    Err(Fault::TooLarge)
}
