ghost use Rattle.std.specs.Prelude.{◌≡◌, Ok, IsErr, IfOk, IfErr};

use loose_store::FileFault;
use std::io::ErrorKind;
use std::rt::Files;
use std::{fs, io};

/// The name of a file while it is being written. The next start removes it.
pub(crate) const PART: &str = "part";

/// Reports lack of memory as `Memory`, and every other error as `Device`.
pub fn told<T: Drop>(answer: io::Result<T>) -> Result<T, FileFault>
    ensures ok { IfOk answer (λ value. result ≡ Ok value) }
    ensures err { IfErr answer (λ _. IsErr result) }
{
    match answer {
        Ok(value) => Ok(value),
        Err(error) if error.kind() == ErrorKind::OutOfMemory => Err(FileFault::Memory),
        Err(_) => Err(FileFault::Device),
    }
}

/// Renames a part that was written and closed to its file, replacing a file of that name. After a failure, removes the
/// part.
pub(crate) fn settle(
    rt: &impl Files,
    written: io::Result<()>,
    part: &str,
    path: &str,
) -> io::Result<()> {
    let settled = match written {
        Ok(()) => fs::rename(rt, part, path),
        Err(error) => Err(error),
    };
    if settled.is_err() {
        let _swept = fs::remove_file(rt, part);
    }
    settled
}
