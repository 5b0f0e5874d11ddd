ghost use Rattle.std.specs.Prelude.{◌≡◌, IfErr, OnOk};
ghost use Rattle.std.specs.Io.KnownBytes.{Appends};

use crate::fault::Fault;
use std::io::Write;

/// Writes all the bytes, and flushes.
pub fn send<W: Write>(bytes: &[u8], writer: &mut W) -> Result<(), Fault>
    ensures ok { OnOk result (Appends (W.contents writer.old) (W.contents writer.new) bytes.now) }
    ensures cause { IfErr result (λ fault. fault ≡ Fault.Write) }
{
    let Ok(()) = writer.write_all(bytes) else {
        return Err(Fault::Write);
    };
    let Ok(()) = writer.flush() else {
        return Err(Fault::Write);
    };
    Ok(())
}
