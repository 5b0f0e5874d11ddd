ghost use Rattle.std.specs.Prelude.{◌≡◌, OnOk};
ghost use Rattle.std.specs.Io.KnownBytes.{Appends};
ghost use Rattle.fork_frame.specs.Asker.{asker_word};
ghost use Rattle.fork_frame.specs.Frame.{frame_bytes};

use crate::asker::Asker;
use crate::frame::Frame;
use std::io;
use std::io::Write;

// The word that a line uses for who asks.
fn word_of(asker: &Asker) -> &[u8]
    ensures { result.now ≡ asker_word asker.now }
{
    match asker {
        Asker::Tenant(name) => name.as_bytes(),
        Asker::Host => b"@host".as_slice(),
    }
}

/// Writes a frame as it was received, since a frame has one spelling. It allocates nothing and does not flush.
pub fn write_frame<W: Write>(writer: &mut W, frame: &Frame) -> io::Result<()>
    ensures { OnOk result (Appends (W.contents writer.old) (W.contents writer.new) (frame_bytes frame.now)) }
{
    let payload = frame.payload.as_bytes();
    writer.write_all(word_of(&frame.asker))?;
    writeln!(writer, " {}", payload.len())?;
    writer.write_all(payload)
}
