ghost use Rattle.std.specs.Prelude.{◌≡◌, IfOk, IfSome, OnOk, flat_map};
ghost use Rattle.std.specs.Io.KnownBytes.{Appends};
ghost use Rattle.fork_frame.specs.Frame.{frame_bytes};
ghost use Rattle.fork_wire.specs.UploadLog.{AreCopied, end_frame, upload_frames};

use crate::journal::NotKept;
use devices::Sink;
use fork_frame::{Asker, Frame, Next, next_frame, write_frame};
use fork_request::{ByteString, Request, TenantName};
use std::alloc::{AllocError, Global};
use std::io::Read;

// The frame after which a tenant has no open upload.
fn end_of(alloc: Global, tenant: &TenantName) -> Result<Frame, AllocError>
    ensures { IfOk result (λ frame. frame ≡ end_frame tenant.now) }
{
    let mut payload = Vec::new(alloc);
    payload.extend_from_slice(b"part-end .\n")?;
    Ok(Frame {
        asker: Asker::Tenant(tenant.copy()),
        payload: ByteString::new(payload),
    })
}

/// Appends a frame at once.
pub(crate) fn write_whole<W: Sink>(
    writer: &mut W,
    room: &mut Vec<u8>,
    frame: &Frame,
) -> Result<(), NotKept>
    ensures bytes { OnOk result (Appends (W.contents writer.old) (W.contents writer.new) (frame_bytes frame.now)) }
    ensures rest { W.rest writer.new ≡ W.rest writer.old }
{
    room.clear();
    let Ok(()) = write_frame(room, frame) else {
        return Err(NotKept);
    };
    let Ok(()) = writer.append(room.as_slice()) else {
        return Err(NotKept);
    };
    Ok(())
}

// Writes the frame after which a tenant has no open upload.
fn write_end<W: Sink>(
    writer: &mut W,
    alloc: Global,
    room: &mut Vec<u8>,
    tenant: &TenantName,
) -> Result<(), NotKept>
    ensures bytes { OnOk result (Appends (W.contents writer.old) (W.contents writer.new) (frame_bytes (end_frame tenant.now))) }
    ensures rest { W.rest writer.new ≡ W.rest writer.old }
{
    let Ok(frame) = end_of(alloc, tenant) else {
        return Err(NotKept);
    };
    write_whole(writer, room, &frame)
}

// Writes what stands for a frame.
fn copy_frame<W: Sink>(
    writer: &mut W,
    alloc: Global,
    room: &mut Vec<u8>,
    frame: &Frame,
) -> Result<(), NotKept>
    ensures bytes { OnOk result (Appends (W.contents writer.old) (W.contents writer.new) (flat_map frame_bytes (upload_frames frame.now))) }
    ensures rest { W.rest writer.new ≡ W.rest writer.old }
{
    let Asker::Tenant(tenant) = &frame.asker else {
        return Ok(());
    };
    match Request::read(frame.payload.as_bytes()) {
        Request::Part(_) => write_whole(writer, room, frame),
        Request::PartEnd(_) | Request::PartDrop => write_end(writer, alloc, room, tenant),
        _ => Ok(()),
    }
}

/// Reads frames that a journal kept, up to their end, and writes those that open the uploads which were open then, after frames
/// that open the uploads which were open before (`write_uploads`).
pub fn copy_uploads<R: Read, W: Sink>(
    alloc: Global,
    reader: &mut R,
    writer: &mut W,
) -> Result<(), NotKept>
    ensures copied { OnOk result (IfSome (R.remaining reader.old) (λ came. AreCopied came (W.contents writer.old) (W.contents writer.new))) }
    ensures rest { W.rest writer.new ≡ W.rest writer.old }
{
    let mut room = Vec::new(alloc);
    for _ in 0..u64::MAX {
        let frame = match next_frame(alloc, reader) {
            Ok(Next::Frame(frame)) => frame,
            Ok(Next::End) => return Ok(()),
            Ok(Next::Bad) => return Err(NotKept),
            Err(_) => return Err(NotKept),
        };
        copy_frame(writer, alloc, &mut room, &frame)?;
    }
    Err(NotKept)
}
