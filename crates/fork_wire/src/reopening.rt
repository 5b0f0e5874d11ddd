ghost use Rattle.std.specs.Prelude.{◌≡◌, ◌<◌, ◌≤◌, ◌∷◌, [], ℕ, All, List, IfOk, OnOk, flat_map, length};
ghost use Rattle.std.specs.Io.KnownBytes.{Appends};
ghost use Rattle.fork_request.specs.Names.{IsTenantName};
ghost use Rattle.fork_host.specs.Shape.{SameShape};
ghost use Rattle.fork_host.specs.Shown.{Trusted, world_of};
ghost use Rattle.fork_host.specs.Uploads.{opened, upload_at, uploads_of};
ghost use Rattle.fork_frame.specs.Frame.{IsFrame, frame_bytes};
ghost use Rattle.fork_frame.specs.declared.frame.Frame.{Frame as FrameValue};
ghost use Rattle.fork_wire.specs.Reopening.{ArePartFrames, Reopens, part_frame};

use crate::journal::NotKept;
use crate::upload_log::write_whole;
use devices::Sink;
use fork_frame::{Asker, Frame};
use fork_host::Host;
use fork_request::{ByteString, TenantName};
use loose_store::LooseFiles;
use std::alloc::{AllocError, Global};

// The most bytes in a piece. Its payload then has the greatest length that a frame allows.
const MOST: usize = 1_048_571;

// The frame of a piece.
fn part(alloc: Global, tenant: &TenantName, piece: &[u8]) -> Result<Frame, AllocError>
    ensures { IfOk result (λ frame. frame ≡ part_frame tenant.now piece.now) }
{
    let mut payload = Vec::new(alloc);
    payload.extend_from_slice(b"part\n")?;
    payload.extend_from_slice(piece)?;
    Ok(Frame {
        asker: Asker::Tenant(tenant.copy()),
        payload: ByteString::new(payload),
    })
}

// Writes the frame of a piece.
fn write_part<W: Sink>(
    writer: &mut W,
    alloc: Global,
    room: &mut Vec<u8>,
    tenant: &TenantName,
    piece: &[u8],
) -> Result<(), NotKept>
    ensures bytes { OnOk result (Appends (W.contents writer.old) (W.contents writer.new) (frame_bytes (part_frame tenant.now piece.now))) }
    ensures rest { W.rest writer.new ≡ W.rest writer.old }
{
    let Ok(frame) = part(alloc, tenant, piece) else {
        return Err(NotKept);
    };
    write_whole(writer, room, &frame)
}

// Writes the frames of an upload.
fn write_upload<W: Sink>(
    writer: &mut W,
    alloc: Global,
    room: &mut Vec<u8>,
    tenant: &TenantName,
    bytes: &[u8],
) -> Result<(), NotKept>
    ensures sent { OnOk result ((frames : List FrameValue) × ArePartFrames tenant.now bytes.now frames
        × Appends (W.contents writer.old) (W.contents writer.new) (flat_map frame_bytes frames)) }
    ensures rest { W.rest writer.new ≡ W.rest writer.old }
{
    // Called for its clause: the bytes are a tenant's name.
    let _name = tenant.as_bytes();
    let mut at = bytes.len().min(MOST);
    write_part(writer, alloc, room, tenant, &bytes[..at])?;
    while at < bytes.len() {
        let next = (bytes.len() - at).min(MOST);
        write_part(writer, alloc, room, tenant, &bytes[at..at + next])?;
        at += next;
    }
    Ok(())
}

// Writes the frames of a tenant's open upload, and returns how many bytes the upload has. Writes nothing
// if no upload is open.
fn write_upload_of<S: LooseFiles, W: Sink>(
    host: &mut Host<S>,
    alloc: Global,
    writer: &mut W,
    room: &mut Vec<u8>,
    tenant: &TenantName,
) -> Result<u64, NotKept>
    ensures sent { Trusted host.old → OnOk result ((frames : List FrameValue) × Reopens (opened tenant.now (upload_at (world_of host.old) tenant.now)) frames × All IsFrame frames
        × Appends (W.contents writer.old) (W.contents writer.new) (flat_map frame_bytes frames)) }
    ensures kept { Trusted host.old → world_of host.new ≡ world_of host.old }
    ensures trusted { Trusted host.old → Trusted host.new }
    ensures shape { (name : List ℕ) → SameShape name (world_of host.old) (world_of host.new) }
    ensures rest { W.rest writer.new ≡ W.rest writer.old }
{
    let Ok(found) = host.upload(alloc, tenant) else {
        return Err(NotKept);
    };
    let Some(bytes) = found else {
        return Ok(0);
    };
    match write_upload(writer, alloc, room, tenant, bytes.as_slice()) {
        Ok(()) => Ok(bytes.len() as u64),
        Err(fault) => Err(fault),
    }
}

/// Writes frames that reopen the host's open uploads, and returns how many bytes the uploads have.
pub fn write_uploads<S: LooseFiles, W: Sink>(
    host: &mut Host<S>,
    alloc: Global,
    writer: &mut W,
) -> Result<u64, NotKept>
    ensures sent { Trusted host.old → IfOk result (λ _. (frames : List FrameValue) × Reopens (uploads_of (world_of host.old)) frames × All IsFrame frames
        × Appends (W.contents writer.old) (W.contents writer.new) (flat_map frame_bytes frames)) }
    ensures kept { Trusted host.old → world_of host.new ≡ world_of host.old }
    ensures trusted { Trusted host.old → Trusted host.new }
    ensures rest { W.rest writer.new ≡ W.rest writer.old }

    // Over any store.
    ensures shape { (tenant : List ℕ) → SameShape tenant (world_of host.old) (world_of host.new) }
{
    let Ok(names) = host.uploading(alloc) else {
        return Err(NotKept);
    };
    let mut room = Vec::new(alloc);
    let mut total = 0u64;
    for name in names {
        let bytes = write_upload_of(host, alloc, writer, &mut room, &name)?;
        total = total.saturating_add(bytes);
    }
    Ok(total)
}
