ghost use Rattle.std.specs.Prelude.{◌≡◌, ◌<◌, ◌^◌, ◌++◌, IfOk, OnOk, length};
ghost use Rattle.std.specs.Io.KnownBytes.{Appends};
ghost use Rattle.chained_log.specs.Log.{Fits, OfDigest, piece_bytes, sum_after};

use crate::sums::{head_of, sum_of_piece};
use devices::Sink;
use std::io;

/// Appends a piece after this sum, in one call, and returns the sum after it.
pub(crate) fn put_piece<W: Sink>(
    writer: &mut W,
    room: &mut Vec<u8>,
    before: &[u8; 32],
    piece: &[u8],
) -> io::Result<[u8; 32]>
    requires { Fits piece.now }
    ensures bytes { OnOk result (Appends (W.contents writer.old) (W.contents writer.new) (piece_bytes OfDigest before.now piece.now)) }
    ensures rest { W.rest writer.new ≡ W.rest writer.old }
    ensures sum { IfOk result (λ sum. sum ≡ sum_after OfDigest before.now piece.now) }
{
    let len = piece.len() as u32;
    let head = head_of(before, len);
    let sum = sum_of_piece(&head, piece);
    room.clear();
    room.extend_from_slice(len.to_be_bytes().as_slice())?;
    room.extend_from_slice(head.as_slice())?;
    room.extend_from_slice(piece)?;
    room.extend_from_slice(sum.as_slice())?;
    writer.append(room.as_slice())?;
    Ok(sum)
}
