// The sums of a log: SHA-256 (FIPS 180-4, 6.2), of a piece's contents by their digest.
ghost use Rattle.std.specs.Prelude.{◌≡◌, ◌++◌, ◌↔◌, IsTrue, length, take};
ghost use Rattle.sha2.specs.Sha256.{sha256};
ghost use Rattle.chained_log.specs.Log.{SumKind, OfDigest, digest, head_sum, length_bytes, piece_sum};

use sha2::{Digest, Sha256};
use std::hash::{DefaultHasher, Hasher};

/// How many bytes a piece's length has.
pub(crate) const LENGTH: usize = 4;

/// How many bytes a sum has.
pub(crate) const SUM: usize = 32;

/// How many bytes precede a piece's contents: its length, and the sum of that.
pub(crate) const HEAD: usize = LENGTH + SUM;

/// The most bytes of contents that a written piece has.
pub(crate) const LONGEST: usize = 65_536;

/// How many bytes such a piece has with its head and its last sum.
pub(crate) const ROOM: usize = HEAD + LONGEST + SUM;

/// The sum of these bytes after the sum before them.
pub(crate) fn sum_of(before: &[u8; SUM], bytes: &[u8]) -> [u8; SUM]
    ensures { result ≡ sha256 (before.now ++ bytes.now) }
{
    let mut hasher = Sha256::new();
    hasher.update(before);
    hasher.update(bytes);
    hasher.finalize()
}

// The digest of a piece after the sum of its head: SipHash-1-3, which takes less than a tenth of the time of
// SHA-256. It has to tell only what a device altered.
fn digest_of(head: &[u8; SUM], piece: &[u8]) -> [u8; 8]
    ensures { result ≡ digest head.now piece.now }
{
    let mut hasher = DefaultHasher::new();
    hasher.write(head.as_slice());
    hasher.write(piece);
    hasher.finish().to_be_bytes()
}

/// The sum that a piece is written with, after the sum of its head.
pub(crate) fn sum_of_piece(head: &[u8; SUM], piece: &[u8]) -> [u8; SUM]
    ensures { result ≡ piece_sum OfDigest head.now piece.now }
{
    sum_of(head, digest_of(head, piece).as_slice())
}

/// Whether these bytes agree with a sum of this piece, as far as both go.
pub(crate) fn follows(bytes: &[u8], head: &[u8; SUM], piece: &[u8]) -> bool
    ensures { IsTrue result ↔ ((kind : SumKind) × (take 32 bytes.now ≡ take (length bytes.now) (piece_sum kind head.now piece.now))) }
{
    if agrees(bytes, &sum_of_piece(head, piece)) {
        return true;
    }
    agrees(bytes, &sum_of(head, piece))
}

/// Whether these bytes agree with the sum, as far as both go.
pub(crate) fn agrees(bytes: &[u8], sum: &[u8; SUM]) -> bool
    ensures { IsTrue result ↔ (take 32 bytes.now ≡ take (length bytes.now) sum.now) }
{
    let n = bytes.len().min(SUM);
    same(&bytes[..n], &sum[..n])
}

// Whether the bytes are the same.
fn same(left: &[u8], right: &[u8]) -> bool
    ensures { IsTrue result ↔ (left.now ≡ right.now) }
{
    left == right
}

/// The sum of this length after the sum before it.
pub(crate) fn head_of(before: &[u8; SUM], len: u32) -> [u8; SUM]
    ensures { result ≡ head_sum before.now len }
{
    sum_of(before, len.to_be_bytes().as_slice())
}

/// The length whose four bytes agree with these, as far as both go.
pub(crate) fn length_at(bytes: &[u8]) -> u32
    ensures { take 4 bytes.now ≡ take (length bytes.now) (length_bytes result) }
{
    let mut word = [0; LENGTH];
    let n = bytes.len().min(LENGTH);
    word[..n].copy_from_slice(&bytes[..n]);
    number_of(word)
}

// The length with these four bytes.
fn number_of(word: [u8; LENGTH]) -> u32
    ensures { length_bytes result ≡ word }
{
    u32::from_be_bytes(word)
}
