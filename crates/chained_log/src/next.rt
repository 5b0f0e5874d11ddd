ghost use Rattle.std.specs.Prelude.{◌≡◌};
ghost use Rattle.chained_log.specs.Next.{IsNextOf};

use crate::sums::{LENGTH, SUM, agrees, follows, head_of, length_at};

/// What comes next in a log.
#[derive(Clone, Copy, Debug, PartialEq, Eq)]
pub enum Found {
    /// A whole and valid piece, with this many bytes of contents. They begin at byte 36, counted from 0.
    Piece(usize),
    /// The front of a piece, valid as far as it goes, or nothing.
    Cut,
    /// Neither.
    Altered,
}

/// What `left` begins with, after the sum `before`. It allocates nothing.
pub fn next_piece(before: &[u8; 32], left: &[u8]) -> Found
    ensures { IsNextOf before.now left.now result }
{
    let len = length_at(left);
    if left.len() < LENGTH {
        return Found::Cut;
    }
    let head = head_of(before, len);
    let (_, rest) = left.split_at(LENGTH);
    if !agrees(rest, &head) {
        return Found::Altered;
    }
    if rest.len() < SUM {
        return Found::Cut;
    }
    let (_, rest) = rest.split_at(SUM);
    let len = len as usize;
    if rest.len() < len {
        return Found::Cut;
    }
    let (piece, rest) = rest.split_at(len);
    if !follows(rest, &head, piece) {
        return Found::Altered;
    }
    if rest.len() < SUM {
        return Found::Cut;
    }
    Found::Piece(len)
}
