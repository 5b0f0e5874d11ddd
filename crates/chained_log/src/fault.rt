/// How a log ends.
#[derive(Clone, Copy, Debug, PartialEq, Eq)]
pub enum Ended {
    /// It ends after a whole piece, or is empty.
    Whole,
    /// It is valid up to a piece that is cut off, or up to an altered piece if the last 32 bytes of the log
    /// are zero. A loss of power leaves zeros where what was appended did not reach the disk, and no sum is
    /// zero.
    Cut,
    /// What comes next is neither a piece nor the front of one, and the last 32 bytes of the log are not zero,
    /// or could not be read.
    Altered,
}
