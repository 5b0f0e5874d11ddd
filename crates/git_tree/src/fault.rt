use thiserror::Error;

/// Why bytes are not a tree: the fault of the first wrong entry from the left. Within an entry the
/// faults are checked in this order, except that a part that runs past the end is reported where it
/// begins.
#[derive(Clone, Copy, Debug, PartialEq, Eq, Error)]
pub enum TreeFault {
    /// The digits are not those of a mode.
    #[error("the mode is none of the five")]
    Mode,
    /// The file name is one that no entry may have.
    #[error("no entry may have the file name")]
    Name,
    /// The bytes end within the entry.
    #[error("the bytes end within an entry")]
    Truncated,
    /// An earlier entry, next to it or not, has the same file name.
    #[error("an earlier entry has the file name")]
    Repeated,
    /// The key is not above that of the entry before.
    #[error("the entry is out of order")]
    Order,
}
