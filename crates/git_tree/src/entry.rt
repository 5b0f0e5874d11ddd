use crate::mode::Mode;
use git_name::Name;

/// An entry of a tree.
#[derive(Clone, Copy, Debug, PartialEq, Eq)]
pub struct TreeEntry<'a> {
    /// What the entry is.
    pub mode: Mode,
    /// Its file name, borrowed from the tree's bytes.
    pub file_name: &'a [u8],
    /// The name of its object.
    pub name: Name,
}
