use git_name::{Kind, Name};

/// A name in an object, and the kind that the named object must have.
#[derive(Clone, Copy, Debug, PartialEq, Eq)]
pub struct Link {
    /// The name of the object linked to.
    pub name: Name,
    /// The kind that it must have.
    pub kind: Kind,
}
