use fork_request::TenantName;
use git_name::Name;

/// Why no host was loaded, in the order in which the faults are checked.
#[derive(Debug, Drop, PartialEq, Eq)]
pub enum LoadFault {
    /// The first line, counted from 1, at which the text is not a state text.
    Line(u64),
    /// The text could not be read.
    Read,
    /// A tenant sees the object of this name, but the store has no file for it.
    Lost(Name),
    /// The file under this name is damaged.
    Damaged(Name),
    /// The object breaks the grammar of its kind. Or it links to an object that its tenant does not see or
    /// that has another kind. Or a reference points at it and its tenant does not see it. Or a branch points
    /// at it and it is not a commit.
    Unsound(Name),
    /// The objects that the tenant sees use more than its limit.
    OverLimit(TenantName),
    /// The store failed.
    Store,
    /// Memory ran out.
    Memory,
}
