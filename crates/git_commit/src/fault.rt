use git_header::HeaderFault;

/// Why bytes are not a commit: the fault of the first faulty line.
pub type CommitFault = HeaderFault;
