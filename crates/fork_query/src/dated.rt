use git_name::Name;
use std::cmp::Reverse;

// A commit and its committer time, in seconds since 1970. Newer commits come first. Commits of the same time are in
// ascending order of their names.
#[derive(Clone, Copy, PartialEq, Eq, PartialOrd, Ord)]
pub(crate) struct Dated {
    pub(crate) seconds: Reverse<u64>,
    pub(crate) name: Name,
}
