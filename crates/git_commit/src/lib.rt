//! Commits: a tree, parents, an author, a committer, further headers and a message. A commit is read
//! only from its one spelling, a fault is that of the first faulty line, and what is written is read as
//! the same parts.
#![tactic(auto)]

mod commit;
mod fault;
mod front;
mod header;
mod laws;
mod parents;
mod writing;

pub use crate::commit::Commit;
pub use crate::fault::CommitFault;
pub use crate::front::first_links;
pub use crate::header::{Header, Headers};
pub use crate::laws::{one_fault, one_value, tests_find_the_commit};
pub use crate::parents::Parents;
pub use crate::writing::write;
pub use git_header::{Continuation, Ident, Sign};
