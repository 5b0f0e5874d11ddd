//! Names of references: the rules of git-check-ref-format(1) and two more (own), and the namespaces of
//! gitnamespaces(7). A bad name is reported by the first rule that it breaks, and a `RefName` breaks
//! none.
#![tactic(auto)]

mod check;
mod marks;
mod name;
mod namespace;
mod rule;

pub use crate::name::{MAX_REF_NAME, RefName};
pub use crate::namespace::expand;
pub use crate::rule::Rule;
