//! Queries about a tenant's objects and a repository. Each answer is equal to its definition, over any `Source`.
#![tactic(auto)]

mod bases;
mod dated;
mod fetching;
mod followed;
mod heads;
mod items;
mod laws;
mod lent;
mod name_lines;
mod objects;
mod peeling;
mod query_error;
mod references;
mod revisions;
mod sides;
mod trees;
mod want;

pub use crate::bases::merge_base;
pub use crate::fetching::fetch;
pub use crate::heads::head;
pub use crate::laws::peeled_is_led_to;
pub use crate::objects::cat_file;
pub use crate::query_error::QueryError;
pub use crate::references::for_each_ref;
pub use crate::revisions::rev_list;
pub use crate::trees::ls_tree;
