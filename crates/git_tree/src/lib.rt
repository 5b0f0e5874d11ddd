//! Git's trees: rows of entries, each a mode, a file name and the name of an object. Bytes are read if
//! and only if they are the one spelling of valid entries, in linear time and without allocating; a
//! fault is that of the first wrong entry; a builder writes the same bytes.
#![tactic(auto)]

mod builder;
mod entry;
mod fault;
mod file_name;
mod first;
mod fronts;
mod laws;
mod mode;
mod order;
mod place;
mod reading;
mod row;
mod tree;

pub use crate::builder::{PushError, TreeBuilder};
pub use crate::entry::TreeEntry;
pub use crate::fault::TreeFault;
pub use crate::first::first_entry;
pub use crate::laws::{
    one_fault_at_most, one_list_of_entries, one_push_fault_at_most, tests_find_the_tree,
};
pub use crate::mode::Mode;
pub use crate::row::Entries;
pub use crate::tree::entries;
