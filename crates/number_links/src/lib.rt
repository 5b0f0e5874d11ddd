//! The known links from numbers to numbers, and walks along them. A walk reads no object, and visits only numbers
//! that are allowed.
//! `NumberSet` has one bit for each number, in pages that are allocated only for numbers that are to be added.
#![tactic(auto)]

mod along;
mod climbing;
mod gathering;
mod generation_page;
mod generations;
mod graph;
mod ground;
mod history;
mod keeping;
mod kept;
mod keys;
mod links;
mod lists;
mod marking;
mod merge_bases;
mod noting;
mod number_set;
mod packing;
mod page;
mod records;
mod resting;
mod slot;
mod taking;
mod times;
mod waiting;
mod walking;
mod words;

pub use crate::along::Along;
pub use crate::graph::Graph;
pub use crate::links::Links;
pub use crate::number_set::NumberSet;
pub use crate::resting::Resting;
