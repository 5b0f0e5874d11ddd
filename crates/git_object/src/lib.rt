//! Git's objects: tags, objects of each kind, and the links of an object. An object is read only from
//! its one spelling, a fault is that of the first faulty line, and the links are those that the
//! definition lists, in its order.
#![tactic(auto)]

mod fault;
mod header;
mod laws;
mod link;
mod linking;
mod object;
mod parts;
mod tag;
mod walk;

pub use crate::fault::TagFault;
pub use crate::header::{TagHeader, TagHeaders};
pub use crate::laws::{
    one_object, one_tag, one_tag_fault, tests_find_the_object, tests_find_the_tag,
};
pub use crate::link::Link;
pub use crate::linking::links;
pub use crate::object::{Object, ObjectFault};
pub use crate::tag::Tag;
pub use crate::walk::Links;
