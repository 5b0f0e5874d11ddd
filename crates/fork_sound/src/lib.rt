//! Whether the objects that a tenant sees are sound: each is valid in the grammar of its kind, and each link leads to
//! an object that the tenant sees and that has the kind that the link requires. Reports the first object that is not
//! sound, from what is known of each object once it was read.
#![tactic(auto)]

mod links;
mod objects;
mod reading;
mod readings;

pub use crate::objects::first_bad;
pub use crate::reading::Reading;
pub use crate::readings::Readings;
