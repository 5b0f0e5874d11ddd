//! Maps from texts to names of objects, in the order of the texts, in chunks that copies of a map share until
//! one of them changes. A change rebuilds one chunk and the list of the chunks, unless it appends to what
//! nothing else shares. It leaves all other copies as they were, and this one too if memory runs out.
#![tactic(auto)]

mod building;
mod chunk;
mod chunks;
mod entry;
mod iter;
mod map;
mod search;
mod spot;

pub use crate::iter::Iter;
pub use crate::map::SharedMap;
