//! A store of objects with a cache of what was read last, so that an object that many ask for is read and hashed
//! once. It knows of no tenant: the layer above decides who may read an object.
#![tactic(auto)]

mod cached_store;
mod read_cache;

pub use crate::cached_store::CachedStore;
pub use crate::read_cache::{LARGEST, MOST, ReadCache};
