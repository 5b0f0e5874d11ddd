//! Files of objects in a folder, one for each object. What a loss of power leaves of them is proved over the calls of an
//! honest device.
#![tactic(auto)]

mod folder;
mod laws;
mod listing;
mod making;
mod max_file;
mod object_file;
mod opening;
mod place;
mod rewriting;
mod swept;
mod syncing;
mod unsynced;

pub use crate::folder::Folder;
pub use crate::laws::{
    what_is_there_survives, what_lasts_goes_on, what_lasts_is_left, what_was_synced_lasts,
};
