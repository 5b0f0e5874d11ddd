//! Files of objects behind one another in segments, which are few files of a device, with an index in memory.
//! A store of segments is as honest as its device, and shows what the device has at the places of its index.
#![tactic(auto)]

mod additions;
mod calls;
mod compaction;
mod copying;
mod folder;
mod found;
mod index;
mod laws;
mod layout;
mod layout_change;
mod log;
mod next_segment;
mod place;
mod reading;
mod record;
mod segments;
mod storing;
mod survey;
mod syncs;
#[cfg(test)]
mod tests;
mod title;

pub use crate::copying::copy_files;
pub use crate::laws::{one_opening, one_record, what_lasts_is_left};
pub use crate::layout::{Layout, layout_of};
pub use crate::layout_change::{begin_repack, clear_repack, settle_repack};
pub use crate::segments::Segments;
