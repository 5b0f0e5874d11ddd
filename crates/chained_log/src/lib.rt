//! A log of pieces, each between two sums that depend on all bytes before them. What was written is read back
//! piece by piece, and altered bytes are distinguished from an end that is cut off.
#![tactic(auto)]

mod fault;
mod file_writer;
mod format;
mod laws;
mod next;
mod reader;
mod sums;
mod sync;
mod writer;

pub use crate::fault::Ended;
pub use crate::file_writer::FileWriter;
pub use crate::laws::{
    contents_are_what_was_written, known_contents_are_whole, what_is_synced_stays,
    what_is_written_is_found,
};
pub use crate::next::{Found, next_piece};
pub use crate::reader::LogReader;
pub use crate::sync::SyncData;
pub use crate::writer::LogWriter;
