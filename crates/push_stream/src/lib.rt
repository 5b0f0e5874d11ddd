//! Streams of pushes: commands of a transaction, then objects, each a record as `git cat-file --batch`
//! prints it. A stream is read exactly, in one body or in pieces: it yields its commands and objects if
//! it is whole and valid, and otherwise the fault of its first wrong item.
#![tactic(auto)]

mod again;
mod body;
mod brief;
mod content_limit;
mod draft;
mod fault;
mod gaining;
mod laws;
mod open_upload;
mod reading;
mod record;
mod sent;
mod step;
mod upload_limit;
mod write;

pub use crate::again::{Again, MAX_HEADER};
pub use crate::body::{Body, read_body};
pub use crate::brief::Brief;
pub use crate::content_limit::{MAX_CONTENT, MAX_REST};
pub use crate::fault::{BodyError, StreamFault};
pub use crate::laws::{
    pieces_join, records_are_read, spelled_streams_are_whole, streams_hold_objects,
    whole_streams_are_spelled,
};
pub use crate::open_upload::OpenUpload;
pub use crate::reading::{briefs_suffice, readings_go_on, rests_are_short};
pub use crate::sent::Sent;
pub use crate::step::Step;
pub use crate::upload_limit::MAX_UPLOAD;
pub use crate::write::{BESIDE, add_record, write_record};
