//! Frames: reads requests one at a time from any reader, and writes replies to any writer. The same
//! bytes are always the same requests, and no more is read than the next frame has.
#![tactic(auto)]

mod asker;
mod fault;
mod frame;
mod laws;
mod line;
mod payload;
mod put;
mod reader;
mod reply;
mod session_end;
mod spelled;
mod text;

pub use crate::asker::Asker;
pub use crate::fault::{FrameFault, ReplyFault};
pub use crate::frame::{Frame, Next, next_frame};
pub use crate::laws::{
    a_front_of_frames_is_read, same_bytes_are_same_replies, same_bytes_are_same_requests,
};
pub use crate::line::Line;
pub use crate::reader::read_some;
pub use crate::reply::{send_bad_frame, send_bytes, send_reply};
pub use crate::session_end::Ended;
pub use crate::spelled::write_frame;
