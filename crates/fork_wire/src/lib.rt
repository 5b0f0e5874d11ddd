//! Sessions. A session receives requests as frames, and sends one reply to each, also as a frame. It ends
//! at the end of the input, or at bytes that are not a frame. The replies sent explain how the host went
//! from one world to the next.
#![tactic(auto)]

mod again;
mod at_once;
mod ended_uploads;
mod fault;
mod isolation;
mod journal;
mod kept;
mod laws;
mod reopening;
mod session;
mod upload_log;

pub use crate::again::{AgainFault, serve_again};
pub use crate::at_once::serve_round;
pub use crate::ended_uploads::{EndedUploads, reopen_uploads};
pub use crate::fault::SessionFault;
pub use crate::isolation::two_sessions_agree;
pub use crate::journal::{Journal, NoJournal, NotKept, Written};
pub use crate::laws::{
    a_session_in_two_halves_is_the_whole, a_session_is_served_again, all_uploads_open_again,
    copied_frames_open_uploads_again, parts_open_an_upload_again, rounds_are_one_serving,
    what_is_kept_is_enough, what_is_not_kept_changed_nothing,
};
pub use crate::reopening::write_uploads;
pub use crate::session::{serve, serve_kept};
pub use crate::upload_log::copy_uploads;
