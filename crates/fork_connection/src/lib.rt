//! Many connections at once, in one thread. Each keeps the bytes that are not a whole frame yet and the one
//! reply that its peer has not taken yet, and has one turn in a round. The frames of a connection are those
//! of its peer's bytes, in whatever pieces these come, and whatever is done at other connections in between.
#![tactic(auto)]

mod answering;
mod connection;
mod inbox;
mod laws;
mod outbox;
mod party;
mod piece;
mod rounds;

pub use crate::answering::{Answering, Lost};
pub use crate::laws::{cuts_change_nothing, each_is_heard};
pub use crate::party::Party;
pub use crate::rounds::round;
