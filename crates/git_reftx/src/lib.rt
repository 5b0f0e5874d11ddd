//! Repositories, each with its HEAD and its references, and transactions of these, as in git-update-ref(1):
//! all commands are carried out, or none. Every check but the last two is made on the references before. A
//! refusal leaves them as they were.
#![tactic(auto)]

mod above;
mod branch;
mod carrying;
mod command;
mod command_line;
mod conflict;
mod fault;
mod judging;
mod known;
mod line;
mod order;
mod reading;
mod ref_map;
mod ref_word;
mod refs;
mod repeated;
mod repository;
mod transact;

pub use crate::branch::Branch;
pub use crate::command::{Change, Command, Demand};
pub use crate::fault::{ApplyError, CommandFault, PushRefError, ReadError, TxRefusal};
pub use crate::known::Known;
pub use crate::line::{Line, first_line};
pub use crate::reading::{MAX_COMMANDS, first_command, read_commands};
pub use crate::ref_word::RefWord;
pub use crate::refs::Refs;
pub use crate::repository::Repository;
pub use crate::transact::MAX_REFERENCES;
