//! What `forkhost` does for the words that it is given, over any reader and writers: it names objects,
//! serves a session or connections to a socket, and checks, upgrades, repacks or changes the
//! folder that keeps a host.
//! The contract of `program` says how each command ends, and what it has written by then.
#![tactic(auto)]

mod accepting;
mod asked;
mod at_once;
mod cause;
mod check;
mod content;
mod deadlines;
mod deadlines_at_once;
mod draft;
mod ending;
mod entry;
mod fault;
mod first_tenants;
mod folder_rights;
mod hash_object;
mod hosts;
mod keep;
mod kept_state;
mod laws;
mod log_reference;
mod noting_reader;
mod objects;
mod one_after_another;
mod open_connections;
mod pause;
mod peer;
mod repack;
mod replaying;
mod reserving;
mod restored;
mod restoring;
mod run;
mod saving;
mod send;
mod serve;
mod settling;
mod socket;
mod stall;
mod state_device;
mod stream_ends;
mod telling;
mod tenants;
mod trial;
mod upgrade;
mod upload_log;
mod watching;

pub use crate::cause::tell_cause;
pub use crate::entry::{Untold, program};
pub use crate::folder_rights::tell_rights;
pub use crate::laws::{a_serving_is_one_run, a_start_repeats_what_was_synced};
