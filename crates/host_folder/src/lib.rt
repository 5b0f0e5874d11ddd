//! What a host's folder has beside the files of objects: the state, the journals, and room that is kept for these. And what
//! both stores of objects in such a folder need: how it is made, and how faults of its device are counted.
#![tactic(auto)]

mod appending;
mod failures;
mod gate;
mod journal_clearing;
mod journal_file;
mod journal_line;
mod journal_reading;
mod laws;
mod making;
mod other_journals;
mod part;
mod path;
mod reserve;
mod roomy_device;
mod state_place;
mod watch;

pub use crate::appending::{
    a_file_is_unfailed_until_a_sync_of_it_fails, an_appended_file_keeps_what_was_synced,
    an_appended_file_leaves_a_front_at_each_moment,
};
pub use crate::failures::{answered, of_device};
pub use crate::gate::Gate;
pub use crate::journal_clearing::clear_journals;
pub use crate::journal_file::{
    begin_journal, drop_journal, journal_name, journal_part, journal_path, old_journal_path,
    settle_journal,
};
pub use crate::journal_line::JOURNAL_LINE;
pub use crate::journal_reading::{open_file, open_journal};
pub use crate::laws::{
    a_part_leaves_the_state, a_settled_part_leaves_one_state, a_state_is_replaced_at_once,
    a_synced_state_is_sure, a_tried_part_leaves_the_state, clearing_leaves_other_files,
};
pub use crate::making::{create_folder_with, create_root};
pub use crate::other_journals::has_other_journal;
pub use crate::part::told;
pub use crate::path::inside;
pub use crate::reserve::Reserve;
pub use crate::roomy_device::RoomyDevice;
pub use crate::state_place::{drop_state, place_state, state_part, state_path, sync_state};
pub use crate::watch::Watch;
