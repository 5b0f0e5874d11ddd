//! What a tenant sees of a host, which replies it gets, and the laws of runs: definitions, with no code to run. A run
//! of a host is private: whatever others do in between, a tenant gets the replies that a host of its own would give.
#![tactic(auto)]

mod disclosure;
mod host_requests;
mod isolation;
mod limits;
mod missing;
mod provenance;
mod runs;
mod transfer;
mod uploads;
mod views;

pub use crate::disclosure::{
    a_new_tenant_changes_no_offer, a_step_offers_what_it_deals_with,
    an_offer_that_was_not_made_is_no_offer, forking_an_offer_tells_its_giver_nothing,
    offers_are_changed_by_two_requests, offers_are_met_by_two_requests,
    offers_disclose_what_they_hold, what_happens_settles_what_is_met,
};
pub use crate::host_requests::{bad_host_requests_are_refused, host_requests_leave_the_world};
pub use crate::isolation::{a_run_is_private, two_runs_agree};
pub use crate::limits::{MAX_ITEMS, MAX_OFFERS, MAX_REPOSITORIES, MAX_TENANTS};
pub use crate::missing::{what_is_lacking_is_missing, what_is_not_held_is_missing};
pub use crate::provenance::{
    an_upload_is_all_its_parts, what_is_seen_was_seen_or_sent, what_runs_show_was_seen_or_sent,
    what_was_sent_was_seen,
};
pub use crate::runs::a_run_is_settled_by_its_replies;
pub use crate::transfer::{
    answers_keep_views_sendable, excluded_objects_are_enough, what_is_fetched_can_be_pushed,
    what_is_fetched_is_a_stream, what_is_fetched_is_enough, what_is_fetched_is_taken,
};
pub use crate::uploads::uploads_are_their_readings_and_objects;
pub use crate::views::{refusals_leave_the_view, runs_keep_worlds_sound};
