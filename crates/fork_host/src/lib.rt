//! A host of many tenants over one vault. Each request is answered only from the asking tenant's repositories and
//! private objects. A tenant gets the replies of a private host that holds it alone, whatever others do in between.
#![tactic(auto)]

mod accounts;
mod add_error;
mod both;
mod fork_offer;
mod host;
mod items;
mod keeping;
mod later;
mod laws;
mod made;
mod meeting;
mod open_error;
mod opening;
mod own;
mod pruning;
mod reading;
mod recalling;
mod replies;
mod repositories;
mod restore_error;
mod restoring;
mod seeing;
mod staging;
mod step;
mod taking;
mod targets;
mod tenant;
mod tending;
mod uploading;
mod vault_fault;
mod visible;

pub use crate::add_error::AddError;
pub use crate::host::{Host, NoMemory};
pub use crate::laws::{
    a_census_tells_what_stood, a_collection_leaves_what_is_held, a_run_is_its_steps,
    faults_of_a_run_have_a_cause,
};
pub use crate::open_error::OpenError;
pub use crate::restore_error::RestoreError;
pub use crate::step::HostStep;
