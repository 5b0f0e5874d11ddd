//! What outlives a host's process, as a value and as a text: the tenants with their limits, their
//! repositories, the names of the objects that they see, and the offers that they have made. Each value
//! is written as one text, of version 2. What is read has this spelling or that of version 1; any other
//! text is refused with the number of its first wrong line.
#![tactic(auto)]

mod fault;
mod file;
mod last;
mod laws;
mod line_fault;
mod lines;
mod offer;
mod order;
mod parts;
mod place;
mod reading;
mod sharing;
mod states;
mod taking;
mod tenant_state;
mod version;
mod waiting;
mod writing;

pub use crate::fault::{AddError, OfferError, StateFault};
pub use crate::file::write_file;
pub use crate::laws::{one_value, one_wrong_line};
pub use crate::offer::Offer;
pub use crate::reading::read;
pub use crate::states::States;
pub use crate::tenant_state::TenantState;
pub use crate::version::Version;
pub use crate::waiting::Spelled;
pub use crate::writing::write;
