//! Each tenant's own objects, visible and staged, over one store that keeps each object once. A call for one tenant
//! neither reads nor changes the objects of another. A call that fails changes no tenant's objects. A sweep removes
//! only what nobody holds, and a whole round removes all of it.
#![tactic(auto)]

mod arrival;
mod checking;
mod fault;
mod harms;
mod held;
mod laws;
mod leading;
mod reading;
mod recalling;
mod receiving;
mod staging;
mod survey;
mod sweep_step;
mod sweeping;
mod vault;

pub use crate::fault::VaultFault;
pub use crate::harms::Harms;
pub use crate::held::Held;
pub use crate::laws::{one_list_of_harms, sharp_slices};
pub use crate::recalling::RecallFault;
pub use crate::survey::Survey;
pub use crate::vault::Vault;
