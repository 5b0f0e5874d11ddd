//! The state of a host, saved as a text and loaded again over a store. A loaded host shows what the
//! text describes. A text that describes objects that the store does not hold is refused.
#![tactic(auto)]

mod changing;
mod fault;
mod laws;
mod limiting;
mod loading;
mod saving;

pub use crate::fault::LoadFault;
pub use crate::laws::what_is_saved_is_loaded;
pub use crate::loading::load;
pub use crate::saving::{save, save_limited, save_without};
