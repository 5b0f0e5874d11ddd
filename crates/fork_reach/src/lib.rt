//! Sources of objects by their names, and the objects reachable in them. A `Source` behaves like a finite map, and
//! knows the kind of an object without reading its bytes. A walk finds all objects that links, or parents, lead to,
//! and no others.
#![tactic(auto)]

mod along;
mod history;
mod laws;
mod names;
mod noted;
mod noting;
mod order;
mod parent_names;
mod parents;
mod places;
mod queuing;
mod reaching;
mod recording;
mod source;
mod time;
mod usage;
mod walk;

pub use crate::along::link_names;
pub use crate::history::History;
pub use crate::laws::reached_is_led_to;
pub use crate::noted::Noted;
pub use crate::order::ascending;
pub use crate::reaching::{ancestors, reach, reach_between};
pub use crate::recording::read_history;
pub use crate::source::{Source, SourceFault};
pub use crate::time::time_of;
pub use crate::usage::OBJECT_USE;
