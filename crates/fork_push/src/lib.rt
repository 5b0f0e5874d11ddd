//! The verdict on a push: whether its links lead to known objects, its transaction, and the limit on
//! what the objects may use. The first reason against a push decides, and judging it changes nothing.
#![tactic(auto)]

mod both_kinds;
mod judging;
mod limit;
mod linking;
mod refusal;
mod sent;
mod sides;
mod verdict;

pub use crate::judging::judge;
pub use crate::refusal::PushRefusal;
pub use crate::sides::Sides;
pub use crate::verdict::Verdict;
