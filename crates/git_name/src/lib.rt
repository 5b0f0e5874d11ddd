//! The names of Git's objects in the SHA-256 format, how they are found in a table near those that were found last, and
//! the texts of names and numbers. A sealed object's name is always the hash of its header and content. A text is read
//! only if it is the one spelling of its value.
#![tactic(auto)]

mod digits;
mod kind;
mod map_hashing;
mod name;
mod nearby;
mod number;
mod order;
mod sealed;
mod text;

pub use crate::kind::Kind;
pub use crate::map_hashing::Hashing;
pub use crate::name::{Name, name_of};
pub use crate::nearby::Nearby;
pub use crate::number::decimal;
pub use crate::sealed::{Sealed, seal, seal_as};
pub use crate::text::{first_word, split_once};
