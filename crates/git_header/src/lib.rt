//! What the headers of commits and tags share: lines, the names and idents in them, further headers and
//! the message after them. A value is read only from its one spelling, and a fault is that of the first
//! faulty line.
#![tactic(auto)]

mod continuation;
mod fault;
mod header;
mod headers;
mod ident;
mod kind;
mod line;
mod more;
mod value;

pub use crate::continuation::Continuation;
pub use crate::fault::HeaderFault;
pub use crate::header::Header;
pub use crate::headers::Headers;
pub use crate::ident::{Ident, Sign};
pub use crate::kind::{COMMIT, TAG};
pub use crate::line::{after_word, take_value};
pub use crate::value::{take_ident, take_name};
