//! The command line of `forkhost`, read by `clap`. A command is returned only if `clap`'s meaning of
//! the words asks for it. Words are refused only if they ask for no command, or if memory runs out.
#![tactic(auto)]

mod command;
mod error;
mod grant;
mod grants;
mod hosting;
mod laws;
mod table;

pub use crate::command::{Command, command_of};
pub use crate::error::CommandError;
pub use crate::grant::Grant;
pub use crate::hosting::Hosting;
pub use crate::laws::what_is_asked_is_not_refused;
