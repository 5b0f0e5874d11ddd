//! Files of objects by their names: the trait `LooseFiles`, and such a store in memory. A checked read returns an object only
//! if its whole file is under its name. A store reports a failure of its device if and only if it counts one more.
#![tactic(auto)]

mod checked;
mod either_store;
mod failures;
mod files;
mod fused;
mod laws;
mod memory;
mod memory_file;
mod stored;

pub use crate::checked::{StoreFault, read_checked};
pub use crate::files::{FileFault, LooseFiles};
pub use crate::fused::{Call, Fuse, Fused};
pub use crate::laws::one_object;
pub use crate::memory::Memory;
pub use crate::stored::{content_of, file_of};
