//! One table of objects for all tenants. Each stored or held name has a row with a fixed number. What a tenant sees
//! and what it has staged are two sets of these numbers. A name's count of holders is the number of ledgers that have
//! a word for it. Contracts speak of names, words and places, and of no numbers.
#![tactic(auto)]

mod bases;
mod coming;
mod describing;
mod entry;
mod holdings;
mod leaving;
mod ledger;
mod ledgers;
mod linking;
mod listing;
mod name_set;
mod numbers;
mod row;
mod rows;
mod settling;
mod stage_fault;
mod staging;
mod table;
mod word;

pub use crate::entry::Entry;
pub use crate::holdings::Holdings;
pub use crate::name_set::NameSet;
pub use crate::stage_fault::StageFault;
pub use crate::word::{Standing, Word};
