//! Files by their paths, as a device has them. Every call of an honest device shows and changes the files as its
//! clauses say, and they determine what a loss of power may leave.
#![tactic(auto)]

mod bytes_left;
mod device;
mod fate;
mod file_reader;
mod file_sink;
mod kept;
mod laws;
mod left;
mod lent;
mod loss;
mod memory;
mod note;
mod opened;
mod real;
mod seen;
mod sink;
mod std_files;
mod text;
mod tree;

pub use crate::device::{Device, DeviceFault};
pub use crate::fate::Fate;
pub use crate::file_reader::FileReader;
pub use crate::file_sink::FileSink;
pub use crate::laws::{
    a_dropped_part_leaves_other_files, a_part_leaves_other_files, a_part_takes_its_place_at_once,
    no_fates_lose_nothing, what_fates_choose_may_be_left,
};
pub use crate::memory::Memory;
pub use crate::real::Real;
pub use crate::sink::Sink;
pub use crate::std_files::{
    create_file, create_folder, create_folders, found, read_all, readable, regular, sync_folder,
};
