/// The longest file of an object: 8 MiB of content and its header. A longer file, or one that is not regular,
/// is read as an empty file, which is never an object's.
pub(crate) const MAX_FILE: u64 = 8_388_608 + 15;
