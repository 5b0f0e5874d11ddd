/// The use of an object in addition to its content, in bytes (own).
pub const OBJECT_USE: u64 = 64;
