/// The greatest length of an object's content, in bytes, that a host takes (own).
pub const MAX_CONTENT: usize = 8_388_608;

/// The greatest length of a stream's unfinished rest in bytes (own): a record's line of 79 bytes, its LF, and
/// a content.
pub const MAX_REST: usize = MAX_CONTENT + 80;
