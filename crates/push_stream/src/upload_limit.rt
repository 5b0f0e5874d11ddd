/// The greatest length of an upload in parts, in bytes (own).
pub const MAX_UPLOAD: usize = 33_554_432;
