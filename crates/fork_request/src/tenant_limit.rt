/// The highest limit of a tenant, in bytes of use (own).
pub const MAX_LIMIT: u64 = 1_099_511_627_776;
