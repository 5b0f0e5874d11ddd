/// The most tenants of a host (own).
pub const MAX_TENANTS: usize = 64;

/// The most repositories of a tenant (own).
pub const MAX_REPOSITORIES: usize = 256;

/// The most offers that a tenant has made at one time (own).
pub const MAX_OFFERS: usize = 256;

/// The most items of a query (own).
pub const MAX_ITEMS: usize = 64;
