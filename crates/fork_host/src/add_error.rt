use thiserror::Error;

/// Why a tenant was not added.
#[derive(Clone, Copy, Debug, PartialEq, Eq, Error)]
pub enum AddError {
    #[error("the tenant exists already")]
    There,
    #[error("there are 64 tenants already")]
    TooMany,
    #[error("the limit is above 1,099,511,627,776 bytes")]
    Limit,
    #[error("no memory")]
    Memory,
}
