use thiserror::Error;

/// Why a host was not opened over a store.
#[derive(Clone, Copy, Debug, PartialEq, Eq, Error)]
pub enum OpenError {
    #[error("the store failed")]
    Store,
    #[error("no memory")]
    Memory,
}
