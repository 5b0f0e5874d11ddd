ghost use Rattle.fork_host.specs.Restored.{IsStoreOrMemory};

use crate::open_error::OpenError;
use fork_request::TenantName;
use git_name::Name;
use thiserror::Error;

/// Why a host was not restored, in the order in which it is judged.
#[derive(Debug, Drop, PartialEq, Eq, Error)]
pub enum RestoreError {
    #[error("the file of an object that a tenant sees is missing")]
    Lost(Name),
    #[error("the file of an object that a tenant sees is damaged")]
    Damaged(Name),
    #[error("an object or the target of a reference is not sound")]
    Unsound(Name),
    #[error("a tenant sees more than its limit allows")]
    OverLimit(TenantName),
    #[error("the store failed")]
    Store,
    #[error("no memory")]
    Memory,
}

// If no host can be opened over the store, none is restored.
impl From<OpenError> for RestoreError {
    ghost from_gives = { λ _ error. IsStoreOrMemory error };

    fn from(error: OpenError) -> RestoreError {
        match error {
            OpenError::Store => RestoreError::Store,
            OpenError::Memory => RestoreError::Memory,
        }
    }
}
