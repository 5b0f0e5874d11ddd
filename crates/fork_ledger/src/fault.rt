use thiserror::Error;

/// Why a call of a vault failed.
#[derive(Clone, Copy, Debug, PartialEq, Eq, Error)]
pub enum VaultFault {
    #[error("the store failed")]
    Store,
    #[error("the stored object is lost or damaged")]
    Damaged,
    #[error("no memory")]
    Memory,
    #[error("two different objects of one name met")]
    Collision,
}
