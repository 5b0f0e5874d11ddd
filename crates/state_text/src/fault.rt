use thiserror::Error;

/// Why something was not appended.
#[derive(Clone, Copy, Debug, PartialEq, Eq, Error)]
pub enum AddError {
    #[error("the name does not sort after the others")]
    OutOfOrder,
    #[error("there are as many as allowed")]
    TooMany,
    #[error("no memory")]
    Memory,
}

/// Why an offer was not appended.
#[derive(Clone, Copy, Debug, PartialEq, Eq, Error)]
pub enum OfferError {
    #[error("the receiver is the giver")]
    ToGiver,
    #[error("the offer does not sort after the others")]
    OutOfOrder,
    #[error("there are as many offers as allowed")]
    TooMany,
    #[error("no memory")]
    Memory,
}

/// Why no states were read.
#[derive(Clone, Copy, Debug, PartialEq, Eq, Error)]
pub enum StateFault {
    /// The text is not a state text; this is its first wrong line, counted from 1.
    #[error("line {0} is malformed")]
    Line(u64),
    /// The reader failed.
    #[error("the text could not be read")]
    Read,
    #[error("no memory")]
    Memory,
}
