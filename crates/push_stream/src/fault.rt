use git_name::Name;
use thiserror::Error;

/// Why a stream is not valid: the fault of its first wrong item. A name is the one in the record's line.
#[derive(Clone, Copy, Debug, PartialEq, Eq, Error)]
pub enum StreamFault {
    #[error("the item is malformed")]
    Syntax,
    #[error("there are more than 256 commands")]
    TooMany,
    #[error("a record says that its content is too long")]
    TooLarge(Name),
    #[error("a record's content has another name")]
    WrongName(Name),
    #[error("a record's content is no object of its type")]
    BadObject(Name),
    #[error("the stream ends too early")]
    Truncated,
}

/// Why a stream yields no commands and objects.
#[derive(Clone, Copy, Debug, PartialEq, Eq, Error)]
pub enum BodyError {
    #[error(transparent)]
    Fault(StreamFault),
    #[error("no memory")]
    Memory,
}
