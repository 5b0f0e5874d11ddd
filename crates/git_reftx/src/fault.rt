use crate::ref_word::RefWord;
use git_name::Name;
use git_refname::RefName;
use thiserror::Error;

/// Why a body of command lines is refused: the fault of its first wrong line.
#[derive(Clone, Copy, Debug, PartialEq, Eq, Error)]
pub enum CommandFault {
    #[error("the line is not a command, or is too long")]
    Syntax,
    #[error("there are more than 256 commands")]
    TooMany,
    #[error("the last line has no LF")]
    Truncated,
}

/// Why command lines were not read.
#[derive(Clone, Copy, Debug, PartialEq, Eq, Error)]
pub enum ReadError {
    #[error(transparent)]
    Fault(CommandFault),
    #[error("no memory")]
    Memory,
}

/// Why a transaction was refused, in the order in which it is checked. It is the refusal of the first
/// command, in order, that fails the check.
#[derive(Debug, Drop)]
pub enum TxRefusal {
    /// The word breaks a rule of reference names.
    BadRef(RefWord),
    /// The reference is in an earlier command.
    RepeatedRef(RefName),
    /// The object is not known.
    Missing(Name),
    /// The object is not a commit, and the reference is a branch.
    NotACommit(Name),
    /// The reference is not as the command requires.
    Stale(RefName),
    /// Of the references afterwards, this is the least that is above another.
    RefConflict(RefName),
    /// There would be more than 4,096 references.
    TooMany,
}

/// Why a transaction was not carried out.
#[derive(Debug, Drop)]
pub enum ApplyError {
    /// It was refused.
    Refused(TxRefusal),
    /// Memory ran out.
    Memory,
}

/// Why a reference was not appended.
#[derive(Clone, Copy, Debug, PartialEq, Eq, Error)]
pub enum PushRefError {
    #[error("the name does not sort after the others")]
    OutOfOrder,
    #[error("another name is a directory of this one")]
    RefConflict,
    #[error("there are 4,096 references")]
    TooMany,
    #[error("no memory")]
    Memory,
}
