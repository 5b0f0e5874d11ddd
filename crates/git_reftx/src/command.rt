use crate::ref_word::RefWord;
use git_name::Name;

/// What a command requires of its reference before the transaction.
#[derive(Clone, Copy, Debug, PartialEq, Eq)]
pub enum Demand {
    /// Nothing.
    Any,
    /// It does not exist.
    Absent,
    /// It exists.
    Present,
    /// It points at this object.
    At(Name),
}

/// What a command does to its reference.
#[derive(Clone, Copy, Debug, PartialEq, Eq)]
pub enum Change {
    /// Nothing.
    Keep,
    /// It is removed.
    Remove,
    /// It points at this object afterwards.
    Point(Name),
}

/// A command of a transaction.
#[derive(Debug, Drop)]
pub struct Command {
    pub reference: RefWord,
    pub demand: Demand,
    pub change: Change,
}
