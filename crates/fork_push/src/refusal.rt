use git_name::Name;
use git_reftx::TxRefusal;
use push_stream::StreamFault;

/// Why a push is refused, in the order in which it is judged.
#[derive(Debug, Drop)]
pub enum PushRefusal {
    /// The stream is wrong or not complete.
    Stream(StreamFault),
    /// Neither side has an object that a sent one links to.
    Missing(Name),
    /// An object that a sent one links to has another kind than the link requires.
    WrongType(Name),
    /// The transaction of references is refused.
    Transaction(TxRefusal),
    /// All objects together would use more than the limit.
    OverQuota,
}
