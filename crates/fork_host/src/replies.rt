// Replies to requests that return no data.
ghost use Rattle.std.specs.Prelude.{◌≡◌, ◌⊎◌, [], ◌++◌, codes, cond, decimal};
ghost use Rattle.fork_request.specs.declared.refusal.Refusal.TheVariants.{BadName, BadRef};
ghost use Rattle.fork_request.specs.Told.{is_done, is_host_fault};
ghost use Rattle.fork_model.specs.Answer.{command_refusal, push_refusal, stream_refusal, transaction_refusal};
ghost use Rattle.fork_host.specs.Rows.{fault_told, query_told, vault_told};

use fork_ledger::VaultFault;
use fork_push::PushRefusal;
use fork_query::QueryError;
use fork_reach::SourceFault;
use fork_request::{ByteString, HostFault, Refusal, Reply};
use git_reftx::{CommandFault, TxRefusal};
use push_stream::StreamFault;
use std::alloc::Global;
use std::io::Write;

// Whether a reply is `ok`.
pub(crate) fn is_done(reply: &Reply) -> bool
    ensures { result ≡ is_done reply.now }
{
    match reply {
        Reply::Done(_) | Reply::Unchanged => true,
        _ => false,
    }
}

// Whether it is a host fault.
pub(crate) fn is_failed(reply: &Reply) -> bool
    ensures { result ≡ is_host_fault reply.now }
{
    match reply {
        Reply::Failed(_) => true,
        _ => false,
    }
}

// A reply without data.
pub(crate) fn done(alloc: Global) -> Reply
    ensures { result ≡ Reply.Done [] }
{
    Reply::Done(ByteString::new(Vec::new(alloc)))
}

// A reply without data, which says whether the view is as it was.
pub(crate) fn done_or_unchanged(alloc: Global, is_same: bool) -> Reply
    ensures { result ≡ cond is_same Reply.Unchanged (Reply.Done []) }
{
    if is_same {
        return Reply::Unchanged;
    }
    done(alloc)
}

// What is used, and the limit.
pub(crate) fn told_use(alloc: Global, used: u128, limit: u64) -> Reply
    ensures { (result ≡ Reply.Done (decimal used ++ codes " " ++ decimal limit ++ codes "\n")) ⊎ (result ≡ Reply.Failed HostFault.Memory) }
{
    let mut text = Vec::new(alloc);
    match writeln!(text, "{} {}", used, limit) {
        Ok(()) => Reply::Done(ByteString::new(text)),
        Err(_) => Reply::Failed(HostFault::Memory),
    }
}

// The refusal of a word that is not a repository's name.
pub(crate) fn bad_name(alloc: Global, word: &[u8]) -> Reply
    ensures { (result ≡ Reply.Refused (BadName word.now)) ⊎ (result ≡ Reply.Failed HostFault.Memory) }
{
    match word.to_vec(alloc) {
        Ok(copy) => Reply::Refused(Refusal::BadName(ByteString::new(copy))),
        Err(_) => Reply::Failed(HostFault::Memory),
    }
}

// The refusal of a word that is not a valid branch name.
pub(crate) fn bad_ref(alloc: Global, word: &[u8]) -> Reply
    ensures { (result ≡ Reply.Refused (BadRef word.now)) ⊎ (result ≡ Reply.Failed HostFault.Memory) }
{
    match word.to_vec(alloc) {
        Ok(copy) => Reply::Refused(Refusal::BadRef(ByteString::new(copy))),
        Err(_) => Reply::Failed(HostFault::Memory),
    }
}

// How a reply reports what is wrong with a stream.
pub(crate) fn stream_refusal(fault: StreamFault) -> Refusal
    ensures { result ≡ stream_refusal fault }
{
    match fault {
        StreamFault::Syntax => Refusal::Syntax,
        StreamFault::TooMany => Refusal::TooMany,
        StreamFault::TooLarge(name) => Refusal::TooLarge(name),
        StreamFault::WrongName(name) => Refusal::WrongName(name),
        StreamFault::BadObject(name) => Refusal::BadObject(name),
        StreamFault::Truncated => Refusal::Truncated,
    }
}

// How a reply reports what is wrong with a body of commands.
pub(crate) fn command_refusal(fault: CommandFault) -> Refusal
    ensures { result ≡ command_refusal fault }
{
    match fault {
        CommandFault::Syntax => Refusal::Syntax,
        CommandFault::TooMany => Refusal::TooMany,
        CommandFault::Truncated => Refusal::Truncated,
    }
}

// How a reply reports why a transaction was refused.
pub(crate) fn transaction_refusal(refusal: TxRefusal) -> Refusal
    ensures { result ≡ transaction_refusal refusal }
{
    match refusal {
        TxRefusal::BadRef(word) => Refusal::BadRef(ByteString::new(word.into_bytes())),
        TxRefusal::RepeatedRef(reference) => Refusal::RepeatedRef(reference),
        TxRefusal::Missing(name) => Refusal::Missing(name),
        TxRefusal::NotACommit(name) => Refusal::NotACommit(name),
        TxRefusal::Stale(reference) => Refusal::Stale(reference),
        TxRefusal::RefConflict(reference) => Refusal::RefConflict(reference),
        TxRefusal::TooMany => Refusal::TooMany,
    }
}

// How a reply reports why a push was refused.
pub(crate) fn push_refusal(refusal: PushRefusal) -> Refusal
    ensures { result ≡ push_refusal refusal }
{
    match refusal {
        PushRefusal::Stream(fault) => stream_refusal(fault),
        PushRefusal::Missing(name) => Refusal::Missing(name),
        PushRefusal::WrongType(name) => Refusal::WrongType(name),
        PushRefusal::Transaction(refusal) => transaction_refusal(refusal),
        PushRefusal::OverQuota => Refusal::OverQuota,
    }
}

// How a reply reports a fault of the store.
pub(crate) fn host_fault(fault: SourceFault) -> HostFault
    ensures { result ≡ fault_told fault }
{
    match fault {
        SourceFault::Store => HostFault::Store,
        SourceFault::Damaged => HostFault::Damaged,
        SourceFault::Memory => HostFault::Memory,
    }
}

// How a reply reports a fault of the vault.
pub(crate) fn vault_fault(fault: VaultFault) -> HostFault
    ensures { result ≡ vault_told fault }
{
    match fault {
        VaultFault::Store => HostFault::Store,
        VaultFault::Damaged => HostFault::Damaged,
        VaultFault::Memory => HostFault::Memory,
        VaultFault::Collision => HostFault::Collision,
    }
}

// The answer to a query.
pub(crate) fn told(found: Result<Vec<u8>, QueryError>) -> Reply
    ensures { result ≡ query_told (λ text. text.items) found }
{
    match found {
        Ok(text) => Reply::Done(ByteString::new(text)),
        Err(QueryError::Refused(refusal)) => Reply::Refused(refusal),
        Err(QueryError::Failed(fault)) => Reply::Failed(host_fault(fault)),
    }
}
