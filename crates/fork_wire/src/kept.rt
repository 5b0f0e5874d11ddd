// Which frames a journal keeps.
ghost use Rattle.std.specs.Prelude.{◌≡◌, IsTrue, false, true};
ghost use Rattle.std.specs.Io.KnownBytes.{Appends, Keeps};
ghost use Rattle.fork_request.specs.Asked.{asked};
ghost use Rattle.fork_wire.specs.Kept.{is_part_end as may_end, is_kept, kept_one, leaves as is_left, only_asks as is_asking};

use crate::journal::Journal;
use fork_frame::{Asker, Frame};
use fork_host::Host;
use fork_request::{Reply, Request, TenantName};
use loose_store::LooseFiles;

// Whether the request only asks.
fn only_asks(payload: &[u8]) -> bool
    ensures { result ≡ is_asking (asked payload.now) }
{
    match Request::read(payload) {
        Request::CatFile(_)
        | Request::LsTree(_)
        | Request::RevList(_, _)
        | Request::MergeBase(_, _, _)
        | Request::ForEachRef(_, _)
        | Request::Head(_)
        | Request::Offers
        | Request::Fetch(_, _)
        | Request::Repositories
        | Request::Quota
        | Request::Bad => true,
        Request::Init(_)
        | Request::Drop(_)
        | Request::Fork(_, _)
        | Request::Push(_, _)
        | Request::Part(_)
        | Request::PartEnd(_)
        | Request::PartDrop
        | Request::UpdateRefs(_, _)
        | Request::SetHead(_, _)
        | Request::Offer(_, _)
        | Request::Withdraw(_, _)
        | Request::ForkOffer(_, _, _)
        | Request::Prune => false,
    }
}

// Whether the request ends the upload.
fn ends_upload(payload: &[u8]) -> bool
    ensures { result ≡ may_end (asked payload.now) }
{
    match Request::read(payload) {
        Request::PartEnd(_) => true,
        _ => false,
    }
}

// Whether the request may visit all objects of its tenant, or all that an offer reaches.
fn visits_all(payload: &[u8]) -> bool {
    match Request::read(payload) {
        Request::Prune | Request::ForkOffer(_, _, _) => true,
        _ => false,
    }
}

// How many objects a tenant sees, and how many references it has.
fn all_of<S: LooseFiles>(host: &Host<S>, tenant: &TenantName) -> u64 {
    (host.seen_count(tenant) as u64).saturating_add(host.reference_count(tenant))
}

/// How many objects and references a frame that was just answered visits when it is repeated, beside what a `prune` removed: at
/// most the objects that its tenant sees now, and its references.
pub(crate) fn visited_by<S: LooseFiles>(host: &Host<S>, frame: &Frame) -> u64 {
    match &frame.asker {
        Asker::Tenant(name) if visits_all(frame.payload.as_bytes()) => all_of(host, name),
        _ => 0,
    }
}

// Whether a request with this reply left the tenant's view unchanged.
fn leaves(payload: &[u8], reply: &Reply) -> bool
    ensures { result ≡ is_left (asked payload.now) reply.now }
{
    match reply {
        Reply::Done(_) => only_asks(payload),
        Reply::Unchanged => true,
        Reply::Refused(_) => !ends_upload(payload),
        Reply::Failed(_) => true,
    }
}

/// Whether a frame with this reply may have changed its tenant's view.
pub(crate) fn may_change(frame: &Frame, reply: &Reply) -> bool
    ensures { result ≡ is_kept frame.now reply.now }
{
    match &frame.asker {
        Asker::Tenant(_) => !leaves(frame.payload.as_bytes(), reply),
        Asker::Host => false,
    }
}

/// Keeps and syncs a frame that a host has given this reply, if it may have changed the host. Returns `false` if keeping or
/// syncing failed.
pub(crate) fn keep_synced<S: LooseFiles, J: Journal>(
    host: &Host<S>,
    journal: &mut J,
    frame: &Frame,
    reply: &Reply,
) -> bool
    ensures kept { IsTrue result → Appends (J.kept journal.old) (J.kept journal.new) (kept_one frame.now reply.now) }
    ensures synced { IsTrue result → Keeps (J.synced journal.old) (J.kept journal.old) → Keeps (J.synced journal.new) (J.kept journal.new) }
    ensures cause { result ≡ false → J.can_fail }
    ensures whole { IsTrue result → J.is_cut journal.new ≡ J.is_cut journal.old }
    ensures cut { result ≡ false → J.is_cut journal.new ≡ true }
{
    if !may_change(frame, reply) {
        return true;
    }
    let visited = visited_by(host, frame);
    let Ok(()) = journal.keep(frame, visited) else {
        return false;
    };
    let Ok(()) = journal.sync() else {
        return false;
    };
    true
}
