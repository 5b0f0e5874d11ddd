ghost use Rattle.std.specs.Prelude.{◌≡◌, ◌≢◌, ◌++◌, [], ℕ, List, IfOk, IfErr, IsTrue, OnOk, OnErr, cond, false, true};
ghost use Rattle.std.specs.Io.KnownBytes.{Appends, Keeps};
ghost use Rattle.fork_request.specs.Told.{bytes_of};
ghost use Rattle.fork_model.specs.Sound.{IsOrderlyWorld, IsRightWorld};
ghost use Rattle.fork_host.specs.Shown.{Trusted, world_of};
ghost use Rattle.fork_host.specs.Step.{IsStep};
ghost use Rattle.fork_frame.specs.Reply.{WritesFront, last_line, reply_frame};
ghost use Rattle.fork_wire.specs.Kept.{TellsCut, kept_bytes, kept_one};
ghost use Rattle.fork_wire.specs.Sessions.{IsServed, IsStopped, event_of};

use crate::fault::{SessionFault, of_frame, of_reply};
use crate::journal::{Journal, NoJournal};
use crate::kept::keep_synced;
use fork_frame::{Asker, Ended, Frame, Next, next_frame, send_bad_frame, send_reply};
use fork_host::Host;
use fork_model::a_run_is_private;
use fork_request::{HostRequest, Reply, Request};
use loose_store::LooseFiles;
use std::alloc::Global;
use std::io::{Read, Write};

/// Serves one session. It holds one frame in memory at a time, and sends and flushes each reply before
/// it waits for the next frame. After a fault the host is in the state that the requests answered so far
/// produced. Reading also fails after 2^64 - 1 frames.
pub fn serve<S: LooseFiles, R: Read, W: Write>(
    host: &mut Host<S>,
    alloc: Global,
    reader: &mut R,
    writer: &mut W,
) -> Result<Ended, SessionFault>
    ensures served { IfOk result (IsServed host.old host.new
        (R.remaining reader.old) (W.contents writer.old) (W.contents writer.new)) }
    ensures stopped { IfErr result (IsStopped host.old host.new
        (R.remaining reader.old) (W.contents writer.old) (W.contents writer.new)) }
    ensures trusted { Trusted host.old → Trusted host.new }
    ensures orderly { IsOrderlyWorld (world_of host.new) }
    ensures right { Trusted host.old → IsRightWorld (world_of host.new) }
    ensures cause { IfErr result (λ fault. fault ≢ SessionFault.Journal) }
{
    serve_kept(host, alloc, &mut NoJournal, reader, writer)
}

/// Serves one session like `serve`, and keeps the frames that may have changed the host. Each is kept, and
/// synced if the journal syncs, before its reply is sent. If a frame cannot be kept or synced, the session
/// stops and its reply is not sent.
pub fn serve_kept<S: LooseFiles, J: Journal, R: Read, W: Write>(
    host: &mut Host<S>,
    alloc: Global,
    journal: &mut J,
    reader: &mut R,
    writer: &mut W,
) -> Result<Ended, SessionFault>
    ensures served { IfOk result (IsServed host.old host.new
        (R.remaining reader.old) (W.contents writer.old) (W.contents writer.new)) }
    ensures stopped { IfErr result (IsStopped host.old host.new
        (R.remaining reader.old) (W.contents writer.old) (W.contents writer.new)) }
    ensures trusted { Trusted host.old → Trusted host.new }
    ensures orderly { IsOrderlyWorld (world_of host.new) }
    ensures right { Trusted host.old → IsRightWorld (world_of host.new) }
    ensures cause { IfErr result (λ fault. fault ≡ SessionFault.Journal → J.can_fail) }

    // The journal has the frames of the same session that `served` or `stopped` describes.
    ensures kept { IfOk result (λ ended. (session : IsServed host.old host.new
        (R.remaining reader.old) (W.contents writer.old) (W.contents writer.new) ended)
        × Appends (J.kept journal.old) (J.kept journal.new) (kept_bytes session.frames session.replies)) }
    ensures kept_so_far { IfErr result (λ fault. fault ≢ SessionFault.Journal → (session : IsStopped host.old host.new
        (R.remaining reader.old) (W.contents writer.old) (W.contents writer.new) fault)
        × Appends (J.kept journal.old) (J.kept journal.new) (kept_bytes session.frames session.replies)) }

    // What was kept is synced, if it was synced at the start.
    ensures synced { IfOk result (λ _. Keeps (J.synced journal.old) (J.kept journal.old) → Keeps (J.synced journal.new) (J.kept journal.new)) }
    ensures synced_so_far { IfErr result (λ fault. fault ≢ SessionFault.Journal → Keeps (J.synced journal.old) (J.kept journal.old) → Keeps (J.synced journal.new) (J.kept journal.new)) }

    // If a frame could not be kept or synced, that is why the session stopped; otherwise the journal is as
    // complete as it was.
    ensures cut { TellsCut (J.is_cut journal.old) (J.is_cut journal.new) result }
{
    a_run_is_private();
    host.invariant();
    for _ in 0..u64::MAX {
        let frame = match next_frame(alloc, reader) {
            Ok(Next::Frame(frame)) => frame,
            Ok(Next::End) => return Ok(Ended::Clean),
            Ok(Next::Bad) => return end_badly(writer),
            Err(fault) => return Err(of_frame(fault)),
        };
        let (reply, kept) = answer_kept(host, alloc, journal, frame);
        send_kept(alloc, writer, reply, kept)?;
    }
    Err(SessionFault::Read)
}

// Answers a request as received.
pub(crate) fn answer<S: LooseFiles>(host: &mut Host<S>, alloc: Global, frame: &Frame) -> Reply
    ensures { IsStep host.old (event_of frame.now) result host.new }
{
    let payload = frame.payload.as_bytes();
    match &frame.asker {
        Asker::Tenant(name) => host.answer(alloc, name, Request::read(payload)),
        Asker::Host => host.host_answer(alloc, HostRequest::read(payload)),
    }
}

// Answers a request as received, and keeps and syncs it if it may have changed the host. Returns `false`
// if keeping or syncing failed.
fn answer_kept<S: LooseFiles, J: Journal>(
    host: &mut Host<S>,
    alloc: Global,
    journal: &mut J,
    frame: Frame,
) -> (Reply, bool)
    ensures step { IsStep host.old (event_of frame) result.0 host.new }
    ensures kept { IsTrue result.1 → Appends (J.kept journal.old) (J.kept journal.new) (kept_one frame result.0) }
    ensures synced { IsTrue result.1 → Keeps (J.synced journal.old) (J.kept journal.old) → Keeps (J.synced journal.new) (J.kept journal.new) }
    ensures cause { result.1 ≡ false → J.can_fail }
    ensures whole { IsTrue result.1 → J.is_cut journal.new ≡ J.is_cut journal.old }
    ensures cut { result.1 ≡ false → J.is_cut journal.new ≡ true }
{
    let reply = answer(host, alloc, &frame);
    let kept = keep_synced(host, journal, &frame, &reply);
    (reply, kept)
}

// Sends a reply, unless its frame could not be kept.
fn send_kept<W: Write>(
    alloc: Global,
    writer: &mut W,
    reply: Reply,
    kept: bool,
) -> Result<(), SessionFault>
    ensures ok { OnOk result (Appends (W.contents writer.old) (W.contents writer.new) (reply_frame (bytes_of reply))) }
    ensures kept { OnOk result (IsTrue kept) }
    ensures sent { IfErr result (λ fault. fault ≢ SessionFault.Read) }
    ensures unsent { IfErr result (λ fault. fault ≢ SessionFault.Write → Keeps (W.contents writer.old) (W.contents writer.new)) }
    ensures broken { OnErr result (WritesFront (W.contents writer.old) (W.contents writer.new) (reply_frame (bytes_of reply))) }
    ensures unkept { IfErr result (λ fault. fault ≡ SessionFault.Journal → kept ≡ false) }
    ensures was_kept { IfErr result (λ fault. fault ≢ SessionFault.Journal → IsTrue kept) }
{
    if !kept {
        return Err(SessionFault::Journal);
    }
    match send_reply(alloc, writer, reply) {
        Ok(()) => Ok(()),
        Err(fault) => Err(of_reply(fault)),
    }
}

// Tells the peer that its bytes were not a frame.
fn end_badly<W: Write>(writer: &mut W) -> Result<Ended, SessionFault>
    ensures ok { IfOk result (λ ended. (ended ≡ Ended.BadFrame)
        × Appends (W.contents writer.old) (W.contents writer.new) (last_line ended)) }
    ensures broken { OnErr result (WritesFront (W.contents writer.old) (W.contents writer.new) (last_line Ended.BadFrame)) }
    ensures cause { IfErr result (λ fault. fault ≡ SessionFault.Write) }
{
    match send_bad_frame(writer) {
        Ok(()) => Ok(Ended::BadFrame),
        Err(_) => Err(SessionFault::Write),
    }
}
