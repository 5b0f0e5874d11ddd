ghost use Rattle.std.specs.Prelude.{◌≡◌, ℕ, List, IfErr, OnErr, OnOk, true, length};
ghost use Rattle.std.specs.Io.KnownBytes.{Keeps};
ghost use Rattle.fork_connection.specs.Rounds.{Stands, has_ended, peer_in};
ghost use Rattle.fork_connection.specs.Turns.{Peer};
ghost use Rattle.fork_request.specs.declared.reply.Reply.{Reply as Told};
ghost use Rattle.fork_frame.specs.declared.frame.Frame.{Frame as Asked};
ghost use Rattle.fork_wire.specs.AtOnce.{EndsRound, IsCutOff, IsRound};
ghost use Rattle.fork_wire.specs.Kept.{SyncedIf};
ghost use Rattle.fork_wire.specs.Sessions.{IsAnswered};

use crate::journal::{Journal, NotKept};
use crate::kept::{may_change, visited_by};
use crate::session::answer;
use fork_connection::{Answering, Lost, Party, round};
use fork_frame::Frame;
use fork_host::Host;
use fork_request::Reply;
use loose_store::LooseFiles;
use std::alloc::Global;
use std::io::{Read, Write};

// A host and its journal. Each frame that may have changed the host is kept before its reply is sent.
#[derive(Drop)]
struct Keeping<'a, S: LooseFiles, J> {
    host: &'a mut Host<S>,
    journal: &'a mut J,
    // Nothing was kept since the last sync.
    is_synced: bool,
}

impl<S: LooseFiles, J: Journal> Answering for Keeping<'_, S, J> {
    ghost use Rattle.std.specs.Prelude.{◌≡◌, true};
    ghost use Rattle.std.specs.Io.KnownBytes.{Appends};
    ghost use Rattle.fork_request.specs.declared.reply.Reply.{Reply as Told};
    ghost use Rattle.fork_host.specs.Step.{IsStep};
    ghost use Rattle.fork_wire.specs.Kept.{SyncedIf, kept_one};
    ghost use Rattle.fork_wire.specs.Sessions.{event_of};

    ghost answered = { λ old frame reply new. IsStep old.host.now (event_of frame) reply new.host.now
        × Appends (J.kept old.journal.now) (J.kept new.journal.now) (kept_one frame reply)
        × (J.is_cut new.journal.now ≡ J.is_cut old.journal.now)
        × (SyncedIf old.is_synced (J.synced old.journal.now) (J.kept old.journal.now) → SyncedIf new.is_synced (J.synced new.journal.now) (J.kept new.journal.now))
        × (new.host.ghost_name ≡ old.host.ghost_name) × (new.journal.ghost_name ≡ old.journal.ghost_name) };

    ghost lost = { λ old frame new. (reply : Told) × IsStep old.host.now (event_of frame) reply new.host.now
        × J.can_fail × (J.is_cut new.journal.now ≡ true)
        × (new.host.ghost_name ≡ old.host.ghost_name) × (new.journal.ghost_name ≡ old.journal.ghost_name) };

    fn answer(&mut self, alloc: Global, frame: &Frame) -> Result<Reply, Lost> {
        let reply = answer(self.host, alloc, frame);
        if !may_change(frame, &reply) {
            return Ok(reply);
        }
        self.is_synced = false;
        let visited = visited_by(self.host, frame);
        let Ok(()) = self.journal.keep(frame, visited) else {
            return Err(Lost);
        };
        Ok(reply)
    }
}

/// Gives each connection to a host one turn. A turn sends what already waited, and answers at most one frame;
/// the frame is kept if it may have changed the host. After the turns, what was kept is synced once for all
/// of them, if the journal syncs. So each reply is sent in a later round than the one in which its frame was
/// answered, kept and synced. While more than `most` bytes in total wait to be sent, no frame is taken. If a
/// frame cannot be kept or synced, its reply is not sent, and nothing more may be done. Input is read through
/// `buffer`; if `buffer` has no room, nothing is done.
pub fn serve_round<S: LooseFiles, J: Journal, R: Read, W: Write>(
    host: &mut Host<S>,
    alloc: Global,
    journal: &mut J,
    parties: &mut [Party<R, W>],
    buffer: &mut [u8],
    most: usize,
) -> Result<(), NotKept>
    ensures served { (first : ℕ → Peer) → Stands (peer_in R.remaining W.contents) has_ended first parties.old
        → EndsRound (peer_in R.remaining W.contents) has_ended host.old host.new (J.kept journal.old) (J.kept journal.new) first parties.old parties.new result }
    ensures ran { (frames : List Asked) × (replies : List Told) × IsAnswered host.old host.new frames replies }
    ensures synced { OnOk result (Keeps (J.synced journal.old) (J.kept journal.old) → Keeps (J.synced journal.new) (J.kept journal.new)) }
    ensures cause { IfErr result (λ _. J.can_fail) }
    ensures whole { OnOk result (J.is_cut journal.new ≡ J.is_cut journal.old) }
    ensures cut { OnErr result (J.is_cut journal.new ≡ true) }
    ensures buffer { length buffer.new ≡ length buffer.old }
{
    let mut keeping = Keeping {
        host,
        journal,
        is_synced: true,
    };
    keep_round(&mut keeping, alloc, parties, buffer, most)
}

// The turns of a round, without the sync.
fn turns<S: LooseFiles, J: Journal, R: Read, W: Write>(
    keeping: &mut Keeping<'_, S, J>,
    alloc: Global,
    parties: &mut [Party<R, W>],
    buffer: &mut [u8],
    most: usize,
) -> Result<(), NotKept>
    ensures served { OnOk result ((first : ℕ → Peer) → Stands (peer_in R.remaining W.contents) has_ended first parties.old
        → IsRound (peer_in R.remaining W.contents) has_ended keeping.old.host.now keeping.new.host.now (J.kept keeping.old.journal.now) (J.kept keeping.new.journal.now) first parties.old parties.new) }
    ensures stopped { OnErr result ((first : ℕ → Peer) → Stands (peer_in R.remaining W.contents) has_ended first parties.old
        → IsCutOff (peer_in R.remaining W.contents) keeping.old.host.now keeping.new.host.now (J.kept keeping.old.journal.now) first parties.old parties.new) }
    ensures ran { (frames : List Asked) × (replies : List Told) × IsAnswered keeping.old.host.now keeping.new.host.now frames replies }
    ensures synced { OnOk result (SyncedIf keeping.old.is_synced (J.synced keeping.old.journal.now) (J.kept keeping.old.journal.now)
        → SyncedIf keeping.new.is_synced (J.synced keeping.new.journal.now) (J.kept keeping.new.journal.now)) }
    ensures cause { IfErr result (λ _. J.can_fail) }
    ensures whole { OnOk result (J.is_cut keeping.new.journal.now ≡ J.is_cut keeping.old.journal.now) }
    ensures cut { OnErr result (J.is_cut keeping.new.journal.now ≡ true) }
    ensures buffer { length buffer.new ≡ length buffer.old }
    ensures host { keeping.new.host.ghost_name ≡ keeping.old.host.ghost_name }
    ensures journal { keeping.new.journal.ghost_name ≡ keeping.old.journal.ghost_name }
{
    match round(alloc, keeping, parties, buffer, most) {
        Ok(()) => Ok(()),
        Err(_) => Err(NotKept),
    }
}

// The turns of a round, and then the sync.
fn keep_round<S: LooseFiles, J: Journal, R: Read, W: Write>(
    keeping: &mut Keeping<'_, S, J>,
    alloc: Global,
    parties: &mut [Party<R, W>],
    buffer: &mut [u8],
    most: usize,
) -> Result<(), NotKept>
    ensures served { (first : ℕ → Peer) → Stands (peer_in R.remaining W.contents) has_ended first parties.old
        → EndsRound (peer_in R.remaining W.contents) has_ended keeping.old.host.now keeping.new.host.now (J.kept keeping.old.journal.now) (J.kept keeping.new.journal.now) first parties.old parties.new result }
    ensures ran { (frames : List Asked) × (replies : List Told) × IsAnswered keeping.old.host.now keeping.new.host.now frames replies }
    ensures synced { OnOk result (SyncedIf keeping.old.is_synced (J.synced keeping.old.journal.now) (J.kept keeping.old.journal.now) → Keeps (J.synced keeping.new.journal.now) (J.kept keeping.new.journal.now)) }
    ensures cause { IfErr result (λ _. J.can_fail) }
    ensures whole { OnOk result (J.is_cut keeping.new.journal.now ≡ J.is_cut keeping.old.journal.now) }
    ensures cut { OnErr result (J.is_cut keeping.new.journal.now ≡ true) }
    ensures buffer { length buffer.new ≡ length buffer.old }
    ensures host { keeping.new.host.ghost_name ≡ keeping.old.host.ghost_name }
    ensures journal { keeping.new.journal.ghost_name ≡ keeping.old.journal.ghost_name }
{
    match turns(keeping, alloc, parties, buffer, most) {
        Ok(()) => sync(keeping),
        Err(_) => Err(NotKept),
    }
}

// Syncs what was kept, if anything was.
fn sync<S: LooseFiles, J: Journal>(keeping: &mut Keeping<'_, S, J>) -> Result<(), NotKept>
    ensures synced { OnOk result (SyncedIf keeping.old.is_synced (J.synced keeping.old.journal.now) (J.kept keeping.old.journal.now) → Keeps (J.synced keeping.new.journal.now) (J.kept keeping.new.journal.now)) }
    ensures kept { Keeps (J.kept keeping.old.journal.now) (J.kept keeping.new.journal.now) }
    ensures cause { IfErr result (λ _. J.can_fail) }
    ensures whole { OnOk result (J.is_cut keeping.new.journal.now ≡ J.is_cut keeping.old.journal.now) }
    ensures cut { OnErr result (J.is_cut keeping.new.journal.now ≡ true) }
    ensures answers { keeping.new.host.now ≡ keeping.old.host.now }
    ensures host { keeping.new.host.ghost_name ≡ keeping.old.host.ghost_name }
    ensures journal { keeping.new.journal.ghost_name ≡ keeping.old.journal.ghost_name }
{
    if keeping.is_synced {
        return Ok(());
    }
    keeping.journal.sync()
}
