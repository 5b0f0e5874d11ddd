use crate::stream_ends::{Incoming, Outgoing};
use fork_connection::Party;
use std::time::Instant;

/// While more than this many bytes in total wait to be sent, no frame is taken.
pub const MOST_WAITING: usize = 67_108_864;

/// A connection over a socket, served along with others.
pub type Peer = Party<Incoming, Outgoing>;

/// Whether too much waits to be sent to the peers.
pub fn are_full(peers: &[Peer]) -> bool {
    let mut waiting: usize = 0;
    for peer in peers.iter() {
        waiting = waiting.saturating_add(peer.waiting());
    }
    waiting > MOST_WAITING
}

/// Whether a turn may do something for a peer. While too much waits, a peer for which nothing waits has none.
pub fn has_turn(peer: &Peer, is_full: bool) -> bool {
    if !peer.is_busy() {
        return false;
    }
    !is_full || peer.waiting() > 0
}

/// Whether a peer asks nothing, as far as is known.
pub fn is_idle(peer: &Peer) -> bool {
    !peer.is_busy() && peer.writer().watch().idle_since().is_some()
}

// Whether a peer's time is over. A peer that takes nothing of its reply has less time while too much waits,
// because it holds up all others.
fn is_late(peer: &Peer, now: Instant, is_full: bool) -> bool {
    let end = peer.writer();
    if is_full && end.stall().is_over(now) {
        return true;
    }
    end.watch().is_over(now)
}

/// Records the state of a peer after a round, and returns whether it stays. No time runs for a frame that is
/// not taken because too much waits.
pub fn stays(peer: &Peer, now: Instant, is_full: bool) -> bool {
    let end = peer.writer();
    let is_awaited = peer.has_begun() && !(is_full && peer.is_busy());
    end.note(now, peer.frames(), peer.waiting(), is_awaited);
    if peer.is_over() || is_late(peer, now, is_full) {
        end.end();
        return false;
    }
    true
}
