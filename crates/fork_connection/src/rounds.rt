ghost use Rattle.std.specs.Prelude.{◌≡◌, ◌<◌, false, true, length, IsTrue};
ghost use Rattle.fork_connection.specs.Rounds.{AreTurns, IsServed, has_ended, peer_in};

use crate::answering::{Answering, Lost};
use crate::connection::{Turn, TurnFault};
use crate::party::Party;
use std::alloc::Global;
use std::io::{Read, Write};

// Whether the connection has a turn. If too much waits to be sent, one that may ask for more has none.
fn has_turn<R, W>(party: &Party<R, W>, is_full: bool) -> bool
    ensures { IsTrue result → party.now.is_over ≡ false }
{
    if party.is_over || !party.is_busy {
        return false;
    }
    !is_full || party.waiting() > 0
}

// One turn of the connection, if it has one.
fn serve<H: Answering, R: Read, W: Write>(
    alloc: Global,
    host: &mut H,
    party: &mut Party<R, W>,
    buffer: &mut [u8],
    is_full: bool,
) -> Result<(), Lost>
    requires { 0 < length buffer.old }
    ensures buffer { length buffer.new ≡ length buffer.old }
    ensures served { IsServed H.answered H.lost host.old host.new
        (peer_in R.remaining W.contents party.old) (peer_in R.remaining W.contents party.new)
        (has_ended party.old) (has_ended party.new) result }
{
    if !has_turn(party, is_full) {
        return Ok(());
    }
    match party.connection.turn(
        alloc,
        host,
        &mut party.reader,
        &mut party.writer,
        buffer,
        is_full,
    ) {
        Ok(Turn::Answered) => {
            party.frames = party.frames.saturating_add(1);
            Ok(())
        }
        Ok(Turn::Busy) => Ok(()),
        Ok(Turn::Waits) => {
            party.is_busy = false;
            Ok(())
        }
        Ok(Turn::Over) => {
            party.is_over = true;
            Ok(())
        }
        Err(TurnFault::Broken) => {
            party.is_over = true;
            Ok(())
        }
        Err(TurnFault::Lost) => Err(Lost),
    }
}

// One turn of the connection, with a count of what waits to be sent to all.
fn serve_counted<H: Answering, R: Read, W: Write>(
    alloc: Global,
    host: &mut H,
    party: &mut Party<R, W>,
    buffer: &mut [u8],
    waiting: &mut usize,
    most: usize,
) -> Result<(), Lost>
    requires { 0 < length buffer.old }
    ensures buffer { length buffer.new ≡ length buffer.old }
    ensures served { IsServed H.answered H.lost host.old host.new
        (peer_in R.remaining W.contents party.old) (peer_in R.remaining W.contents party.new)
        (has_ended party.old) (has_ended party.new) result }
{
    let before = party.waiting();
    let is_full = *waiting > most;
    let served = serve(alloc, host, party, buffer, is_full);
    *waiting = waiting
        .saturating_sub(before)
        .saturating_add(party.waiting());
    served
}

// How many bytes wait to be sent to all of them, up to 2^64 - 1.
fn waiting_in<R, W>(parties: &[Party<R, W>]) -> usize {
    let mut waiting: usize = 0;
    for place in 0..parties.len() {
        waiting = waiting.saturating_add(parties[place].waiting());
    }
    waiting
}

/// Gives each connection one turn, in which it sends what waited before and answers at most one frame. So no
/// connection holds up another, and no reply goes out in the round of its frame. While more than `most` bytes
/// wait to be sent in all, no frame is taken. The round stops at a reply that must not go out. Bytes are read
/// through the buffer; if it has no room, nothing is done.
pub fn round<H: Answering, R: Read, W: Write>(
    alloc: Global,
    host: &mut H,
    parties: &mut [Party<R, W>],
    buffer: &mut [u8],
    most: usize,
) -> Result<(), Lost>
    ensures turns { AreTurns H.answered H.lost (peer_in R.remaining W.contents) has_ended
        host.old host.new parties.old parties.new result }
    ensures buffer { length buffer.new ≡ length buffer.old }
{
    if buffer.is_empty() {
        return Ok(());
    }
    let mut waiting = waiting_in(parties);
    for place in 0..parties.len() {
        serve_counted(alloc, host, &mut parties[place], buffer, &mut waiting, most)?;
    }
    Ok(())
}
