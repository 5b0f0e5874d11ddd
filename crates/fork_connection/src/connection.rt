ghost use Rattle.std.specs.Prelude.{◌≡◌, ◌≤◌, ◌<◌, [], ℕ, List, Option, false, true, OnOk, length};
ghost use Rattle.fork_frame.specs.declared.session_end.Ended.{Ended as HowEnded};
ghost use Rattle.fork_frame.specs.Reply.{last_line};
ghost use Rattle.fork_connection.specs.Inbox.{IsPart};
ghost use Rattle.fork_connection.specs.Turns.{IsExchange, IsSent, IsTurn, Replies, is_loss, peer_of};

use crate::answering::Answering;
use crate::inbox::{Arrival, Came, Inbox};
use crate::outbox::Outbox;
use fork_frame::{Ended, Frame};
use std::alloc::Global;
use std::io::{Read, Write};
use std::marker::Model;

/// How a turn leaves a connection.
#[derive(Clone, Copy, Debug, PartialEq, Eq)]
pub(crate) enum Turn {
    /// A frame was answered, and there may be more to do.
    Answered,
    /// There may be more to do.
    Busy,
    /// There is nothing to do until the peer sends or takes something.
    Waits,
    /// The session has ended, and all its bytes are out.
    Over,
}

/// Why a turn was cut short.
#[derive(Clone, Copy, Debug, PartialEq, Eq)]
pub(crate) enum TurnFault {
    /// The connection cannot go on: its stream failed, or memory for it ran out.
    Broken,
    /// A frame's reply must not go out, and no connection can go on.
    Lost,
}

/// An open connection. It has no stream of its own: each turn is given the two ends of one.
#[derive(Debug, Drop)]
pub(crate) struct Connection {
    inbox: Inbox,
    outbox: Outbox,
    // Nothing more is taken from the peer. The connection is over when its last line is out.
    is_ending: bool,
}

impl Model for Connection {
    ghost use Rattle.fork_connection.specs.Turns.{Talk};

    ghost Value = { Talk };

    ghost view = { λ a. record { pending = a.inbox; waiting = a.outbox; is_ending = a.is_ending } };
}

impl Connection {
    /// A connection that has received nothing and has nothing to send.
    pub(crate) fn new(alloc: Global) -> Connection
        ensures { result ≡ record { pending = []; waiting = []; is_ending = false } }
    {
        Connection {
            inbox: Inbox::new(alloc),
            outbox: Outbox::new(alloc),
            is_ending: false,
        }
    }

    /// How many bytes wait for the peer to take them.
    pub(crate) fn waiting(&self) -> usize
        ensures { result ≡ length self.now.waiting }
    {
        self.outbox.len()
    }

    /// Whether a frame has begun to arrive.
    pub(crate) fn has_begun(&self) -> bool
        ensures none { result ≡ false → self.now.pending ≡ [] }
        ensures some { result ≡ true → 1 ≤ length self.now.pending }
    {
        !self.inbox.is_empty()
    }

    // Whether a reply waits for the peer to take it.
    fn is_owed(&self) -> bool
        ensures some { result ≡ true → 1 ≤ length self.now.waiting }
        ensures none { result ≡ false → self.now.waiting ≡ [] }
    {
        !self.outbox.is_empty()
    }

    // Writes once.
    fn send<W: Write>(&mut self, alloc: Global, writer: &mut W) -> Result<Turn, TurnFault>
        ensures pending { self.new.pending ≡ self.old.pending }
        ensures sent { IsSent self.old.waiting self.new.waiting (W.contents writer.old) (W.contents writer.new) }
        ensures found { is_loss result ≡ false }
    {
        match self.outbox.send(alloc, writer) {
            Ok(n) => {
                if n == 0 {
                    return Ok(Turn::Waits);
                }
                Ok(Turn::Busy)
            }
            Err(_) => Err(TurnFault::Broken),
        }
    }

    // Answers a frame that was taken. Its reply waits for the next turn.
    fn answer<H: Answering>(
        &mut self,
        alloc: Global,
        host: &mut H,
        frame: Frame,
    ) -> Result<Turn, TurnFault>
        ensures pending { self.new.pending ≡ self.old.pending }
        ensures replied { Replies H.answered H.lost host.old host.new frame self.new.waiting result }
    {
        let Ok(reply) = host.answer(alloc, &frame) else {
            return Err(TurnFault::Lost);
        };
        let Ok(()) = self.outbox.put_reply(alloc, reply) else {
            return Err(TurnFault::Broken);
        };
        Ok(Turn::Answered)
    }

    // Makes the line that reports a bad frame wait for the peer, and takes nothing more from it.
    fn refuse(&mut self, alloc: Global) -> Result<Turn, TurnFault>
        ensures pending { self.new.pending ≡ self.old.pending }
        ensures told { OnOk result (self.new.waiting ≡ last_line HowEnded.BadFrame) }
        ensures found { is_loss result ≡ false }
    {
        self.is_ending = true;
        let Ok(()) = self.outbox.put_bad_frame(alloc) else {
            return Err(TurnFault::Broken);
        };
        Ok(Turn::Busy)
    }

    // Reads once.
    fn read<R: Read>(
        &mut self,
        alloc: Global,
        reader: &mut R,
        buffer: &mut [u8],
    ) -> Result<Turn, TurnFault>
        requires waiting { self.old.waiting ≡ [] }
        requires part { IsPart self.old.pending }
        requires buffer { 0 < length buffer.old }
        ensures buffer { length buffer.new ≡ length buffer.old }
        ensures exchange { (out : Option (List ℕ)) → IsExchange (peer_of (R.remaining reader.old) out self.old)
            (peer_of (R.remaining reader.new) out self.new) result }
    {
        match self.inbox.fill(reader, buffer) {
            Ok(Came::Some) => Ok(Turn::Busy),
            Ok(Came::Nothing) => Ok(Turn::Waits),
            Ok(Came::End) => match self.inbox.ended() {
                Ended::Clean => Ok(Turn::Over),
                Ended::BadFrame => self.refuse(alloc),
            },
            Err(_) => Err(TurnFault::Broken),
        }
    }

    // Answers at most one frame, or reads once, if nothing waits to go out.
    fn take<H: Answering, R: Read>(
        &mut self,
        alloc: Global,
        host: &mut H,
        reader: &mut R,
        buffer: &mut [u8],
    ) -> Result<Turn, TurnFault>
        requires waiting { self.old.waiting ≡ [] }
        requires buffer { 0 < length buffer.old }
        ensures buffer { length buffer.new ≡ length buffer.old }
        ensures turn { (out : Option (List ℕ)) → IsTurn H.answered H.lost host.old host.new (peer_of (R.remaining reader.old) out self.old)
            (peer_of (R.remaining reader.new) out self.new) result }
    {
        if self.is_ending {
            return Ok(Turn::Over);
        }
        match self.inbox.take(alloc) {
            Ok(Arrival::Frame(frame)) => self.answer(alloc, host, frame),
            Ok(Arrival::Bad) => self.refuse(alloc),
            Ok(Arrival::Part) => self.read(alloc, reader, buffer),
            Err(_) => Err(TurnFault::Broken),
        }
    }

    /// Takes one turn. What waits is sent, as far as the peer takes it. If all of it was sent, and more may
    /// be taken from the peer, at most one frame is answered. Its reply waits for the next turn, so that its
    /// request can be synced first. After an `Err` the connection must be closed.
    pub(crate) fn turn<H: Answering, R: Read, W: Write>(
        &mut self,
        alloc: Global,
        host: &mut H,
        reader: &mut R,
        writer: &mut W,
        buffer: &mut [u8],
        is_full: bool,
    ) -> Result<Turn, TurnFault>
        requires { 0 < length buffer.old }
        ensures buffer { length buffer.new ≡ length buffer.old }
        ensures turn { IsTurn H.answered H.lost host.old host.new (peer_of (R.remaining reader.old) (W.contents writer.old) self.old)
            (peer_of (R.remaining reader.new) (W.contents writer.new) self.new) result }
    {
        if !self.is_owed() {
            return self.take(alloc, host, reader, buffer);
        }
        let sent = match self.send(alloc, writer) {
            Ok(sent) => sent,
            broken => return broken,
        };
        if is_full {
            return Ok(sent);
        }
        if self.is_owed() {
            return Ok(sent);
        }
        self.take(alloc, host, reader, buffer)
    }
}
