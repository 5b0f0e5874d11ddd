ghost use Rattle.std.specs.Prelude.{◌≡◌, ◌++◌, ◌∷◌, [], List, ℕ, IfOk, OnOk, codes, decimal, true, false, ◌≤◌, length};
ghost use Rattle.std.specs.Io.KnownBytes.{Appends};
ghost use Rattle.fork_request.specs.Told.{bytes_of};
ghost use Rattle.fork_frame.specs.declared.session_end.Ended.{Ended as HowEnded};
ghost use Rattle.fork_frame.specs.Reply.{last_line, reply_frame};

use crate::piece::Piece;
use fork_frame::{ReplyFault, send_bad_frame, send_reply};
use fork_request::{ByteString, Reply};
use std::alloc::Global;
use std::io;
use std::io::Write;
use std::marker::Model;

// Data of at least this many bytes are not copied after their line, but sent from where they are.
const LONG: usize = 65536;

/// What is still to be sent to a peer: at most one reply. If there is none, it holds no memory.
#[derive(Debug, Drop)]
pub(crate) struct Outbox {
    // What is sent first: the whole frame, or what precedes its data.
    head: Piece,
    body: Piece,
}

impl Model for Outbox {
    ghost use Rattle.std.specs.Prelude.{◌++◌, List, ℕ};
    ghost use Rattle.std.specs.Coded.{coded_list, coded_ℕ};

    ghost Value = { List ℕ };

    ghost coded = { coded_list coded_ℕ };

    ghost view = { λ a. a.head ++ a.body };
}

// What precedes the data in the frame of a reply of `len` bytes.
fn head_of(alloc: Global, len: usize) -> io::Result<ByteString>
    ensures { IfOk result (λ head. head ≡ decimal len ++ 10 ∷ codes "ok\n") }
{
    let mut head = Vec::new(alloc);
    write!(&mut head, "{len}\nok\n")?;
    Ok(ByteString::new(head))
}

// The whole frame of a reply.
fn frame_of(alloc: Global, reply: Reply) -> Result<ByteString, ReplyFault>
    ensures { IfOk result (λ frame. frame ≡ reply_frame (bytes_of reply)) }
{
    let mut frame = Vec::new(alloc);
    send_reply(alloc, &mut frame, reply)?;
    Ok(ByteString::new(frame))
}

impl Outbox {
    /// An outbox with nothing to send.
    pub(crate) fn new(alloc: Global) -> Outbox
        ensures { result ≡ [] }
    {
        Outbox {
            head: Piece::new(alloc),
            body: Piece::new(alloc),
        }
    }

    /// How many bytes are still to be sent.
    pub(crate) fn len(&self) -> usize
        ensures { result ≡ length self.now }
    {
        self.head.len() + self.body.len()
    }

    /// Whether nothing is to be sent.
    pub(crate) fn is_empty(&self) -> bool
        ensures none { result ≡ true → self.now ≡ [] }
        ensures some { result ≡ false → 1 ≤ length self.now }
    {
        self.len() == 0
    }

    // Makes data the next to be sent, after what precedes them.
    fn put_data(&mut self, alloc: Global, content: ByteString) -> Result<(), ReplyFault>
        ensures ok { OnOk result (self.new ≡ reply_frame (codes "ok\n" ++ content)) }
    {
        let Ok(head) = head_of(alloc, content.as_bytes().len() + 3) else {
            return Err(ReplyFault::Memory);
        };
        self.head = Piece::of(head);
        self.body = Piece::of(content);
        Ok(())
    }

    // Makes these bytes the next to be sent.
    fn put(&mut self, alloc: Global, bytes: ByteString)
        ensures { self.new ≡ bytes }
    {
        self.head = Piece::of(bytes);
        self.body = Piece::new(alloc);
    }

    // Makes the frame of a reply the next to be sent, in one piece.
    fn put_frame(&mut self, alloc: Global, reply: Reply) -> Result<(), ReplyFault>
        ensures ok { OnOk result (self.new ≡ reply_frame (bytes_of reply)) }
    {
        let frame = frame_of(alloc, reply)?;
        self.put(alloc, frame);
        Ok(())
    }

    /// Makes a reply the next to be sent.
    pub(crate) fn put_reply(&mut self, alloc: Global, reply: Reply) -> Result<(), ReplyFault>
        ensures ok { OnOk result (self.new ≡ reply_frame (bytes_of reply)) }
    {
        match reply {
            Reply::Done(data) => {
                if data.as_bytes().len() >= LONG {
                    return self.put_data(alloc, data);
                }
                self.put_frame(alloc, Reply::Done(data))
            }
            other => self.put_frame(alloc, other),
        }
    }

    /// Makes the line that reports a bad frame the next to be sent.
    pub(crate) fn put_bad_frame(&mut self, alloc: Global) -> Result<(), ReplyFault>
        ensures ok { OnOk result (self.new ≡ last_line HowEnded.BadFrame) }
    {
        let mut line = Vec::new(alloc);
        send_bad_frame(&mut line)?;
        self.put(alloc, ByteString::new(line));
        Ok(())
    }

    /// Writes once, and returns how many bytes went out; none if the writer takes nothing now (`WouldBlock`).
    pub(crate) fn send<W: Write>(&mut self, alloc: Global, writer: &mut W) -> io::Result<usize>
        ensures went { (gone : List ℕ) × (self.old ≡ gone ++ self.new) × Appends (W.contents writer.old) (W.contents writer.new) gone
            × IfOk result (λ n. n ≡ length gone) }
    {
        if self.head.len() == 0 {
            return self.body.send(alloc, writer);
        }
        self.head.send(alloc, writer)
    }
}
