ghost use Rattle.std.specs.Prelude.{IfOk, OnErr};
ghost use Rattle.fork_connection.specs.Turns.{Answered, Loses};

use fork_frame::Frame;
use fork_request::Reply;
use std::alloc::Global;

/// The reply to a frame must not go out, and no further frame may be answered.
#[derive(Clone, Copy, Debug, PartialEq, Eq)]
pub struct Lost;

/// What answers frames, whichever connection they come from.
pub trait Answering {
    /// In the first state the frame was answered with this reply, which led to the second state.
    ghost answered: { Answered Self };

    /// In the first state the frame has no reply, which led to the second state.
    ghost lost: { Loses Self };

    /// Answers a frame.
    fn answer(&mut self, alloc: Global, frame: &Frame) -> Result<Reply, Lost>
        ensures answered { IfOk result (λ reply. answered self.old frame.now reply self.new) }
        ensures lost { OnErr result (lost self.old frame.now self.new) };
}
