ghost use Rattle.fork_frame.specs.Frame.{OneFrame, OneStream};
ghost use Rattle.fork_frame.specs.Fronts.{FrontIsRead};
ghost use Rattle.fork_frame.specs.Reply.{NoReplyIsLast, OneReply};

/// The grammar of frames is unambiguous: bytes begin with at most one frame, and an input is one list
/// of requests with one end.
pub fn same_bytes_are_same_requests()
    ensures frame { OneFrame }
    ensures stream { OneStream }
{}

/// What is sent can be read in only one way: bytes begin with at most one reply, and no reply begins as
/// the line for a bad frame does.
pub fn same_bytes_are_same_replies()
    ensures reply { OneReply }
    ensures last { NoReplyIsLast }
{}

/// Of an input that is cut off after some frames, these are read, and then the first of those that followed.
pub fn a_front_of_frames_is_read()
    ensures { FrontIsRead }
{}
