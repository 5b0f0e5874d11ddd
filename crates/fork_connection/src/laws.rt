ghost use Rattle.fork_connection.specs.Inbox.{CutsChangeNothing, TakesWhatCame};
ghost use Rattle.fork_connection.specs.Turns.{EachIsHeard};

/// A law, with no code to run: the frames taken from bytes that come in pieces are those of all the bytes,
/// whatever the pieces, and whenever the frames are taken.
pub fn cuts_change_nothing()
    ensures taken { TakesWhatCame }
    ensures cuts { CutsChangeNothing }
{}

/// A law, with no code to run: whatever is done at many connections, in whatever order, each peer is sent the
/// replies to its frames in order, and then, if what follows is not a frame, the line that says so.
pub fn each_is_heard()
    ensures { EachIsHeard }
{}
