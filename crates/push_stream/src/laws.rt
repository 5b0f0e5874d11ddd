ghost use Rattle.std.specs.Prelude.{◌≡◌, ◌++◌, ◌∷◌, [], ℕ, List, Ok, true};
ghost use Rattle.std.specs.List.{concat};
ghost use Rattle.git_name.specs.Object.{Object};
ghost use Rattle.git_reftx.specs.declared.command.Command.{Command};
ghost use Rattle.push_stream.specs.Spelling.{AreWithin, IsStream, records_of};
ghost use Rattle.push_stream.specs.Stream.{AreObjects, Flows, finished, sent_in, stream_of};
ghost use Rattle.push_stream.specs.Upload.{UploadValue, continued, fed, upload_of};

/// A law, with no code to run: the value of an upload after one more piece is that of all its bytes, so
/// how a stream is cut changes nothing.
pub fn pieces_join()
    ensures piece { (bytes piece : List ℕ) → continued (upload_of bytes) piece ≡ upload_of (bytes ++ piece) }
    ensures pieces { (bytes : List ℕ) (pieces : List (List ℕ)) → fed (upload_of bytes) pieces ≡ upload_of (bytes ++ concat pieces) }
{}

/// A law, with no code to run: the objects that a stream holds are valid in the grammars of their kinds
/// and no longer than a host takes, and pieces add no others.
pub fn streams_hold_objects()
    ensures whole { (bytes : List ℕ) → AreObjects (sent_in (stream_of bytes)) }
    ensures within { (bytes : List ℕ) → AreWithin (sent_in (stream_of bytes)) }
    ensures pieces { (upload : UploadValue) (piece : List ℕ) → AreObjects (sent_in upload.stream) → AreObjects (sent_in (continued upload piece).stream) }
{}

/// A law, with no code to run: after an empty line, the records of objects that are valid in their
/// grammars, and no longer than a host takes, read as exactly these objects.
pub fn records_are_read()
    ensures stream { (objects : List Object) → AreObjects objects → AreWithin objects → stream_of (10 ∷ records_of objects) ≡ Flows [] objects true [] }
    ensures whole { (objects : List Object) → AreObjects objects → AreWithin objects → finished (stream_of (10 ∷ records_of objects)) ≡ Ok ([], objects) }
{}

/// A law, with no code to run: a stream that is spelled as command lines and records holds exactly
/// these commands and objects.
pub fn spelled_streams_are_whole()
    ensures stream { (bytes : List ℕ) (commands : List Command) (objects : List Object) → IsStream bytes commands objects → stream_of bytes ≡ Flows commands objects true [] }
    ensures whole { (bytes : List ℕ) (commands : List Command) (objects : List Object) → IsStream bytes commands objects → finished (stream_of bytes) ≡ Ok (commands, objects) }
{}

/// A law, with no code to run: only streams spelled as command lines and records are whole.
pub fn whole_streams_are_spelled()
    ensures { (bytes : List ℕ) (commands : List Command) (objects : List Object) → finished (stream_of bytes) ≡ Ok (commands, objects) → IsStream bytes commands objects }
{}
