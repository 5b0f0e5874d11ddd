ghost use Rattle.std.specs.Prelude.{◌≡◌, ℕ, List};
ghost use Rattle.git_name.specs.Maps.{joined};
ghost use Rattle.git_name.specs.Object.{Object};
ghost use Rattle.push_stream.specs.Reading.{reading_of};
ghost use Rattle.push_stream.specs.Stream.{sent_in, stream_of};
ghost use Rattle.push_stream.specs.Upload.{upload_of};
ghost use Rattle.fork_reach.specs.Objects.{with_objects};
ghost use Rattle.fork_reach.specs.Source.{Objects};
ghost use Rattle.fork_model.specs.Uploads.{AreSent, upload_among};

/// An open upload is what is known of its bytes without the contents of its objects, together with these objects by
/// name. What a tenant sees with these is what it would see if they had been sent in one body.
pub fn uploads_are_their_readings_and_objects()
    ensures upload { (bytes : List ℕ) (objects : Objects) → AreSent objects (sent_in (stream_of bytes)) → upload_among objects (reading_of bytes) ≡ upload_of bytes }
    ensures both { (seen objects : Objects) (sent : List Object) → AreSent objects sent → joined seen objects ≡ with_objects seen sent }
{}
