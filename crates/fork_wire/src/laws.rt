ghost use Rattle.std.specs.Prelude.{◌≡◌, ◌≢◌, true, false, ◌≤◌, ◌++◌, None, Some, ℕ, List, length};
ghost use Rattle.std.specs.FinMap.{get, insert};
ghost use Rattle.push_stream.specs.declared.upload_limit.TheConstants.{MAX_UPLOAD};
ghost use Rattle.fork_model.specs.Sound.{IsOrderlyWorld};
ghost use Rattle.fork_model.specs.View.{View};
ghost use Rattle.fork_request.specs.Asked.{Prunes, asked};
ghost use Rattle.fork_request.specs.declared.reply.Reply.{Reply};
ghost use Rattle.fork_model.specs.World.{AreFine, Explains, Steps, World};
ghost use Rattle.fork_host.specs.Shown.{HostState, Trusted, world_of};
ghost use Rattle.fork_host.specs.Uploads.{without_uploads, uploads_of};
ghost use Rattle.fork_frame.specs.declared.frame.Frame.{Frame};
ghost use Rattle.fork_frame.specs.Frame.{AreFrames, IsRequestStream};
ghost use Rattle.fork_frame.specs.declared.session_end.Ended.{Ended};
ghost use Rattle.fork_frame.specs.declared.session_end.Ended.TheVariants.{Clean};
ghost use Rattle.fork_wire.specs.Again.{AreSettled, settled};
ghost use Rattle.fork_wire.specs.AtOnce.{EachIsHeardAtOnce, RoundsAreOne};
ghost use Rattle.fork_wire.specs.Kept.{is_kept, kept_bytes, kept_of};
ghost use Rattle.fork_wire.specs.Reopening.{ArePartFrames, Reopens, with_upload};
ghost use Rattle.fork_wire.specs.Sessions.{IsAnswered, event_of, events_of, frames_of};
ghost use Rattle.fork_wire.specs.UploadLog.{CopiesAreEnough};

/// A law, with no code to run: frames that are repeated get the same replies and lead to the same world, if
/// the stores are trusted and show the same world, and no host fault occurs. The exception is the numbers
/// that report on the store to the host itself: the worlds do not determine them.
pub fn a_session_is_served_again()
    ensures replies { (old new : HostState) (frames : List Frame) (replies : List Reply) (old2 new2 : HostState) (replies2 : List Reply)
        → IsAnswered old new frames replies → AreFine replies → IsAnswered old2 new2 frames replies2 → AreFine replies2
        → Trusted old → Trusted old2 → world_of old ≡ world_of old2 → settled (events_of frames) replies ≡ settled (events_of frames) replies2 }
    ensures all { (old new : HostState) (frames : List Frame) (replies : List Reply) (old2 new2 : HostState) (replies2 : List Reply)
        → IsAnswered old new frames replies → AreFine replies → IsAnswered old2 new2 frames replies2 → AreFine replies2
        → Trusted old → Trusted old2 → world_of old ≡ world_of old2 → AreSettled (events_of frames) → replies ≡ replies2 }
    ensures worlds { (old new : HostState) (frames : List Frame) (replies : List Reply) (old2 new2 : HostState) (replies2 : List Reply)
        → IsAnswered old new frames replies → AreFine replies → IsAnswered old2 new2 frames replies2 → AreFine replies2
        → Trusted old → Trusted old2 → world_of old ≡ world_of old2 → world_of new ≡ world_of new2 }
{}

/// A law, with no code to run: what a journal kept of a session is a stream of frames. Repeated without host
/// faults, over trusted stores that show the same world, the stream leads to the same world as the whole
/// session, whatever host faults occurred in the session.
pub fn what_is_kept_is_enough()
    ensures frames { (frames : List Frame) (replies : List Reply) (bytes : List ℕ) → AreFrames frames bytes → AreFrames (kept_of frames replies) (kept_bytes frames replies) }
    ensures worlds { (old new : HostState) (frames : List Frame) (replies : List Reply) (old2 new2 : HostState) (replies2 : List Reply)
        → IsAnswered old new frames replies → IsAnswered old2 new2 (kept_of frames replies) replies2 → AreFine replies2
        → Trusted old → Trusted old2 → world_of old ≡ world_of old2 → world_of new ≡ world_of new2 }
{}

/// A law, with no code to run: a frame that a journal does not keep changed nothing, and a prune that it keeps
/// changed something.
pub fn what_is_not_kept_changed_nothing()
    ensures left { (old new : World) (frame : Frame) (reply : Reply) → Steps old (event_of frame) reply new → is_kept frame reply ≡ false → new ≡ old }
    ensures pruned { (old new : World) (frame : Frame) (reply : Reply) → asked frame.payload ≡ Prunes → Steps old (event_of frame) reply new → is_kept frame reply ≡ true → new ≢ old }
{}

/// A law, with no code to run: a stream that is cut between two frames and served in two halves is
/// equivalent to the stream served whole.
pub fn a_session_in_two_halves_is_the_whole()
    ensures stream { (input more : List ℕ) (frames others : List Frame) (ended : Ended)
        → IsRequestStream input frames Clean → IsRequestStream more others ended → IsRequestStream (input ++ more) (frames ++ others) ended }
    ensures answered { (old mid new : HostState) (frames others : List Frame) (replies more : List Reply)
        → IsAnswered old mid frames replies → IsAnswered mid new others more → IsAnswered old new (frames ++ others) (replies ++ more) }
    ensures told { (replies more : List Reply) → frames_of (replies ++ more) ≡ frames_of replies ++ frames_of more }
{}

/// A law, with no code to run: if a tenant has no open upload, the parts of an upload reopen it with all
/// its bytes and change nothing else.
pub fn parts_open_an_upload_again()
    ensures { (world : World) (tenant bytes : List ℕ) (view : View) (frames : List Frame)
        → get world tenant ≡ Some view → view.upload ≡ None → length bytes ≤ MAX_UPLOAD → ArePartFrames tenant bytes frames
        → (replies : List Reply) × Explains world (events_of frames) replies (insert world tenant (with_upload view bytes)) × AreFine replies }
{}

/// A law, with no code to run: from a world without its open uploads, frames that reopen all of them lead
/// back to the whole world. So does serving these frames over a trusted store, if no host fault occurs.
pub fn all_uploads_open_again()
    ensures opened { (world : World) (frames : List Frame) → IsOrderlyWorld world → Reopens (uploads_of world) frames
        → (replies : List Reply) × Explains (without_uploads world) (events_of frames) replies world × AreFine replies }
    ensures served { (world : World) (frames : List Frame) (old new : HostState) (replies : List Reply) → IsOrderlyWorld world → Reopens (uploads_of world) frames
        → IsAnswered old new frames replies → AreFine replies → Trusted old → world_of old ≡ without_uploads world → world_of new ≡ world }
{}

/// A law, with no code to run: what `copy_uploads` writes for the frames that a journal kept of a session opens the uploads
/// that were open after it, in each world in which those are open that were open before it. Each of these frames is one
/// that a journal keeps, so a repetition does not end at it.
pub fn copied_frames_open_uploads_again()
    ensures { CopiesAreEnough }
{}

/// A law, with no code to run: rounds of many connections, one after another, are one serving. All its
/// frames and replies form one list, in the order of time. So what holds for the frames and replies of a
/// session holds for this list: each tenant is told what it would be told alone, on whatever connections
/// it and others ask. And each peer receives the replies to its own frames, in their order.
pub fn rounds_are_one_serving()
    ensures joined { RoundsAreOne }
    ensures heard { EachIsHeardAtOnce }
{}
