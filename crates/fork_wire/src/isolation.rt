// The theorem on what a tenant is told.
ghost use Rattle.std.specs.Prelude.{◌≡◌, ℕ, List};
ghost use Rattle.fork_model.specs.Disclosure.{happenings};
ghost use Rattle.fork_request.specs.declared.reply.Reply.{Reply};
ghost use Rattle.fork_model.specs.World.{Agree, Explains, IsUnfaulted, LeavesOffers};
ghost use Rattle.fork_host.specs.Shown.{HostState, Trusted, world_of};
ghost use Rattle.fork_frame.specs.declared.frame.Frame.{Frame};
ghost use Rattle.fork_wire.specs.Sessions.{IsAnswered, events_of, payloads_of, told_to};

/// A law, with no code to run: if two hosts over trusted stores show a tenant the same view and the same
/// offers, and it sends the same payloads to both, then both send it the same bytes, whatever others send
/// in between. Afterwards both again show it the same view and the same offers. This holds unless a host
/// fault answered the tenant, or an offer to it was made or withdrawn. It also holds if equal offers to it
/// are made and withdrawn at the same places between its requests. `frames` and `replies` are those of
/// `IsServed` or `IsStopped`.
pub fn two_sessions_agree()
    ensures explained { (old new : HostState) (frames : List Frame) (replies : List Reply)
        → IsAnswered old new frames replies → Trusted old → Explains (world_of old) (events_of frames) replies (world_of new) }
    ensures replies { (tenant : List ℕ) (old new : HostState) (frames : List Frame) (replies : List Reply)
        → (old2 new2 : HostState) (frames2 : List Frame) (replies2 : List Reply)
        → IsAnswered old new frames replies → IsUnfaulted tenant (events_of frames) replies → LeavesOffers tenant (events_of frames) replies
        → IsAnswered old2 new2 frames2 replies2 → IsUnfaulted tenant (events_of frames2) replies2 → LeavesOffers tenant (events_of frames2) replies2
        → Trusted old → Trusted old2 → Agree tenant (world_of old) (world_of old2)
        → payloads_of tenant frames ≡ payloads_of tenant frames2
        → told_to tenant frames replies ≡ told_to tenant frames2 replies2 }
    ensures worlds { (tenant : List ℕ) (old new : HostState) (frames : List Frame) (replies : List Reply)
        → (old2 new2 : HostState) (frames2 : List Frame) (replies2 : List Reply)
        → IsAnswered old new frames replies → IsUnfaulted tenant (events_of frames) replies → LeavesOffers tenant (events_of frames) replies
        → IsAnswered old2 new2 frames2 replies2 → IsUnfaulted tenant (events_of frames2) replies2 → LeavesOffers tenant (events_of frames2) replies2
        → Trusted old → Trusted old2 → Agree tenant (world_of old) (world_of old2)
        → payloads_of tenant frames ≡ payloads_of tenant frames2
        → Agree tenant (world_of new) (world_of new2) }
    ensures disclosed { (tenant : List ℕ) (old new : HostState) (frames : List Frame) (replies : List Reply)
        → (old2 new2 : HostState) (frames2 : List Frame) (replies2 : List Reply)
        → (run : Explains (world_of old) (events_of frames) replies (world_of new)) → IsUnfaulted tenant (events_of frames) replies
        → (run2 : Explains (world_of old2) (events_of frames2) replies2 (world_of new2)) → IsUnfaulted tenant (events_of frames2) replies2
        → Agree tenant (world_of old) (world_of old2)
        → happenings tenant (world_of old) (events_of frames) replies (world_of new) run ≡ happenings tenant (world_of old2) (events_of frames2) replies2 (world_of new2) run2
        → (told_to tenant frames replies ≡ told_to tenant frames2 replies2) × Agree tenant (world_of new) (world_of new2) }
{}
