ghost use Rattle.std.specs.Prelude.{◌≡◌, ◌⊎◌, ◌≢◌, true};
ghost use Rattle.fork_request.specs.declared.reply.Reply.{Reply};
ghost use Rattle.fork_request.specs.declared.reply.Reply.TheVariants.{Refused, Done};
ghost use Rattle.fork_request.specs.Told.{is_host_fault, is_done};
ghost use Rattle.fork_request.specs.declared.host_request.HostRequest.TheVariants.{Bad, Tenants};
ghost use Rattle.fork_request.specs.declared.refusal.Refusal.TheVariants.{BadRequest};
ghost use Rattle.fork_request.specs.declared.host_request.HostRequest.{HostRequest};
ghost use Rattle.fork_model.specs.World.{World, Steps};
ghost use Rattle.fork_model.specs.Runs.{HostAsks};
ghost use Rattle.fork_model.specs.Figures.{figure_lines};

/// A bad request of the host itself is refused as such, or answered by a host fault, and leaves the
/// world.
pub fn bad_host_requests_are_refused()
    ensures reply { (old new : World) (reply : Reply) → Steps old (HostAsks Bad) reply new → (reply ≡ Refused BadRequest) ⊎ (is_host_fault reply ≡ true) }
    ensures world { (old new : World) (reply : Reply) → Steps old (HostAsks Bad) reply new → new ≡ old }
{}

/// A request of the host itself leaves the world. One that is not bad is answered, or gets a host fault. The figures
/// that it reports about tenants are those of the world.
pub fn host_requests_leave_the_world()
    ensures world { (old new : World) (request : HostRequest) (reply : Reply) → Steps old (HostAsks request) reply new → new ≡ old }
    ensures reply { (old new : World) (request : HostRequest) (reply : Reply) → Steps old (HostAsks request) reply new → request ≢ Bad → (is_done reply ≡ true) ⊎ (is_host_fault reply ≡ true) }
    ensures figures { (old new : World) (reply : Reply) → Steps old (HostAsks Tenants) reply new → (reply ≡ Done (figure_lines old)) ⊎ (is_host_fault reply ≡ true) }
{}
