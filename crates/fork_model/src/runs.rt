// What determines a run.
ghost use Rattle.std.specs.Prelude.{◌≡◌, ℕ, List};
ghost use Rattle.fork_request.specs.declared.reply.Reply.{Reply};
ghost use Rattle.fork_model.specs.Disclosure.{happenings};
ghost use Rattle.fork_model.specs.World.{Event, Explains, World, met};

/// A run is determined by the world that it begins in, its steps and the replies to them: no other worlds can be in
/// between. So it ends in one world. What a tenant meets in it, and what happens to the tenant, do not depend on which
/// worlds explain the run.
pub fn a_run_is_settled_by_its_replies()
    ensures world { (old new new2 : World) (steps : List Event) (replies : List Reply)
        → Explains old steps replies new → Explains old steps replies new2
        → new ≡ new2 }
    ensures met { (tenant : List ℕ) (old new new2 : World) (steps : List Event) (replies : List Reply)
        → (run : Explains old steps replies new) → (run2 : Explains old steps replies new2)
        → met tenant old steps replies new run ≡ met tenant old steps replies new2 run2 }
    ensures happenings { (tenant : List ℕ) (old new new2 : World) (steps : List Event) (replies : List Reply)
        → (run : Explains old steps replies new) → (run2 : Explains old steps replies new2)
        → happenings tenant old steps replies new run ≡ happenings tenant old steps replies new2 run2 }
{}
