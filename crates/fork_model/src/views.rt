ghost use Rattle.std.specs.Prelude.{◌≡◌, List, false};
ghost use Rattle.std.specs.List.{AllByRecursion};
ghost use Rattle.fork_request.specs.declared.reply.Reply.{Reply};
ghost use Rattle.fork_request.specs.Asked.{Ask};
ghost use Rattle.fork_request.specs.declared.refusal.Refusal.{Refusal};
ghost use Rattle.fork_request.specs.declared.reply.Reply.TheVariants.{Refused};
ghost use Rattle.fork_request.specs.Told.{is_host_fault};
ghost use Rattle.fork_model.specs.View.{View};
ghost use Rattle.fork_model.specs.World.{World, Event, Explains};
ghost use Rattle.fork_model.specs.Context.{Context};
ghost use Rattle.fork_model.specs.Answer.{answer, left_by};
ghost use Rattle.fork_model.specs.Sound.{IsAlikeWhereTaken, IsOrderly, IsOrderlyWorld, IsRight, IsSound, IsSoundBeside, IsSoundWorld, MayTake, takes_offer};

/// A refused request leaves the view as it was, except that a refused `part-end` discards the upload. No answer of the
/// model is a host fault.
pub fn refusals_leave_the_view()
    ensures view { (context : Context) (view : View) (ask : Ask) (refusal : Refusal) → (answer context view ask).0 ≡ Refused refusal → (answer context view ask).1 ≡ left_by view ask }
    ensures reply { (context : Context) (view : View) (ask : Ask) → is_host_fault (answer context view ask).0 ≡ false }
{}

/// Answers keep a view in order and right, if what is offered may be taken. Runs keep a world in order and right, if
/// each name has only one object in it whenever an offer is taken. If none is taken, what names, kinds, lengths,
/// references and limits determine does not depend on what bytes determine.
pub fn runs_keep_worlds_sound()
    ensures orderly { (context : Context) (view : View) (ask : Ask) → MayTake context view.objects → IsOrderly view → IsOrderly (answer context view ask).1 }
    ensures right { (context : Context) (view : View) (ask : Ask) → IsSoundBeside context view.objects → IsSound view → IsRight (answer context view ask).1 }
    ensures world { (old new : World) (steps : List Event) (replies : List Reply) → (run : Explains old steps replies new) → IsAlikeWhereTaken old steps replies new run → IsSoundWorld old → IsSoundWorld new }
    ensures orderly_world { (old new : World) (steps : List Event) (replies : List Reply) → Explains old steps replies new → AllByRecursion (λ step. takes_offer step ≡ false) steps → IsOrderlyWorld old → IsOrderlyWorld new }
{}
