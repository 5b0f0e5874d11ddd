ghost use Rattle.std.specs.Prelude.{◌≡◌, ℕ, List, None, Some, false};
ghost use Rattle.std.specs.FinMap.{get, insert};
ghost use Rattle.fork_request.specs.Asked.{Ask, AsksObject};
ghost use Rattle.fork_request.specs.Told.{is_host_fault};
ghost use Rattle.fork_request.specs.declared.refusal.Refusal.TheVariants.{Missing};
ghost use Rattle.fork_request.specs.declared.reply.Reply.{Reply};
ghost use Rattle.fork_request.specs.declared.reply.Reply.TheVariants.{Refused};
ghost use Rattle.fork_model.specs.Answer.{answer, left_by};
ghost use Rattle.fork_model.specs.Context.{Context};
ghost use Rattle.fork_model.specs.Missing.{IsMissing};
ghost use Rattle.fork_model.specs.Runs.{Asks};
ghost use Rattle.fork_model.specs.View.{View};
ghost use Rattle.fork_model.specs.World.{World, Steps};

/// An object that a request names, and that the tenant neither sees nor sends, is reported as missing, whatever others
/// hold, if nothing earlier is wrong with the request. The answer reports this, and so does each step without a host
/// fault. Nothing changes, except that a refused `part-end` discards the upload. `missing` is reported for nothing
/// else.
pub fn what_is_lacking_is_missing()
    ensures answer { (context : Context) (view : View) (name : List ℕ) (ask : Ask) → IsMissing view name ask → answer context view ask ≡ (Refused (Missing name), left_by view ask) }
    ensures step { (old new : World) (tenant : List ℕ) (view : View) (name : List ℕ) (ask : Ask) (reply : Reply)
        → get old tenant ≡ Some view → IsMissing view name ask
        → Steps old (Asks tenant ask) reply new → is_host_fault reply ≡ false
        → reply ≡ Refused (Missing name) }
    ensures world { (old new : World) (tenant : List ℕ) (view : View) (name : List ℕ) (ask : Ask) (reply : Reply)
        → get old tenant ≡ Some view → IsMissing view name ask
        → Steps old (Asks tenant ask) reply new → is_host_fault reply ≡ false
        → new ≡ insert old tenant (left_by view ask) }
    ensures only { (context : Context) (view : View) (name : List ℕ) (ask : Ask) → (answer context view ask).0 ≡ Refused (Missing name) → IsMissing view name ask }
    ensures only_step { (old new : World) (tenant : List ℕ) (view : View) (name : List ℕ) (ask : Ask)
        → get old tenant ≡ Some view → Steps old (Asks tenant ask) (Refused (Missing name)) new → IsMissing view name ask }
{}

/// An object that a tenant does not hold is reported as missing, whatever others hold. The answer reports this, and so
/// does each step without a host fault.
pub fn what_is_not_held_is_missing()
    ensures answer { (context : Context) (view : View) (name : List ℕ) → get view.objects name ≡ None → answer context view (AsksObject name) ≡ (Refused (Missing name), view) }
    ensures step { (old new : World) (tenant : List ℕ) (view : View) (name : List ℕ) (reply : Reply)
        → get old tenant ≡ Some view → get view.objects name ≡ None
        → Steps old (Asks tenant (AsksObject name)) reply new → is_host_fault reply ≡ false
        → reply ≡ Refused (Missing name) }
{}
