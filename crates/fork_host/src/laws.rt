ghost use Rattle.std.specs.Prelude.{◌≡◌, ◌≢◌, ◌++◌, ◌∷◌, [], false, length, Some, ℕ, List};
ghost use Rattle.std.specs.List.{AllByRecursion};
ghost use Rattle.fork_request.specs.Asked.{AsksUse};
ghost use Rattle.fork_request.specs.Told.{is_done};
ghost use Rattle.fork_request.specs.declared.host_request.HostRequest.TheVariants.{Census};
ghost use Rattle.fork_request.specs.declared.reply.Reply.{Reply};
ghost use Rattle.fork_request.specs.declared.reply.Reply.TheVariants.{Done};
ghost use Rattle.fork_model.specs.Runs.{Asks, HostAsks};
ghost use Rattle.fork_model.specs.World.{Event, Explains, number_line};
ghost use Rattle.fork_host.specs.Between.{CountsWhatStood, LeavesHeldAndSent};
ghost use Rattle.fork_host.specs.Causes.{CollidesForCause, FailsForCause, NeverDamaged};
ghost use Rattle.fork_host.specs.Given.{asker_of};
ghost use Rattle.fork_host.specs.Shape.{SameShape};
ghost use Rattle.fork_host.specs.Shown.{HostState, Trusted, world_of};
ghost use Rattle.fork_host.specs.Step.{AreNamedAt, IsRun};

/// A law, with no code to run: what a run does as a whole. A run is two runs, split after any of its steps. Over an
/// honest store it is a run of the world. Over any store the honesty stays, and what was answered under a name has that
/// name. A tenant that asked nothing keeps its shape, and so does every tenant if nothing was done.
pub fn a_run_is_its_steps()
    ensures parts { (old new : HostState) (front back : List Event) (told after : List Reply) → IsRun old (front ++ back) (told ++ after) new → length told ≡ length front → (mid : HostState) × IsRun old front told mid × IsRun mid back after new }
    ensures explained { (old new : HostState) (events : List Event) (replies : List Reply) → IsRun old events replies new → Trusted old → Explains (world_of old) events replies (world_of new) }
    ensures honest { (old new : HostState) (events : List Event) (replies : List Reply) → IsRun old events replies new → new.vault.honest ≡ old.vault.honest }
    ensures kept { (old new : HostState) (events : List Event) (replies : List Reply) → IsRun old events replies new → AllByRecursion (λ reply. is_done reply ≡ false) replies
        → (tenant : List ℕ) → SameShape tenant (world_of old) (world_of new) }
    ensures others { (old new : HostState) (events : List Event) (replies : List Reply) (tenant : List ℕ) → IsRun old events replies new → AllByRecursion (λ event. asker_of event ≢ Some tenant) events
        → SameShape tenant (world_of old) (world_of new) }
    ensures named { (old new : HostState) (events : List Event) (replies : List Reply) → IsRun old events replies new → AreNamedAt events replies }
{}

/// A law, with no code to run: why a host fault is reported in a run.
pub fn faults_of_a_run_have_a_cause()
    ensures collision { CollidesForCause }
    ensures damaged { NeverDamaged }
    ensures store { FailsForCause }
{}

/// A law, with no code to run: after requests of tenants that bring no objects, a census reports how many names were
/// catalogued before them. This also holds between two requests for what a tenant uses.
pub fn a_census_tells_what_stood()
    ensures front { CountsWhatStood }
    ensures between { (old new : HostState) (first then : List ℕ) (reply last : Reply) (text : List ℕ) → IsRun old (Asks first AsksUse ∷ HostAsks Census ∷ Asks then AsksUse ∷ []) (reply ∷ Done text ∷ last ∷ []) new
        → text ≡ number_line (length old.vault.places.names) }
{}

/// A law, with no code to run: what is on an honest store after a collection in a run was held when it
/// was collected, or sent after it.
pub fn a_collection_leaves_what_is_held()
    ensures { LeavesHeldAndSent }
{}
