ghost use Rattle.std.specs.Prelude.{◌≡◌, ℕ, List, Some};
ghost use Rattle.std.specs.FinMap.{get};
ghost use Rattle.fork_request.specs.declared.reply.Reply.{Reply};
ghost use Rattle.fork_model.specs.View.{View};
ghost use Rattle.fork_model.specs.World.{World, Event, Explains, IsUnfaulted, LeavesOffers, Agree, own, told, alone, meeting, met};
ghost use Rattle.fork_model.specs.Context.{met_by};

/// If no host fault answered a tenant, its replies and its view afterwards are those of a private host that holds this
/// tenant alone and meets the same offers, whatever requests of others come in between. If no offer to it is made or
/// withdrawn, these are the offers at the start.
pub fn a_run_is_private()
    ensures replies { (tenant : List ℕ) (old new : World) (steps : List Event) (replies : List Reply) (view : View)
        → Explains old steps replies new → IsUnfaulted tenant steps replies → LeavesOffers tenant steps replies → get old tenant ≡ Some view
        → told tenant steps replies ≡ (alone view (meeting (met_by old tenant) (own tenant steps))).0 }
    ensures view { (tenant : List ℕ) (old new : World) (steps : List Event) (replies : List Reply) (view : View)
        → Explains old steps replies new → IsUnfaulted tenant steps replies → LeavesOffers tenant steps replies → get old tenant ≡ Some view
        → get new tenant ≡ Some (alone view (meeting (met_by old tenant) (own tenant steps))).1 }
    ensures replies_met { (tenant : List ℕ) (old new : World) (steps : List Event) (replies : List Reply) (view : View)
        → (run : Explains old steps replies new) → IsUnfaulted tenant steps replies → get old tenant ≡ Some view
        → told tenant steps replies ≡ (alone view (met tenant old steps replies new run)).0 }
    ensures view_met { (tenant : List ℕ) (old new : World) (steps : List Event) (replies : List Reply) (view : View)
        → (run : Explains old steps replies new) → IsUnfaulted tenant steps replies → get old tenant ≡ Some view
        → get new tenant ≡ Some (alone view (met tenant old steps replies new run)).1 }
{}

/// Two runs in which no host fault answers a tenant give it the same replies, if it asks the same in both, no offer to
/// it is made or withdrawn, and both begin with the same view of it and the same offers to it. Both also end with the
/// same view and offers, whatever else the runs and the worlds are.
pub fn two_runs_agree()
    ensures replies { (tenant : List ℕ) (old new : World) (steps : List Event) (replies : List Reply)
        (old2 new2 : World) (steps2 : List Event) (replies2 : List Reply)
        → Explains old steps replies new → IsUnfaulted tenant steps replies → LeavesOffers tenant steps replies
        → Explains old2 steps2 replies2 new2 → IsUnfaulted tenant steps2 replies2 → LeavesOffers tenant steps2 replies2
        → Agree tenant old old2 → own tenant steps ≡ own tenant steps2
        → told tenant steps replies ≡ told tenant steps2 replies2 }
    ensures worlds { (tenant : List ℕ) (old new : World) (steps : List Event) (replies : List Reply)
        (old2 new2 : World) (steps2 : List Event) (replies2 : List Reply)
        → Explains old steps replies new → IsUnfaulted tenant steps replies → LeavesOffers tenant steps replies
        → Explains old2 steps2 replies2 new2 → IsUnfaulted tenant steps2 replies2 → LeavesOffers tenant steps2 replies2
        → Agree tenant old old2 → own tenant steps ≡ own tenant steps2
        → Agree tenant new new2 }
{}
