// What offers disclose, and to which requests.
ghost use Rattle.std.specs.Prelude.{◌≡◌, ◌≢◌, false, true, None, ℕ, List};
ghost use Rattle.std.specs.FinMap.{empty, get, insert, keys};
ghost use Rattle.fork_request.specs.Asked.{Ask, AsksOffers, ForksOffer, MakesOffer, Withdraws};
ghost use Rattle.fork_request.specs.Names.{is_plain_name};
ghost use Rattle.fork_request.specs.declared.name.TheConstants.{MAX_REPOSITORY_NAME, MAX_TENANT_NAME};
ghost use Rattle.fork_request.specs.declared.refusal.Refusal.TheVariants.{NoOffer};
ghost use Rattle.fork_request.specs.declared.reply.Reply.{Reply};
ghost use Rattle.fork_request.specs.declared.reply.Reply.TheVariants.{Refused};
ghost use Rattle.fork_model.specs.Answer.{answer};
ghost use Rattle.fork_model.specs.Context.{Context, met_by, offered_to};
ghost use Rattle.fork_model.specs.Disclosure.{changes_offers, happenings, looks_at_offers, met_along, word_of};
ghost use Rattle.fork_model.specs.Offer.{Pair};
ghost use Rattle.fork_model.specs.Runs.{Asks};
ghost use Rattle.fork_model.specs.View.{View};
ghost use Rattle.fork_model.specs.World.{Agree, Event, Explains, IsUnfaulted, Steps, World, deals_with, met, told};

/// Two runs in which no host fault answers a tenant give it the same replies, if the same happens to it in the same
/// order, and both begin with the same view of it and the same offers to it. Both also end with the same view and
/// offers, whatever else the runs and the worlds are. What happens to a tenant is that it asks, and that offers to it
/// are made and withdrawn: equal ones, at the same places between its requests. Two equal lists of happenings also
/// agree on the order of changes at one place. `replies_met` and `views_met` require less: the tenant meets the same
/// with each request, in whatever order that came about. `worlds_met` adds only that both runs offer it the same in the
/// end.
pub fn offers_disclose_what_they_hold()
    ensures replies { (tenant : List ℕ) (old new : World) (steps : List Event) (replies : List Reply)
        (old2 new2 : World) (steps2 : List Event) (replies2 : List Reply)
        → (run : Explains old steps replies new) → IsUnfaulted tenant steps replies
        → (run2 : Explains old2 steps2 replies2 new2) → IsUnfaulted tenant steps2 replies2
        → Agree tenant old old2 → happenings tenant old steps replies new run ≡ happenings tenant old2 steps2 replies2 new2 run2
        → told tenant steps replies ≡ told tenant steps2 replies2 }
    ensures worlds { (tenant : List ℕ) (old new : World) (steps : List Event) (replies : List Reply)
        (old2 new2 : World) (steps2 : List Event) (replies2 : List Reply)
        → (run : Explains old steps replies new) → IsUnfaulted tenant steps replies
        → (run2 : Explains old2 steps2 replies2 new2) → IsUnfaulted tenant steps2 replies2
        → Agree tenant old old2 → happenings tenant old steps replies new run ≡ happenings tenant old2 steps2 replies2 new2 run2
        → Agree tenant new new2 }
    ensures replies_met { (tenant : List ℕ) (old new : World) (steps : List Event) (replies : List Reply)
        (old2 new2 : World) (steps2 : List Event) (replies2 : List Reply)
        → (run : Explains old steps replies new) → IsUnfaulted tenant steps replies
        → (run2 : Explains old2 steps2 replies2 new2) → IsUnfaulted tenant steps2 replies2
        → get old tenant ≡ get old2 tenant → met tenant old steps replies new run ≡ met tenant old2 steps2 replies2 new2 run2
        → told tenant steps replies ≡ told tenant steps2 replies2 }
    ensures views_met { (tenant : List ℕ) (old new : World) (steps : List Event) (replies : List Reply)
        (old2 new2 : World) (steps2 : List Event) (replies2 : List Reply)
        → (run : Explains old steps replies new) → IsUnfaulted tenant steps replies
        → (run2 : Explains old2 steps2 replies2 new2) → IsUnfaulted tenant steps2 replies2
        → get old tenant ≡ get old2 tenant → met tenant old steps replies new run ≡ met tenant old2 steps2 replies2 new2 run2
        → get new tenant ≡ get new2 tenant }
    ensures worlds_met { (tenant : List ℕ) (old new : World) (steps : List Event) (replies : List Reply)
        (old2 new2 : World) (steps2 : List Event) (replies2 : List Reply)
        → (run : Explains old steps replies new) → IsUnfaulted tenant steps replies
        → (run2 : Explains old2 steps2 replies2 new2) → IsUnfaulted tenant steps2 replies2
        → get old tenant ≡ get old2 tenant → met tenant old steps replies new run ≡ met tenant old2 steps2 replies2 new2 run2
        → offered_to new tenant ≡ offered_to new2 tenant
        → Agree tenant new new2 }
{}

/// What happens to a tenant in a run, and what it met at first, determine what it meets with each of
/// its requests. Nothing else does: no request of another tenant, except one that makes or withdraws an
/// offer to it.
pub fn what_happens_settles_what_is_met()
    ensures { (tenant : List ℕ) (old new : World) (steps : List Event) (replies : List Reply)
        → (run : Explains old steps replies new)
        → met tenant old steps replies new run ≡ met_along (met_by old tenant) (happenings tenant old steps replies new run) }
{}

/// A step that neither makes nor withdraws an offer to a tenant leaves what that tenant is offered. Any other step
/// changes it under at most one key: the giver's name, and the repository that the request names.
pub fn a_step_offers_what_it_deals_with()
    ensures apart { (tenant : List ℕ) (old new : World) (event : Event) (reply : Reply)
        → Steps old event reply new → deals_with tenant event reply ≡ false
        → offered_to new tenant ≡ offered_to old tenant }
    ensures elsewhere { (tenant giver : List ℕ) (old new : World) (ask : Ask) (reply : Reply) (key : Pair)
        → Steps old (Asks giver ask) reply new → key ≢ (giver, word_of ask)
        → get (offered_to new tenant) key ≡ get (offered_to old tenant) key }
{}

/// Forking an offer, or trying to, reveals nothing to its giver. The step leaves the views of all
/// others, including the giver's, and what every tenant is offered: the offer stays as it is.
pub fn forking_an_offer_tells_its_giver_nothing()
    ensures views { (old new : World) (tenant other giver repository copy : List ℕ) (reply : Reply)
        → Steps old (Asks tenant (ForksOffer giver repository copy)) reply new → other ≢ tenant
        → get new other ≡ get old other }
    ensures offers { (old new : World) (tenant receiver giver repository copy : List ℕ) (reply : Reply)
        → Steps old (Asks tenant (ForksOffer giver repository copy)) reply new
        → offered_to new receiver ≡ offered_to old receiver }
{}

/// A tenant that forks what is not offered to it gets the reply that there is no such offer, and its view stays. The
/// reply does not depend on whether the giver exists, or on what the giver has or offers to others.
pub fn an_offer_that_was_not_made_is_no_offer()
    ensures { (context : Context) (view : View) (giver repository copy : List ℕ)
        → is_plain_name MAX_TENANT_NAME giver ≡ true → is_plain_name MAX_REPOSITORY_NAME repository ≡ true → is_plain_name MAX_REPOSITORY_NAME copy ≡ true
        → get context.offered (giver, repository) ≡ None
        → answer context view (ForksOffer giver repository copy) ≡ (Refused (NoOffer giver repository), view) }
{}

/// Only `offers` and `fork-offer` depend on what a tenant is offered: no other answer does. `offers` lists the givers
/// and the repositories of offers, and nothing that they hold; `fork-offer` depends on the one offer that it names.
pub fn offers_are_met_by_two_requests()
    ensures others { (context other : Context) (view : View) (ask : Ask) → context.own ≡ other.own → looks_at_offers ask ≡ false → answer context view ask ≡ answer other view ask }
    ensures listed { (context other : Context) (view : View) → keys context.offered ≡ keys other.offered → answer context view AsksOffers ≡ answer other view AsksOffers }
    ensures forked { (context other : Context) (view : View) (giver repository copy : List ℕ) → get context.offered (giver, repository) ≡ get other.offered (giver, repository)
        → answer context view (ForksOffer giver repository copy) ≡ answer other view (ForksOffer giver repository copy) }
{}

/// Only `offer` and `withdraw` change the offers that a tenant has made: every other answer leaves them. Each of the
/// two leaves the offers to other receivers and of other repositories.
pub fn offers_are_changed_by_two_requests()
    ensures others { (context : Context) (view : View) (ask : Ask) → changes_offers ask ≡ false → (answer context view ask).1.made ≡ view.made }
    ensures made { (context : Context) (view : View) (repository receiver : List ℕ) (key : Pair) → key ≢ (receiver, repository)
        → get (answer context view (MakesOffer repository receiver)).1.made key ≡ get view.made key }
    ensures withdrawn { (context : Context) (view : View) (repository receiver : List ℕ) (key : Pair) → key ≢ (receiver, repository)
        → get (answer context view (Withdraws repository receiver)).1.made key ≡ get view.made key }
{}

/// Adding a tenant that has made no offer changes nothing that is offered. So the others are offered what they were,
/// and the new one meets from the start what was offered to its name before.
pub fn a_new_tenant_changes_no_offer()
    ensures { (world : World) (name receiver : List ℕ) (view : View) → get world name ≡ None → view.made ≡ empty
        → offered_to (insert world name view) receiver ≡ offered_to world receiver }
{}
