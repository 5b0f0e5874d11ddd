ghost use Rattle.std.specs.Prelude.{◌≡◌, ◌∷◌, [], ℕ, nat_lt, Contains, List, map, None, Some, Ok, Err, true, if◌then◌else◌};
ghost use Rattle.std.specs.FinMap.{contains_key, get};
ghost use Rattle.git_name.specs.Object.{object_name};
ghost use Rattle.git_reftx.specs.Repository.{Repository};
ghost use Rattle.git_reftx.specs.Transaction.{References};
ghost use Rattle.push_stream.specs.Stream.{finished, stream_of};
ghost use Rattle.fork_push.specs.declared.refusal.PushRefusal.TheVariants.{OverQuota};
ghost use Rattle.fork_push.specs.Push.{judged};
ghost use Rattle.fork_query.specs.Fetch.{fetched};
ghost use Rattle.fork_query.specs.Items.{object_of_item};
ghost use Rattle.fork_query.specs.Sides.{Selection, selected};
ghost use Rattle.fork_reach.specs.Objects.{use_of};
ghost use Rattle.fork_reach.specs.Reach.{is_reached, linked_names};
ghost use Rattle.fork_reach.specs.Source.{Objects};
ghost use Rattle.fork_request.specs.Asked.{Ask, Fetches, Pushes};
ghost use Rattle.fork_request.specs.declared.reply.Reply.{Reply};
ghost use Rattle.fork_request.specs.declared.reply.Reply.TheVariants.{Done};
ghost use Rattle.fork_model.specs.Answer.{answer, pushed};
ghost use Rattle.fork_model.specs.Context.{Context};
ghost use Rattle.fork_model.specs.Sound.{AreReferences, IsClosed, IsOrderly, IsRight};
ghost use Rattle.fork_model.specs.Transfer.{AreSendable, AreSendableOffers, HasPrerequisites, HoldTheSame, IsSendable, IsSendableWorld, fetched_objects, received, within_quota};
ghost use Rattle.fork_model.specs.View.{View};
ghost use Rattle.fork_model.specs.World.{World, Event, Explains};

/// If no object is longer than a stream takes, what is fetched is, after an empty line, a whole stream without
/// commands. It has the objects that the wanted names reach and the excluded ones do not.
pub fn what_is_fetched_is_a_stream()
    ensures { (view : View) (wanted excluded : List (List ℕ)) → IsRight view → AreSendable view.objects
        → finished (stream_of (10 ∷ fetched view.objects wanted excluded)) ≡ Ok ([], fetched_objects view.objects wanted excluded) }
{}

/// A receiver that holds what the excluded names reach has, with what is fetched, all that the
/// wanted names reach.
pub fn what_is_fetched_is_enough()
    ensures { (receiver : Objects) (sender : View) (wanted excluded : List (List ℕ)) → IsRight sender → HasPrerequisites receiver sender.objects excluded
        → (name : List ℕ) → is_reached (linked_names sender.objects) sender.objects wanted name ≡ true
        → get (received receiver sender.objects wanted excluded) name ≡ get sender.objects name }
{}

/// A push of what is fetched is accepted from a tenant that holds what the excluded names reach: only the limit can
/// refuse it.
pub fn what_is_fetched_is_taken()
    ensures verdict { (receiver sender : View) (wanted excluded : List (List ℕ)) (old : References)
        → IsRight sender → HasPrerequisites receiver.objects sender.objects excluded → AreReferences receiver.objects old
        → judged (received receiver.objects sender.objects wanted excluded) old receiver.limit (Ok ([], map object_name (fetched_objects sender.objects wanted excluded)))
        ≡ (if nat_lt receiver.limit (use_of (received receiver.objects sender.objects wanted excluded)) then Err OverQuota else Ok old) }
    ensures push { (receiver sender : View) (wanted excluded : List (List ℕ)) (word : List ℕ) (old : Repository)
        → IsRight sender → AreSendable sender.objects → HasPrerequisites receiver.objects sender.objects excluded → AreReferences receiver.objects old.references
        → pushed receiver word old (finished (stream_of (10 ∷ fetched sender.objects wanted excluded))) ≡ within_quota receiver word old (received receiver.objects sender.objects wanted excluded) }
{}

/// If another tenant that holds what was excluded pushes the data of a `fetch` after an empty line, the answer is that
/// to a push of its objects, which only the limit can refuse.
pub fn what_is_fetched_can_be_pushed()
    ensures { (context other : Context) (receiver sender : View) (source word : List ℕ) (items : List (List ℕ)) (repository old : Repository) (selection : Selection) (text : List ℕ)
        → IsRight sender → AreSendable sender.objects → IsOrderly receiver
        → get sender.repositories source ≡ Some repository → selected (object_of_item sender.objects repository) items ≡ Ok selection
        → (answer context sender (Fetches source items)).0 ≡ Done text
        → HasPrerequisites receiver.objects sender.objects selection.excluded
        → get receiver.repositories word ≡ Some old → receiver.upload ≡ None
        → answer other receiver (Pushes word (10 ∷ text)) ≡ within_quota receiver word old (received receiver.objects sender.objects selection.wanted selection.excluded) }
{}

/// A receiver whose objects link to existing objects has the prerequisites if it has the excluded
/// objects themselves.
pub fn excluded_objects_are_enough()
    ensures { (receiver sender : Objects) (excluded : List (List ℕ)) → IsClosed receiver → HoldTheSame sender receiver
        → ((name : List ℕ) → Contains excluded name → contains_key sender name ≡ true → contains_key receiver name ≡ true)
        → HasPrerequisites receiver sender excluded }
{}

/// Answers keep a view's objects short enough to be sent, and runs keep those of each view so. So no object of a host
/// that began without objects is longer than a stream takes.
pub fn answers_keep_views_sendable()
    ensures view { (context : Context) (view : View) (ask : Ask) → AreSendableOffers context → IsSendable view → IsSendable (answer context view ask).1 }
    ensures world { (old new : World) (steps : List Event) (replies : List Reply) → Explains old steps replies new → IsSendableWorld old → IsSendableWorld new }
{}
