ghost use Rattle.std.specs.Prelude.{◌≡◌, ◌⊎◌, ℕ, List, Some};
ghost use Rattle.std.specs.FinMap.{get};
ghost use Rattle.git_name.specs.Object.{Object};
ghost use Rattle.fork_request.specs.Asked.{Ask};
ghost use Rattle.fork_request.specs.declared.reply.Reply.{Reply};
ghost use Rattle.fork_model.specs.Answer.{answer};
ghost use Rattle.fork_model.specs.Context.{Context};
ghost use Rattle.fork_model.specs.Provenance.{IsFrom, IsUploadFrom, WasOffered, WasSent};
ghost use Rattle.fork_model.specs.View.{View};
ghost use Rattle.fork_model.specs.World.{World, Event, Explains, Meeting, alone, exchanges, exchanges_alone, met, told};

/// A tenant sees after an answer only what it saw before, or what is in the body of this push, in the upload that ends
/// here, or in the offer that is forked. An open upload was open before, or this part began or continued it.
pub fn what_is_seen_was_seen_or_sent()
    ensures object { (context : Context) (view : View) (ask : Ask) (name : List ℕ) (object : Object) → get (answer context view ask).1.objects name ≡ Some object → IsFrom context view (ask, (answer context view ask).0) name object }
    ensures upload { (context : Context) (view : View) (ask : Ask) → IsUploadFrom view (ask, (answer context view ask).0) (answer context view ask).1.upload }
{}

/// A tenant sees at the end of a run only what it saw at the start, what it sent itself, and what was in an offer that
/// it met and forked. What it sent was in the body of a push, or in all the parts of one upload from its beginning to
/// its end. Nothing else that others send is in its view, whatever host faults occur.
pub fn what_runs_show_was_seen_or_sent()
    ensures alone { (view : View) (asked : List Meeting) (name : List ℕ) (object : Object)
        → get (alone view asked).1.objects name ≡ Some object
        → (get view.objects name ≡ Some object) ⊎ (WasSent view (exchanges_alone view asked) name object ⊎ WasOffered asked (alone view asked).0 name object) }
    ensures run { (tenant : List ℕ) (old new : World) (steps : List Event) (replies : List Reply) (view last : View) (name : List ℕ) (object : Object)
        → (run : Explains old steps replies new) → get old tenant ≡ Some view → get new tenant ≡ Some last
        → get last.objects name ≡ Some object
        → (get view.objects name ≡ Some object) ⊎ (WasSent view (exchanges tenant steps replies) name object ⊎ WasOffered (met tenant old steps replies new run) (told tenant steps replies) name object) }
{}

ghost use Rattle.std.specs.Prelude.{◌++◌, ◌∷◌, [], true};
ghost use Rattle.fork_model.specs.Provenance.{AreParts, ends_upload};
ghost use Rattle.fork_model.specs.World.{Exchange};

/// The parts of one upload are one list: none can be left out, and what follows the end of an upload
/// adds nothing to it.
pub fn an_upload_is_all_its_parts()
    ensures one { (exchanges : List Exchange) (bodies others : List (List ℕ)) → AreParts exchanges bodies → AreParts exchanges others → bodies ≡ others }
    ensures behind { (front behind : List Exchange) (end : Exchange) (bodies : List (List ℕ)) → ends_upload end ≡ true → AreParts (front ++ end ∷ behind) bodies → AreParts (front ++ end ∷ []) bodies }
{}

ghost use Rattle.fork_model.specs.Provenance.{WasShown};

/// What a tenant sent, it saw at some moment: after the push that brought it, or after the end of its upload. What was
/// in an offer that it forked, it saw after the fork.
pub fn what_was_sent_was_seen()
    ensures sent { (view : View) (asked : List Meeting) (name : List ℕ) (object : Object) → WasSent view (exchanges_alone view asked) name object → WasShown view asked name }
    ensures offered { (view : View) (asked : List Meeting) (name : List ℕ) (object : Object) → WasOffered asked (alone view asked).0 name object → WasShown view asked name }
{}
