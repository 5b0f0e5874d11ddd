ghost use Rattle.std.specs.Prelude.{◌≡◌, List, ℕ, Some};
ghost use Rattle.fork_reach.specs.Source.{Objects};
ghost use Rattle.fork_query.specs.Peel.{LeadsTo, peeled};

/// A law, with no code to run: the function `peeled` and the relation `LeadsTo` agree.
pub fn peeled_is_led_to()
    ensures found { (objects : Objects) (end name : List ℕ) → peeled objects name ≡ Some end → LeadsTo objects end name }
    ensures only { (objects : Objects) (end name : List ℕ) → LeadsTo objects end name → peeled objects name ≡ Some end }
{}
