ghost use Rattle.std.specs.Prelude.{◌≡◌, List, ℕ, true};
ghost use Rattle.fork_reach.specs.Reach.{IsReached, is_reached};
ghost use Rattle.fork_reach.specs.Source.{Objects};

/// A law, with no code to run: the test `is_reached` and the relation `IsReached` agree, for any links.
pub fn reached_is_led_to()
    ensures found { (next : List ℕ → List (List ℕ)) (objects : Objects) (roots : List (List ℕ)) (name : List ℕ) → is_reached next objects roots name ≡ true → IsReached next objects roots name }
    ensures only { (next : List ℕ → List (List ℕ)) (objects : Objects) (roots : List (List ℕ)) (name : List ℕ) → IsReached next objects roots name → is_reached next objects roots name ≡ true }
{}
