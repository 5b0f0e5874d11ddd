//! Looks at a catalogue of names, one place after another: definitions and laws, with no code to run. After enough
//! looks every name that is left is held, wherever the first look fell.
#![tactic(auto)]

ghost use Rattle.std.specs.Prelude.{◌≡◌, ◌≤◌, ◌*◌, Bool, true, ℕ, List, length, sum};
ghost use Rattle.git_name.specs.Same.{is_listed};
ghost use Rattle.looks.specs.Places.{Places};
ghost use Rattle.looks.specs.Slices.{Collects, SweepsAll};

/// After slices that add up to at least twice the number of names, every name that is left is held.
pub fn sharp_sweeps()
    ensures { (held : List ℕ → Bool) (slices : List ℕ) (old new : Places) → old.place ≤ length old.names → 2 * length old.names ≤ sum slices
        → SweepsAll held slices old new → (name : List ℕ) → is_listed new.names name ≡ true → held name ≡ true }
{}

/// After a whole round every name that is left is held.
pub fn sharp_collection()
    ensures { (held : List ℕ → Bool) (old new : Places) → Collects held old new → (name : List ℕ) → is_listed new.names name ≡ true → held name ≡ true }
{}
