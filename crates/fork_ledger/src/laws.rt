ghost use Rattle.std.specs.Prelude.{◌≡◌, ◌≤◌, ◌*◌, ℕ, Bool, List, length, sum};
ghost use Rattle.std.specs.FinMap.{contains_key};
ghost use Rattle.fork_request.specs.Harms.{Harmed};
ghost use Rattle.loose_store.specs.Files.{Files};
ghost use Rattle.fork_ledger.specs.Harms.{AreHarms};
ghost use Rattle.fork_ledger.specs.Swept.{AreSwept, IsAccounted};
ghost use Rattle.fork_ledger.specs.Taken.{is_taken};
ghost use Rattle.fork_ledger.specs.Tenants.{VaultState};

use looks::sharp_sweeps;

/// A law, with no code to run: if two lists are the harms of the same files and held names, they are equal.
pub fn one_list_of_harms()
    ensures { (files : Files) (held : List ℕ → Bool) (first second : Harmed) → AreHarms first files held → AreHarms second files held → first ≡ second }
{}

/// A law, with no code to run. Take sweeps in slices that add up to at least twice the number of catalogued names,
/// with no other call between them. Afterwards, an honest store has a file for a name if and only if some tenant
/// holds it.
pub fn sharp_slices()
    ensures { (slices : List ℕ) (old new : VaultState) → AreSwept slices old new → old.places.place ≤ length old.places.names → 2 * length old.places.names ≤ sum slices
        → IsAccounted new → (name : List ℕ) → contains_key new.files name ≡ is_taken new.tenants name }
{
    sharp_sweeps();
}
