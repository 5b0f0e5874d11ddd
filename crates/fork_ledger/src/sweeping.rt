// Sweeps in slices, and whole collections.
ghost use Rattle.std.specs.Prelude.{◌≡◌, ◌≢◌, ◌≤◌, ◌<◌, ◌+◌, ℕ, IsTrue, IfErr, IfOk, OnOk, OnErr, length, if◌then◌else◌};
ghost use Rattle.git_name.specs.Count.{fault_in};
ghost use Rattle.looks.specs.Looks.{Looks, Walks};
ghost use Rattle.looks.specs.Places.{at_start};
ghost use Rattle.looks.specs.Slices.{Collects, Sweeps};
ghost use Rattle.object_table.specs.Rows.{places_of};
ghost use Rattle.object_table.specs.Holders.{is_held_in};
ghost use Rattle.fork_ledger.specs.Kept.{Covers, IsExact, KeepsHeld, TakesAway};
ghost use Rattle.fork_ledger.specs.Led.{AreLed};
ghost use Rattle.fork_ledger.specs.Store.{CountsFault};

use crate::fault::VaultFault;
use crate::sweep_step::look_once;
use loose_store::LooseFiles;
use object_table::Holdings;
use read_cache::CachedStore;
use std::alloc::Global;

fn number_of(left: bool) -> u64
    ensures { result ≡ (if left then 1 else 0) }
{
    if left { 1 } else { 0 }
}

// Looks at `most` places, or fewer if the catalogue becomes empty. Returns how many names were removed.
pub(crate) fn sweep<S: LooseFiles>(
    alloc: Global,
    files: &mut CachedStore<S>,
    holdings: &mut Holdings,
    most: u64,
) -> Result<u64, VaultFault>
    ensures sweeps { OnOk result (Sweeps (is_held_in holdings.old.ledgers) most (places_of holdings.old.catalogue) (places_of holdings.new.catalogue)) }
    ensures fault { OnErr result ((n : ℕ) × (n < most) × Looks (is_held_in holdings.old.ledgers) n (places_of holdings.old.catalogue) (places_of holdings.new.catalogue)) }
    ensures count { IfOk result (λ count. length (places_of holdings.new.catalogue).names + count ≡ length (places_of holdings.old.catalogue).names) }
    ensures few { IfOk result (λ count. count ≤ most) }
    ensures ledgers { holdings.new.ledgers ≡ holdings.old.ledgers }
    ensures keeps { IsTrue files.old.honest → KeepsHeld holdings.old.ledgers files.old.contents files.new.contents }
    ensures covers { IsTrue files.old.honest → Covers files.old.contents (places_of holdings.old.catalogue) → Covers files.new.contents (places_of holdings.new.catalogue) }
    ensures exact { IsTrue files.old.honest → OnOk result (IsExact files.old.contents (places_of holdings.old.catalogue) → IsExact files.new.contents (places_of holdings.new.catalogue)) }
    ensures away { IsTrue files.old.honest → OnOk result (TakesAway files.old.contents files.new.contents) }
    ensures led { IsTrue files.old.honest → AreLed holdings.old.links files.old.contents → AreLed holdings.new.links files.new.contents }
    ensures honest { files.new.honest ≡ files.old.honest }
    ensures cause { CountsFault files.old.failures files.new.failures (fault_in result) }
    ensures undamaged { IfErr result (λ fault. fault ≢ VaultFault.Damaged) }
    ensures apart { IfErr result (λ fault. fault ≢ VaultFault.Collision) }
{
    let mut count = 0;
    for done in 0..most {
        if holdings.len() == 0 {
            return Ok(count);
        }
        let left = look_once(alloc, files, holdings)?;
        count += number_of(left);
    }
    Ok(count)
}

// Looks at every place, from the first to the last. Returns how many names were removed.
pub(crate) fn collect<S: LooseFiles>(
    alloc: Global,
    files: &mut CachedStore<S>,
    holdings: &mut Holdings,
) -> Result<u64, VaultFault>
    ensures collects { OnOk result (Collects (is_held_in holdings.old.ledgers) (places_of holdings.old.catalogue) (places_of holdings.new.catalogue)) }
    ensures fault { OnErr result ((n : ℕ) × Walks (is_held_in holdings.old.ledgers) n (at_start (places_of holdings.old.catalogue)) (places_of holdings.new.catalogue)) }
    ensures count { IfOk result (λ count. length (places_of holdings.new.catalogue).names + count ≡ length (places_of holdings.old.catalogue).names) }
    ensures ledgers { holdings.new.ledgers ≡ holdings.old.ledgers }
    ensures keeps { IsTrue files.old.honest → KeepsHeld holdings.old.ledgers files.old.contents files.new.contents }
    ensures covers { IsTrue files.old.honest → Covers files.old.contents (places_of holdings.old.catalogue) → Covers files.new.contents (places_of holdings.new.catalogue) }
    ensures exact { IsTrue files.old.honest → OnOk result (IsExact files.old.contents (places_of holdings.old.catalogue) → IsExact files.new.contents (places_of holdings.new.catalogue)) }
    ensures away { IsTrue files.old.honest → OnOk result (TakesAway files.old.contents files.new.contents) }
    ensures led { IsTrue files.old.honest → AreLed holdings.old.links files.old.contents → AreLed holdings.new.links files.new.contents }
    ensures honest { files.new.honest ≡ files.old.honest }
    ensures cause { CountsFault files.old.failures files.new.failures (fault_in result) }
    ensures undamaged { IfErr result (λ fault. fault ≢ VaultFault.Damaged) }
    ensures apart { IfErr result (λ fault. fault ≢ VaultFault.Collision) }
{
    holdings.restart();
    let mut count = 0;
    for done in 0..holdings.len() {
        let left = look_once(alloc, files, holdings)?;
        count += number_of(left);
    }
    holdings.restart();
    Ok(count)
}
