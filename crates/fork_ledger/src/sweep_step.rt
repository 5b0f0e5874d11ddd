// Sweeps the catalogue, one place at a time.
ghost use Rattle.std.specs.Prelude.{◌≡◌, ◌≢◌, ◌<◌, ◌+◌, IsTrue, IfErr, IfOk, OnOk, OnErr, length, if◌then◌else◌};
ghost use Rattle.git_name.specs.Count.{fault_in};
ghost use Rattle.looks.specs.Looks.{Look};
ghost use Rattle.object_table.specs.Rows.{LooksNextAt, places_of};
ghost use Rattle.object_table.specs.Holders.{holders_of, is_held_in};
ghost use Rattle.fork_ledger.specs.Kept.{Covers, IsExact, KeepsHeld, TakesAway};
ghost use Rattle.fork_ledger.specs.Led.{AreLed};
ghost use Rattle.fork_ledger.specs.Store.{CountsFault};

use crate::fault::VaultFault;
use git_name::Name;
use loose_store::{FileFault, LooseFiles};
use object_table::Holdings;
use read_cache::CachedStore;
use std::alloc::Global;

// Removes the file of the next name, which no tenant holds, and then the name itself.
fn take_away<S: LooseFiles>(
    alloc: Global,
    files: &mut CachedStore<S>,
    holdings: &mut Holdings,
    name: Name,
) -> Result<(), VaultFault>
    requires next { LooksNextAt (places_of holdings.old.catalogue) name }
    requires free { holders_of holdings.old.ledgers name ≡ 0 }
    ensures look { OnOk result (Look (is_held_in holdings.old.ledgers) (places_of holdings.old.catalogue) (places_of holdings.new.catalogue)) }
    ensures count { OnOk result (length (places_of holdings.new.catalogue).names + 1 ≡ length (places_of holdings.old.catalogue).names) }
    ensures err { OnErr result (places_of holdings.new.catalogue ≡ places_of holdings.old.catalogue) }
    ensures ledgers { holdings.new.ledgers ≡ holdings.old.ledgers }
    ensures keeps { IsTrue files.old.honest → KeepsHeld holdings.old.ledgers files.old.contents files.new.contents }
    ensures covers { IsTrue files.old.honest → Covers files.old.contents (places_of holdings.old.catalogue) → Covers files.new.contents (places_of holdings.new.catalogue) }
    ensures exact { IsTrue files.old.honest → OnOk result (IsExact files.old.contents (places_of holdings.old.catalogue) → IsExact files.new.contents (places_of holdings.new.catalogue)) }
    ensures away { IsTrue files.old.honest → OnOk result (TakesAway files.old.contents files.new.contents) }
    ensures led { IsTrue files.old.honest → AreLed holdings.old.links files.old.contents → AreLed holdings.new.links files.new.contents }
    ensures honest { files.new.honest ≡ files.old.honest }
    ensures cause { CountsFault files.old.failures files.new.failures (fault_in result) }
    ensures undamaged { IfErr result (λ fault. fault ≢ VaultFault.Damaged) }
    ensures apart { IfErr result (λ fault. fault ≢ VaultFault.Collision) }
{
    match files.remove(alloc, name) {
        Ok(()) => {
            holdings.leave(name);
            Ok(())
        }
        Err(FileFault::Device) => {
            holdings.forget(name);
            Err(VaultFault::Store)
        }
        Err(FileFault::Memory) => {
            holdings.forget(name);
            Err(VaultFault::Memory)
        }
    }
}

// Looks at the next place of the catalogue, which is not empty. Returns whether the name there was removed.
pub(crate) fn look_once<S: LooseFiles>(
    alloc: Global,
    files: &mut CachedStore<S>,
    holdings: &mut Holdings,
) -> Result<bool, VaultFault>
    requires { 0 < length (places_of holdings.old.catalogue).names }
    ensures look { OnOk result (Look (is_held_in holdings.old.ledgers) (places_of holdings.old.catalogue) (places_of holdings.new.catalogue)) }
    ensures count { IfOk result (λ left. length (places_of holdings.new.catalogue).names + (if left then 1 else 0) ≡ length (places_of holdings.old.catalogue).names) }
    ensures err { OnErr result (places_of holdings.new.catalogue ≡ places_of holdings.old.catalogue) }
    ensures ledgers { holdings.new.ledgers ≡ holdings.old.ledgers }
    ensures keeps { IsTrue files.old.honest → KeepsHeld holdings.old.ledgers files.old.contents files.new.contents }
    ensures covers { IsTrue files.old.honest → Covers files.old.contents (places_of holdings.old.catalogue) → Covers files.new.contents (places_of holdings.new.catalogue) }
    ensures exact { IsTrue files.old.honest → OnOk result (IsExact files.old.contents (places_of holdings.old.catalogue) → IsExact files.new.contents (places_of holdings.new.catalogue)) }
    ensures away { IsTrue files.old.honest → OnOk result (TakesAway files.old.contents files.new.contents) }
    ensures led { IsTrue files.old.honest → AreLed holdings.old.links files.old.contents → AreLed holdings.new.links files.new.contents }
    ensures honest { files.new.honest ≡ files.old.honest }
    ensures cause { CountsFault files.old.failures files.new.failures (fault_in result) }
    ensures undamaged { IfErr result (λ fault. fault ≢ VaultFault.Damaged) }
    ensures apart { IfErr result (λ fault. fault ≢ VaultFault.Collision) }
{
    let Some(name) = holdings.free_name() else {
        holdings.pass();
        return Ok(false);
    };
    match take_away(alloc, files, holdings, name) {
        Ok(()) => Ok(true),
        Err(fault) => Err(fault),
    }
}
