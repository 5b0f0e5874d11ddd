// Receives objects: adds their names to the catalogue, and writes their files to the store.
ghost use Rattle.std.specs.Prelude.{◌≡◌, ◌⊎◌, ◌||◌, ◌∷◌, [], true, List, ℕ, Contains, Some, IsTrue, IfErr, IfOk, IfSome, OnOk, map as map_list};
ghost use Rattle.git_name.specs.Object.{Object, object_name};
ghost use Rattle.git_name.specs.Same.{is_listed, same_name};
ghost use Rattle.git_name.specs.Count.{fault_in};
ghost use Rattle.looks.specs.Growth.{GrowsAmong};
ghost use Rattle.object_table.specs.Rows.{places_of};
ghost use Rattle.object_table.specs.AllStaged.{AreListed};
ghost use Rattle.object_table.specs.Holders.{is_held_in};
ghost use Rattle.object_table.specs.Told.{entry_of};
ghost use Rattle.loose_store.specs.Stored.{Whole};
ghost use Rattle.fork_ledger.specs.AllStaged.{MeetsAmong, Receives, StaysWhole, StoresAmong};
ghost use Rattle.fork_ledger.specs.Kept.{Covers, HasFiles, IsExact, KeepsHeld};
ghost use Rattle.fork_ledger.specs.Store.{CountsFault, Meets, StoresAlone};

use crate::arrival::arrive;
use crate::fault::VaultFault;
use git_name::Sealed;
use loose_store::LooseFiles;
use object_table::{Entry, Holdings};
use read_cache::CachedStore;
use std::alloc::{AllocError, Global};

// Adds an object's name to the catalogue, and makes sure that its file is whole. Returns the object, unless the store
// keeps it.
#[tactic(auto, using(crate::proofs::StoredLemmas::stores_alone, crate::proofs::CoverLemmas::uncovered))]
pub(crate) fn receive<S: LooseFiles>(
    alloc: Global,
    files: &mut CachedStore<S>,
    holdings: &mut Holdings,
    sealed: Sealed,
) -> Result<Option<Sealed>, VaultFault>
    requires covers { IsTrue files.old.honest → Covers files.old.contents (places_of holdings.old.catalogue) }
    ensures ledgers { holdings.new.ledgers ≡ holdings.old.ledgers }
    ensures links { holdings.new.links ≡ holdings.old.links }
    ensures listed { OnOk result ((q : List ℕ) → is_listed (places_of holdings.new.catalogue).names q ≡ (same_name (object_name sealed) q || is_listed (places_of holdings.old.catalogue).names q)) }
    ensures grows { GrowsAmong (object_name sealed ∷ []) (places_of holdings.old.catalogue) (places_of holdings.new.catalogue) }
    ensures whole { IsTrue files.old.honest → OnOk result (Whole files.new.contents (object_name sealed) sealed) }
    ensures stands { IsTrue files.old.honest → StaysWhole files.old.contents files.new.contents }
    ensures keeps { IsTrue files.old.honest → HasFiles holdings.old.ledgers files.old.contents → KeepsHeld holdings.old.ledgers files.old.contents files.new.contents }
    ensures covers { IsTrue files.old.honest → Covers files.old.contents (places_of holdings.old.catalogue) → Covers files.new.contents (places_of holdings.new.catalogue) }
    ensures exact { IsTrue files.old.honest → OnOk result (IsExact files.old.contents (places_of holdings.old.catalogue) → IsExact files.new.contents (places_of holdings.new.catalogue)) }
    ensures alone { IsTrue files.old.honest → OnOk result (StoresAlone sealed files.old.contents files.new.contents) }
    ensures damaged { IsTrue files.old.honest → IfErr result (λ fault. fault ≡ VaultFault.Damaged
        → (is_held_in holdings.old.ledgers (object_name sealed) ≡ true) × ((object : Object) → Whole files.old.contents (object_name sealed) object → ⊥)) }
    ensures collision { IsTrue files.old.honest → IfErr result (λ fault. fault ≡ VaultFault.Collision → Meets sealed files.old.contents) }
    ensures still { IsTrue files.old.honest → IfErr result (λ fault. fault ≡ VaultFault.Collision → files.new.contents ≡ files.old.contents) }
    ensures back { IfOk result (λ back. IfSome back (λ given. given ≡ sealed)) }
    ensures honest { files.new.honest ≡ files.old.honest }
    ensures cause { CountsFault files.old.failures files.new.failures (fault_in result) }
{
    let name = sealed.name();
    let before = holdings.len();
    let Ok(()) = holdings.enter(name) else {
        return Err(VaultFault::Memory);
    };
    let is_new = holdings.len() > before;
    let is_held = holdings.is_held(name);
    match arrive(alloc, files, is_new, is_held, sealed) {
        Ok(back) => Ok(back),
        Err(fault) => Err(fault),
    }
}

// The ledger entries of these objects, in the same order.
pub(crate) fn entries_of(alloc: Global, objects: &[Sealed]) -> Result<Vec<Entry>, AllocError>
    ensures { IfOk result (λ entries. entries.items ≡ map_list entry_of objects.now) }
{
    let mut entries = Vec::with_capacity(alloc, objects.len())?;
    for sealed in objects {
        entries.push(Entry::of(sealed))?;
    }
    Ok(entries)
}

// Keeps an object that the store gave back, if there is memory for it.
fn keep(back: Option<Sealed>, kept: &mut Vec<Sealed>)
    ensures { (object : Object) → Contains kept.new.items object → Contains kept.old.items object ⊎ (back ≡ Some object) }
{
    let Some(sealed) = back else {
        return;
    };
    let _kept = kept.push(sealed);
}

// Receives objects, in order. Returns those that the store gave back. After an `Err` the objects
// before the fault stay received.
pub(crate) fn receive_all<S: LooseFiles>(
    alloc: Global,
    files: &mut CachedStore<S>,
    holdings: &mut Holdings,
    objects: Vec<Sealed>,
) -> Result<Vec<Sealed>, VaultFault>
    requires covers { IsTrue files.old.honest → Covers files.old.contents (places_of holdings.old.catalogue) }
    ensures ledgers { holdings.new.ledgers ≡ holdings.old.ledgers }
    ensures links { holdings.new.links ≡ holdings.old.links }
    ensures listed { OnOk result (AreListed (places_of holdings.new.catalogue) (map_list entry_of objects.items)) }
    ensures grows { GrowsAmong (map_list object_name objects.items) (places_of holdings.old.catalogue) (places_of holdings.new.catalogue) }
    ensures receives { IsTrue files.old.honest → OnOk result (Receives objects.items files.old.contents files.new.contents (places_of holdings.old.catalogue) (places_of holdings.new.catalogue)) }
    ensures stands { IsTrue files.old.honest → StaysWhole files.old.contents files.new.contents }
    ensures covers { IsTrue files.old.honest → Covers files.old.contents (places_of holdings.old.catalogue) → Covers files.new.contents (places_of holdings.new.catalogue) }
    ensures damaged { IsTrue files.old.honest → IfErr result (λ fault. fault ≡ VaultFault.Damaged
        → (name : List ℕ) × (is_held_in holdings.old.ledgers name ≡ true) × ((object : Object) → Whole files.old.contents name object → ⊥)) }
    ensures collision { IsTrue files.old.honest → IfErr result (λ fault. fault ≡ VaultFault.Collision → MeetsAmong objects.items files.old.contents) }
    ensures still { IsTrue files.old.honest → IfErr result (λ fault. fault ≡ VaultFault.Collision → StoresAmong objects.items files.old.contents files.new.contents) }
    ensures back { IfOk result (λ back. (object : Object) → Contains back.items object → Contains objects.items object) }
    ensures honest { files.new.honest ≡ files.old.honest }
    ensures cause { CountsFault files.old.failures files.new.failures (fault_in result) }
{
    let mut kept = Vec::new(alloc);
    for sealed in objects {
        match receive(alloc, files, holdings, sealed) {
            Ok(back) => keep(back, &mut kept),
            Err(fault) => return Err(fault),
        }
    }
    Ok(kept)
}
