// Stages objects for a tenant: adds their names to the catalogue, their files to the store, and their words to the
// tenant's ledger. If some ledger has one of these names with another kind or length, the objects are refused before
// anything is read.
ghost use Rattle.std.specs.Prelude.{◌≡◌, ◌∷◌, [], true, false, List, ℕ, Contains, Err, IsTrue, IfErr, IfOk, OnErr, OnOk, length, map as map_list};
ghost use Rattle.std.specs.List.{All};
ghost use Rattle.git_name.specs.Object.{Object, object_name};
ghost use Rattle.git_name.specs.Count.{fault_in};
ghost use Rattle.looks.specs.Growth.{GrowsAmong};
ghost use Rattle.object_table.specs.Rows.{places_of};
ghost use Rattle.object_table.specs.AllStaged.{AreListed, all_staged_words};
ghost use Rattle.object_table.specs.Clashes.{Clash};
ghost use Rattle.object_table.specs.Holders.{is_held_in};
ghost use Rattle.object_table.specs.Ledgers.{at_ledger};
ghost use Rattle.object_table.specs.Told.{entry_of};
ghost use Rattle.object_table.specs.Words.{staged_words};
ghost use Rattle.loose_store.specs.Stored.{Whole};
ghost use Rattle.fork_ledger.specs.AllStaged.{IsAsTold, MeetsAmong, Receives, StaysWhole, StoresAmong};
ghost use Rattle.fork_ledger.specs.Kept.{Covers, HasFiles, IsExact, KeepsHeld};
ghost use Rattle.fork_ledger.specs.Led.{AreLed, LearnsOf};
ghost use Rattle.fork_ledger.specs.Shown.{tenants_of};
ghost use Rattle.fork_ledger.specs.Store.{CountsFault, IsStored, Meets, StoresAlone};

use crate::fault::VaultFault;
use crate::leading::learn_all;
use crate::receiving::{entries_of, receive, receive_all};
use fork_request::TenantName;
use git_name::Sealed;
use loose_store::LooseFiles;
use object_table::{Entry, Holdings, StageFault};
use read_cache::CachedStore;
use std::alloc::Global;

// Adds an object's name to the catalogue, makes sure that its file is whole, and stages it for a tenant.
pub(crate) fn stage_whole<S: LooseFiles>(
    alloc: Global,
    files: &mut CachedStore<S>,
    holdings: &mut Holdings,
    tenant: &TenantName,
    sealed: Sealed,
) -> Result<(), VaultFault>
    requires covers { IsTrue files.old.honest → Covers files.old.contents (places_of holdings.old.catalogue) }
    ensures ok { OnOk result (holdings.new.ledgers ≡ at_ledger holdings.old.ledgers tenant.now (staged_words (object_name sealed) sealed.kind (length sealed.bytes))) }
    ensures err { OnErr result (holdings.new.ledgers ≡ holdings.old.ledgers) }
    ensures links { holdings.new.links ≡ holdings.old.links }
    ensures grows { GrowsAmong (object_name sealed ∷ []) (places_of holdings.old.catalogue) (places_of holdings.new.catalogue) }
    ensures whole { IsTrue files.old.honest → OnOk result (Whole files.new.contents (object_name sealed) sealed) }
    ensures keeps { IsTrue files.old.honest → HasFiles holdings.old.ledgers files.old.contents → KeepsHeld holdings.old.ledgers files.old.contents files.new.contents }
    ensures stands { IsTrue files.old.honest → StaysWhole files.old.contents files.new.contents }
    ensures covers { IsTrue files.old.honest → Covers files.old.contents (places_of holdings.old.catalogue) → Covers files.new.contents (places_of holdings.new.catalogue) }
    ensures exact { IsTrue files.old.honest → OnOk result (IsExact files.old.contents (places_of holdings.old.catalogue) → IsExact files.new.contents (places_of holdings.new.catalogue)) }
    ensures alone { IsTrue files.old.honest → OnOk result (StoresAlone sealed files.old.contents files.new.contents) }
    ensures damaged { IsTrue files.old.honest → IfErr result (λ fault. fault ≡ VaultFault.Damaged
        → (is_held_in holdings.old.ledgers (object_name sealed) ≡ true) × ((object : Object) → Whole files.old.contents (object_name sealed) object → ⊥)) }
    ensures collision { IsTrue files.old.honest → IsStored (tenants_of files.old.contents holdings.old.ledgers) files.old.contents → IfErr result (λ fault. fault ≡ VaultFault.Collision → Meets sealed files.old.contents) }
    ensures met { (IsAsTold holdings.old.ledgers sealed → ⊥) → (result ≡ Err VaultFault.Collision) × (files.new ≡ files.old) × (holdings.new ≡ holdings.old) }
    ensures still { IsTrue files.old.honest → IfErr result (λ fault. fault ≡ VaultFault.Collision → files.new.contents ≡ files.old.contents) }
    ensures honest { files.new.honest ≡ files.old.honest }
    ensures cause { CountsFault files.old.failures files.new.failures (fault_in result) }
{
    let entry = Entry::of(&sealed);
    if !holdings.may_stage(entry.name, entry.kind, entry.length) {
        return Err(VaultFault::Collision);
    }
    stage_fit(alloc, files, holdings, tenant, sealed)
}

// Does the same for an object whose kind and length agree with each ledger that has its name.
fn stage_fit<S: LooseFiles>(
    alloc: Global,
    files: &mut CachedStore<S>,
    holdings: &mut Holdings,
    tenant: &TenantName,
    sealed: Sealed,
) -> Result<(), VaultFault>
    requires covers { IsTrue files.old.honest → Covers files.old.contents (places_of holdings.old.catalogue) }
    requires told { IsAsTold holdings.old.ledgers sealed }
    ensures ok { OnOk result (holdings.new.ledgers ≡ at_ledger holdings.old.ledgers tenant.now (staged_words (object_name sealed) sealed.kind (length sealed.bytes))) }
    ensures err { OnErr result (holdings.new.ledgers ≡ holdings.old.ledgers) }
    ensures links { holdings.new.links ≡ holdings.old.links }
    ensures grows { GrowsAmong (object_name sealed ∷ []) (places_of holdings.old.catalogue) (places_of holdings.new.catalogue) }
    ensures whole { IsTrue files.old.honest → OnOk result (Whole files.new.contents (object_name sealed) sealed) }
    ensures keeps { IsTrue files.old.honest → HasFiles holdings.old.ledgers files.old.contents → KeepsHeld holdings.old.ledgers files.old.contents files.new.contents }
    ensures stands { IsTrue files.old.honest → StaysWhole files.old.contents files.new.contents }
    ensures covers { IsTrue files.old.honest → Covers files.old.contents (places_of holdings.old.catalogue) → Covers files.new.contents (places_of holdings.new.catalogue) }
    ensures exact { IsTrue files.old.honest → OnOk result (IsExact files.old.contents (places_of holdings.old.catalogue) → IsExact files.new.contents (places_of holdings.new.catalogue)) }
    ensures alone { IsTrue files.old.honest → OnOk result (StoresAlone sealed files.old.contents files.new.contents) }
    ensures damaged { IsTrue files.old.honest → IfErr result (λ fault. fault ≡ VaultFault.Damaged
        → (is_held_in holdings.old.ledgers (object_name sealed) ≡ true) × ((object : Object) → Whole files.old.contents (object_name sealed) object → ⊥)) }
    ensures collision { IsTrue files.old.honest → IfErr result (λ fault. fault ≡ VaultFault.Collision → Meets sealed files.old.contents) }
    ensures still { IsTrue files.old.honest → IfErr result (λ fault. fault ≡ VaultFault.Collision → files.new.contents ≡ files.old.contents) }
    ensures honest { files.new.honest ≡ files.old.honest }
    ensures cause { CountsFault files.old.failures files.new.failures (fault_in result) }
{
    let entry = Entry::of(&sealed);
    if let Err(fault) = receive(alloc, files, holdings, sealed) {
        return Err(fault);
    }
    match holdings.stage(tenant, entry.name, entry.kind, entry.length) {
        Ok(()) => Ok(()),
        Err(StageFault::Memory) => Err(VaultFault::Memory),
        Err(StageFault::Unlisted) => unreachable!(),
        Err(StageFault::Clash) => unreachable!(),
    }
}

// Does the same for several objects, in order. On an `Err` none is staged. Returns those that the
// store gave back.
pub(crate) fn stage_all_whole<S: LooseFiles>(
    alloc: Global,
    files: &mut CachedStore<S>,
    holdings: &mut Holdings,
    tenant: &TenantName,
    objects: Vec<Sealed>,
) -> Result<Vec<Sealed>, VaultFault>
    requires covers { IsTrue files.old.honest → Covers files.old.contents (places_of holdings.old.catalogue) }
    ensures ok { OnOk result (holdings.new.ledgers ≡ at_ledger holdings.old.ledgers tenant.now (all_staged_words (map_list entry_of objects.items))) }
    ensures err { OnErr result (holdings.new.ledgers ≡ holdings.old.ledgers) }
    ensures links { LearnsOf objects.items holdings.old.links holdings.new.links }
    ensures led { IsTrue files.old.honest → AreLed holdings.old.links files.old.contents → AreLed holdings.new.links files.new.contents }
    ensures grows { GrowsAmong (map_list object_name objects.items) (places_of holdings.old.catalogue) (places_of holdings.new.catalogue) }
    ensures receives { IsTrue files.old.honest → OnOk result (Receives objects.items files.old.contents files.new.contents (places_of holdings.old.catalogue) (places_of holdings.new.catalogue)) }
    ensures stands { IsTrue files.old.honest → StaysWhole files.old.contents files.new.contents }
    ensures covers { IsTrue files.old.honest → Covers files.old.contents (places_of holdings.old.catalogue) → Covers files.new.contents (places_of holdings.new.catalogue) }
    ensures damaged { IsTrue files.old.honest → IfErr result (λ fault. fault ≡ VaultFault.Damaged
        → (name : List ℕ) × (is_held_in holdings.old.ledgers name ≡ true) × ((object : Object) → Whole files.old.contents name object → ⊥)) }
    ensures collision { IsTrue files.old.honest → IsStored (tenants_of files.old.contents holdings.old.ledgers) files.old.contents → IfErr result (λ fault. fault ≡ VaultFault.Collision → MeetsAmong objects.items files.old.contents) }
    ensures met { (object : Object) → Contains objects.items object → (IsAsTold holdings.old.ledgers object → ⊥) → (result ≡ Err VaultFault.Collision) × (files.new ≡ files.old) × (holdings.new ≡ holdings.old) }
    ensures still { IsTrue files.old.honest → IfErr result (λ fault. fault ≡ VaultFault.Collision → StoresAmong objects.items files.old.contents files.new.contents) }
    ensures back { IfOk result (λ back. (object : Object) → Contains back.items object → Contains objects.items object) }
    ensures honest { files.new.honest ≡ files.old.honest }
    ensures cause { CountsFault files.old.failures files.new.failures (fault_in result) }
{
    if !may_stage_all(holdings, objects.as_slice()) {
        return Err(VaultFault::Collision);
    }
    stage_all_fit(alloc, files, holdings, tenant, objects)
}

// Whether the kind and length of each object agree with each ledger that has its name.
fn may_stage_all(holdings: &Holdings, objects: &[Sealed]) -> bool
    ensures may { result ≡ true → All (IsAsTold holdings.now.ledgers) objects.now }
    ensures clash { result ≡ false → (object : Object) × Contains objects.now object × (IsAsTold holdings.now.ledgers object → ⊥) }
{
    for sealed in objects {
        let told = Entry::of(sealed);
        if !holdings.may_stage(told.name, told.kind, told.length) {
            return false;
        }
    }
    true
}

// Stages objects whose kinds and lengths agree with each ledger that has their names.
fn stage_all_fit<S: LooseFiles>(
    alloc: Global,
    files: &mut CachedStore<S>,
    holdings: &mut Holdings,
    tenant: &TenantName,
    objects: Vec<Sealed>,
) -> Result<Vec<Sealed>, VaultFault>
    requires covers { IsTrue files.old.honest → Covers files.old.contents (places_of holdings.old.catalogue) }
    requires told { All (IsAsTold holdings.old.ledgers) objects.items }
    ensures ok { OnOk result (holdings.new.ledgers ≡ at_ledger holdings.old.ledgers tenant.now (all_staged_words (map_list entry_of objects.items))) }
    ensures err { OnErr result (holdings.new.ledgers ≡ holdings.old.ledgers) }
    ensures links { LearnsOf objects.items holdings.old.links holdings.new.links }
    ensures led { IsTrue files.old.honest → AreLed holdings.old.links files.old.contents → AreLed holdings.new.links files.new.contents }
    ensures grows { GrowsAmong (map_list object_name objects.items) (places_of holdings.old.catalogue) (places_of holdings.new.catalogue) }
    ensures receives { IsTrue files.old.honest → OnOk result (Receives objects.items files.old.contents files.new.contents (places_of holdings.old.catalogue) (places_of holdings.new.catalogue)) }
    ensures stands { IsTrue files.old.honest → StaysWhole files.old.contents files.new.contents }
    ensures covers { IsTrue files.old.honest → Covers files.old.contents (places_of holdings.old.catalogue) → Covers files.new.contents (places_of holdings.new.catalogue) }
    ensures damaged { IsTrue files.old.honest → IfErr result (λ fault. fault ≡ VaultFault.Damaged
        → (name : List ℕ) × (is_held_in holdings.old.ledgers name ≡ true) × ((object : Object) → Whole files.old.contents name object → ⊥)) }
    ensures collision { IsTrue files.old.honest → IfErr result (λ fault. fault ≡ VaultFault.Collision → MeetsAmong objects.items files.old.contents) }
    ensures still { IsTrue files.old.honest → IfErr result (λ fault. fault ≡ VaultFault.Collision → StoresAmong objects.items files.old.contents files.new.contents) }
    ensures back { IfOk result (λ back. (object : Object) → Contains back.items object → Contains objects.items object) }
    ensures honest { files.new.honest ≡ files.old.honest }
    ensures cause { CountsFault files.old.failures files.new.failures (fault_in result) }
{
    let Ok(entries) = entries_of(alloc, objects.as_slice()) else {
        return Err(VaultFault::Memory);
    };
    let received = match receive_all(alloc, files, holdings, objects) {
        Ok(received) => received,
        Err(fault) => return Err(fault),
    };
    match stage_received(alloc, holdings, tenant, entries.as_slice(), received) {
        Ok(back) => Ok(back),
        Err(StageFault::Memory) => Err(VaultFault::Memory),
        Err(StageFault::Unlisted) => unreachable!(),
        Err(StageFault::Clash) => Err(VaultFault::Collision),
    }
}

// Stages received objects by their ledger entries, and learns the links of those that are here. Returns these.
fn stage_received(
    alloc: Global,
    holdings: &mut Holdings,
    tenant: &TenantName,
    entries: &[Entry],
    received: Vec<Sealed>,
) -> Result<Vec<Sealed>, StageFault>
    ensures ok { OnOk result (holdings.new.ledgers ≡ at_ledger holdings.old.ledgers tenant.now (all_staged_words entries.now)) }
    ensures err { OnErr result (holdings.new.ledgers ≡ holdings.old.ledgers) }
    ensures unlisted { IfErr result (λ fault. fault ≡ StageFault.Unlisted → AreListed (places_of holdings.old.catalogue) entries.now → ⊥) }
    ensures clash { IfErr result (λ fault. fault ≡ StageFault.Clash → Clash holdings.old.ledgers entries.now) }
    ensures places { places_of holdings.new.catalogue ≡ places_of holdings.old.catalogue }
    ensures links { LearnsOf received.items holdings.old.links holdings.new.links }
    ensures back { IfOk result (λ back. back.items ≡ received.items) }
{
    if let Err(fault) = holdings.stage_all(tenant, entries) {
        return Err(fault);
    }
    learn_all(alloc, holdings, received.as_slice());
    Ok(received)
}
