ghost use Rattle.std.specs.Prelude.{◌≡◌, ◌≢◌, ◌⊎◌, ◌≤◌, ◌<◌, ◌+◌, ◌∷◌, ℕ, List, [], Contains, Err, false, true, length, map as map_list, IsTrue, OnOk, OnErr, IfOk, IfErr, IfSome, Some, is_some, nat_le};
ghost use Rattle.std.specs.FinMap as map;
ghost use Rattle.std.specs.HashSet.{contains};
ghost use Rattle.std.specs.List.{AllByRecursion, IsDistinct};
ghost use Rattle.std.specs.Result.{IsOk};
ghost use Rattle.git_name.specs.Maps.{joined};
ghost use Rattle.git_name.specs.Object.{Object, object_name};
ghost use Rattle.git_name.specs.Same.{is_listed, same_name};
ghost use Rattle.git_name.specs.Count.{fault_in};
ghost use Rattle.fork_reach.specs.Bases.{is_best_of};
ghost use Rattle.fork_reach.specs.Objects.{use_of};
ghost use Rattle.fork_reach.specs.History.{note_at};
ghost use Rattle.fork_reach.specs.Reach.{is_between, linked_names, parent_names};
ghost use Rattle.loose_store.specs.Durability.{IsSync};
ghost use Rattle.looks.specs.Growth.{GrowsAmong};
ghost use Rattle.looks.specs.Looks.{Looks, Walks};
ghost use Rattle.looks.specs.Places.{at_start};
ghost use Rattle.looks.specs.Slices.{Collects, Sweeps};
ghost use Rattle.fork_ledger.specs.AllStaged.{MeetsAmong, StoresAmong, with_all_staged};
ghost use Rattle.fork_ledger.specs.Checked.{WasAsked};
ghost use Rattle.fork_ledger.specs.Harms.{AreFound};
ghost use Rattle.fork_ledger.specs.Kept.{IsExact, TakesAway};
ghost use Rattle.fork_ledger.specs.Private.{AreAlike, AreAmong, both_of, held_in, with_adopted, with_discarded, with_kept, with_published, with_staged};
ghost use Rattle.fork_ledger.specs.Retained.{Retains};
ghost use Rattle.fork_ledger.specs.Store.{AsksStore, HoldOne, IsOver, LeavesStore, Meets, MeetsHeld, Recalls, StoresAlone};
ghost use Rattle.fork_ledger.specs.Surveyed.{IsKnown};
ghost use Rattle.fork_ledger.specs.Swept.{IsAccounted};
ghost use Rattle.fork_ledger.specs.Taken.{is_taken};
ghost use Rattle.fork_ledger.specs.Tenants.{at_tenant, private_of, shape_of, with_durability, with_tenant};
ghost use Rattle.fork_ledger.specs.Used.{capped};

use crate::checking::check_all;
use crate::fault::VaultFault;
use crate::harms::Harms;
use crate::held::{Held, held_of};
use crate::leading::{learn_links, read_and_learn};
use crate::recalling::{RecallFault, recall};
use crate::staging::{stage_all_whole, stage_whole};
use crate::survey::Survey;
use crate::sweeping::{collect, sweep};
use fork_request::TenantName;
use git_name::{Hashing, Kind, Name, Sealed};
use indexmap::IndexSet;
use looks::sharp_collection;
use loose_store::{FileFault, LooseFiles};
use object_table::{Holdings, NameSet};
use read_cache::CachedStore;
use std::alloc::{AllocError, Global};
use std::marker::Model;

/// The objects of many tenants, over one store that keeps each object once. A tenant sees some objects. It has others
/// staged until they are published or discarded. An object may be both visible and staged. Apart from the store, a
/// vault keeps what is known about each tenant's objects without their bytes, and a catalogue of all names that may
/// be in the store.
///
/// A store is honest if it returns what was written to it. Clauses with this premise speak of objects. Clauses
/// without it speak of names, kinds and lengths, and hold over any store.
#[derive(Drop)]
pub struct Vault<S: LooseFiles> {
    files: CachedStore<S>,
    holdings: Holdings,
}

impl<S: LooseFiles> Model for Vault<S> {
    ghost use Rattle.std.specs.Prelude.{IsTrue};
    ghost use Rattle.object_table.specs.Rows.{places_of};
    ghost use Rattle.fork_ledger.specs.Kept.{IsKept};
    ghost use Rattle.fork_ledger.specs.Led.{AreLed};
    ghost use Rattle.fork_ledger.specs.Shown.{tenants_of};
    ghost use Rattle.fork_ledger.specs.Tenants.{VaultState, vault_code};

    ghost Value = { VaultState };

    ghost coded = { vault_code };

    ghost view = { λ a. record {
      tenants = tenants_of a.files.contents a.holdings.ledgers;
      files = a.files.contents;
      honest = a.files.honest;
      failures = a.files.failures;
      durability = a.files.durability;
      places = places_of a.holdings.catalogue;
    } };

    ghost invariant = { λ a. IsTrue a.files.honest → IsKept a.holdings.ledgers a.files.contents (places_of a.holdings.catalogue) × AreLed a.holdings.links a.files.contents };
}

impl<S: LooseFiles + Drop> Vault<S> {
    /// A vault over the store of a survey, without tenants. The catalogue has the names of the files, in ascending
    /// order.
    pub fn over(survey: Survey<S>) -> Vault<S>
        ensures empty { result.tenants ≡ map.empty }
        ensures store { IsOver survey.contents survey.honest survey.failures result }
        ensures names { IsTrue survey.honest → result.places.names ≡ map.keys survey.contents }
        ensures place { result.places.place ≡ 0 }
    {
        Vault {
            files: survey.files,
            holdings: survey.holdings,
        }
    }
}

impl<S: LooseFiles> Vault<S> {
    /// Returns the store.
    pub fn close(self) -> S
        ensures { IsOver (S.contents result) (S.honest result) (S.failures result) self }
    {
        self.files.close()
    }

    /// The hashing of object names.
    pub fn hashing(&self) -> Hashing {
        self.files.hashing()
    }

    /// Adds a tenant without objects, unless it exists.
    pub fn add(&mut self, alloc: Global, tenant: TenantName) -> Result<(), AllocError>
        ensures ok { OnOk result (self.new.tenants ≡ with_tenant self.old.tenants tenant) }
        ensures err { OnErr result (self.new.tenants ≡ self.old.tenants) }
        ensures store { LeavesStore self.old self.new }
    {
        self.holdings.add(alloc, tenant)
    }

    /// Whether a tenant exists.
    pub fn contains(&self, tenant: &TenantName) -> bool
        ensures { result ≡ map.contains_key self.now.tenants tenant.now }
    {
        self.holdings.contains(tenant)
    }

    /// Reads the object that a tenant sees under this name, and learns its links.
    pub fn get(
        &mut self,
        alloc: Global,
        tenant: &TenantName,
        name: Name,
    ) -> Result<Option<Sealed>, VaultFault>
        ensures found { IsTrue self.old.honest → IfOk result (λ found. found ≡ map.get (private_of self.old.tenants tenant.now).visible name) }
        ensures kept { IsTrue self.old.honest → self.new.tenants ≡ self.old.tenants }
        ensures files { IsTrue self.old.honest → self.new.files ≡ self.old.files }

        // Over any store.
        ensures there { IfOk result (λ found. is_some found ≡ map.contains_key (private_of self.old.tenants tenant.now).visible name) }
        ensures named { IfOk result (λ found. IfSome found (λ object. object_name object ≡ name)) }
        ensures shape { shape_of self.new.tenants ≡ shape_of self.old.tenants }
        ensures store { AsksStore self.old self.new (fault_in result) }
        ensures places { self.new.places ≡ self.old.places }
        ensures apart { IfErr result (λ fault. fault ≢ VaultFault.Collision) }
    {
        if !self.holdings.sees(tenant, name) {
            return Ok(None);
        }
        read_and_learn(alloc, &mut self.files, &mut self.holdings, name)
    }

    /// Reads the object that a tenant has staged under this name, and learns its links.
    pub fn get_staged(
        &mut self,
        alloc: Global,
        tenant: &TenantName,
        name: Name,
    ) -> Result<Option<Sealed>, VaultFault>
        ensures found { IsTrue self.old.honest → IfOk result (λ found. found ≡ map.get (private_of self.old.tenants tenant.now).staged name) }
        ensures kept { IsTrue self.old.honest → self.new.tenants ≡ self.old.tenants }
        ensures files { IsTrue self.old.honest → self.new.files ≡ self.old.files }

        // Over any store.
        ensures there { IfOk result (λ found. is_some found ≡ map.contains_key (private_of self.old.tenants tenant.now).staged name) }
        ensures named { IfOk result (λ found. IfSome found (λ object. object_name object ≡ name)) }
        ensures shape { shape_of self.new.tenants ≡ shape_of self.old.tenants }
        ensures store { AsksStore self.old self.new (fault_in result) }
        ensures places { self.new.places ≡ self.old.places }
        ensures apart { IfErr result (λ fault. fault ≢ VaultFault.Collision) }
    {
        if !self.holdings.has_staged(tenant, name) {
            return Ok(None);
        }
        read_and_learn(alloc, &mut self.files, &mut self.holdings, name)
    }

    /// Borrows the kind and the bytes of the object that a tenant sees under this name, if its file is in memory and
    /// need not be hashed. Otherwise `get` has to read it.
    pub fn lend(&self, tenant: &TenantName, name: Name) -> Option<(Kind, &[u8])>
        ensures found { IfSome result (λ lent. IsTrue self.now.honest × (map.get (private_of self.now.tenants tenant.now).visible name ≡ Some (record { kind = lent.0; bytes = lent.1.now }))) }
        ensures named { IfSome result (λ lent. object_name (record { kind = lent.0; bytes = lent.1.now }) ≡ name) }
    {
        if self.holdings.sees(tenant, name) {
            return self.files.lend(name);
        }
        None
    }

    /// Borrows the kind and the bytes of the object that a tenant sees or has staged under this name, as `lend` does.
    pub fn lend_held(&self, tenant: &TenantName, name: Name) -> Option<(Kind, &[u8])>
        ensures found { IfSome result (λ lent. IsTrue self.now.honest × (map.get (both_of (private_of self.now.tenants tenant.now)) name ≡ Some (record { kind = lent.0; bytes = lent.1.now }))) }
        ensures named { IfSome result (λ lent. object_name (record { kind = lent.0; bytes = lent.1.now }) ≡ name) }
    {
        let Some(_) = self.holdings.word(tenant, name) else {
            return None;
        };
        self.files.lend(name)
    }

    /// Learns the links of an object that a tenant sees or has staged, if its bytes can be borrowed.
    pub fn learn_links(&mut self, alloc: Global, tenant: &TenantName, name: Name)
        ensures { self.new ≡ self.old }
    {
        let Some(_) = self.holdings.word(tenant, name) else {
            return;
        };
        let Some((kind, bytes)) = self.files.lend(name) else {
            return;
        };
        learn_links(alloc, &mut self.holdings, name, kind, bytes);
    }

    /// Keeps the sets of all objects reachable from these names, so that they need not be walked again. A set is kept
    /// only if the tenant sees all of it and its links are known. Does not ask the store.
    pub fn keep_reached(&mut self, alloc: Global, tenant: &TenantName, names: &[Name])
        ensures { self.new ≡ self.old }
    {
        self.holdings.keep_reached(alloc, tenant, names);
    }

    /// The names of the objects that a tenant sees and that are reachable from `wanted` but not from `excluded`, or
    /// `None` if the links of an object on the way are not known. Does not ask the store.
    pub fn known_between(
        &self,
        alloc: Global,
        tenant: &TenantName,
        wanted: &[Name],
        excluded: &[Name],
    ) -> Result<Option<IndexSet<Name, Hashing>>, AllocError>
        ensures found { IsTrue self.now.honest → IfOk result (λ known. IfSome known (λ found. (name : List ℕ) → contains same_name found name ≡ is_between (linked_names (private_of self.now.tenants tenant.now).visible) (private_of self.now.tenants tenant.now).visible wanted.now excluded.now name)) }

        // Over any store.
        ensures there { IfOk result (λ known. IfSome known (λ found. (name : List ℕ) → contains same_name found name ≡ true → map.contains_key (private_of self.now.tenants tenant.now).visible name ≡ true)) }
        ensures rooted { excluded.now ≡ [] → IfOk result (λ known. IfSome known (λ found. (name : List ℕ) → Contains wanted.now name → map.contains_key (private_of self.now.tenants tenant.now).visible name ≡ true → contains same_name found name ≡ true)) }
    {
        self.holdings.between(alloc, tenant, wanted, excluded)
    }

    /// The names of the objects that a tenant sees and that are reachable from `wanted`, but not from `excluded`,
    /// along the parents of commits. Returns `None` if the links of an object on the way are not known. Does not ask
    /// the store.
    pub fn known_history(
        &mut self,
        alloc: Global,
        tenant: &TenantName,
        wanted: &[Name],
        excluded: &[Name],
    ) -> Result<Option<IndexSet<Name, Hashing>>, AllocError>
        ensures same { self.new ≡ self.old }
        ensures found { IsTrue self.old.honest → IfOk result (λ known. IfSome known (λ found. (name : List ℕ) → contains same_name found name ≡ is_between (parent_names (private_of self.old.tenants tenant.now).visible) (private_of self.old.tenants tenant.now).visible wanted.now excluded.now name)) }

        // Over any store.
        ensures there { IfOk result (λ known. IfSome known (λ found. (name : List ℕ) → contains same_name found name ≡ true → map.contains_key (private_of self.old.tenants tenant.now).visible name ≡ true)) }
    {
        self.holdings.history(alloc, tenant, wanted, excluded)
    }

    /// The committer time of a commit that a tenant sees, in seconds since 1970, or 0 for any other object that it
    /// sees. Returns `None` if the tenant does not see the object or its links are not known. Does not ask the store.
    pub fn known_seconds(&self, tenant: &TenantName, name: Name) -> Option<u64>
        ensures told { IsTrue self.now.honest → IfSome result (λ seconds. seconds ≡ (note_at (private_of self.now.tenants tenant.now).visible name).seconds) }

        // Over any store.
        ensures there { IfSome result (λ seconds. map.contains_key (private_of self.now.tenants tenant.now).visible name ≡ true) }
    {
        let is_seen = self.holdings.sees(tenant, name);
        if !is_seen {
            return None;
        }
        let Some(time) = self.holdings.time(name) else {
            return None;
        };
        Some(time.saturating_sub(1))
    }

    /// The names of the best common ancestors of two commits that a tenant sees, or `None` if the parents of one of
    /// their ancestors are not known. Does not ask the store.
    pub fn known_bases(
        &mut self,
        alloc: Global,
        tenant: &TenantName,
        a: Name,
        b: Name,
    ) -> Result<Option<IndexSet<Name, Hashing>>, AllocError>
        ensures same { self.new ≡ self.old }
        ensures best { IsTrue self.old.honest → IfOk result (λ known. IfSome known (λ best. (name : List ℕ) → contains same_name best name ≡ is_best_of (private_of self.old.tenants tenant.now).visible a b name)) }

        // Over any store.
        ensures seen { IfOk result (λ known. IfSome known (λ best. (name : List ℕ) → contains same_name best name ≡ true → map.contains_key (private_of self.old.tenants tenant.now).visible name ≡ true)) }
    {
        self.holdings.bases(alloc, tenant, a, b)
    }

    /// What is known about the object that a tenant sees or has staged under this name. Does not ask the store.
    pub fn kind_of(&self, tenant: &TenantName, name: Name) -> Option<Held>
        ensures { result ≡ held_in (private_of self.now.tenants tenant.now) name }
    {
        held_of(self.holdings.word(tenant, name))
    }

    /// Stages an object for a tenant. If the tenant has staged an object of this name, that one stays. If it sees
    /// one, that one is staged instead. A missing file is written. A whole file is compared with the object and never
    /// overwritten. A damaged file is overwritten only if no tenant holds the name. If some tenant holds the name
    /// with another kind or length, the object is refused before anything is read.
    pub fn stage(
        &mut self,
        alloc: Global,
        tenant: &TenantName,
        sealed: Sealed,
    ) -> Result<(), VaultFault>
        ensures ok { IsTrue self.old.honest → OnOk result (self.new.tenants ≡ at_tenant self.old.tenants tenant.now (with_staged sealed)) }
        ensures err { IsTrue self.old.honest → OnErr result (self.new.tenants ≡ self.old.tenants) }
        ensures stored { IsTrue self.old.honest → OnOk result (StoresAlone sealed self.old.files self.new.files) }
        ensures collision { IsTrue self.old.honest → IfErr result (λ fault. fault ≡ VaultFault.Collision → Meets sealed self.old.files) }
        ensures still { IsTrue self.old.honest → IfErr result (λ fault. fault ≡ VaultFault.Collision → self.new.files ≡ self.old.files) }
        ensures exact { IsTrue self.old.honest → OnOk result (IsExact self.old.files self.old.places → IsExact self.new.files self.new.places) }

        // Over any store.
        ensures grows { GrowsAmong (object_name sealed ∷ []) self.old.places self.new.places }
        ensures shape { OnOk result (shape_of self.new.tenants ≡ shape_of (at_tenant self.old.tenants tenant.now (with_staged sealed))) }
        ensures kept { OnErr result (shape_of self.new.tenants ≡ shape_of self.old.tenants) }
        ensures met { MeetsHeld sealed self.old.tenants → (result ≡ Err VaultFault.Collision) × (self.new ≡ self.old) }
        ensures store { AsksStore self.old self.new (fault_in result) }
    {
        stage_whole(alloc, &mut self.files, &mut self.holdings, tenant, sealed)
    }

    /// Stages objects for a tenant, in order, each as `stage` does. On an `Err` none is staged. Files that were
    /// written before the fault stay until a sweep removes those that no tenant holds.
    pub fn stage_all(
        &mut self,
        alloc: Global,
        tenant: &TenantName,
        objects: Vec<Sealed>,
    ) -> Result<Vec<Sealed>, VaultFault>
        ensures ok { IsTrue self.old.honest → OnOk result (self.new.tenants ≡ at_tenant self.old.tenants tenant.now (with_all_staged objects.items)) }
        ensures err { IsTrue self.old.honest → OnErr result (self.new.tenants ≡ self.old.tenants) }
        ensures came { IsTrue self.old.honest → map.contains_key self.old.tenants tenant.now ≡ true → OnOk result (AllByRecursion (λ object. map.get (private_of self.new.tenants tenant.now).staged (object_name object) ≡ Some object) objects.items) }
        ensures back { IsTrue self.old.honest → map.contains_key self.old.tenants tenant.now ≡ true → IfOk result (λ back. (object : Object) → Contains back.items object → map.get (both_of (private_of self.new.tenants tenant.now)) (object_name object) ≡ Some object) }
        ensures stored { IsTrue self.old.honest → OnOk result (StoresAmong objects.items self.old.files self.new.files) }
        ensures collision { IsTrue self.old.honest → IfErr result (λ fault. fault ≡ VaultFault.Collision → MeetsAmong objects.items self.old.files) }
        ensures still { IsTrue self.old.honest → IfErr result (λ fault. fault ≡ VaultFault.Collision → StoresAmong objects.items self.old.files self.new.files) }
        ensures exact { IsTrue self.old.honest → OnOk result (IsExact self.old.files self.old.places → IsExact self.new.files self.new.places) }

        // Over any store.
        ensures grows { GrowsAmong (map_list object_name objects.items) self.old.places self.new.places }
        ensures shape { OnOk result (shape_of self.new.tenants ≡ shape_of (at_tenant self.old.tenants tenant.now (with_all_staged objects.items))) }
        ensures kept { OnErr result (shape_of self.new.tenants ≡ shape_of self.old.tenants) }
        ensures met { (object : Object) → Contains objects.items object → MeetsHeld object self.old.tenants → (result ≡ Err VaultFault.Collision) × (self.new ≡ self.old) }
        ensures store { AsksStore self.old self.new (fault_in result) }
    {
        stage_all_whole(alloc, &mut self.files, &mut self.holdings, tenant, objects)
    }

    /// Stages the object of this name, kind and length for a tenant that saw it before. Its file is known to be whole,
    /// since a survey read it. Does not ask the store.
    pub fn recall(
        &mut self,
        tenant: &TenantName,
        name: Name,
        kind: Kind,
        length: u64,
    ) -> Result<(), RecallFault>
        requires { IsKnown self.old.honest self.old.files name kind length }
        ensures recalls { OnOk result (Recalls self.old.honest tenant.now name self.old.files self.old.tenants self.new.tenants) }
        ensures err { OnErr result (self.new.tenants ≡ self.old.tenants) }
        ensures cause { IsTrue self.old.honest → IfErr result (λ fault. fault ≡ RecallFault.Memory) }
        ensures grows { GrowsAmong (name ∷ []) self.old.places self.new.places }
        ensures exact { IsTrue self.old.honest → IsExact self.old.files self.old.places → IsExact self.new.files self.new.places }
        ensures files { self.new.files ≡ self.old.files }
        ensures honest { self.new.honest ≡ self.old.honest }
        ensures failures { self.new.failures ≡ self.old.failures }
    {
        recall(&mut self.holdings, tenant, name, kind, length)
    }

    /// The names of the objects that a tenant sees, in ascending order.
    pub fn names(&self, alloc: Global, tenant: &TenantName) -> Result<Vec<Name>, AllocError>
        ensures { IfOk result (λ names. names.items ≡ map.keys (private_of self.now.tenants tenant.now).visible) }
    {
        self.holdings.names(alloc, tenant)
    }

    /// How many objects a tenant sees. Takes time linear in what it holds.
    pub fn seen_count(&self, tenant: &TenantName) -> usize
        ensures { result ≡ map.len (private_of self.now.tenants tenant.now).visible }
    {
        self.holdings.seen_count(tenant)
    }

    /// Makes what a tenant has staged visible to it. Allocates nothing, and does not ask the store.
    pub fn publish(&mut self, tenant: &TenantName)
        ensures tenants { self.new.tenants ≡ at_tenant self.old.tenants tenant.now with_published }
        ensures store { LeavesStore self.old self.new }
    {
        self.holdings.publish(tenant);
    }

    /// Drops what a tenant has staged. Allocates nothing, and does not ask the store.
    pub fn discard(&mut self, tenant: &TenantName)
        ensures tenants { self.new.tenants ≡ at_tenant self.old.tenants tenant.now with_discarded }
        ensures store { LeavesStore self.old self.new }
    {
        self.holdings.discard(tenant);
    }

    /// Drops the objects that a tenant sees, except those with these names. Allocates nothing, and does not ask the
    /// store.
    pub fn keep_only<N: NameSet>(&mut self, tenant: &TenantName, names: &N)
        ensures tenants { self.new.tenants ≡ at_tenant self.old.tenants tenant.now (with_kept (N.names names.now)) }
        ensures store { LeavesStore self.old self.new }
    {
        self.holdings.keep_only(tenant, names);
    }

    /// Drops the objects that a tenant sees and that are not reachable from these names. Returns `false`, and drops none,
    /// if the links of an object on the way are not known. Does not ask the store.
    pub fn retain_reached(
        &mut self,
        alloc: Global,
        tenant: &TenantName,
        roots: &[Name],
    ) -> Result<bool, AllocError>
        ensures retained { IfOk result (λ done. done ≡ true → Retains self.old.honest tenant.now roots.now self.old.tenants self.new.tenants) }
        ensures kept { IfOk result (λ done. done ≡ false → self.new ≡ self.old) }
        ensures err { OnErr result (self.new ≡ self.old) }
        ensures store { LeavesStore self.old self.new }
    {
        self.holdings.retain_reached(alloc, tenant, roots)
    }

    /// Whether the use of what tenant `to` sees, together with the objects with these names that tenant `from` sees,
    /// is at most `limit` bytes. Takes time linear in the names.
    pub fn has_room(
        &self,
        to: &TenantName,
        from: &TenantName,
        names: &IndexSet<Name, Hashing>,
        limit: u64,
    ) -> bool
        ensures { result ≡ nat_le (use_of (joined (private_of self.now.tenants to.now).visible (map.retain_keys (private_of self.now.tenants from.now).visible (contains same_name names.now)))) limit }
    {
        self.holdings.has_room(to, from, names, limit)
    }

    /// Makes the objects with these names that tenant `from` sees visible to tenant `to`. On an `Err` none becomes
    /// visible. What `to` has staged stays. Takes time linear in the names. Does not ask the store.
    pub fn adopt(
        &mut self,
        alloc: Global,
        to: &TenantName,
        from: &TenantName,
        names: &IndexSet<Name, Hashing>,
    ) -> Result<(), VaultFault>
        ensures undamaged { IsTrue self.old.honest → IfErr result (λ fault. fault ≡ VaultFault.Memory) }

        // Over any store.
        ensures ok { OnOk result (self.new.tenants ≡ at_tenant self.old.tenants to.now (with_adopted (map.retain_keys (private_of self.old.tenants from.now).visible (contains same_name names.now)))) }
        ensures same { map.contains_key self.old.tenants to.now ≡ true → OnOk result (AreAmong (map.retain_keys (private_of self.old.tenants from.now).visible (contains same_name names.now)) (private_of self.new.tenants to.now).visible) }
        ensures err { OnErr result (self.new.tenants ≡ self.old.tenants) }
        ensures store { LeavesStore self.old self.new }
        ensures cause { IfErr result (λ fault. (fault ≡ VaultFault.Memory) ⊎ (fault ≡ VaultFault.Damaged)) }
        ensures damaged { IfErr result (λ fault. fault ≡ VaultFault.Damaged → AreAlike (map.retain_keys (private_of self.old.tenants from.now).visible (contains same_name names.now)) (both_of (private_of self.old.tenants to.now)) → ⊥) }
    {
        self.holdings.words_are_alike();
        let Ok(()) = self.holdings.adopt(alloc, to, from, names) else {
            return Err(VaultFault::Memory);
        };
        Ok(())
    }

    /// The use of the objects that a tenant sees, in bytes. Takes constant time once the tenant is looked up.
    pub fn used(&self, tenant: &TenantName) -> u128
        ensures { result ≡ capped (use_of (private_of self.now.tenants tenant.now).visible) }
    {
        self.holdings.used(tenant)
    }

    /// Whether the use of what a tenant sees and has staged is at most `limit` bytes. Takes constant time once the
    /// tenant is looked up.
    pub fn is_within(&self, tenant: &TenantName, limit: u64) -> bool
        ensures { result ≡ nat_le (use_of (both_of (private_of self.now.tenants tenant.now))) limit }
    {
        self.holdings.is_within(tenant, limit)
    }

    /// Looks at up to `most` places of the catalogue, and removes the names that no tenant holds, with their files.
    /// Returns how many names were removed. After an `Err`, what was removed stays removed.
    pub fn sweep(&mut self, alloc: Global, most: u64) -> Result<u64, VaultFault>
        ensures kept { IsTrue self.old.honest → self.new.tenants ≡ self.old.tenants }
        ensures stays { IsTrue self.old.honest → (name : List ℕ) → is_taken self.old.tenants name ≡ true → map.get self.new.files name ≡ map.get self.old.files name }
        ensures away { IsTrue self.old.honest → OnOk result (TakesAway self.old.files self.new.files) }
        ensures accounted { IsTrue self.old.honest → IsAccounted self.new }
        ensures exact { IsTrue self.old.honest → OnOk result (IsExact self.old.files self.old.places → IsExact self.new.files self.new.places) }

        // Over any store.
        ensures sweeps { OnOk result (Sweeps (is_taken self.old.tenants) most self.old.places self.new.places) }
        ensures fault { OnErr result ((n : ℕ) × (n < most) × Looks (is_taken self.old.tenants) n self.old.places self.new.places) }
        ensures count { IfOk result (λ count. length self.new.places.names + count ≡ length self.old.places.names) }
        ensures few { IfOk result (λ count. count ≤ most) }
        ensures place { self.old.places.place ≤ length self.old.places.names }
        ensures shape { shape_of self.new.tenants ≡ shape_of self.old.tenants }
        ensures undamaged { IfErr result (λ fault. fault ≢ VaultFault.Damaged) }
        ensures apart { IfErr result (λ fault. fault ≢ VaultFault.Collision) }
        ensures store { AsksStore self.old self.new (fault_in result) }
    {
        let _place = self.holdings.place();
        sweep(alloc, &mut self.files, &mut self.holdings, most)
    }

    /// Looks at every place of the catalogue, from the first to the last, and removes the names that no tenant holds,
    /// with their files. Returns how many names were removed. After an `Err`, what was removed stays removed.
    pub fn collect(&mut self, alloc: Global) -> Result<u64, VaultFault>
        ensures kept { IsTrue self.old.honest → self.new.tenants ≡ self.old.tenants }
        ensures stays { IsTrue self.old.honest → (name : List ℕ) → is_taken self.old.tenants name ≡ true → map.get self.new.files name ≡ map.get self.old.files name }
        ensures away { IsTrue self.old.honest → OnOk result (TakesAway self.old.files self.new.files) }
        ensures sharp { IsTrue self.old.honest → OnOk result ((name : List ℕ) → map.contains_key self.new.files name ≡ is_taken self.new.tenants name) }
        ensures exact { IsTrue self.old.honest → OnOk result ((name : List ℕ) → is_listed self.new.places.names name ≡ map.contains_key self.new.files name) }

        // Over any store.
        ensures collects { OnOk result (Collects (is_taken self.old.tenants) self.old.places self.new.places) }
        ensures fault { OnErr result ((n : ℕ) × Walks (is_taken self.old.tenants) n (at_start self.old.places) self.new.places) }
        ensures count { IfOk result (λ count. length self.new.places.names + count ≡ length self.old.places.names) }
        ensures shape { shape_of self.new.tenants ≡ shape_of self.old.tenants }
        ensures undamaged { IfErr result (λ fault. fault ≢ VaultFault.Damaged) }
        ensures apart { IfErr result (λ fault. fault ≢ VaultFault.Collision) }
        ensures store { AsksStore self.old self.new (fault_in result) }
    {
        sharp_collection();
        collect(alloc, &mut self.files, &mut self.holdings)
    }

    /// What is wrong with the files of names that tenants hold. Each file is read once, from the store and not from a
    /// cache. Nothing is changed.
    pub fn faulty(&mut self, alloc: Global) -> Result<Harms, VaultFault>
        ensures sound { IsTrue self.old.honest → IfOk result (λ harms. map.entries harms ≡ []) }
        ensures kept { IsTrue self.old.honest → self.new.tenants ≡ self.old.tenants }
        ensures files { IsTrue self.old.honest → self.new.files ≡ self.old.files }

        // Over any store.
        ensures found { IfOk result (λ harms. AreFound (map.entries harms) self.old) }
        ensures asked { IfOk result (λ harms. WasAsked self.old.failures (is_taken self.old.tenants)) }
        ensures shape { shape_of self.new.tenants ≡ shape_of self.old.tenants }
        ensures places { self.new.places ≡ self.old.places }
        ensures undamaged { IfErr result (λ fault. fault ≢ VaultFault.Damaged) }
        ensures apart { IfErr result (λ fault. fault ≢ VaultFault.Collision) }
        ensures store { AsksStore self.old self.new (fault_in result) }
    {
        check_all(alloc, &mut self.files, &self.holdings)
    }

    /// Makes the file of each object that was staged survive a loss of power. After `Device` every later call fails
    /// too. After `Memory` it may be called again.
    pub fn sync(&mut self, alloc: Global) -> Result<(), FileFault>
        ensures same { self.new ≡ with_durability self.new.durability self.old }
        ensures durable { IsSync self.old.durability self.new.durability result }
    {
        self.files.sync(alloc)
    }

    /// Does some of the work of the next `sync`, if there is much. Call it between requests. After an `Err` every
    /// later call of `sync` fails.
    pub fn sync_ahead(&mut self, alloc: Global) -> Result<(), FileFault>
        ensures same { self.new ≡ with_durability self.new.durability self.old }
        ensures removed { self.new.durability.removed ≡ self.old.durability.removed }
    {
        self.files.sync_ahead(alloc)
    }

    /// Whether a file that a sweep removed would come back if the store were opened again, or `forget_removed` has something
    /// else to do.
    pub fn has_removed(&self) -> bool
        ensures { result ≡ false → self.now.durability.removed ≡ false }
    {
        self.files.has_removed()
    }

    /// Makes the removals of sweeps final. After an `Err`, some of the removed files may still come back.
    pub fn forget_removed(&mut self, alloc: Global) -> Result<(), FileFault>
        ensures same { self.new ≡ with_durability self.new.durability self.old }
        ensures settled { OnOk result (self.new.durability.removed ≡ false) }
    {
        self.files.forget_removed(alloc)
    }

    /// The number of names in the catalogue.
    pub fn census(&self) -> u64
        ensures names { result ≡ length self.now.places.names }
    {
        self.holdings.len() as u64
    }

    /// What is true of every vault between calls. It does nothing. Proofs call it for its clauses.
    pub fn invariant(&self)
        ensures place { self.now.places.place ≤ length self.now.places.names }
        ensures distinct { IsDistinct same_name self.now.places.names }
        ensures accounted { IsTrue self.now.honest → IsAccounted self.now }
        ensures one { IsTrue self.now.honest → HoldOne self.now.tenants }
    {
        let _place = self.holdings.place();
        self.holdings.names_are_distinct();
    }
}
