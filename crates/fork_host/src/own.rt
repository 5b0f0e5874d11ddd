ghost use Rattle.std.specs.Prelude.{◌≡◌, ◌≢◌, IsTrue, OnOk, OnErr, IfOk, IfErr, IfSome, is_some, nat_le};
ghost use Rattle.std.specs.FinMap as map;
ghost use Rattle.std.specs.HashSet.{contains};
ghost use Rattle.git_name.specs.Object.{object_name};
ghost use Rattle.git_name.specs.Same.{same_name};
ghost use Rattle.git_name.specs.Count.{fault_in, fault_in as source_fault_in};
ghost use Rattle.git_reftx.specs.Transaction.{References};
ghost use Rattle.looks.specs.Growth.{GrowsAmong};
ghost use Rattle.push_stream.specs.Brief.{brief_shown};
ghost use Rattle.fork_reach.specs.Bases.{is_best_of};
ghost use Rattle.fork_reach.specs.Objects.{use_of};
ghost use Rattle.fork_reach.specs.History.{note_at};
ghost use Rattle.fork_reach.specs.Reach.{is_between, is_reached, linked_names, parent_names};
ghost use Rattle.fork_reach.specs.Source.{kind_in};
ghost use Rattle.fork_ledger.specs.AllStaged.{MeetsAmong, StoresAmong, with_all_staged};
ghost use Rattle.fork_ledger.specs.Private.{with_discarded, with_kept, with_published};
ghost use Rattle.fork_ledger.specs.Retained.{Retains};
ghost use Rattle.fork_ledger.specs.Store.{AsksStore, LeavesStore, Recalls};
ghost use Rattle.fork_ledger.specs.Surveyed.{IsKnown};
ghost use Rattle.fork_ledger.specs.Tenants.{at_tenant, private_of, shape_of};
ghost use Rattle.fork_ledger.specs.Used.{capped};
ghost use Rattle.fork_push.specs.Here.{AreThere};
ghost use Rattle.fork_push.specs.Push.{judged};
ghost use Rattle.fork_push.specs.Verdict.{IfAccepted, IsAcceptable, TellsJudged, fault_of_verdict};
ghost use Rattle.fork_host.specs.Bounds.{ReadsStore};
ghost use Rattle.fork_host.specs.Sent.{sent_names};
ghost use Rattle.std.specs.Prelude.{[], ℕ, List, Contains, Some, false, true};
ghost use Rattle.std.specs.List.{AllByRecursion};

use crate::both::Both;
use fork_ledger::{Held, RecallFault, Vault, VaultFault};
use fork_push::{Verdict, judge};
use fork_reach::{SourceFault, reach};
use fork_request::TenantName;
use git_name::{Hashing, Kind, Name, Sealed};
use git_reftx::Refs;
use indexmap::IndexSet;
use loose_store::LooseFiles;
use push_stream::{Brief, StreamFault};
use std::alloc::{AllocError, Global};

// One tenant's own part of the vault. It is made once for each request, from the vault and the tenant that sent it.
// No row of the answer has access to the rest of the vault.
#[derive(Drop)]
pub(crate) struct Own<'a, S: LooseFiles> {
    vault: &'a mut Vault<S>,
    tenant: &'a TenantName,
}

impl<'a, S: LooseFiles> Own<'a, S> {
    // The part of this tenant.
    pub(crate) fn new(vault: &'a mut Vault<S>, tenant: &'a TenantName) -> Own<'a, S>
        ensures vault { result.vault ≡ vault.entry }
        ensures tenant { result.tenant ≡ tenant.entry }
    {
        Own { vault, tenant }
    }

    ghost use Rattle.fork_host.specs.Handle.{IsSame, both_by, staged_by, visible_by};

    // The hashing of object names.
    pub(crate) fn hashing_of_names(&self) -> Hashing {
        self.vault.hashing()
    }

    // The tenant whose part it is.
    pub(crate) fn tenant(&self) -> &'a TenantName
        ensures { result ≡ self.now.tenant }
    {
        self.tenant
    }

    // The kind of an object that the tenant sees. Does not read it.
    pub(crate) fn kind_seen(&self, name: Name) -> Option<Kind>
        ensures { result ≡ kind_in (visible_by self.now) name }
    {
        seen_kind(self.vault.kind_of(self.tenant, name))
    }

    // Reads the object that the tenant sees under this name.
    pub(crate) fn get(&mut self, alloc: Global, name: Name) -> Result<Option<Sealed>, VaultFault>
        ensures found { IsTrue self.old.vault.now.honest → IfOk result (λ found. found ≡ map.get (visible_by self.old) name) }
        ensures kept { IsTrue self.old.vault.now.honest → self.new.vault.now.tenants ≡ self.old.vault.now.tenants }
        ensures files { IsTrue self.old.vault.now.honest → self.new.vault.now.files ≡ self.old.vault.now.files }
        ensures there { IfOk result (λ found. is_some found ≡ map.contains_key (visible_by self.old) name) }
        ensures named { IfOk result (λ found. IfSome found (λ object. object_name object ≡ name)) }
        ensures shape { shape_of self.new.vault.now.tenants ≡ shape_of self.old.vault.now.tenants }
        ensures store { AsksStore self.old.vault.now self.new.vault.now (fault_in result) }
        ensures places { self.new.vault.now.places ≡ self.old.vault.now.places }
        ensures apart { IfErr result (λ fault. fault ≢ VaultFault.Collision) }
        ensures same { IsSame self.old self.new }
    {
        self.vault.get(alloc, self.tenant, name)
    }

    // Borrows the object that the tenant sees under this name, or returns `None` if it has to be read.
    pub(crate) fn lend_seen(&self, name: Name) -> Option<(Kind, &[u8])>
        ensures found { IfSome result (λ lent. IsTrue self.now.vault.now.honest × (map.get (visible_by self.now) name ≡ Some (record { kind = lent.0; bytes = lent.1.now }))) }
        ensures named { IfSome result (λ lent. object_name (record { kind = lent.0; bytes = lent.1.now }) ≡ name) }
    {
        self.vault.lend(self.tenant, name)
    }

    // The names of the objects that the tenant sees and that are reachable from `wanted` but not from `excluded`, or
    // `None` if the vault does not know all links on the way.
    pub(crate) fn known_seen(
        &self,
        alloc: Global,
        wanted: &[Name],
        excluded: &[Name],
    ) -> Result<Option<IndexSet<Name, Hashing>>, AllocError>
        ensures found { IsTrue self.now.vault.now.honest → IfOk result (λ known. IfSome known (λ found. (name : List ℕ) → contains same_name found name ≡ is_between (linked_names (visible_by self.now)) (visible_by self.now) wanted.now excluded.now name)) }

        // Over any store.
        ensures there { IfOk result (λ known. IfSome known (λ found. (name : List ℕ) → contains same_name found name ≡ true → map.contains_key (visible_by self.now) name ≡ true)) }
        ensures rooted { excluded.now ≡ [] → IfOk result (λ known. IfSome known (λ found. (name : List ℕ) → Contains wanted.now name → map.contains_key (visible_by self.now) name ≡ true → contains same_name found name ≡ true)) }
    {
        self.vault
            .known_between(alloc, self.tenant, wanted, excluded)
    }

    // The same, following only the parents of commits.
    pub(crate) fn history_seen(
        &mut self,
        alloc: Global,
        wanted: &[Name],
        excluded: &[Name],
    ) -> Result<Option<IndexSet<Name, Hashing>>, AllocError>
        ensures found { IsTrue self.old.vault.now.honest → IfOk result (λ known. IfSome known (λ found. (name : List ℕ) → contains same_name found name ≡ is_between (parent_names (visible_by self.old)) (visible_by self.old) wanted.now excluded.now name)) }

        // Over any store.
        ensures there { IfOk result (λ known. IfSome known (λ found. (name : List ℕ) → contains same_name found name ≡ true → map.contains_key (visible_by self.old) name ≡ true)) }
        ensures vault { self.new.vault.now ≡ self.old.vault.now }
        ensures same { IsSame self.old self.new }
    {
        self.vault
            .known_history(alloc, self.tenant, wanted, excluded)
    }

    // The best common ancestors of two commits among the objects that the tenant sees, or `None` if the vault does
    // not know the parents of all their ancestors.
    pub(crate) fn bases_seen(
        &mut self,
        alloc: Global,
        a: Name,
        b: Name,
    ) -> Result<Option<IndexSet<Name, Hashing>>, AllocError>
        ensures best { IsTrue self.old.vault.now.honest → IfOk result (λ known. IfSome known (λ best. (name : List ℕ) → contains same_name best name ≡ is_best_of (visible_by self.old) a b name)) }

        // Over any store.
        ensures seen { IfOk result (λ known. IfSome known (λ best. (name : List ℕ) → contains same_name best name ≡ true → map.contains_key (visible_by self.old) name ≡ true)) }
        ensures vault { self.new.vault.now ≡ self.old.vault.now }
        ensures same { IsSame self.old self.new }
    {
        self.vault.known_bases(alloc, self.tenant, a, b)
    }

    // The committer's seconds since 1970 of a commit that the tenant sees, or 0 for any other object that it sees.
    // Returns `None` if the vault does not know them.
    pub(crate) fn seconds_seen(&self, name: Name) -> Option<u64>
        ensures told { IsTrue self.now.vault.now.honest → IfSome result (λ seconds. seconds ≡ (note_at (visible_by self.now) name).seconds) }

        // Over any store.
        ensures there { IfSome result (λ seconds. map.contains_key (visible_by self.now) name ≡ true) }
    {
        self.vault.known_seconds(self.tenant, name)
    }

    // Learns the links of an object that the tenant holds, if its bytes can be borrowed.
    pub(crate) fn learn_seen(&mut self, alloc: Global, name: Name)
        ensures vault { self.new.vault.now ≡ self.old.vault.now }
        ensures same { IsSame self.old self.new }
    {
        self.vault.learn_links(alloc, self.tenant, name);
    }

    // Keeps the sets of all objects reachable from these names, so that they need not be walked again. A set is kept
    // only if the tenant sees all of it and its links are known.
    pub(crate) fn keep_seen(&mut self, alloc: Global, names: &[Name])
        ensures vault { self.new.vault.now ≡ self.old.vault.now }
        ensures same { IsSame self.old self.new }
    {
        self.vault.keep_reached(alloc, self.tenant, names);
    }

    // Reads the object that the tenant has staged under this name.
    pub(crate) fn get_staged(
        &mut self,
        alloc: Global,
        name: Name,
    ) -> Result<Option<Sealed>, VaultFault>
        ensures found { IsTrue self.old.vault.now.honest → IfOk result (λ found. found ≡ map.get (staged_by self.old) name) }
        ensures kept { IsTrue self.old.vault.now.honest → self.new.vault.now.tenants ≡ self.old.vault.now.tenants }
        ensures files { IsTrue self.old.vault.now.honest → self.new.vault.now.files ≡ self.old.vault.now.files }
        ensures there { IfOk result (λ found. is_some found ≡ map.contains_key (staged_by self.old) name) }
        ensures named { IfOk result (λ found. IfSome found (λ object. object_name object ≡ name)) }
        ensures shape { shape_of self.new.vault.now.tenants ≡ shape_of self.old.vault.now.tenants }
        ensures store { AsksStore self.old.vault.now self.new.vault.now (fault_in result) }
        ensures places { self.new.vault.now.places ≡ self.old.vault.now.places }
        ensures apart { IfErr result (λ fault. fault ≢ VaultFault.Collision) }
        ensures same { IsSame self.old self.new }
    {
        self.vault.get_staged(alloc, self.tenant, name)
    }

    // Stages objects, in order. On an `Err` none is staged. Returns those that the store gave back.
    pub(crate) fn stage_all(
        &mut self,
        alloc: Global,
        objects: Vec<Sealed>,
    ) -> Result<Vec<Sealed>, VaultFault>
        ensures ok { IsTrue self.old.vault.now.honest → OnOk result (self.new.vault.now.tenants ≡ at_tenant self.old.vault.now.tenants self.old.tenant.now (with_all_staged objects.items)) }
        ensures err { IsTrue self.old.vault.now.honest → OnErr result (self.new.vault.now.tenants ≡ self.old.vault.now.tenants) }
        ensures came { IsTrue self.old.vault.now.honest → map.contains_key self.old.vault.now.tenants self.old.tenant.now ≡ true → OnOk result (AllByRecursion (λ object. map.get (private_of self.new.vault.now.tenants self.old.tenant.now).staged (object_name object) ≡ Some object) objects.items) }
        ensures back { IsTrue self.old.vault.now.honest → map.contains_key self.old.vault.now.tenants self.old.tenant.now ≡ true → IfOk result (λ back. AreThere (both_by self.new) back.items) }
        ensures stored { IsTrue self.old.vault.now.honest → OnOk result (StoresAmong objects.items self.old.vault.now.files self.new.vault.now.files) }
        ensures collision { IsTrue self.old.vault.now.honest → IfErr result (λ fault. fault ≡ VaultFault.Collision → MeetsAmong objects.items self.old.vault.now.files) }
        ensures still { IsTrue self.old.vault.now.honest → IfErr result (λ fault. fault ≡ VaultFault.Collision → StoresAmong objects.items self.old.vault.now.files self.new.vault.now.files) }

        // Over any store.
        ensures shape { OnOk result (shape_of self.new.vault.now.tenants ≡ shape_of (at_tenant self.old.vault.now.tenants self.old.tenant.now (with_all_staged objects.items))) }
        ensures kept { OnErr result (shape_of self.new.vault.now.tenants ≡ shape_of self.old.vault.now.tenants) }
        ensures grows { GrowsAmong (sent_names objects.items) self.old.vault.now.places self.new.vault.now.places }
        ensures store { AsksStore self.old.vault.now self.new.vault.now (fault_in result) }
        ensures same { IsSame self.old self.new }
    {
        self.vault.stage_all(alloc, self.tenant, objects)
    }

    // Stages the object of this name, kind and length, whose file is known to be whole.
    pub(crate) fn recall(&mut self, name: Name, kind: Kind, length: u64) -> Result<(), RecallFault>
        requires { IsKnown self.old.vault.now.honest self.old.vault.now.files name kind length }
        ensures recalls { OnOk result (Recalls self.old.vault.now.honest self.old.tenant.now name self.old.vault.now.files self.old.vault.now.tenants self.new.vault.now.tenants) }
        ensures err { OnErr result (self.new.vault.now.tenants ≡ self.old.vault.now.tenants) }
        ensures files { self.new.vault.now.files ≡ self.old.vault.now.files }
        ensures honest { self.new.vault.now.honest ≡ self.old.vault.now.honest }
        ensures failures { self.new.vault.now.failures ≡ self.old.vault.now.failures }
        ensures same { IsSame self.old self.new }
    {
        self.vault.recall(self.tenant, name, kind, length)
    }

    // Makes what is staged visible.
    pub(crate) fn publish(&mut self)
        ensures tenants { self.new.vault.now.tenants ≡ at_tenant self.old.vault.now.tenants self.old.tenant.now with_published }
        ensures store { LeavesStore self.old.vault.now self.new.vault.now }
        ensures same { IsSame self.old self.new }
    {
        self.vault.publish(self.tenant);
    }

    // Discards what is staged.
    pub(crate) fn discard(&mut self)
        ensures tenants { self.new.vault.now.tenants ≡ at_tenant self.old.vault.now.tenants self.old.tenant.now with_discarded }
        ensures store { LeavesStore self.old.vault.now self.new.vault.now }
        ensures same { IsSame self.old self.new }
    {
        self.vault.discard(self.tenant);
    }

    // Drops the objects that the tenant sees, except those with these names.
    pub(crate) fn keep_only(&mut self, names: &IndexSet<Name, Hashing>)
        ensures tenants { self.new.vault.now.tenants ≡ at_tenant self.old.vault.now.tenants self.old.tenant.now (with_kept (λ name. contains same_name names.now name)) }
        ensures store { LeavesStore self.old.vault.now self.new.vault.now }
        ensures same { IsSame self.old self.new }
    {
        self.vault.keep_only(self.tenant, names);
    }

    // Drops the objects that the tenant sees and that are not reachable from these names. Returns `false`, and drops
    // none, if the vault does not know all links on the way.
    pub(crate) fn retain_reached(
        &mut self,
        alloc: Global,
        roots: &[Name],
    ) -> Result<bool, AllocError>
        ensures retained { IfOk result (λ done. done ≡ true → Retains self.old.vault.now.honest self.old.tenant.now roots.now self.old.vault.now.tenants self.new.vault.now.tenants) }
        ensures kept { IfOk result (λ done. done ≡ false → self.new.vault.now ≡ self.old.vault.now) }
        ensures err { OnErr result (self.new.vault.now ≡ self.old.vault.now) }
        ensures store { LeavesStore self.old.vault.now self.new.vault.now }
        ensures same { IsSame self.old self.new }
    {
        self.vault.retain_reached(alloc, self.tenant, roots)
    }

    // The use of the visible objects, in bytes.
    pub(crate) fn used(&self) -> u128
        ensures { result ≡ capped (use_of (visible_by self.now)) }
    {
        self.vault.used(self.tenant)
    }

    // Whether the use of the visible and the staged objects is at most `limit` bytes.
    pub(crate) fn is_within(&self, limit: u64) -> bool
        ensures { result ≡ nat_le (use_of (both_by self.now)) limit }
    {
        self.vault.is_within(self.tenant, limit)
    }

    // The names of the visible objects that are reachable from these names.
    pub(crate) fn reached(
        &mut self,
        alloc: Global,
        roots: &[Name],
    ) -> Result<IndexSet<Name, Hashing>, SourceFault>
        ensures found { IsTrue self.old.vault.now.honest → IfOk result (λ found. (name : List ℕ) → contains same_name found name ≡ is_reached (linked_names (visible_by self.old)) (visible_by self.old) roots.now name) }
        ensures kept { IsTrue self.old.vault.now.honest → self.new.vault.now.tenants ≡ self.old.vault.now.tenants }

        // Over any store.
        ensures rooted { IfOk result (λ found. (name : List ℕ) → Contains roots.now name → map.contains_key (visible_by self.old) name ≡ true → contains same_name found name ≡ true) }
        ensures shape { shape_of self.new.vault.now.tenants ≡ shape_of self.old.vault.now.tenants }
        ensures read { ReadsStore self.old.vault.now self.new.vault.now (source_fault_in result) }
        ensures same { IsSame self.old self.new }
    {
        reach(alloc, self, roots)
    }

    // The verdict on a push into a repository with these references, over the objects that the tenant sees or has
    // staged. Those that are `here` are not read.
    pub(crate) fn judge(
        &mut self,
        alloc: Global,
        here: &[Sealed],
        finished: &Result<Brief, StreamFault>,
        references: &Refs,
        limit: u64,
    ) -> Verdict
        requires { IsTrue self.old.vault.now.honest → AreThere (both_by self.old) here.now }
        ensures judged { IsTrue self.old.vault.now.honest → TellsJudged (judged (both_by self.old) references.now limit (brief_shown finished.now)) result }
        ensures kept { IsTrue self.old.vault.now.honest → self.new.vault.now.tenants ≡ self.old.vault.now.tenants }

        // Over any store.
        ensures accepted { IfAccepted result (IsAcceptable (both_by self.old) references.now limit) }
        ensures shape { shape_of self.new.vault.now.tenants ≡ shape_of self.old.vault.now.tenants }
        ensures read { ReadsStore self.old.vault.now self.new.vault.now (fault_of_verdict result) }
        ensures same { IsSame self.old self.new }
    {
        let mut both = Both {
            vault: &mut *self.vault,
            tenant: self.tenant,
        };
        judge(alloc, &mut both, here, finished, references, limit)
    }
}

ghost use Rattle.fork_ledger.specs.Private.{kind_seen};

// The kind of an object if it is visible.
fn seen_kind(held: Option<Held>) -> Option<Kind>
    ensures { result ≡ kind_seen held }
{
    let Some(held) = held else {
        return None;
    };
    if held.visible { Some(held.kind) } else { None }
}
