ghost use Rattle.std.specs.Prelude.{◌≡◌, ◌≢◌, ◌<◌, ◌≤◌, ◌+◌, ◌⊎◌, ◌++◌, ◌∷◌, [], ◌||◌, ◌&&◌, not, ℕ, List, Contains, None, Some, length, slice_get, take, OnOk, OnErr, IfOk, IfErr, IfSome, IfNone, false, true, nat_le, IsPermutation, map as mapped};
ghost use Rattle.std.specs.FinMap as map;
ghost use Rattle.std.specs.HashSet.{contains};
ghost use Rattle.std.specs.List.{IsDistinct};
ghost use Rattle.std.specs.Option.{option_map, option_map_or};
ghost use Rattle.git_name.specs.Same.{is_listed, same_name};
ghost use Rattle.looks.specs.Growth.{GrowsAmong};
ghost use Rattle.looks.specs.Places.{at_start, looked_at};
ghost use Rattle.object_table.specs.Adopted.{AllAlike, adopted_words, offered_words, shown_beside};
ghost use Rattle.object_table.specs.AllStaged.{AreListed, all_staged_words};
ghost use Rattle.object_table.specs.Clashes.{AreAs, Clash};
ghost use Rattle.object_table.specs.Holders.{AreHeld, holders_of, is_held_in};
ghost use Rattle.object_table.specs.Ledgers.{at_ledger, ledger_at, with_ledger, word_at};
ghost use Rattle.object_table.specs.Links.{AreLinks, KnowsNoMore, KeepsNumbers, leads_nowhere, named_links, next_named, numbered_name, parents_named};
ghost use Rattle.object_table.specs.Walked.{IsBest, IsBetween, IsMet, IsRetained};
ghost use Rattle.object_table.specs.Rows.{IsUsed, LooksNextAt, places_of, row_in};
ghost use Rattle.object_table.specs.declared.row.Row.{Row};
ghost use Rattle.number_links.specs.Facts.{Learned, learned, nothing, told};
ghost use Rattle.object_table.specs.Totals.{capped, total_of, used_by};
ghost use Rattle.object_table.specs.Views.{all_words};
ghost use Rattle.object_table.specs.Words.{discarded_words, is_staged, is_visible, kept_words, published_words, staged_words, words_that};

use crate::bases::base_names;
use crate::coming::{coming, use_with_coming, word_under};
use crate::describing::{describe_all, is_as};
use crate::entry::Entry;
use crate::ledgers::Ledgers;
use crate::linking::{keep_names, names_between, names_in_history, numbers_of, numbers_reached};
use crate::listing::{count_seen, seen_names};
use crate::name_set::NameSet;
use crate::row::Row;
use crate::stage_fault::StageFault;
use crate::table::Table;
use crate::word::Word;
use fork_request::TenantName;
use git_name::{Hashing, Kind, Name};
use indexmap::IndexSet;
use number_links::Graph;
use std::alloc::{AllocError, Global};
use std::marker::Model;

/// The ledgers of all tenants over one table of names, and the known links of objects. A name's count of holders is
/// the number of ledgers that have a word for it.
#[derive(Drop)]
pub struct Holdings {
    table: Table,
    ledgers: Ledgers,
    links: Graph,
}

impl Model for Holdings {
    ghost use Rattle.object_table.specs.Holders.{AreHeld, HoldingsState, holdings_code};
    ghost use Rattle.object_table.specs.Links.{AreLinks, named_links};
    ghost use Rattle.object_table.specs.Views.{all_words};

    ghost Value = { HoldingsState };

    ghost coded = { holdings_code };

    ghost view = { λ a. record {
      ledgers = all_words a.table.entries a.ledgers;
      catalogue = a.table;
      links = named_links a.table.entries a.links;
    } };

    ghost invariant = { λ a. AreHeld a.table.entries a.ledgers × AreLinks a.table.entries a.links };
}

impl Holdings {
    /// Holdings without tenants. The catalogue has these names, in this order, and nobody holds them.
    pub fn over(alloc: Global, hashing: Hashing, names: &[Name]) -> Result<Holdings, AllocError>
        ensures ledgers { IfOk result (λ h. h.ledgers ≡ map.empty) }
        ensures listed { IfOk result (λ h. (q : List ℕ) → is_listed (places_of h.catalogue).names q ≡ is_listed names.now q) }
        ensures names { IsDistinct same_name names.now → IfOk result (λ h. (places_of h.catalogue).names ≡ names.now) }
        ensures place { IfOk result (λ h. (places_of h.catalogue).place ≡ 0) }
        ensures links { IfOk result (λ h. (q : List ℕ) → map.get h.links q ≡ None) }
    {
        let mut holdings = Holdings {
            table: Table::new(alloc, hashing),
            ledgers: Ledgers::new(alloc),
            links: Graph::new(alloc),
        };
        for name in names {
            holdings.enter(*name)?;
        }
        Ok(holdings)
    }

    /// The hashing of object names.
    pub fn hashing(&self) -> Hashing {
        self.table.hashing()
    }

    /// Adds a tenant that holds nothing, unless it exists.
    pub fn add(&mut self, alloc: Global, tenant: TenantName) -> Result<(), AllocError>
        ensures ok { OnOk result (self.new.ledgers ≡ with_ledger self.old.ledgers tenant) }
        ensures err { OnErr result (self.new.ledgers ≡ self.old.ledgers) }
        ensures catalogue { self.new.catalogue ≡ self.old.catalogue }
        ensures links { self.new.links ≡ self.old.links }
    {
        self.ledgers.add(alloc, &self.table, tenant)
    }

    /// Whether a tenant exists.
    pub fn contains(&self, tenant: &TenantName) -> bool
        ensures { result ≡ map.contains_key self.now.ledgers tenant.now }
    {
        let Some(_) = self.ledgers.get(tenant) else {
            return false;
        };
        true
    }

    /// What a tenant's ledger says about a name.
    pub fn word(&self, tenant: &TenantName, name: Name) -> Option<Word>
        ensures { result ≡ word_at self.now.ledgers tenant.now name }
    {
        word_under(&self.table, self.ledgers.get(tenant), name)
    }

    /// Whether a tenant sees the object of a name.
    pub fn sees(&self, tenant: &TenantName, name: Name) -> bool
        ensures { result ≡ option_map_or is_visible (word_at self.now.ledgers tenant.now name) false }
    {
        let Some(word) = self.word(tenant, name) else {
            return false;
        };
        word.is_visible()
    }

    /// Whether a tenant has staged the object of a name.
    pub fn has_staged(&self, tenant: &TenantName, name: Name) -> bool
        ensures { result ≡ option_map_or is_staged (word_at self.now.ledgers tenant.now name) false }
    {
        let Some(word) = self.word(tenant, name) else {
            return false;
        };
        word.is_staged()
    }

    /// The names of the objects that a tenant sees, in ascending order.
    pub fn names(&self, alloc: Global, tenant: &TenantName) -> Result<Vec<Name>, AllocError>
        ensures { IfOk result (λ names. names.items ≡ map.keys (words_that is_visible (ledger_at self.now.ledgers tenant.now))) }
    {
        names_in(alloc, &self.table, &self.ledgers, tenant)
    }

    /// How many objects a tenant sees. Takes time linear in their number.
    pub fn seen_count(&self, tenant: &TenantName) -> usize
        ensures { result ≡ map.len (words_that is_visible (ledger_at self.now.ledgers tenant.now)) }
    {
        seen_count_in(&self.table, &self.ledgers, tenant)
    }

    /// The use of the objects that a tenant sees, in bytes. Takes constant time once the tenant is looked up.
    pub fn used(&self, tenant: &TenantName) -> u128
        ensures { result ≡ capped (used_by (ledger_at self.now.ledgers tenant.now)) }
    {
        used_in(&self.table, &self.ledgers, tenant)
    }

    /// Whether the use of what a tenant sees and has staged is at most `limit` bytes. Takes constant time once the
    /// tenant is looked up.
    pub fn is_within(&self, tenant: &TenantName, limit: u64) -> bool
        ensures { result ≡ nat_le (total_of (ledger_at self.now.ledgers tenant.now)) limit }
    {
        is_within_in(&self.table, &self.ledgers, tenant, limit)
    }

    /// Whether any tenant holds a name.
    pub fn is_held(&self, name: Name) -> bool
        ensures { result ≡ is_held_in self.now.ledgers name }
    {
        let Some(row) = self.table.row(name) else {
            return false;
        };
        row.holders > 0
    }

    /// Whether an object of this name, kind and length may be staged. It may not if a tenant holds the name with
    /// another kind or length.
    pub fn may_stage(&self, name: Name, kind: Kind, length: u64) -> bool
        ensures may { result ≡ true → AreAs self.now.ledgers name kind length }
        ensures clash { result ≡ false → AreAs self.now.ledgers name kind length → ⊥ }
    {
        self.table.invariant();
        let Some(row) = self.table.row(name) else {
            return true;
        };
        if row.holders == 0 {
            return true;
        }
        is_as(&row, Entry { name, kind, length })
    }

    /// Whether the use of what tenant `to` sees, together with the objects with these names that tenant `from` sees,
    /// is at most `limit` bytes. Takes time linear in the names.
    pub fn has_room(
        &self,
        to: &TenantName,
        from: &TenantName,
        names: &IndexSet<Name, Hashing>,
        limit: u64,
    ) -> bool
        ensures { result ≡ nat_le (total_of (shown_beside (offered_words (contains same_name names.now) (ledger_at self.now.ledgers from.now)) (ledger_at self.now.ledgers to.now))) limit }
    {
        let _unique = names.as_slice();
        let used = self.used(to);
        let shown = self.ledgers.get(from);
        let own = self.ledgers.get(to);
        use_with_coming(&self.table, shown, own, names, used) <= limit as u128
    }

    /// Makes the objects with these names that tenant `from` sees visible to tenant `to`. On an `Err` none becomes
    /// visible. Takes time linear in the names.
    pub fn adopt(
        &mut self,
        alloc: Global,
        to: &TenantName,
        from: &TenantName,
        names: &IndexSet<Name, Hashing>,
    ) -> Result<(), AllocError>
        ensures ok { OnOk result (self.new.ledgers ≡ at_ledger self.old.ledgers to.now (adopted_words (offered_words (contains same_name names.now) (ledger_at self.old.ledgers from.now)))) }
        ensures err { OnErr result (self.new.ledgers ≡ self.old.ledgers) }
        ensures places { places_of self.new.catalogue ≡ places_of self.old.catalogue }
        ensures links { self.new.links ≡ self.old.links }
    {
        self.table.invariant();
        let shown = self.ledgers.get(from);
        let own = self.ledgers.get(to);
        let Ok(entries) = coming(alloc, &self.table, shown, own, names) else {
            return Err(AllocError);
        };
        let seen = self.ledgers.see(&mut self.table, to, entries.as_slice());
        self.table.invariant();
        seen
    }

    /// Stages these objects for a tenant, in order. On an `Err` none is staged.
    pub fn stage_all(&mut self, tenant: &TenantName, entries: &[Entry]) -> Result<(), StageFault>
        ensures ok { OnOk result (self.new.ledgers ≡ at_ledger self.old.ledgers tenant.now (all_staged_words entries.now)) }
        ensures err { OnErr result (self.new.ledgers ≡ self.old.ledgers) }
        ensures listed { OnOk result (AreListed (places_of self.old.catalogue) entries.now) }
        ensures unlisted { IfErr result (λ fault. fault ≡ StageFault.Unlisted → AreListed (places_of self.old.catalogue) entries.now → ⊥) }
        ensures clash { IfErr result (λ fault. fault ≡ StageFault.Clash → Clash self.old.ledgers entries.now) }
        ensures places { places_of self.new.catalogue ≡ places_of self.old.catalogue }
        ensures links { self.new.links ≡ self.old.links }
    {
        self.table.invariant();
        let staged = stage_in(&mut self.table, &mut self.ledgers, tenant, entries);
        self.table.invariant();
        staged
    }

    /// Stages one object for a tenant.
    pub fn stage(
        &mut self,
        tenant: &TenantName,
        name: Name,
        kind: Kind,
        length: u64,
    ) -> Result<(), StageFault>
        ensures ok { OnOk result (self.new.ledgers ≡ at_ledger self.old.ledgers tenant.now (staged_words name kind length)) }
        ensures err { OnErr result (self.new.ledgers ≡ self.old.ledgers) }
        ensures listed { OnOk result (is_listed (places_of self.old.catalogue).names name ≡ true) }
        ensures unlisted { IfErr result (λ fault. fault ≡ StageFault.Unlisted → is_listed (places_of self.old.catalogue).names name ≡ false) }
        ensures clash { IfErr result (λ fault. fault ≡ StageFault.Clash → AreAs self.old.ledgers name kind length → ⊥) }
        ensures places { places_of self.new.catalogue ≡ places_of self.old.catalogue }
        ensures links { self.new.links ≡ self.old.links }
    {
        let entry = Entry { name, kind, length };
        let entries = [entry];
        self.stage_all(tenant, entries.as_slice())
    }

    /// Makes what the tenant has staged visible to it. Allocates nothing.
    pub fn publish(&mut self, tenant: &TenantName)
        ensures ledgers { self.new.ledgers ≡ at_ledger self.old.ledgers tenant.now published_words }
        ensures catalogue { self.new.catalogue ≡ self.old.catalogue }
        ensures links { self.new.links ≡ self.old.links }
    {
        self.ledgers.publish(&self.table, tenant);
    }

    /// Drops what the tenant has staged. Allocates nothing.
    pub fn discard(&mut self, tenant: &TenantName)
        ensures ledgers { self.new.ledgers ≡ at_ledger self.old.ledgers tenant.now discarded_words }
        ensures places { places_of self.new.catalogue ≡ places_of self.old.catalogue }
        ensures links { self.new.links ≡ self.old.links }
    {
        self.table.invariant();
        self.ledgers.discard(&mut self.table, tenant);
        self.table.invariant();
    }

    /// Drops the objects that the tenant sees, except those with these names. Allocates nothing.
    pub fn keep_only<N: NameSet>(&mut self, tenant: &TenantName, names: &N)
        ensures ledgers { self.new.ledgers ≡ at_ledger self.old.ledgers tenant.now (kept_words (N.names names.now)) }
        ensures places { places_of self.new.catalogue ≡ places_of self.old.catalogue }
        ensures links { self.new.links ≡ self.old.links }
    {
        self.table.invariant();
        self.ledgers.keep_only(&mut self.table, tenant, names);
        self.table.invariant();
    }

    /// Adds a name to the catalogue, unless it is already there.
    pub fn enter(&mut self, name: Name) -> Result<(), AllocError>
        ensures listed { OnOk result ((q : List ℕ) → is_listed (places_of self.new.catalogue).names q ≡ (same_name name q || is_listed (places_of self.old.catalogue).names q)) }
        ensures grows { GrowsAmong (name ∷ []) (places_of self.old.catalogue) (places_of self.new.catalogue) }
        ensures ledgers { self.new.ledgers ≡ self.old.ledgers }
        ensures err { OnErr result (places_of self.new.catalogue ≡ places_of self.old.catalogue) }
        ensures links { self.new.links ≡ self.old.links }
    {
        enter_in(&mut self.table, &self.ledgers, &self.links, name)
    }

    /// Learns the links and the time of the object of a name, if the name and all the linked names are in the
    /// catalogue. If memory runs out, they stay unknown. The time of a commit is its seconds since 1970 plus 1. The
    /// time of any other object is 0.
    pub fn learn(&mut self, alloc: Global, name: Name, to: &[Name], time: u64)
        ensures ledgers { self.new.ledgers ≡ self.old.ledgers }
        ensures catalogue { self.new.catalogue ≡ self.old.catalogue }
        ensures links { (q : List ℕ) (one : Learned (List ℕ)) → map.get self.new.links q ≡ Some one → (map.get self.old.links q ≡ Some one) ⊎ ((q ≡ name) × (one ≡ told to.now time)) }
        ensures stays { (q : List ℕ) → map.contains_key self.old.links q ≡ true → map.get self.new.links q ≡ map.get self.old.links q }
    {
        let Some(row) = self.table.row(name) else {
            return;
        };
        let Ok(Some(numbers)) = numbers_of(alloc, &self.table, to) else {
            return;
        };
        learn_row(
            &self.table,
            &mut self.links,
            name,
            row,
            numbers.as_slice(),
            time,
        );
    }

    /// Forgets the links of the object of a name, and of the objects that link to it.
    pub fn forget(&mut self, name: Name)
        ensures ledgers { self.new.ledgers ≡ self.old.ledgers }
        ensures catalogue { self.new.catalogue ≡ self.old.catalogue }
        ensures links { KnowsNoMore self.old.links self.new.links }
        ensures away { map.get self.new.links name ≡ None }
    {
        forget_in(&self.table, &mut self.links, name);
    }

    /// Whether the links of the object of a name are known.
    pub fn knows(&self, name: Name) -> bool
        ensures { result ≡ map.contains_key self.now.links name }
    {
        self.time(name).is_some()
    }

    /// The names of the objects that the tenant sees and that are reachable from `wanted` but not from `excluded`, or
    /// `None` if the links of an object on the way are not known.
    pub fn between(
        &self,
        alloc: Global,
        tenant: &TenantName,
        wanted: &[Name],
        excluded: &[Name],
    ) -> Result<Option<IndexSet<Name, Hashing>>, AllocError>
        ensures only { IfOk result (λ found. IfSome found (λ names. (name : List ℕ) → contains same_name names name ≡ true → IsBetween (words_that is_visible (ledger_at self.now.ledgers tenant.now)) (next_named self.now.links) wanted.now excluded.now name)) }
        ensures all { IfOk result (λ found. IfSome found (λ names. (name : List ℕ) → IsBetween (words_that is_visible (ledger_at self.now.ledgers tenant.now)) (next_named self.now.links) wanted.now excluded.now name → contains same_name names name ≡ true)) }
        ensures known { IfOk result (λ found. IfSome found (λ names. (name : List ℕ) → IsMet (words_that is_visible (ledger_at self.now.ledgers tenant.now)) (next_named self.now.links) wanted.now excluded.now name → (option_map_or (λ word. leads_nowhere word.kind) (map.get (words_that is_visible (ledger_at self.now.ledgers tenant.now)) name) false ≡ true) ⊎ (map.contains_key self.now.links name ≡ true))) }
    {
        let Some(own) = self.ledgers.get(tenant) else {
            return Ok(None);
        };
        names_between(alloc, &self.table, &self.links, own, wanted, excluded)
    }

    /// The names of the objects that the tenant sees and that are reachable from `wanted`, but not from `excluded`,
    /// along the parents of commits. Returns `None` if the links of an object on the way are not known.
    pub fn history(
        &mut self,
        alloc: Global,
        tenant: &TenantName,
        wanted: &[Name],
        excluded: &[Name],
    ) -> Result<Option<IndexSet<Name, Hashing>>, AllocError>
        ensures same { self.new ≡ self.old }
        ensures only { IfOk result (λ found. IfSome found (λ names. (name : List ℕ) → contains same_name names name ≡ true → IsBetween (words_that is_visible (ledger_at self.old.ledgers tenant.now)) (parents_named self.old.links) wanted.now excluded.now name)) }
        ensures all { IfOk result (λ found. IfSome found (λ names. (name : List ℕ) → IsBetween (words_that is_visible (ledger_at self.old.ledgers tenant.now)) (parents_named self.old.links) wanted.now excluded.now name → contains same_name names name ≡ true)) }
        ensures known { IfOk result (λ found. IfSome found (λ names. (name : List ℕ) → IsMet (words_that is_visible (ledger_at self.old.ledgers tenant.now)) (parents_named self.old.links) wanted.now excluded.now name → (option_map_or (λ word. leads_nowhere word.kind) (map.get (words_that is_visible (ledger_at self.old.ledgers tenant.now)) name) false ≡ true) ⊎ (map.contains_key self.old.links name ≡ true))) }
    {
        let Some(own) = self.ledgers.get(tenant) else {
            return Ok(None);
        };
        names_in_history(alloc, &self.table, &mut self.links, own, wanted, excluded)
    }

    /// The names of the best common ancestors of two commits among the objects that a tenant sees, or `None` if the
    /// parents of one of their ancestors are not known.
    pub fn bases(
        &mut self,
        alloc: Global,
        tenant: &TenantName,
        a: Name,
        b: Name,
    ) -> Result<Option<IndexSet<Name, Hashing>>, AllocError>
        ensures same { self.new ≡ self.old }
        ensures only { IfOk result (λ found. IfSome found (λ names. (name : List ℕ) → contains same_name names name ≡ true → IsBest (words_that is_visible (ledger_at self.old.ledgers tenant.now)) (parents_named self.old.links) a b name)) }
        ensures all { IfOk result (λ found. IfSome found (λ names. (name : List ℕ) → IsBest (words_that is_visible (ledger_at self.old.ledgers tenant.now)) (parents_named self.old.links) a b name → contains same_name names name ≡ true)) }
        ensures known { IfOk result (λ found. IfSome found (λ names. (name : List ℕ) → IsMet (words_that is_visible (ledger_at self.old.ledgers tenant.now)) (parents_named self.old.links) (a ∷ []) (b ∷ []) name → map.contains_key self.old.links name ≡ true)) }
    {
        let Some(own) = self.ledgers.get(tenant) else {
            return Ok(None);
        };
        base_names(alloc, &self.table, &mut self.links, own, a, b)
    }

    /// The time of the object of a name, if its links are known. For a commit it is its seconds since 1970 plus 1,
    /// and for any other object 0.
    pub fn time(&self, name: Name) -> Option<u64>
        ensures { result ≡ option_map (λ one. one.time) (map.get self.now.links name) }
    {
        self.table.invariant();
        let Some(row) = self.table.row(name) else {
            return None;
        };
        self.links.time(row.number)
    }

    /// Keeps the sets of all objects reachable from these names, so that they need not be walked again. A set is kept
    /// only if the tenant sees all of it and its links are known. A blob in it is then known to have no links.
    pub fn keep_reached(&mut self, alloc: Global, tenant: &TenantName, names: &[Name])
        ensures ledgers { self.new.ledgers ≡ self.old.ledgers }
        ensures catalogue { self.new.catalogue ≡ self.old.catalogue }
        ensures links { (q : List ℕ) (one : Learned (List ℕ)) → map.get self.new.links q ≡ Some one → (map.get self.old.links q ≡ Some one) ⊎ ((one ≡ nothing) × (option_map_or (λ word. leads_nowhere word.kind) (map.get (words_that is_visible (ledger_at self.old.ledgers tenant.now)) q) false ≡ true)) }
    {
        let Some(own) = self.ledgers.get(tenant) else {
            return;
        };
        keep_names(alloc, &self.table, &mut self.links, own, names);
    }

    /// Drops the objects that the tenant sees and that are not reachable from these names. Returns `false`, and drops
    /// none, if the links of an object on the way are not known.
    pub fn retain_reached(
        &mut self,
        alloc: Global,
        tenant: &TenantName,
        roots: &[Name],
    ) -> Result<bool, AllocError>
        ensures retained { IfOk result (λ done. done ≡ true → IsRetained self.old.links tenant.now roots.now self.old.ledgers self.new.ledgers) }
        ensures kept { IfOk result (λ done. done ≡ false → self.new.ledgers ≡ self.old.ledgers) }
        ensures err { OnErr result (self.new.ledgers ≡ self.old.ledgers) }
        ensures places { places_of self.new.catalogue ≡ places_of self.old.catalogue }
        ensures links { (q : List ℕ) (one : Learned (List ℕ)) → map.get self.new.links q ≡ Some one → (map.get self.old.links q ≡ Some one) ⊎ ((one ≡ nothing) × (option_map_or (λ word. leads_nowhere word.kind) (map.get (words_that is_visible (ledger_at self.old.ledgers tenant.now)) q) false ≡ true)) }
    {
        self.table.invariant();
        let Some(own) = self.ledgers.get(tenant) else {
            return Ok(false);
        };
        let reached = numbers_reached(alloc, &self.table, &mut self.links, own, roots)?;
        let Some(numbers) = reached else {
            return Ok(false);
        };
        self.ledgers.keep_numbers(&mut self.table, tenant, &numbers);
        self.table.invariant();
        Ok(true)
    }

    /// The number of names in the catalogue.
    pub fn len(&self) -> usize
        ensures { result ≡ length (places_of self.now.catalogue).names }
    {
        self.table.len()
    }

    /// The name at the place that the sweep looks at next, if nobody holds it.
    pub fn free_name(&self) -> Option<Name>
        ensures some { IfSome result (λ name. LooksNextAt (places_of self.now.catalogue) name × (holders_of self.now.ledgers name ≡ 0)) }
        ensures none { IfNone result (((places_of self.now.catalogue).names ≡ []) ⊎ ((name : List ℕ) × LooksNextAt (places_of self.now.catalogue) name × (0 < holders_of self.now.ledgers name))) }
    {
        self.table.free_name()
    }

    /// The name at a place of the catalogue, if a tenant holds it.
    pub fn held_name(&self, at: usize) -> Option<Name>
        ensures some { IfSome result (λ name. (slice_get (places_of self.now.catalogue).names at ≡ Some name) × (is_held_in self.now.ledgers name ≡ true)) }
        ensures first { IfSome result (λ name. is_listed (take at (places_of self.now.catalogue).names) name ≡ false) }
        ensures none { IfNone result ((name : List ℕ) → slice_get (places_of self.now.catalogue).names at ≡ Some name → is_held_in self.now.ledgers name ≡ false) }
    {
        self.table.held_name(at)
    }

    /// A law, with no code to run: each name that a tenant holds is in the catalogue.
    pub fn held_names_are_catalogued(&self)
        ensures { (name : List ℕ) → is_held_in self.now.ledgers name ≡ true → is_listed (places_of self.now.catalogue).names name ≡ true }
    {
        let _ledgers = &self.ledgers;
    }

    /// A law, with no code to run: no name is in the catalogue twice.
    pub fn names_are_distinct(&self)
        ensures { IsDistinct same_name (places_of self.now.catalogue).names }
    {
        self.table.invariant();
    }

    /// A law, with no code to run: all ledgers agree on the kind and the length of a name.
    pub fn words_are_alike(&self)
        ensures { AllAlike self.now.ledgers }
    {
        self.table.invariant();
    }

    /// Moves the sweep on to the next place, if the catalogue has a name.
    pub fn pass(&mut self)
        ensures ledgers { self.new.ledgers ≡ self.old.ledgers }
        ensures names { (places_of self.new.catalogue).names ≡ (places_of self.old.catalogue).names }
        ensures place { 0 < length (places_of self.old.catalogue).names → (places_of self.new.catalogue).place ≡ looked_at (places_of self.old.catalogue) + 1 }
        ensures kept { length (places_of self.old.catalogue).names ≡ 0 → self.new ≡ self.old }
        ensures links { self.new.links ≡ self.old.links }
    {
        if self.table.len() == 0 {
            return;
        }
        self.table.pass();
    }

    /// Removes a name from the catalogue, if the sweep looks at it next and nobody holds it. Returns whether it was
    /// removed.
    pub fn leave(&mut self, name: Name) -> bool
        ensures only { result ≡ true → LooksNextAt (places_of self.old.catalogue) name × (holders_of self.old.ledgers name ≡ 0) }
        ensures can { LooksNextAt (places_of self.old.catalogue) name → holders_of self.old.ledgers name ≡ 0 → result ≡ true }
        ensures kept { result ≡ false → self.new ≡ self.old }
        ensures ledgers { self.new.ledgers ≡ self.old.ledgers }
        ensures left { result ≡ true → (front back : List (List ℕ)) → (places_of self.old.catalogue).names ≡ front ++ name ∷ back → length front ≡ looked_at (places_of self.old.catalogue)
            → (left : List (List ℕ)) × ((places_of self.new.catalogue).names ≡ front ++ left) × IsPermutation back left }
        ensures place { result ≡ true → (places_of self.new.catalogue).place ≡ looked_at (places_of self.old.catalogue) }
        ensures listed { result ≡ true → (q : List ℕ) → is_listed (places_of self.new.catalogue).names q ≡ (not (same_name name q) && is_listed (places_of self.old.catalogue).names q) }
        ensures links { result ≡ true → KnowsNoMore self.old.links self.new.links }
        ensures away { result ≡ true → map.get self.new.links name ≡ None }
    {
        let Some(next) = self.free_name() else {
            return false;
        };
        if next != name {
            return false;
        }
        leave_in(&mut self.table, &self.ledgers, &mut self.links, name);
        true
    }

    /// Moves the sweep back to the first place.
    pub fn restart(&mut self)
        ensures ledgers { self.new.ledgers ≡ self.old.ledgers }
        ensures places { places_of self.new.catalogue ≡ at_start (places_of self.old.catalogue) }
        ensures links { self.new.links ≡ self.old.links }
    {
        self.table.restart();
    }

    /// The place that the sweep looks at next. It may be the length of the catalogue, which means the first place.
    pub fn place(&self) -> usize
        ensures place { result ≡ (places_of self.now.catalogue).place }
        ensures within { result ≤ length (places_of self.now.catalogue).names }
    {
        self.table.place()
    }
}

// Forgets the links of the object of a name, and of the objects that link to it.
fn forget_in(table: &Table, links: &mut Graph, name: Name)
    requires linked { AreLinks table.now.entries links.old }
    ensures linked { AreLinks table.now.entries links.new }
    ensures links { KnowsNoMore (named_links table.now.entries links.old) (named_links table.now.entries links.new) }
    ensures away { map.get (named_links table.now.entries links.new) name ≡ None }
{
    table.invariant();
    let Some(row) = table.row(name) else {
        return;
    };
    let _all = links.renew(row.number);
}

// Learns the links of the object of a row, given as numbers.
fn learn_row(table: &Table, links: &mut Graph, name: Name, row: Row, to: &[u32], time: u64)
    requires linked { AreLinks table.now.entries links.old }
    requires here { row_in table.now.entries name ≡ Some row }
    requires used { (m : ℕ) → Contains to.now m → IsUsed table.now.entries m }
    ensures linked { AreLinks table.now.entries links.new }
    ensures links { (q : List ℕ) (one : Learned (List ℕ)) → map.get (named_links table.now.entries links.new) q ≡ Some one → (map.get (named_links table.now.entries links.old) q ≡ Some one) ⊎ ((q ≡ name) × (one ≡ told (mapped (numbered_name table.now.entries) to.now) time)) }
    ensures stays { (q : List ℕ) → map.contains_key (named_links table.now.entries links.old) q ≡ true → map.get (named_links table.now.entries links.new) q ≡ map.get (named_links table.now.entries links.old) q }
{
    table.invariant();
    let _name = name;
    let _learned = links.learn(row.number, to, time);
}

fn names_in(
    alloc: Global,
    table: &Table,
    ledgers: &Ledgers,
    tenant: &TenantName,
) -> Result<Vec<Name>, AllocError>
    requires held { AreHeld table.now.entries ledgers.now }
    ensures { IfOk result (λ names. names.items ≡ map.keys (words_that is_visible (ledger_at (all_words table.now.entries ledgers.now) tenant.now))) }
{
    let Some(ledger) = ledgers.get(tenant) else {
        return Ok(Vec::new(alloc));
    };
    seen_names(alloc, table, ledger)
}

fn seen_count_in(table: &Table, ledgers: &Ledgers, tenant: &TenantName) -> usize
    requires held { AreHeld table.now.entries ledgers.now }
    ensures { result ≡ map.len (words_that is_visible (ledger_at (all_words table.now.entries ledgers.now) tenant.now)) }
{
    let Some(ledger) = ledgers.get(tenant) else {
        return 0;
    };
    count_seen(table, ledger)
}

fn used_in(table: &Table, ledgers: &Ledgers, tenant: &TenantName) -> u128
    requires held { AreHeld table.now.entries ledgers.now }
    ensures { result ≡ capped (used_by (ledger_at (all_words table.now.entries ledgers.now) tenant.now)) }
{
    table.invariant();
    let Some(ledger) = ledgers.get(tenant) else {
        return 0;
    };
    ledger.used()
}

fn is_within_in(table: &Table, ledgers: &Ledgers, tenant: &TenantName, limit: u64) -> bool
    requires held { AreHeld table.now.entries ledgers.now }
    ensures { result ≡ nat_le (total_of (ledger_at (all_words table.now.entries ledgers.now) tenant.now)) limit }
{
    let Some(ledger) = ledgers.get(tenant) else {
        return true;
    };
    ledger.total() <= limit as u128
}

// Adds a name. Nobody holds a new name.
fn enter_in(
    table: &mut Table,
    ledgers: &Ledgers,
    links: &Graph,
    name: Name,
) -> Result<(), AllocError>
    requires held { AreHeld table.old.entries ledgers.now }
    requires linked { AreLinks table.old.entries links.now }
    ensures held { AreHeld table.new.entries ledgers.now }
    ensures linked { AreLinks table.new.entries links.now }
    ensures links { named_links table.new.entries links.now ≡ named_links table.old.entries links.now }
    ensures listed { OnOk result ((q : List ℕ) → is_listed (places_of table.new).names q ≡ (same_name name q || is_listed (places_of table.old).names q)) }
    ensures grows { GrowsAmong (name ∷ []) (places_of table.old) (places_of table.new) }
    ensures words { all_words table.new.entries ledgers.now ≡ all_words table.old.entries ledgers.now }
    ensures err { OnErr result (places_of table.new ≡ places_of table.old) }
{
    table.invariant();
    let entered = table.enter(name);
    table.invariant();
    entered
}

// Forgets the links of a name, and of the names that link to it.
fn renew(table: &Table, links: &mut Graph, name: Name)
    ensures { (row : Row) → row_in table.now.entries name ≡ Some row → (n : ℕ) (one : Learned ℕ) → learned links.new n ≡ Some one → (learned links.old n ≡ Some one) × (n ≢ row.number) × (Contains one.links row.number → ⊥) }
{
    let Some(row) = table.row(name) else {
        return;
    };
    let _all = links.renew(row.number);
}

// Removes a name that nobody holds.
fn leave_in(table: &mut Table, ledgers: &Ledgers, links: &mut Graph, name: Name)
    requires held { AreHeld table.old.entries ledgers.now }
    requires linked { AreLinks table.old.entries links.old }
    requires next { LooksNextAt (places_of table.old) name }
    requires free { holders_of (all_words table.old.entries ledgers.now) name ≡ 0 }
    ensures held { AreHeld table.new.entries ledgers.now }
    ensures linked { AreLinks table.new.entries links.new }
    ensures links { KnowsNoMore (named_links table.old.entries links.old) (named_links table.new.entries links.new) }
    ensures away { map.get (named_links table.new.entries links.new) name ≡ None }
    ensures words { all_words table.new.entries ledgers.now ≡ all_words table.old.entries ledgers.now }
    ensures left { (front back : List (List ℕ)) → (places_of table.old).names ≡ front ++ name ∷ back → length front ≡ looked_at (places_of table.old)
        → (left : List (List ℕ)) × ((places_of table.new).names ≡ front ++ left) × IsPermutation back left }
    ensures place { (places_of table.new).place ≡ looked_at (places_of table.old) }
    ensures listed { (q : List ℕ) → is_listed (places_of table.new).names q ≡ (not (same_name name q) && is_listed (places_of table.old).names q) }
{
    table.invariant();
    renew(table, links, name);
    table.leave(name);
    table.invariant();
}

// Gives the rows of names that nobody holds the kinds and lengths to stage. Then stages all objects or none.
fn stage_in(
    table: &mut Table,
    ledgers: &mut Ledgers,
    tenant: &TenantName,
    entries: &[Entry],
) -> Result<(), StageFault>
    requires held { AreHeld table.old.entries ledgers.old }
    ensures held { AreHeld table.new.entries ledgers.new }
    ensures ok { OnOk result (all_words table.new.entries ledgers.new ≡ at_ledger (all_words table.old.entries ledgers.old) tenant.now (all_staged_words entries.now)) }
    ensures err { OnErr result (all_words table.new.entries ledgers.new ≡ all_words table.old.entries ledgers.old) }
    ensures listed { OnOk result (AreListed (places_of table.old) entries.now) }
    ensures unlisted { IfErr result (λ fault. fault ≡ StageFault.Unlisted → AreListed (places_of table.old) entries.now → ⊥) }
    ensures clash { IfErr result (λ fault. fault ≡ StageFault.Clash → Clash (all_words table.old.entries ledgers.old) entries.now) }
    ensures places { places_of table.new ≡ places_of table.old }
    ensures numbers { KeepsNumbers table.old.entries table.new.entries }
{
    table.invariant();
    let described = describe_all(table, entries);
    table.invariant();
    described?;
    let Ok(()) = ledgers.stage(table, tenant, entries) else {
        return Err(StageFault::Memory);
    };
    Ok(())
}
