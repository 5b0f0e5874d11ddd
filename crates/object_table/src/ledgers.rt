ghost use Rattle.std.specs.Prelude.{◌≡◌, ◌+◌, true, false, List, ℕ, IfOk, OnOk, OnErr, Some, sum_by, nat_le};
ghost use Rattle.std.specs.FinMap as map;
ghost use Rattle.std.specs.List.{All};
ghost use Rattle.std.specs.Option.{option_copied};
ghost use Rattle.object_table.specs.AllStaged.{all_staged_words};
ghost use Rattle.object_table.specs.Clashes.{HasRow};
ghost use Rattle.object_table.specs.Coming.{all_seen_words, coming_in, use_of_entry};
ghost use Rattle.object_table.specs.Holders.{AreHeld};
ghost use Rattle.object_table.specs.Ledgers.{at_ledger, ledger_at, with_ledger, word_at};
ghost use Rattle.object_table.specs.Links.{KeepsNumbers, is_among};
ghost use Rattle.object_table.specs.Rows.{places_of};
ghost use Rattle.object_table.specs.Totals.{capped, total_of, used_by};
ghost use Rattle.object_table.specs.Views.{all_words};
ghost use Rattle.object_table.specs.Words.{discarded_words, is_visible, kept_words, published_words, words_that};

use crate::entry::Entry;
use crate::leaving::{discard, keep_numbers, keep_only};
use crate::ledger::Ledger;
use crate::name_set::NameSet;
use crate::staging::{see_entries, stage_entries};
use crate::table::Table;
use fork_request::TenantName;
use git_name::Name;
use number_links::NumberSet;
use std::alloc::{AllocError, Global};
use std::collections::BTreeMap;
use std::marker::Model;

/// The ledgers of all tenants.
#[derive(Drop)]
pub struct Ledgers {
    tenants: BTreeMap<TenantName, Ledger>,
}

impl Model for Ledgers {
    ghost use Rattle.std.specs.FinMap.{FinMap, from_entries};
    ghost use Rattle.git_name.specs.Name.{name_cmp};
    ghost use Rattle.object_table.specs.Views.{Sets, tenants_code};

    ghost Value = { FinMap name_cmp Sets };

    ghost coded = { tenants_code };

    ghost view = { λ a. from_entries a.tenants.entries };
}

impl Ledgers {
    /// No tenants.
    pub(crate) fn new(alloc: Global) -> Ledgers
        ensures { result ≡ map.empty }
    {
        Ledgers {
            tenants: BTreeMap::new(alloc),
        }
    }

    /// The number of tenants.
    pub(crate) fn len(&self) -> usize
        ensures { result ≡ map.len self.now }
    {
        self.tenants.len()
    }

    /// A tenant's ledger.
    pub(crate) fn get(&self, tenant: &TenantName) -> Option<&Ledger>
        ensures { option_copied result ≡ map.get self.now tenant.now }
    {
        self.tenants.get(tenant)
    }

    /// Adds a tenant with an empty ledger, unless the tenant exists.
    pub(crate) fn add(
        &mut self,
        alloc: Global,
        table: &Table,
        tenant: TenantName,
    ) -> Result<(), AllocError>
        requires held { AreHeld table.now.entries self.old }
        ensures held { AreHeld table.now.entries self.new }
        ensures ok { OnOk result (all_words table.now.entries self.new ≡ with_ledger (all_words table.now.entries self.old) tenant) }
        ensures err { OnErr result (all_words table.now.entries self.new ≡ all_words table.now.entries self.old) }
    {
        table.invariant();
        if self.tenants.contains_key(&tenant) {
            return Ok(());
        }
        match self.tenants.insert(tenant, Ledger::new(alloc)) {
            Ok(_) => Ok(()),
            Err(_) => Err(AllocError),
        }
    }

    /// Stages these objects for a tenant, in order. On an `Err` none is staged.
    pub(crate) fn stage(
        &mut self,
        table: &mut Table,
        tenant: &TenantName,
        entries: &[Entry],
    ) -> Result<(), AllocError>
        requires held { AreHeld table.old.entries self.old }
        requires rows { All (HasRow table.old.entries) entries.now }
        ensures held { AreHeld table.new.entries self.new }
        ensures ok { OnOk result (all_words table.new.entries self.new ≡ at_ledger (all_words table.old.entries self.old) tenant.now (all_staged_words entries.now)) }
        ensures err { OnErr result (all_words table.new.entries self.new ≡ all_words table.old.entries self.old) }
        ensures places { places_of table.new ≡ places_of table.old }
        ensures numbers { KeepsNumbers table.old.entries table.new.entries }
    {
        table.invariant();
        let _tenants = self.len();
        let Some(own) = self.tenants.get_mut(tenant) else {
            return Ok(());
        };
        let Ok(()) = stage_entries(table, own, entries) else {
            return Err(AllocError);
        };
        Ok(())
    }

    /// Makes these objects visible to a tenant. On an `Err` none becomes visible.
    pub(crate) fn see(
        &mut self,
        table: &mut Table,
        tenant: &TenantName,
        entries: &[Entry],
    ) -> Result<(), AllocError>
        requires held { AreHeld table.old.entries self.old }
        requires rows { All (HasRow table.old.entries) entries.now }
        ensures held { AreHeld table.new.entries self.new }
        ensures ok { OnOk result (all_words table.new.entries self.new ≡ at_ledger (all_words table.old.entries self.old) tenant.now (all_seen_words entries.now)) }
        ensures err { OnErr result (all_words table.new.entries self.new ≡ all_words table.old.entries self.old) }
        ensures places { places_of table.new ≡ places_of table.old }
        ensures numbers { KeepsNumbers table.old.entries table.new.entries }
    {
        table.invariant();
        let _tenants = self.len();
        let Some(own) = self.tenants.get_mut(tenant) else {
            return Ok(());
        };
        let Ok(()) = see_entries(table, own, entries) else {
            return Err(AllocError);
        };
        Ok(())
    }

    /// Makes what the tenant has staged visible to it. Allocates nothing.
    pub(crate) fn publish(&mut self, table: &Table, tenant: &TenantName)
        requires held { AreHeld table.now.entries self.old }
        ensures held { AreHeld table.now.entries self.new }
        ensures words { all_words table.now.entries self.new ≡ at_ledger (all_words table.now.entries self.old) tenant.now published_words }
    {
        table.invariant();
        let _tenants = self.len();
        let Some(own) = self.tenants.get_mut(tenant) else {
            return;
        };
        own.publish();
    }

    /// Drops what the tenant has staged. Allocates nothing.
    pub(crate) fn discard(&mut self, table: &mut Table, tenant: &TenantName)
        requires held { AreHeld table.old.entries self.old }
        ensures held { AreHeld table.new.entries self.new }
        ensures words { all_words table.new.entries self.new ≡ at_ledger (all_words table.old.entries self.old) tenant.now discarded_words }
        ensures places { places_of table.new ≡ places_of table.old }
        ensures numbers { KeepsNumbers table.old.entries table.new.entries }
    {
        table.invariant();
        let _tenants = self.len();
        let Some(own) = self.tenants.get_mut(tenant) else {
            return;
        };
        discard(table, own);
    }

    /// Drops the objects that the tenant sees, except those with these names. Allocates nothing.
    pub(crate) fn keep_only<N: NameSet>(
        &mut self,
        table: &mut Table,
        tenant: &TenantName,
        names: &N,
    )
        requires held { AreHeld table.old.entries self.old }
        ensures held { AreHeld table.new.entries self.new }
        ensures words { all_words table.new.entries self.new ≡ at_ledger (all_words table.old.entries self.old) tenant.now (kept_words (N.names names.now)) }
        ensures places { places_of table.new ≡ places_of table.old }
        ensures numbers { KeepsNumbers table.old.entries table.new.entries }
    {
        table.invariant();
        let _tenants = self.len();
        let Some(own) = self.tenants.get_mut(tenant) else {
            return;
        };
        keep_only(table, own, names);
    }

    /// Drops the objects that the tenant sees, except those with these numbers. Allocates nothing.
    pub(crate) fn keep_numbers(
        &mut self,
        table: &mut Table,
        tenant: &TenantName,
        numbers: &NumberSet,
    )
        requires held { AreHeld table.old.entries self.old }
        ensures held { AreHeld table.new.entries self.new }
        ensures words { all_words table.new.entries self.new ≡ at_ledger (all_words table.old.entries self.old) tenant.now (kept_words (is_among table.old.entries numbers.now)) }
        ensures places { places_of table.new ≡ places_of table.old }
        ensures numbers { KeepsNumbers table.old.entries table.new.entries }
    {
        table.invariant();
        let _tenants = self.len();
        let Some(own) = self.tenants.get_mut(tenant) else {
            return;
        };
        keep_numbers(table, own, numbers);
    }
}
