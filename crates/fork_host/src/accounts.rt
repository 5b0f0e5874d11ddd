ghost use Rattle.std.specs.Prelude.{◌≡◌, ◌≢◌, [], IfOk, IsTrue, List, ℕ, OnOk, OnErr, Some, None, false, true, option_map};
ghost use Rattle.push_stream.specs.Upload.{upload_of};
ghost use Rattle.std.specs.FinMap as map;
ghost use Rattle.std.specs.BTreeMap.{IsUnchanged, Updates};
ghost use Rattle.git_name.specs.Name.{name_cmp};
ghost use Rattle.fork_request.specs.Asked.{ask_of};
ghost use Rattle.fork_request.specs.Told.{is_done};
ghost use Rattle.fork_model.specs.Figures.{figure_lines};
ghost use Rattle.fork_model.specs.Runs.{Asks};
ghost use Rattle.fork_model.specs.Sound.{IsOrderlyWorld};
ghost use Rattle.fork_model.specs.World.{Steps};
ghost use Rattle.state_text.specs.Kept.{states_of};
ghost use Rattle.looks.specs.Growth.{GrowsAmong};
ghost use Rattle.fork_ledger.specs.Tenants.{shape_of};
ghost use Rattle.fork_host.specs.Adding.{new_account};
ghost use Rattle.fork_host.specs.Bounds.{IsBounded};
ghost use Rattle.std.specs.List.{flat_map};
ghost use Rattle.fork_ledger.specs.Private.{Private};
ghost use Rattle.fork_ledger.specs.Tenants.{VaultState};
ghost use Rattle.fork_request.specs.Asked.{AsksOffers, ForksOffer};
ghost use Rattle.fork_model.specs.Answer.{answer, offers_answer};
ghost use Rattle.fork_model.specs.Context.{Context, met_by, nothing_offered};
ghost use Rattle.fork_model.specs.Disclosure.{changes_offers, looks_at_offers};
ghost use Rattle.fork_model.specs.Sound.{AreToOthers};
ghost use Rattle.fork_host.specs.Forked.{ForksOffered, HasForked};
ghost use Rattle.fork_host.specs.Made.{rows_from};
ghost use Rattle.fork_host.specs.Meeting.{IsMet};
ghost use Rattle.fork_host.specs.Rows.{Gives};
ghost use Rattle.fork_host.specs.Shown.{seen_by};
ghost use Rattle.fork_host.specs.Opening.{reading_told};
ghost use Rattle.fork_host.specs.Own.{IsOwn, IsReady, staged_in, visible_in};
ghost use Rattle.fork_host.specs.Rows.{YieldsOver};
ghost use Rattle.fork_host.specs.Safe.{IsNamedReply, IsSafe, IsTakenFrom, TellsSeen};
ghost use Rattle.fork_host.specs.Sent.{seen_in_world, sent_by, sent_in_world, sent_names};
ghost use Rattle.fork_host.specs.Shape.{SameOffers, SameShape};
ghost use Rattle.fork_host.specs.Uploads.{upload_at, uploading_in};
ghost use Rattle.fork_host.specs.Shown.{Account, IsWhole, Trusted, shown, state_of, world_of};
ghost use Rattle.fork_host.specs.Staged.{Came, IsStaged};

use crate::fork_offer::fork_offer;
use crate::keeping::keep_tenant;
use crate::made::Made;
use crate::meeting::Met;
use crate::opening::bytes_of;
use crate::own::Own;
use crate::repositories::Repositories;
use crate::tenant::Tenant;
use fork_ledger::Vault;
use fork_request::{HostFault, Refusal, Reply, RepositoryName, Request, TenantName};
use loose_store::LooseFiles;
use push_stream::OpenUpload;
use state_text::States;
use std::alloc::{AllocError, Global};
use std::collections::BTreeMap;
use std::marker::Model;

// Tenants by name, each with its account.
#[derive(Drop)]
pub(crate) struct Accounts {
    tenants: BTreeMap<TenantName, Tenant>,
}

impl Model for Accounts {
    ghost use Rattle.std.specs.FinMap as map;
    ghost use Rattle.std.specs.Coded.{coded_list, coded_ℕ};
    ghost use Rattle.fork_host.specs.Shown.{Accounts, account_code};

    ghost Value = { Accounts };

    ghost coded = { map.code (coded_list coded_ℕ) account_code };

    ghost view = { λ a. map.from_entries a.tenants.entries };
}

impl Accounts {
    // No tenants.
    pub(crate) fn new(alloc: Global) -> Accounts
        ensures { result ≡ map.empty }
    {
        Accounts {
            tenants: BTreeMap::new(alloc),
        }
    }

    // The number of tenants.
    pub(crate) fn len(&self) -> usize
        ensures { result ≡ map.len self.now }
    {
        self.tenants.len()
    }

    // Whether there is a tenant of this name.
    pub(crate) fn contains(&self, name: &TenantName) -> bool
        ensures { result ≡ map.contains_key self.now name.now }
    {
        self.tenants.contains_key(name)
    }

    // How many references a tenant's repositories and offers have, up to 2^64 - 1.
    pub(crate) fn reference_count(&self, name: &TenantName) -> u64 {
        match self.tenants.get(name) {
            Some(tenant) => tenant.reference_count(),
            None => 0,
        }
    }

    // Puts a new account under a name.
    pub(crate) fn insert(
        &mut self,
        alloc: Global,
        name: TenantName,
        limit: u64,
    ) -> Result<(), AllocError>
        ensures ok { OnOk result (self.new ≡ map.insert self.old name (new_account limit)) }
        ensures err { OnErr result (self.new ≡ self.old) }
    {
        put(&mut self.tenants, name, Tenant::new(alloc, limit))
    }

    // Removes the tenant of this name. It allocates nothing.
    pub(crate) fn remove(&mut self, name: &TenantName)
        ensures { self.new ≡ map.remove self.old name.now }
    {
        take_out(&mut self.tenants, name)
    }

    // Gives a tenant these repositories and offers. It allocates nothing.
    pub(crate) fn settle(&mut self, name: &TenantName, repositories: Repositories, made: Made)
        ensures { (account : Account) → map.get self.old name.now ≡ Some account
            → self.new ≡ map.insert self.old name.now (record account { repositories = repositories; made = made }) }
    {
        let Some(tenant) = self.tenants.get_mut(name) else {
            return;
        };
        tenant.settle(repositories, made);
    }

    // What outlives the host's process, tenant by tenant.
    pub(crate) fn states<S: LooseFiles>(
        &self,
        alloc: Global,
        vault: &Vault<S>,
    ) -> Result<States, AllocError>
        requires { IsOrderlyWorld (world_of (state_of self.now vault.now)) }
        ensures { IfOk result (λ states. states ≡ states_of (world_of (state_of self.now vault.now))) }
    {
        let mut states = States::new(alloc);
        for (name, tenant) in self.tenants.iter() {
            let state = tenant.state(alloc, vault, name)?;
            keep_tenant(&mut states, state)?;
        }
        Ok(states)
    }

    // A line for each tenant, in numbers: what it has and may have.
    pub(crate) fn figures<S: LooseFiles>(
        &self,
        alloc: Global,
        vault: &Vault<S>,
    ) -> Result<Vec<u8>, AllocError>
        requires { IsOrderlyWorld (world_of (state_of self.now vault.now)) }
        ensures { IfOk result (λ text. text.items ≡ figure_lines (world_of (state_of self.now vault.now))) }
    {
        let mut text = Vec::new(alloc);
        for (name, tenant) in self.tenants.iter() {
            tenant.add_figures(vault, name, &mut text)?;
        }
        Ok(text)
    }

    // The tenants that have an open upload, in the order of their names.
    pub(crate) fn uploading(&self, alloc: Global) -> Result<Vec<TenantName>, AllocError>
        ensures { IfOk result (λ names. names.items ≡ uploading_in (map.entries self.now)) }
    {
        let mut names = Vec::new(alloc);
        for (name, tenant) in self.tenants.iter() {
            if tenant.is_uploading() {
                names.push(name.copy())?;
            }
        }
        Ok(names)
    }

    // The bytes that open a tenant's upload again, if the tenant exists and has one open.
    pub(crate) fn upload<S: LooseFiles>(
        &self,
        alloc: Global,
        vault: &mut Vault<S>,
        name: &TenantName,
    ) -> Result<Option<Vec<u8>>, HostFault>
        requires whole { IsWhole (state_of self.now vault.old) }
        ensures found { IsTrue vault.old.honest → IfOk result (λ found. option_map (λ bytes. upload_of bytes.items) found ≡ upload_at (world_of (state_of self.now vault.old)) name.now) }
        ensures kept { IsTrue vault.old.honest → vault.new.tenants ≡ vault.old.tenants }
        ensures shape { shape_of vault.new.tenants ≡ shape_of vault.old.tenants }
        ensures faults { IsBounded [] vault.old vault.new (reading_told result) }
    {
        let Some(tenant) = self.tenants.get(name) else {
            return Ok(None);
        };
        let Some(upload) = tenant.upload() else {
            return Ok(None);
        };
        let bytes = read_upload(alloc, vault, name, upload)?;
        Ok(Some(bytes))
    }

    // Answers a tenant's request from its account and its own part of the vault.
    pub(crate) fn answer<S: LooseFiles>(
        &mut self,
        alloc: Global,
        vault: &mut Vault<S>,
        name: &TenantName,
        request: Request<'_>,
    ) -> Reply
        requires whole { IsWhole (state_of self.old vault.old) }
        ensures explained { Trusted (state_of self.old vault.old) → Steps (world_of (state_of self.old vault.old)) (Asks name.now (ask_of request.entry)) result (world_of (state_of self.new vault.new)) }
        ensures whole { IsWhole (state_of self.new vault.new) }
        ensures trusted { vault.new.honest ≡ vault.old.honest }

        // Over any store.
        ensures kept { is_done result ≡ false → (tenant : List ℕ) → SameShape tenant (world_of (state_of self.old vault.old)) (world_of (state_of self.new vault.new)) }
        ensures others { (tenant : List ℕ) → tenant ≢ name.now → SameShape tenant (world_of (state_of self.old vault.old)) (world_of (state_of self.new vault.new)) }
        ensures offers { changes_offers (ask_of request.entry) ≡ false → (tenant : List ℕ) → SameOffers tenant (world_of (state_of self.old vault.old)) (world_of (state_of self.new vault.new)) }
        ensures forked { (giver word copy : List ℕ) → ask_of request.entry ≡ ForksOffer giver word copy → is_done result ≡ true
            → ForksOffered (world_of (state_of self.old vault.old)) (world_of (state_of self.new vault.new)) name.now giver word copy }
        ensures takes { (giver word copy : List ℕ) → ask_of request.entry ≡ ForksOffer giver word copy
            → IsTakenFrom (seen_in_world (world_of (state_of self.old vault.old)) giver) (seen_in_world (world_of (state_of self.old vault.old)) name.now) (seen_in_world (world_of (state_of self.new vault.new)) name.now) }
        ensures named { IsNamedReply (ask_of request.entry) result }
        ensures seen { TellsSeen (seen_in_world (world_of (state_of self.old vault.old)) name.now) (ask_of request.entry) result }
        ensures faults { IsBounded (sent_in_world (world_of (state_of self.old vault.old)) name.now (ask_of request.entry)) vault.old vault.new result }
        ensures grows { GrowsAmong (sent_names (sent_in_world (world_of (state_of self.old vault.old)) name.now (ask_of request.entry))) vault.old.places vault.new.places }
    {
        vault.invariant();
        let Ok(met) = self.meet(alloc, vault, name, request) else {
            return Reply::Failed(HostFault::Memory);
        };
        let Some(tenant) = self.tenants.get_mut(name) else {
            return Reply::Refused(Refusal::UnknownTenant);
        };
        answer_met(alloc, tenant, vault, name, request, met)
    }

    // The offers of others that a request of this tenant depends on.
    fn meet<S: LooseFiles>(
        &self,
        alloc: Global,
        vault: &Vault<S>,
        name: &TenantName,
        request: Request<'_>,
    ) -> Result<Met, AllocError>
        requires orderly { IsOrderlyWorld (world_of (state_of self.now vault.now)) }
        ensures { IfOk result (IsMet vault.now (met_by (world_of (state_of self.now vault.now)) name.now) (ask_of request.entry)) }
    {
        match request {
            Request::Offers => {
                let rows = self.rows_to(alloc, name)?;
                Ok(Met::Rows(rows))
            }
            Request::ForkOffer(giver, word, _) => self.offer_from(vault, giver, word, name),
            _ => Ok(Met::Nothing),
        }
    }

    // A row for each offer to this receiver.
    fn rows_to(&self, alloc: Global, receiver: &TenantName) -> Result<Vec<u8>, AllocError>
        ensures { IfOk result (λ rows. rows.items ≡ flat_map (λ entry. rows_from entry.0 receiver.now entry.1.made) (map.entries self.now)) }
    {
        let mut rows = Vec::new(alloc);
        for (name, tenant) in self.tenants.iter() {
            tenant.add_rows_to(name, receiver, &mut rows)?;
        }
        Ok(rows)
    }

    // A copy of the offer that this giver made to this receiver, of the repository that a word names.
    fn offer_from<S: LooseFiles>(
        &self,
        vault: &Vault<S>,
        giver: &[u8],
        word: &[u8],
        receiver: &TenantName,
    ) -> Result<Met, AllocError>
        requires orderly { IsOrderlyWorld (world_of (state_of self.now vault.now)) }
        ensures { (copy : List ℕ) → IfOk result (IsMet vault.now (met_by (world_of (state_of self.now vault.now)) receiver.now) (ForksOffer giver.now word.now copy)) }
    {
        let Some(giver) = TenantName::read(giver) else {
            return Ok(Met::Nothing);
        };
        let Some(name) = RepositoryName::read(word) else {
            return Ok(Met::Nothing);
        };
        let Some(tenant) = self.tenants.get(&giver) else {
            return Ok(Met::Nothing);
        };
        let Some(repository) = tenant.offered_to(receiver, &name) else {
            return Ok(Met::Nothing);
        };
        let copy = repository.copy()?;
        Ok(Met::Offer(giver, copy))
    }
}

// The bytes that open a tenant's upload again.
fn read_upload<S: LooseFiles>(
    alloc: Global,
    vault: &mut Vault<S>,
    name: &TenantName,
    upload: &OpenUpload,
) -> Result<Vec<u8>, HostFault>
    requires staged { IsStaged vault.old.honest (Some upload.now.brief) (staged_in vault.old name.now) }
    ensures opens { (bytes : List ℕ) → IsTrue vault.old.honest → Came vault.old.honest bytes upload.now.brief (staged_in vault.old name.now) → IfOk result (λ again. upload_of again.items ≡ upload_of bytes) }
    ensures kept { IsTrue vault.old.honest → vault.new.tenants ≡ vault.old.tenants }
    ensures shape { shape_of vault.new.tenants ≡ shape_of vault.old.tenants }
    ensures faults { IsBounded [] vault.old vault.new (reading_told result) }
{
    let mut own = Own::new(vault, name);
    bytes_of(alloc, &mut own, upload)
}

// Answers a request from a tenant's account, its own part of the vault, and the offers of others that
// the request depends on.
fn answer_met<S: LooseFiles>(
    alloc: Global,
    tenant: &mut Tenant,
    vault: &mut Vault<S>,
    name: &TenantName,
    request: Request<'_>,
    met: Met,
) -> Reply
    requires ready { IsReady vault.old name.now tenant.old.limit }
    requires staged { IsStaged vault.old.honest tenant.old.upload (staged_in vault.old name.now) }
    ensures row { (context : Context) → context.own ≡ name.now → IsMet vault.old context (ask_of request.entry) met
        → YieldsOver vault.old.honest (answer context (shown tenant.old vault.old name.now) (ask_of request.entry)) (shown tenant.old vault.old name.now) result (shown tenant.new vault.new name.now) }
    ensures safe { (context : Context) → IsMet vault.old context (ask_of request.entry) met
        → IsSafe (IsBounded (sent_by (shown tenant.old vault.old name.now) (ask_of request.entry)) vault.old vault.new) (shown tenant.old vault.old name.now) result (shown tenant.new vault.new name.now) }
    ensures made { changes_offers (ask_of request.entry) ≡ false → tenant.new.made ≡ tenant.old.made }
    ensures others { AreToOthers name.now (shown tenant.old vault.old name.now) → AreToOthers name.now (shown tenant.new vault.new name.now) }
    ensures forked { (context : Context) (giver word copy : List ℕ) → IsMet vault.old context (ask_of request.entry) met → ask_of request.entry ≡ ForksOffer giver word copy → is_done result ≡ true
        → HasForked context giver word copy tenant.old tenant.new }
    ensures takes { (context : Context) (giver word copy : List ℕ) → IsMet vault.old context (ask_of request.entry) met → ask_of request.entry ≡ ForksOffer giver word copy
        → IsTakenFrom (visible_in vault.old giver) (visible_in vault.old name.now) (visible_in vault.new name.now) }
    ensures named { IsNamedReply (ask_of request.entry) result }
    ensures seen { TellsSeen (visible_in vault.old name.now) (ask_of request.entry) result }
    ensures own { IsOwn name.now vault.old vault.new }
    ensures grows { GrowsAmong (sent_names (sent_by (shown tenant.old vault.old name.now) (ask_of request.entry))) vault.old.places vault.new.places }
    ensures staged { IsStaged vault.old.honest tenant.new.upload (staged_in vault.new name.now) }
{
    if looks_at_offers(request) {
        return look(alloc, tenant, vault, name, request, met);
    }
    answer_from(alloc, tenant, vault, name, request)
}

// Whether a request depends on what others have offered to its tenant.
fn looks_at_offers(request: Request<'_>) -> bool
    ensures { result ≡ looks_at_offers (ask_of request.entry) }
{
    match request {
        Request::Offers => true,
        Request::ForkOffer(_, _, _) => true,
        _ => false,
    }
}

// As `answer_met`, for a request that depends on offers.
fn look<S: LooseFiles>(
    alloc: Global,
    tenant: &mut Tenant,
    vault: &mut Vault<S>,
    name: &TenantName,
    request: Request<'_>,
    met: Met,
) -> Reply
    requires ready { IsReady vault.old name.now tenant.old.limit }
    requires staged { IsStaged vault.old.honest tenant.old.upload (staged_in vault.old name.now) }
    requires looks { looks_at_offers (ask_of request) ≡ true }
    ensures row { (context : Context) → IsMet vault.old context (ask_of request.entry) met
        → YieldsOver vault.old.honest (answer context (shown tenant.old vault.old name.now) (ask_of request.entry)) (shown tenant.old vault.old name.now) result (shown tenant.new vault.new name.now) }
    ensures safe { (context : Context) → IsMet vault.old context (ask_of request.entry) met
        → IsSafe (IsBounded [] vault.old vault.new) (shown tenant.old vault.old name.now) result (shown tenant.new vault.new name.now) }
    ensures forked { (context : Context) (giver word copy : List ℕ) → IsMet vault.old context (ask_of request.entry) met → ask_of request.entry ≡ ForksOffer giver word copy → is_done result ≡ true
        → HasForked context giver word copy tenant.old tenant.new }
    ensures takes { (context : Context) (giver word copy : List ℕ) → IsMet vault.old context (ask_of request.entry) met → ask_of request.entry ≡ ForksOffer giver word copy
        → IsTakenFrom (visible_in vault.old giver) (visible_in vault.old name.now) (visible_in vault.new name.now) }
    ensures made { tenant.new.made ≡ tenant.old.made }
    ensures own { IsOwn name.now vault.old vault.new }
    ensures grows { GrowsAmong [] vault.old.places vault.new.places }
    ensures staged { IsStaged vault.old.honest tenant.new.upload (staged_in vault.new name.now) }
{
    match request {
        Request::Offers => list_offers(tenant, met),
        Request::ForkOffer(giver, word, copy) => {
            fork_offer(alloc, tenant, vault, name, met, (giver, word, copy))
        }
        _ => unreachable!(),
    }
}

// Lists the offers to the tenant, which are passed in, then those that it has made.
fn list_offers(tenant: &Tenant, met: Met) -> Reply
    ensures { (vault : VaultState) (context : Context) (own : Private) → IsMet vault context AsksOffers met → Gives (offers_answer context (seen_by tenant.now own)) (seen_by tenant.now own) result (seen_by tenant.now own) }
{
    match met {
        Met::Rows(rows) => tenant.offers(rows),
        _ => Reply::Failed(HostFault::Memory),
    }
}

// Answers a request that does not depend on the offers of others, from a tenant's account and its own
// part of the vault.
fn answer_from<S: LooseFiles>(
    alloc: Global,
    tenant: &mut Tenant,
    vault: &mut Vault<S>,
    name: &TenantName,
    request: Request<'_>,
) -> Reply
    requires ready { IsReady vault.old name.now tenant.old.limit }
    requires staged { IsStaged vault.old.honest tenant.old.upload (staged_in vault.old name.now) }
    requires alone { looks_at_offers (ask_of request) ≡ false }
    ensures row { YieldsOver vault.old.honest (answer (nothing_offered name.now) (shown tenant.old vault.old name.now) (ask_of request.entry)) (shown tenant.old vault.old name.now) result (shown tenant.new vault.new name.now) }
    ensures safe { IsSafe (IsBounded (sent_by (shown tenant.old vault.old name.now) (ask_of request.entry)) vault.old vault.new) (shown tenant.old vault.old name.now) result (shown tenant.new vault.new name.now) }
    ensures made { changes_offers (ask_of request.entry) ≡ false → tenant.new.made ≡ tenant.old.made }
    ensures others { AreToOthers name.now (shown tenant.old vault.old name.now) → AreToOthers name.now (shown tenant.new vault.new name.now) }
    ensures named { IsNamedReply (ask_of request.entry) result }
    ensures seen { TellsSeen (visible_in vault.old name.now) (ask_of request.entry) result }
    ensures own { IsOwn name.now vault.old vault.new }
    ensures grows { GrowsAmong (sent_names (sent_by (shown tenant.old vault.old name.now) (ask_of request.entry))) vault.old.places vault.new.places }
    ensures staged { IsStaged vault.old.honest tenant.new.upload (staged_in vault.new name.now) }
{
    let mut own = Own::new(vault, name);
    tenant.answer(alloc, &mut own, request)
}

fn put(
    tenants: &mut BTreeMap<TenantName, Tenant>,
    name: TenantName,
    tenant: Tenant,
) -> Result<(), AllocError>
    ensures ok { OnOk result (Updates name_cmp tenants.old tenants.new name (Some tenant)) }
    ensures err { OnErr result (IsUnchanged tenants.old tenants.new) }
{
    tenants.insert(name, tenant)?;
    Ok(())
}

fn take_out(tenants: &mut BTreeMap<TenantName, Tenant>, name: &TenantName)
    ensures { Updates name_cmp tenants.old tenants.new name.now None }
{
    tenants.remove(name);
}
