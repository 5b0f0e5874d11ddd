ghost use Rattle.std.specs.Prelude.{◌≡◌, ◌≢◌, ◌⊎◌, IsTrue, IfOk, IfErr, OnOk, OnErr, List, [], ℕ, Some, None, false, option_map, map as each, length};
ghost use Rattle.push_stream.specs.Upload.{upload_of};
ghost use Rattle.fork_host.specs.Uploads.{upload_at, uploads_of};
ghost use Rattle.std.specs.FinMap as map;
ghost use Rattle.fork_request.specs.Asked.{ask_of};
ghost use Rattle.git_name.specs.Object.{Object};
ghost use Rattle.fork_model.specs.Context.{met_by, offered_to};
ghost use Rattle.fork_model.specs.Provenance.{WasOffered, WasSent};
ghost use Rattle.fork_model.specs.Runs.{Asks, HostAsks};
ghost use Rattle.fork_model.specs.Sound.{IsAlike, IsOrderlyWorld, IsRightWorld};
ghost use Rattle.fork_model.specs.View.{View};
ghost use Rattle.fork_model.specs.World.{Explains, IsUnfaulted, LeavesOffers, alone, exchanges, meeting, met, own, told};
ghost use Rattle.loose_store.specs.Durability.{IsSync};
ghost use Rattle.state_text.specs.Kept.{states_of};
ghost use Rattle.fork_ledger.specs.Store.{IsOver, LeavesStore};
ghost use Rattle.fork_ledger.specs.Tenants.{private_of, with_tenant};
ghost use Rattle.fork_host.specs.Adding.{new_account, new_view, refusal_to_add};
ghost use Rattle.fork_host.specs.Bounds.{IsBounded};
ghost use Rattle.fork_host.specs.Opening.{reading_told};
ghost use Rattle.fork_host.specs.Shape.{SameShape};
ghost use Rattle.fork_host.specs.Shown.{IsSameHost, IsWhole, Trusted, world_of};
ghost use Rattle.fork_host.specs.Step.{IsRun, IsStep};
ghost use Rattle.fork_host.specs.Swept.{SharpAfterSweeps};

use crate::accounts::Accounts;
use crate::add_error::AddError;
use crate::open_error::OpenError;
use crate::reading::survey_of;
use crate::step::HostStep;
use crate::tending::tend;
use fork_ledger::{Survey, Vault, sharp_slices};
use fork_model::{MAX_TENANTS, a_run_is_private, what_runs_show_was_seen_or_sent};
use fork_request::{HostFault, HostRequest, MAX_LIMIT, Reply, Request, TenantName};
use loose_store::{FileFault, LooseFiles};
use state_text::States;
use std::alloc::{AllocError, Global};
use std::marker::Model;
use thiserror::Error;

/// Memory ran out, and nothing was done.
#[derive(Clone, Copy, Debug, PartialEq, Eq, Error)]
#[error("no memory")]
pub struct NoMemory;

/// A host of at most `MAX_TENANTS` tenants.
#[derive(Drop)]
pub struct Host<S: LooseFiles> {
    pub(crate) accounts: Accounts,
    pub(crate) vault: Vault<S>,
}

impl<S: LooseFiles> Model for Host<S> {
    ghost use Rattle.fork_host.specs.Shown.{HostState, IsWhole, host_code, state_of};

    ghost Value = { HostState };

    ghost coded = { host_code };

    ghost view = { λ a. state_of a.accounts a.vault };

    ghost invariant = { λ a. IsWhole (state_of a.accounts a.vault) };
}

impl<S: LooseFiles + Drop> Host<S> {
    /// A host without tenants, over this store.
    pub fn new(alloc: Global, files: S) -> Result<Host<S>, OpenError>
        ensures empty { IfOk result (λ host. world_of host ≡ map.empty) }
        ensures trusted { IfOk result (λ host. IsTrue (S.honest files) → Trusted host) }
        ensures store { IfOk result (λ host. IsOver (S.contents files) (S.honest files) (S.failures files) host.vault) }
    {
        let survey = survey_of(alloc, files)?;
        Ok(Host::over(alloc, survey))
    }

    // A host without tenants, over the store of a survey.
    pub(crate) fn over(alloc: Global, survey: Survey<S>) -> Host<S>
        ensures empty { world_of result ≡ map.empty }
        ensures trusted { IsTrue survey.honest → Trusted result }
        ensures store { IsOver survey.contents survey.honest survey.failures result.vault }
    {
        Host {
            accounts: Accounts::new(alloc),
            vault: Vault::over(survey),
        }
    }
}

impl<S: LooseFiles> Host<S> {
    /// Closes the host and returns its store.
    pub fn close(self) -> S
        ensures { IsOver (S.contents result) (S.honest result) (S.failures result) self.vault }
    {
        self.vault.close()
    }

    /// What holds of every host between requests. It does nothing; proofs call it for its clauses.
    pub fn invariant(&self)
        ensures whole { IsWhole self.now }
        ensures alike { Trusted self.now → IsAlike (world_of self.now) }
    {
        let _accounts = &self.accounts;
        self.vault.invariant();
    }

    /// The number of tenants.
    pub fn tenants(&self) -> usize
        ensures { result ≡ map.len (world_of self.now) }
    {
        self.accounts.len()
    }

    /// The number of names in the catalogue of objects.
    pub fn census(&self) -> u64
        ensures { result ≡ length self.now.vault.places.names }
    {
        self.vault.census()
    }

    /// How many objects a tenant sees. Takes time linear in what it holds.
    pub fn seen_count(&self, tenant: &TenantName) -> usize
        ensures { result ≡ map.len (private_of self.now.vault.tenants tenant.now).visible }
    {
        self.vault.seen_count(tenant)
    }

    /// How many references a tenant's repositories and offers have, up to 2^64 - 1. Takes time linear in the number of these.
    pub fn reference_count(&self, tenant: &TenantName) -> u64 {
        self.accounts.reference_count(tenant)
    }

    /// What outlives the host's process: the limit of each tenant, its repositories, the names of the objects that it
    /// sees, and its offers. Open uploads are not in it.
    pub fn states(&self, alloc: Global) -> Result<States, NoMemory>
        ensures { IfOk result (λ states. states ≡ states_of (world_of self.now)) }
    {
        let Ok(states) = self.accounts.states(alloc, &self.vault) else {
            return Err(NoMemory);
        };
        Ok(states)
    }

    /// The tenants that have an open upload, in the order of their names.
    pub fn uploading(&self, alloc: Global) -> Result<Vec<TenantName>, NoMemory>
        ensures { IfOk result (λ names. names.items ≡ each (λ upload. upload.0) (uploads_of (world_of self.now))) }
    {
        let Ok(names) = self.accounts.uploading(alloc) else {
            return Err(NoMemory);
        };
        Ok(names)
    }

    /// The bytes of a tenant's open upload, or others with the same value; nothing if no upload is open or
    /// the tenant is unknown. Its objects are read from the store.
    pub fn upload(&mut self, alloc: Global, name: &TenantName) -> Result<Option<Vec<u8>>, HostFault>
        ensures found { Trusted self.old → IfOk result (λ found. option_map (λ bytes. upload_of bytes.items) found ≡ upload_at (world_of self.old) name.now) }
        ensures kept { Trusted self.old → world_of self.new ≡ world_of self.old }
        ensures trusted { Trusted self.old → Trusted self.new }
        ensures orderly { IsOrderlyWorld (world_of self.new) }
        ensures right { Trusted self.old → IsRightWorld (world_of self.new) }

        // Over any store.
        ensures shape { (tenant : List ℕ) → SameShape tenant (world_of self.old) (world_of self.new) }
        // Within the bounds of a step in which nothing is sent.
        ensures faults { IsBounded [] self.old.vault self.new.vault (reading_told result) }
    {
        self.accounts.upload(alloc, &mut self.vault, name)
    }

    /// Makes the file of each object that came survive a loss of power. Call it before saving a state that names the
    /// objects. After `Device` every later call fails too.
    pub fn sync(&mut self, alloc: Global) -> Result<(), FileFault>
        ensures same { IsSameHost self.old self.new }
        ensures durable { IsSync self.old.vault.durability self.new.vault.durability result }
    {
        self.vault.sync(alloc)
    }

    /// Does some of the work of the next `sync`, if there is much. Call it between requests.
    pub fn sync_ahead(&mut self, alloc: Global) -> Result<(), FileFault>
        ensures same { IsSameHost self.old self.new }
        ensures removed { self.new.vault.durability.removed ≡ self.old.vault.durability.removed }
    {
        self.vault.sync_ahead(alloc)
    }

    /// Whether a file that a sweep removed would come back if the store were opened again, or `forget_removed` has something
    /// else to do.
    pub fn has_removed(&self) -> bool
        ensures { result ≡ false → self.now.vault.durability.removed ≡ false }
    {
        self.vault.has_removed()
    }

    /// Makes the removals of sweeps final. Call it after saving a state that names none of the removed objects. After
    /// an `Err` some of the removed files may still come back.
    pub fn forget_removed(&mut self, alloc: Global) -> Result<(), FileFault>
        ensures same { IsSameHost self.old self.new }
        ensures settled { OnOk result (self.new.vault.durability.removed ≡ false) }
    {
        self.vault.forget_removed(alloc)
    }

    /// Adds a tenant that sees nothing and may use this many bytes. On failure the host is as it was.
    pub fn add_tenant(
        &mut self,
        alloc: Global,
        name: TenantName,
        limit: u64,
    ) -> Result<(), AddError>
        ensures ok { OnOk result (world_of self.new ≡ map.insert (world_of self.old) name (new_view limit)) }
        ensures free { OnOk result (refusal_to_add (world_of self.old) name limit ≡ None) }
        // The others are offered what they were, and this one what was offered to its name before.
        ensures offered { OnOk result ((tenant : List ℕ) → offered_to (world_of self.new) tenant ≡ offered_to (world_of self.old) tenant) }
        ensures cause { IfErr result (λ error. error ≢ AddError.Memory → refusal_to_add (world_of self.old) name limit ≡ Some error) }
        ensures err { OnErr result (self.new ≡ self.old) }
        ensures trusted { Trusted self.old → Trusted self.new }
        ensures store { LeavesStore self.old.vault self.new.vault }
    {
        // Called for its clause: the bytes are a tenant's name.
        let _bytes = name.as_bytes();
        if self.accounts.contains(&name) {
            return Err(AddError::There);
        }
        if self.accounts.len() >= MAX_TENANTS {
            return Err(AddError::TooMany);
        }
        if limit > MAX_LIMIT {
            return Err(AddError::Limit);
        }
        let Ok(()) = open_account(alloc, &mut self.accounts, &mut self.vault, name, limit) else {
            return Err(AddError::Memory);
        };
        Ok(())
    }

    /// Answers a tenant's request from that tenant's view.
    pub fn answer(&mut self, alloc: Global, name: &TenantName, request: Request<'_>) -> Reply
        ensures { IsStep self.old (Asks name.now (ask_of request.entry)) result self.new }
    {
        self.accounts.answer(alloc, &mut self.vault, name, request)
    }

    /// Answers a request of the host itself, which changes no view. What a sweep or a collection removed
    /// before a fault stays removed.
    pub fn host_answer(&mut self, alloc: Global, request: HostRequest) -> Reply
        ensures { IsStep self.old (HostAsks request) result self.new }
    {
        tend(alloc, &self.accounts, &mut self.vault, request)
    }

    ghost use Rattle.fork_host.specs.Given.{event_given, events_given};

    /// Answers one step: a tenant's request or one of the host itself.
    pub fn step(&mut self, alloc: Global, step: HostStep<'_>) -> Reply
        ensures { IsStep self.old (event_given step.entry) result self.new }
    {
        match step {
            HostStep::Tenant(name, request) => self.answer(alloc, name, request),
            HostStep::Host(request) => self.host_answer(alloc, request),
        }
    }

    /// Answers the steps in turn. Memory for the replies is allocated before the first step.
    pub fn run(&mut self, alloc: Global, steps: &[HostStep<'_>]) -> Result<Vec<Reply>, NoMemory>
        ensures ran { IfOk result (λ replies. IsRun self.old (events_given steps.now) replies.items self.new) }
        ensures err { OnErr result (self.new ≡ self.old) }
        ensures orderly { IsOrderlyWorld (world_of self.new) }
        ensures right { Trusted self.old → IsRightWorld (world_of self.new) }

        // After sweeps alone that add up to at least twice the number of names that were catalogued, the store has
        // files exactly for the names under which some tenant has an object.
        ensures sharp { Trusted self.old → IfOk result (λ replies. SharpAfterSweeps self.old.vault (events_given steps.now) replies.items self.new.vault) }

        // It is a run of the world.
        ensures explained { Trusted self.old → IfOk result (λ replies. Explains (world_of self.old) (events_given steps.now) replies.items (world_of self.new)) }

        // The replies to each tenant that no host fault answered are those of a private host that meets the
        // same offers; if no offer to it is made or withdrawn, those at the start.
        ensures private_replies { Trusted self.old → IfOk result (λ replies. (tenant : List ℕ) (view : View)
            → map.get (world_of self.old) tenant ≡ Some view
            → IsUnfaulted tenant (events_given steps.now) replies.items → LeavesOffers tenant (events_given steps.now) replies.items
            → told tenant (events_given steps.now) replies.items ≡ (alone view (meeting (met_by (world_of self.old) tenant) (own tenant (events_given steps.now)))).0) }
        ensures private_view { Trusted self.old → IfOk result (λ replies. (tenant : List ℕ) (view : View)
            → map.get (world_of self.old) tenant ≡ Some view
            → IsUnfaulted tenant (events_given steps.now) replies.items → LeavesOffers tenant (events_given steps.now) replies.items
            → map.get (world_of self.new) tenant ≡ Some (alone view (meeting (met_by (world_of self.old) tenant) (own tenant (events_given steps.now)))).1) }
        ensures private_met { IfOk result (λ replies. (tenant : List ℕ) (view : View) (run : Explains (world_of self.old) (events_given steps.now) replies.items (world_of self.new))
            → map.get (world_of self.old) tenant ≡ Some view
            → IsUnfaulted tenant (events_given steps.now) replies.items
            → (told tenant (events_given steps.now) replies.items ≡ (alone view (met tenant (world_of self.old) (events_given steps.now) replies.items (world_of self.new) run)).0)
            × (map.get (world_of self.new) tenant ≡ Some (alone view (met tenant (world_of self.old) (events_given steps.now) replies.items (world_of self.new) run)).1)) }

        // A tenant sees at the end only what it saw at the start, what it sent itself, and what was in an offer that it
        // forked.
        ensures provenance { IfOk result (λ replies. (tenant : List ℕ) (view last : View) (name : List ℕ) (object : Object) (run : Explains (world_of self.old) (events_given steps.now) replies.items (world_of self.new))
            → map.get (world_of self.old) tenant ≡ Some view → map.get (world_of self.new) tenant ≡ Some last → map.get last.objects name ≡ Some object
            → (map.get view.objects name ≡ Some object) ⊎ (WasSent view (exchanges tenant (events_given steps.now) replies.items) name object
            ⊎ WasOffered (met tenant (world_of self.old) (events_given steps.now) replies.items (world_of self.new) run) (told tenant (events_given steps.now) replies.items) name object)) }
    {
        let _before = self.vault.invariant();
        let Ok(mut replies) = Vec::with_capacity(alloc, steps.len()) else {
            return Err(NoMemory);
        };
        for step in steps {
            let reply = self.step(alloc, *step);
            replies.push_reserved(reply);
        }
        let _behind = self.vault.invariant();
        a_run_is_private();
        what_runs_show_was_seen_or_sent();
        sharp_slices();
        Ok(replies)
    }
}

// Adds a new account and its place in the vault. If memory runs out, nothing is added.
fn open_account<S: LooseFiles>(
    alloc: Global,
    accounts: &mut Accounts,
    vault: &mut Vault<S>,
    name: TenantName,
    limit: u64,
) -> Result<(), AllocError>
    requires new { map.contains_key accounts.old name ≡ false }
    ensures ok { OnOk result (accounts.new ≡ map.insert accounts.old name (new_account limit)) }
    ensures vault { OnOk result (vault.new.tenants ≡ with_tenant vault.old.tenants name) }
    ensures store { LeavesStore vault.old vault.new }
    ensures err { OnErr result (accounts.new ≡ accounts.old) }
    ensures kept { OnErr result (vault.new.tenants ≡ vault.old.tenants) }
{
    let key = name.copy();
    let Ok(()) = accounts.insert(alloc, name.copy(), limit) else {
        return Err(AllocError);
    };
    let Ok(()) = vault.add(alloc, name) else {
        accounts.remove(&key);
        return Err(AllocError);
    };
    Ok(())
}
