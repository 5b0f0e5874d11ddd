// Restores hosts.
ghost use Rattle.std.specs.Prelude.{◌≡◌, ◌<◌, IfErr, IfOk, IsTrue, OnErr, OnOk, None, Some, true};
ghost use Rattle.std.specs.FinMap as map;
ghost use Rattle.fork_ledger.specs.Private.{nothing};
ghost use Rattle.fork_ledger.specs.Store.{IsOver, LeavesStore};
ghost use Rattle.fork_ledger.specs.Tenants.{private_of};
ghost use Rattle.fork_model.specs.declared.limits.TheConstants.{MAX_TENANTS};
ghost use Rattle.fork_host.specs.Own.{ChangesTenant, SeesOnly};
ghost use Rattle.fork_host.specs.Read.{AreRead};
ghost use Rattle.fork_host.specs.Adding.{new_view, refusal_to_add};
ghost use Rattle.fork_host.specs.Refilled.{IsBehind, IsJudged, IsRefilled, IsWhy, StandsAgainst};
ghost use Rattle.fork_host.specs.Restored.{AreRefused, IsShownAgain, TellsBad};
ghost use Rattle.fork_host.specs.Shown.{Trusted, world_of};
ghost use Rattle.state_text.specs.Adding.{AreBefore};

use crate::add_error::AddError;
use crate::host::Host;
use crate::later::{Bad, Later};
use crate::made::Made;
use crate::own::Own;
use crate::reading::{read_states, survey_of};
use crate::repositories::Repositories;
use crate::restore_error::RestoreError;
use crate::seeing::{Against, see_again};
use fork_ledger::Vault;
use fork_request::TenantName;
use fork_sound::Readings;
use git_name::Name;
use loose_store::{LooseFiles, StoreFault, read_checked};
use state_text::{States, TenantState};
use std::alloc::{AllocError, Global};

impl<S: LooseFiles + Drop> Host<S> {
    /// Restores a host with these states, over the store that holds their objects. Reports problems in this order: the
    /// objects of all tenants; the targets of all references, in each tenant those of repositories before those of
    /// offers; the limits. Reads each object from the store once, however many tenants see it, and judges it for each
    /// of them from what was read.
    pub fn restore(alloc: Global, files: S, states: States) -> Result<Host<S>, RestoreError>
        ensures trusted { IfOk result (λ host. IsTrue (S.honest files) → Trusted host) }
        ensures shown { IfOk result (λ host. IsTrue (S.honest files) → IsShownAgain (S.contents files) states (world_of host)) }
        ensures refused { IfErr result (λ error. IsTrue (S.honest files) → AreRefused (S.contents files) states error) }
        ensures store { IfOk result (λ host. IsOver (S.contents files) (S.honest files) (S.failures files) host.vault) }
    {
        let mut survey = survey_of(alloc, files)?;
        let readings = read_states(alloc, &mut survey, states.as_slice())?;
        let mut host = Host::over(alloc, survey);
        let mut later = Later::Nothing;
        for state in states.as_slice() {
            let judged = host.restore_tenant(alloc, &readings, state);
            if let Some(bad) = later.note(state.name(), judged) {
                return Err(why(alloc, host.close(), bad));
            }
        }
        match later.told() {
            Some(error) => Err(error),
            None => Ok(host),
        }
    }
}

impl<S: LooseFiles> Host<S> {
    // Appends a tenant, which sees again what it saw.
    fn restore_tenant(
        &mut self,
        alloc: Global,
        readings: &Readings,
        state: &TenantState,
    ) -> Result<(), Against>
        requires before { AreBefore (map.keys self.old.accounts) state.now.name }
        requires few { map.len self.old.accounts < MAX_TENANTS }
        requires read { AreRead self.old.vault.honest self.old.vault.files state.now.seen readings.now }
        ensures judged { Trusted self.old → IsJudged self.old.vault.files state.now (world_of self.old) (world_of self.new) result }
        ensures trusted { Trusted self.old → Trusted self.new }
        ensures files { Trusted self.old → self.new.vault.files ≡ self.old.vault.files }
        ensures honest { self.new.vault.honest ≡ self.old.vault.honest }
        ensures failures { self.new.vault.failures ≡ self.old.vault.failures }
        ensures behind { IsBehind state.now.name (map.keys self.old.accounts) (map.keys self.new.accounts) result }
    {
        let Ok(()) = self.add_behind(alloc, state.name().copy(), state.limit()) else {
            return Err(Against::Memory);
        };
        self.refill(alloc, readings, state)
    }

    // Adds a tenant. It can fail only for lack of memory.
    fn add_behind(&mut self, alloc: Global, name: TenantName, limit: u64) -> Result<(), AllocError>
        requires { refusal_to_add (world_of self.old) name limit ≡ None }
        ensures ok { OnOk result (world_of self.new ≡ map.insert (world_of self.old) name (new_view limit)) }
        ensures trusted { Trusted self.old → Trusted self.new }
        ensures store { LeavesStore self.old.vault self.new.vault }
    {
        match self.add_tenant(alloc, name, limit) {
            Ok(()) => Ok(()),
            Err(AddError::Memory) => Err(AllocError),
            Err(_) => unreachable!(),
        }
    }

    // Lets a tenant that sees nothing see again what it saw. After a failure it sees nothing.
    fn refill(
        &mut self,
        alloc: Global,
        readings: &Readings,
        state: &TenantState,
    ) -> Result<(), Against>
        requires fresh { map.get (world_of self.old) state.now.name ≡ Some (new_view state.now.limit) }
        requires read { AreRead self.old.vault.honest self.old.vault.files state.now.seen readings.now }
        ensures judged { Trusted self.old → IsJudged self.old.vault.files state.now (world_of self.old) (world_of self.new) result }
        ensures trusted { Trusted self.old → Trusted self.new }
        ensures files { Trusted self.old → self.new.vault.files ≡ self.old.vault.files }
        ensures honest { self.new.vault.honest ≡ self.old.vault.honest }
        ensures failures { self.new.vault.failures ≡ self.old.vault.failures }
        ensures keys { map.keys self.new.accounts ≡ map.keys self.old.accounts }
    {
        // Called for its clause too: the state is in order.
        let name = state.name();
        let Ok(gathered) = Repositories::gather(alloc, state.repositories()) else {
            return Err(Against::Memory);
        };
        let Ok(made) = Made::gather(alloc, state.offers()) else {
            return Err(Against::Memory);
        };
        match see_in(alloc, &mut self.vault, name, readings, state) {
            Ok(()) => {
                self.accounts.settle(name, gathered, made);
                Ok(())
            }
            Err(against) => Err(against),
        }
    }
}

// Lets a tenant of the vault that has nothing see again what it saw.
pub(crate) fn see_in<S: LooseFiles>(
    alloc: Global,
    vault: &mut Vault<S>,
    name: &TenantName,
    readings: &Readings,
    state: &TenantState,
) -> Result<(), Against>
    requires there { map.contains_key vault.old.tenants name.now ≡ true }
    requires nothing { private_of vault.old.tenants name.now ≡ nothing }
    requires read { AreRead vault.old.honest vault.old.files state.now.seen readings.now }
    ensures ok { OnOk result (IsRefilled name.now state.now vault.old vault.new) }
    ensures err { OnErr result (ChangesTenant name.now (SeesOnly map.empty) vault.old vault.new) }
    ensures against { IsTrue vault.old.honest → IfErr result (StandsAgainst vault.old.files state.now) }
    ensures files { vault.new.files ≡ vault.old.files }
    ensures honest { vault.new.honest ≡ vault.old.honest }
    ensures failures { vault.new.failures ≡ vault.old.failures }
{
    let mut own = Own::new(vault, name);
    see_again(alloc, &mut own, readings, state)
}

// The error that reports what is bad.
fn why<S: LooseFiles + Drop>(alloc: Global, files: S, bad: Bad) -> RestoreError
    ensures { IsTrue (S.honest files) → IsWhy (S.contents files) bad result }
{
    match bad {
        Bad::Memory => RestoreError::Memory,
        Bad::Object(name) => why_bad(alloc, files, name),
    }
}

// Why the object of this name is bad.
fn why_bad<S: LooseFiles + Drop>(alloc: Global, files: S, name: Name) -> RestoreError
    ensures { IsTrue (S.honest files) → TellsBad (S.contents files) name result }
{
    let mut files = files;
    match read_checked(alloc, &mut files, name) {
        Ok(Some(_)) => RestoreError::Unsound(name),
        Ok(None) => RestoreError::Lost(name),
        Err(StoreFault::Damaged) => RestoreError::Damaged(name),
        Err(StoreFault::Device) => RestoreError::Store,
        Err(StoreFault::Memory) => RestoreError::Memory,
    }
}
