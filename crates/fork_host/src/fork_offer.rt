// Forking an offer: the only request that reaches what another tenant sees, and of that only what the
// offer holds.
ghost use Rattle.std.specs.Prelude.{◌≡◌, [], IfOk, IsTrue, Contains, ℕ, List, true, false};
ghost use Rattle.std.specs.FinMap as map;
ghost use Rattle.std.specs.HashSet.{contains};
ghost use Rattle.git_name.specs.Count.{fault_in};
ghost use Rattle.git_name.specs.Same.{same_name};
ghost use Rattle.git_reftx.specs.Repository.{IsBranch};
ghost use Rattle.fork_reach.specs.Reach.{is_reached, linked_names};
ghost use Rattle.fork_ledger.specs.Tenants.{shape_of};
ghost use Rattle.fork_request.specs.Asked.{ForksOffer};
ghost use Rattle.fork_request.specs.Told.{is_done};
ghost use Rattle.fork_model.specs.Answer.{fork_offer_answer, offer_taken};
ghost use Rattle.fork_model.specs.Context.{Context};
ghost use Rattle.fork_model.specs.Offer.{offered};
ghost use Rattle.fork_model.specs.Sound.{AreReferences};
ghost use Rattle.looks.specs.Growth.{GrowsAmong};
ghost use Rattle.fork_host.specs.Bounds.{IsBounded, ReadsStore};
ghost use Rattle.fork_ledger.specs.Store.{LeavesStore};
ghost use Rattle.fork_host.specs.Forked.{HasForked, IsForked};
ghost use Rattle.fork_host.specs.Meeting.{IsMet};
ghost use Rattle.fork_host.specs.Own.{IsOwn, IsReady, staged_in, visible_in};
ghost use Rattle.fork_host.specs.Rows.{YieldsOver};
ghost use Rattle.fork_host.specs.Safe.{IsSafe, IsTakenFrom};
ghost use Rattle.fork_host.specs.Shown.{shown};
ghost use Rattle.fork_host.specs.Staged.{IsStaged};

use crate::meeting::Met;
use crate::own::Own;
use crate::replies::{bad_name, done, host_fault, vault_fault};
use crate::targets::add_targets;
use crate::tenant::Tenant;
use fork_ledger::Vault;
use fork_reach::SourceFault;
use fork_request::{HostFault, Refusal, Reply, RepositoryName, TenantName};
use git_name::{Hashing, Name};
use git_reftx::{Refs, Repository};
use indexmap::IndexSet;
use loose_store::LooseFiles;
use std::alloc::Global;

// Forks an offer: makes a new repository of what was offered, whose objects the tenant then sees
// beside its own.
pub(crate) fn fork_offer<S: LooseFiles>(
    alloc: Global,
    tenant: &mut Tenant,
    vault: &mut Vault<S>,
    name: &TenantName,
    met: Met,
    words: (&[u8], &[u8], &[u8]),
) -> Reply
    requires ready { IsReady vault.old name.now tenant.old.limit }
    requires staged { IsStaged vault.old.honest tenant.old.upload (staged_in vault.old name.now) }
    ensures row { (context : Context) → IsMet vault.old context (ForksOffer words.entry.0.now words.entry.1.now words.entry.2.now) met
        → YieldsOver vault.old.honest (fork_offer_answer context (shown tenant.old vault.old name.now) words.entry.0.now words.entry.1.now words.entry.2.now) (shown tenant.old vault.old name.now) result (shown tenant.new vault.new name.now) }
    ensures safe { (context : Context) → IsMet vault.old context (ForksOffer words.entry.0.now words.entry.1.now words.entry.2.now) met
        → IsSafe (IsBounded [] vault.old vault.new) (shown tenant.old vault.old name.now) result (shown tenant.new vault.new name.now) }
    ensures forked { (context : Context) → IsMet vault.old context (ForksOffer words.entry.0.now words.entry.1.now words.entry.2.now) met → is_done result ≡ true
        → HasForked context words.entry.0.now words.entry.1.now words.entry.2.now tenant.old tenant.new }
    ensures takes { (context : Context) → IsMet vault.old context (ForksOffer words.entry.0.now words.entry.1.now words.entry.2.now) met
        → IsTakenFrom (visible_in vault.old words.entry.0.now) (visible_in vault.old name.now) (visible_in vault.new name.now) }
    ensures made { tenant.new.made ≡ tenant.old.made }
    ensures own { IsOwn name.now vault.old vault.new }
    ensures grows { GrowsAmong [] vault.old.places vault.new.places }
    ensures staged { IsStaged vault.old.honest tenant.new.upload (staged_in vault.new name.now) }
{
    let Some(giver) = TenantName::read(words.0) else {
        return bad_name(alloc, words.0);
    };
    let Some(of) = RepositoryName::read(words.1) else {
        return bad_name(alloc, words.1);
    };
    let Some(copy) = RepositoryName::read(words.2) else {
        return bad_name(alloc, words.2);
    };
    match met {
        Met::Offer(giver, repository) => {
            take_offer(alloc, tenant, vault, name, &giver, copy, repository)
        }
        _ => Reply::Refused(Refusal::NoOffer(giver, of)),
    }
}

// Forks an offer that exists, into a new repository with a valid name.
fn take_offer<S: LooseFiles>(
    alloc: Global,
    tenant: &mut Tenant,
    vault: &mut Vault<S>,
    name: &TenantName,
    giver: &TenantName,
    copy: RepositoryName,
    repository: Repository,
) -> Reply
    requires ready { IsReady vault.old name.now tenant.old.limit }
    requires staged { IsStaged vault.old.honest tenant.old.upload (staged_in vault.old name.now) }
    ensures row { YieldsOver vault.old.honest (offer_taken (shown tenant.old vault.old name.now) copy (offered (visible_in vault.old giver.now) repository)) (shown tenant.old vault.old name.now) result (shown tenant.new vault.new name.now) }
    ensures safe { IsBranch repository.head → AreReferences (visible_in vault.old giver.now) repository.references
        → IsSafe (IsBounded [] vault.old vault.new) (shown tenant.old vault.old name.now) result (shown tenant.new vault.new name.now) }
    ensures forked { is_done result ≡ true → tenant.new.repositories ≡ map.insert tenant.old.repositories copy repository }
    ensures takes { IsTakenFrom (visible_in vault.old giver.now) (visible_in vault.old name.now) (visible_in vault.new name.now) }
    ensures made { tenant.new.made ≡ tenant.old.made }
    ensures own { IsOwn name.now vault.old vault.new }
    ensures grows { GrowsAmong [] vault.old.places vault.new.places }
    ensures staged { IsStaged vault.old.honest tenant.new.upload (staged_in vault.new name.now) }
{
    let _name = copy.as_bytes();
    if let Some(refusal) = tenant.refuses(&copy) {
        return Reply::Refused(refusal);
    }
    match reached_from(alloc, vault, giver, repository.references()) {
        Ok(names) => adopt(alloc, tenant, vault, name, giver, copy, repository, &names),
        Err(fault) => Reply::Failed(host_fault(fault)),
    }
}

// The names of what these references reach among what a giver sees.
fn reached_from<S: LooseFiles>(
    alloc: Global,
    vault: &mut Vault<S>,
    giver: &TenantName,
    references: &Refs,
) -> Result<IndexSet<Name, Hashing>, SourceFault>
    ensures found { IsTrue vault.old.honest → IfOk result (λ found. (name : List ℕ) → contains same_name found name ≡ is_reached (linked_names (visible_in vault.old giver.now)) (visible_in vault.old giver.now) (map.values references.now) name) }
    ensures kept { IsTrue vault.old.honest → vault.new.tenants ≡ vault.old.tenants }

    // Over any store.
    ensures rooted { IfOk result (λ found. (name : List ℕ) → Contains (map.values references.now) name → map.contains_key (visible_in vault.old giver.now) name ≡ true → contains same_name found name ≡ true) }
    ensures shape { shape_of vault.new.tenants ≡ shape_of vault.old.tenants }
    ensures read { ReadsStore vault.old vault.new (fault_in result) }
{
    let mut roots = Vec::new(alloc);
    let Ok(()) = add_targets(&mut roots, references) else {
        return Err(SourceFault::Memory);
    };
    let mut theirs = Own::new(vault, giver);
    theirs.reached(alloc, roots.as_slice())
}

// Gives the tenant the repository, and lets it see the objects of these names that the giver sees, if
// all that it sees then is within its limit.
fn adopt<S: LooseFiles>(
    alloc: Global,
    tenant: &mut Tenant,
    vault: &mut Vault<S>,
    name: &TenantName,
    giver: &TenantName,
    copy: RepositoryName,
    repository: Repository,
    names: &IndexSet<Name, Hashing>,
) -> Reply
    requires there { map.contains_key vault.old.tenants name.now ≡ true }
    requires new { map.contains_key tenant.old.repositories copy ≡ false }
    ensures forked { IsForked name.now copy repository (map.retain_keys (visible_in vault.old giver.now) (contains same_name names.now)) tenant.old tenant.new vault.old vault.new result }
    ensures store { LeavesStore vault.old vault.new }
{
    if !vault.has_room(name, giver, names, tenant.limit()) {
        return Reply::Refused(Refusal::OverQuota);
    }
    let key = copy.copy();
    let Ok(()) = tenant.put_repository(copy, repository) else {
        return Reply::Failed(HostFault::Memory);
    };
    match vault.adopt(alloc, name, giver, names) {
        Ok(()) => done(alloc),
        Err(fault) => {
            tenant.take_repository(&key);
            Reply::Failed(vault_fault(fault))
        }
    }
}
