// Lets a tenant see again what it saw.
ghost use Rattle.std.specs.Prelude.{◌≡◌, ◌≤◌, IfErr, IfOk, IsTrue, None, OnErr, OnOk, true};
ghost use Rattle.std.specs.BTreeSet.{contains};
ghost use Rattle.std.specs.FinMap as map;
ghost use Rattle.git_name.specs.Name.{name_cmp};
ghost use Rattle.fork_reach.specs.Objects.{use_of};
ghost use Rattle.fork_ledger.specs.Private.{nothing};
ghost use Rattle.fork_ledger.specs.Tenants.{private_of};
ghost use Rattle.fork_sound.specs.Reading.{AreReadings};
ghost use Rattle.fork_host.specs.Handle.{IsSame, both_by, visible_by};
ghost use Rattle.fork_host.specs.Own.{ChangesTenant, SeesOnly};
ghost use Rattle.fork_host.specs.Read.{AreRead};
ghost use Rattle.fork_host.specs.Refilled.{IsAgainst, IsRefilled, StandsAgainst, bad_in};
ghost use Rattle.fork_host.specs.Restored.{first_astray, repositories_in};
ghost use Rattle.state_text.specs.States.{Ascend};

use crate::own::Own;
use crate::recalling::recall_all;
use crate::targets::first_bad_target;
use fork_sound::{Readings, first_bad};
use git_name::Name;
use indexmap::IndexSet;
use loose_store::LooseFiles;
use state_text::TenantState;
use std::alloc::{AllocError, Global};
use std::collections::BTreeSet;

// What is wrong with what a tenant saw.
#[derive(Drop)]
pub(crate) enum Against {
    // Memory ran out.
    Memory,
    // The object of this name is missing, damaged or unsound.
    BadObject(Name),
    // A reference points at this name, but must not.
    Astray(Name),
    // The tenant uses more than its limit allows.
    Limit,
}

// Lets a tenant that sees nothing see again the objects of its state. They are checked together with
// its references, those of its offers, and its limit. On failure it sees nothing.
pub(crate) fn see_again<S: LooseFiles>(
    alloc: Global,
    own: &mut Own<'_, S>,
    readings: &Readings,
    state: &TenantState,
) -> Result<(), Against>
    requires there { map.contains_key own.old.vault.now.tenants own.old.tenant.now ≡ true }
    requires nothing { private_of own.old.vault.now.tenants own.old.tenant.now ≡ nothing }
    requires read { AreRead own.old.vault.now.honest own.old.vault.now.files state.now.seen readings.now }
    ensures ok { OnOk result (IsRefilled own.old.tenant.now state.now own.old.vault.now own.new.vault.now) }
    ensures err { OnErr result (ChangesTenant own.old.tenant.now (SeesOnly map.empty) own.old.vault.now own.new.vault.now) }
    ensures against { IsTrue own.old.vault.now.honest → IfErr result (StandsAgainst own.old.vault.now.files state.now) }
    ensures files { own.new.vault.now.files ≡ own.old.vault.now.files }
    ensures honest { own.new.vault.now.honest ≡ own.old.vault.now.honest }
    ensures failures { own.new.vault.now.failures ≡ own.old.vault.now.failures }
    ensures same { IsSame own.old own.new }
{
    // Called for its clause too: the state is in order.
    let _name = state.name();
    let seen = state.seen();
    let Ok(names) = set_of(alloc, seen) else {
        return Err(Against::Memory);
    };
    match recall_all(own, readings, seen) {
        Ok(()) => {}
        Err(_) => return Err(Against::Memory),
    }
    match judge_seen(own, readings, &names, state) {
        Ok(()) => Ok(()),
        Err(against) => {
            let none = IndexSet::with_hasher(alloc, own.hashing_of_names());
            own.keep_only(&none);
            Err(against)
        }
    }
}

// These names, which ascend, as a set.
fn set_of(alloc: Global, names: &[Name]) -> Result<BTreeSet<Name>, AllocError>
    requires { Ascend names.now }
    ensures { IfOk result (λ set. set.keys ≡ names.now) }
{
    let mut set = BTreeSet::new(alloc);
    for name in names {
        set.insert(*name)?;
    }
    Ok(set)
}

// Checks what a tenant sees, given the names that it saw and what was read.
pub(crate) fn judge_seen<S: LooseFiles>(
    own: &Own<'_, S>,
    readings: &Readings,
    names: &BTreeSet<Name>,
    state: &TenantState,
) -> Result<(), Against>
    ensures sound { AreReadings readings.now (contains name_cmp names.now) (visible_by own.now) → OnOk result (bad_in names.now (visible_by own.now) ≡ None) }
    ensures targets { OnOk result (first_astray (repositories_in state.now) (visible_by own.now) ≡ None) }
    ensures within { OnOk result (use_of (both_by own.now) ≤ state.now.limit) }
    ensures against { AreReadings readings.now (contains name_cmp names.now) (visible_by own.now) → IfErr result (IsAgainst names.now state.now (visible_by own.now) (both_by own.now)) }
{
    if let Some(name) = first_bad(readings, names) {
        return Err(Against::BadObject(name));
    }
    if let Some(target) = first_bad_target(own, state) {
        return Err(Against::Astray(target));
    }
    if !own.is_within(state.limit()) {
        return Err(Against::Limit);
    }
    Ok(())
}
