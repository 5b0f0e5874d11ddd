// Reads the file of each held name once, and collects what is wrong.
ghost use Rattle.std.specs.Prelude.{◌≡◌, ◌≢◌, ◌<◌, ◌+◌, ℕ, List, IsTrue, IfErr, IfOk, OnOk, true};
ghost use Rattle.git_name.specs.Count.{fault_in, greatest_count};
ghost use Rattle.object_table.specs.Rows.{places_of};
ghost use Rattle.object_table.specs.Holders.{is_held_in};
ghost use Rattle.fork_ledger.specs.Checked.{HasChecked, Shows, WasAsked, checked_until};
ghost use Rattle.fork_ledger.specs.Store.{CountsFault};

use crate::fault::VaultFault;
use crate::harms::Harms;
use fork_request::Harm;
use git_name::Name;
use loose_store::{LooseFiles, StoreFault};
use object_table::Holdings;
use read_cache::CachedStore;
use std::alloc::Global;

// What is wrong with the file of a name, if anything. The file is read from the store, not from a cache.
fn harm_of<S: LooseFiles>(
    alloc: Global,
    files: &mut CachedStore<S>,
    name: Name,
) -> Result<Option<Harm>, VaultFault>
    ensures shows { IfOk result (λ harm. Shows files.old.honest files.old.contents name harm) }
    ensures asked { IfOk result (λ harm. files.old.failures < greatest_count) }
    ensures kept { IsTrue files.old.honest → files.new.contents ≡ files.old.contents }
    ensures honest { files.new.honest ≡ files.old.honest }
    ensures cause { CountsFault files.old.failures files.new.failures (fault_in result) }
    ensures undamaged { IfErr result (λ fault. fault ≢ VaultFault.Damaged) }
    ensures apart { IfErr result (λ fault. fault ≢ VaultFault.Collision) }
{
    match files.read_past(alloc, name) {
        Ok(Some(_)) => Ok(None),
        Ok(None) => Ok(Some(Harm::Lost)),
        Err(StoreFault::Damaged) => Ok(Some(Harm::Damaged)),
        Err(StoreFault::Device) => Err(VaultFault::Store),
        Err(StoreFault::Memory) => Err(VaultFault::Memory),
    }
}

// Checks the file of the name at a place of the catalogue, if a tenant holds the name.
fn check_place<S: LooseFiles>(
    alloc: Global,
    files: &mut CachedStore<S>,
    holdings: &Holdings,
    harms: &mut Harms,
    at: usize,
) -> Result<(), VaultFault>
    ensures checks { OnOk result (HasChecked files.old.honest files.old.contents (checked_until (is_held_in holdings.now.ledgers) (places_of holdings.now.catalogue).names at) harms.old
        → HasChecked files.old.honest files.old.contents (checked_until (is_held_in holdings.now.ledgers) (places_of holdings.now.catalogue).names (at + 1)) harms.new) }
    ensures asked { OnOk result (WasAsked files.old.failures (checked_until (is_held_in holdings.now.ledgers) (places_of holdings.now.catalogue).names at)
        → WasAsked files.old.failures (checked_until (is_held_in holdings.now.ledgers) (places_of holdings.now.catalogue).names (at + 1))) }
    ensures kept { IsTrue files.old.honest → files.new.contents ≡ files.old.contents }
    ensures honest { files.new.honest ≡ files.old.honest }
    ensures cause { CountsFault files.old.failures files.new.failures (fault_in result) }
    ensures undamaged { IfErr result (λ fault. fault ≢ VaultFault.Damaged) }
    ensures apart { IfErr result (λ fault. fault ≢ VaultFault.Collision) }
{
    let Some(name) = holdings.held_name(at) else {
        return Ok(());
    };
    match harm_of(alloc, files, name) {
        Ok(None) => Ok(()),
        Ok(Some(harm)) => match harms.note(name, harm) {
            Ok(()) => Ok(()),
            Err(_) => Err(VaultFault::Memory),
        },
        Err(fault) => Err(fault),
    }
}

// What is wrong with the files of all held names.
pub(crate) fn check_all<S: LooseFiles>(
    alloc: Global,
    files: &mut CachedStore<S>,
    holdings: &Holdings,
) -> Result<Harms, VaultFault>
    ensures checks { IfOk result (λ harms. HasChecked files.old.honest files.old.contents (is_held_in holdings.now.ledgers) harms) }
    ensures asked { IfOk result (λ harms. WasAsked files.old.failures (is_held_in holdings.now.ledgers)) }
    ensures kept { IsTrue files.old.honest → files.new.contents ≡ files.old.contents }
    ensures honest { files.new.honest ≡ files.old.honest }
    ensures cause { CountsFault files.old.failures files.new.failures (fault_in result) }
    ensures undamaged { IfErr result (λ fault. fault ≢ VaultFault.Damaged) }
    ensures apart { IfErr result (λ fault. fault ≢ VaultFault.Collision) }
{
    holdings.held_names_are_catalogued();
    let mut harms = Harms::new(alloc);
    for at in 0..holdings.len() {
        check_place(alloc, files, holdings, &mut harms, at)?;
    }
    Ok(harms)
}
