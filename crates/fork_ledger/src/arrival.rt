// Objects that arrive at the store.
ghost use Rattle.std.specs.Prelude.{◌≡◌, ◌≢◌, true, false, IsTrue, IfErr, IfOk, IfSome, OnOk};
ghost use Rattle.std.specs.FinMap.{contains_key};
ghost use Rattle.git_name.specs.Object.{Object, object_name};
ghost use Rattle.git_name.specs.Count.{fault_in};
ghost use Rattle.loose_store.specs.Files.{SameBut};
ghost use Rattle.loose_store.specs.Stored.{Whole};
ghost use Rattle.read_cache.specs.Stores.{with_durability};
ghost use Rattle.fork_ledger.specs.AllStaged.{StaysWhole};
ghost use Rattle.fork_ledger.specs.Store.{CountsFault, Meets};

use crate::fault::VaultFault;
use git_name::{Name, Sealed};
use loose_store::{FileFault, LooseFiles, StoreFault};
use read_cache::CachedStore;
use std::alloc::Global;

// A fault of the store, as the vault reports it.
pub(crate) fn store_fault(fault: FileFault) -> VaultFault
    ensures device { fault ≡ FileFault.Device → result ≡ VaultFault.Store }
    ensures memory { fault ≡ FileFault.Memory → result ≡ VaultFault.Memory }
{
    match fault {
        FileFault::Device => VaultFault::Store,
        FileFault::Memory => VaultFault::Memory,
    }
}

// Makes sure that the file of an object is whole. A missing file is written, and so is one of a new name, which no file
// has, so the store is not asked. A whole file is compared with the object and never overwritten. A damaged file is
// overwritten only if no tenant holds the name. Returns the object, unless the store keeps it.
#[tactic(auto, using(crate::proofs::CoverLemmas::new_stays))]
pub(crate) fn arrive<S: LooseFiles>(
    alloc: Global,
    files: &mut CachedStore<S>,
    is_new: bool,
    is_held: bool,
    sealed: Sealed,
) -> Result<Option<Sealed>, VaultFault>
    requires new { is_new ≡ true → IsTrue files.old.honest → contains_key files.old.contents (object_name sealed) ≡ false }
    ensures whole { IsTrue files.old.honest → OnOk result (Whole files.new.contents (object_name sealed) sealed) }
    ensures others { IsTrue files.old.honest → SameBut (object_name sealed) files.old.contents files.new.contents }
    ensures stands { IsTrue files.old.honest → StaysWhole files.old.contents files.new.contents }
    ensures held { IsTrue files.old.honest → is_held ≡ true → contains_key files.old.contents (object_name sealed) ≡ true → files.new.contents ≡ files.old.contents }
    ensures damaged { IsTrue files.old.honest → IfErr result (λ fault. fault ≡ VaultFault.Damaged
        → (is_held ≡ true) × ((object : Object) → Whole files.old.contents (object_name sealed) object → ⊥)) }
    ensures collision { IsTrue files.old.honest → IfErr result (λ fault. fault ≡ VaultFault.Collision → Meets sealed files.old.contents) }
    ensures still { IsTrue files.old.honest → IfErr result (λ fault. fault ≡ VaultFault.Collision → files.new.contents ≡ files.old.contents) }
    ensures back { IfOk result (λ back. IfSome back (λ given. given ≡ sealed)) }
    ensures honest { files.new.honest ≡ files.old.honest }
    ensures cause { CountsFault files.old.failures files.new.failures (fault_in result) }
{
    if is_new {
        return put_whole(alloc, files, sealed);
    }
    let name = sealed.name();
    match files.read_past(alloc, name) {
        Ok(Some(found)) => {
            if !is_same(&found, &sealed) {
                return Err(VaultFault::Collision);
            }
            match rely_on(files, name) {
                Ok(()) => Ok(Some(sealed)),
                Err(fault) => Err(fault),
            }
        }
        Ok(None) => put_whole(alloc, files, sealed),
        Err(StoreFault::Damaged) => {
            if is_held {
                Err(VaultFault::Damaged)
            } else {
                put_whole(alloc, files, sealed)
            }
        }
        Err(StoreFault::Device) => Err(VaultFault::Store),
        Err(StoreFault::Memory) => Err(VaultFault::Memory),
    }
}

fn is_same(found: &Sealed, sealed: &Sealed) -> bool
    ensures same { result ≡ true → found.now ≡ sealed.now }
    ensures apart { result ≡ false → found.now ≢ sealed.now }
{
    found.kind() == sealed.kind() && found.bytes() == sealed.bytes()
}

// The file of an arriving object is already there and whole. The next `sync` includes it.
fn rely_on<S: LooseFiles>(files: &mut CachedStore<S>, name: Name) -> Result<(), VaultFault>
    ensures files { files.new ≡ with_durability files.new.durability files.old }
    ensures cause { IfErr result (λ fault. fault ≡ VaultFault.Memory) }
{
    match files.rely_on(name) {
        Ok(()) => Ok(()),
        Err(_) => Err(VaultFault::Memory),
    }
}

// Writes the file of an object. Returns the object, unless the store keeps it.
fn put_whole<S: LooseFiles>(
    alloc: Global,
    files: &mut CachedStore<S>,
    sealed: Sealed,
) -> Result<Option<Sealed>, VaultFault>
    ensures whole { IsTrue files.old.honest → OnOk result (Whole files.new.contents (object_name sealed) sealed) }
    ensures others { IsTrue files.old.honest → SameBut (object_name sealed) files.old.contents files.new.contents }
    ensures back { IfOk result (λ back. IfSome back (λ given. given ≡ sealed)) }
    ensures honest { files.new.honest ≡ files.old.honest }
    ensures cause { CountsFault files.old.failures files.new.failures (fault_in result) }
    ensures undamaged { IfErr result (λ fault. fault ≢ VaultFault.Damaged) }
    ensures apart { IfErr result (λ fault. fault ≢ VaultFault.Collision) }
{
    match files.put(alloc, sealed) {
        Ok(back) => Ok(back),
        Err(FileFault::Device) => Err(VaultFault::Store),
        Err(FileFault::Memory) => Err(VaultFault::Memory),
    }
}
