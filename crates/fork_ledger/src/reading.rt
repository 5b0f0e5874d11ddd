ghost use Rattle.std.specs.Prelude.{◌≡◌, ◌≢◌, true, is_some, Some, IsTrue, IfErr, IfOk, IfSome};
ghost use Rattle.git_name.specs.Object.{Object, object_name};
ghost use Rattle.git_name.specs.Count.{fault_in};
ghost use Rattle.loose_store.specs.Stored.{Whole};
ghost use Rattle.fork_ledger.specs.Store.{CountsFault};

use crate::fault::VaultFault;
use git_name::{Name, Sealed};
use loose_store::{LooseFiles, StoreFault};
use read_cache::CachedStore;
use std::alloc::Global;

// Reads the object of a name that some tenant holds. A lost or damaged file is `Damaged`.
pub(crate) fn read_held<S: LooseFiles>(
    alloc: Global,
    files: &mut CachedStore<S>,
    name: Name,
) -> Result<Option<Sealed>, VaultFault>
    ensures whole { IsTrue files.old.honest → IfOk result (λ found. (object : Object) × (found ≡ Some object) × Whole files.old.contents name object) }
    ensures damaged { IsTrue files.old.honest → IfErr result (λ fault. fault ≡ VaultFault.Damaged → (object : Object) → Whole files.old.contents name object → ⊥) }
    ensures kept { IsTrue files.old.honest → files.new.contents ≡ files.old.contents }
    ensures there { IfOk result (λ found. is_some found ≡ true) }
    ensures named { IfOk result (λ found. IfSome found (λ object. object_name object ≡ name)) }
    ensures honest { files.new.honest ≡ files.old.honest }
    ensures cause { CountsFault files.old.failures files.new.failures (fault_in result) }
    ensures apart { IfErr result (λ fault. fault ≢ VaultFault.Collision) }
{
    match files.read(alloc, name) {
        Ok(Some(sealed)) => Ok(Some(sealed)),
        Ok(None) => Err(VaultFault::Damaged),
        Err(StoreFault::Device) => Err(VaultFault::Store),
        Err(StoreFault::Damaged) => Err(VaultFault::Damaged),
        Err(StoreFault::Memory) => Err(VaultFault::Memory),
    }
}
