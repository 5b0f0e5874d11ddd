// Learns the links and the times of objects from their bytes.
ghost use Rattle.std.specs.Prelude.{◌≡◌, ◌≢◌, ◌⊎◌, ℕ, List, true, is_some, Some, IsTrue, IfErr, IfOk, IfSome};
ghost use Rattle.std.specs.FinMap.{get};
ghost use Rattle.git_name.specs.Object.{Object, object_name};
ghost use Rattle.git_name.specs.Count.{fault_in};
ghost use Rattle.loose_store.specs.Stored.{Whole};
ghost use Rattle.fork_ledger.specs.Led.{AreLed, LearnsOf, learned_of};
ghost use Rattle.number_links.specs.Facts.{Learned};
ghost use Rattle.fork_ledger.specs.Store.{CountsFault};

use crate::fault::VaultFault;
use crate::reading::read_held;
use fork_reach::{link_names, time_of};
use git_name::{Kind, Name, Sealed};
use loose_store::LooseFiles;
use object_table::Holdings;
use read_cache::CachedStore;
use std::alloc::Global;

// Learns the links and the time of an object from its bytes, unless they are known. A blob has no links.
pub(crate) fn learn_links(
    alloc: Global,
    holdings: &mut Holdings,
    name: Name,
    kind: Kind,
    bytes: &[u8],
)
    ensures ledgers { holdings.new.ledgers ≡ holdings.old.ledgers }
    ensures catalogue { holdings.new.catalogue ≡ holdings.old.catalogue }
    ensures links { (q : List ℕ) (one : Learned (List ℕ)) → get holdings.new.links q ≡ Some one → (get holdings.old.links q ≡ Some one) ⊎ ((q ≡ name) × (one ≡ learned_of (record { kind = kind; bytes = bytes.now }))) }
{
    if holdings.knows(name) {
        return;
    }
    let Ok(names) = link_names(alloc, kind, bytes) else {
        return;
    };
    let Some(time) = time_of(kind, bytes) else {
        return;
    };
    holdings.learn(alloc, name, names.as_slice(), time);
}

// Learns the links and the times of these objects.
pub(crate) fn learn_all(alloc: Global, holdings: &mut Holdings, objects: &[Sealed])
    ensures ledgers { holdings.new.ledgers ≡ holdings.old.ledgers }
    ensures catalogue { holdings.new.catalogue ≡ holdings.old.catalogue }
    ensures links { LearnsOf objects.now holdings.old.links holdings.new.links }
{
    for sealed in objects {
        let bytes = sealed.bytes();
        learn_links(alloc, holdings, sealed.name(), sealed.kind(), bytes);
    }
}

// Reads the object of a name that some tenant holds, and learns its links.
pub(crate) fn read_and_learn<S: LooseFiles>(
    alloc: Global,
    files: &mut CachedStore<S>,
    holdings: &mut Holdings,
    name: Name,
) -> Result<Option<Sealed>, VaultFault>
    ensures whole { IsTrue files.old.honest → IfOk result (λ found. (object : Object) × (found ≡ Some object) × Whole files.old.contents name object) }
    ensures damaged { IsTrue files.old.honest → IfErr result (λ fault. fault ≡ VaultFault.Damaged → (object : Object) → Whole files.old.contents name object → ⊥) }
    ensures kept { IsTrue files.old.honest → files.new.contents ≡ files.old.contents }
    ensures there { IfOk result (λ found. is_some found ≡ true) }
    ensures named { IfOk result (λ found. IfSome found (λ object. object_name object ≡ name)) }
    ensures honest { files.new.honest ≡ files.old.honest }
    ensures cause { CountsFault files.old.failures files.new.failures (fault_in result) }
    ensures apart { IfErr result (λ fault. fault ≢ VaultFault.Collision) }
    ensures ledgers { holdings.new.ledgers ≡ holdings.old.ledgers }
    ensures catalogue { holdings.new.catalogue ≡ holdings.old.catalogue }
    ensures led { IsTrue files.old.honest → AreLed holdings.old.links files.old.contents → AreLed holdings.new.links files.new.contents }
{
    match read_held(alloc, files, name) {
        Ok(Some(sealed)) => {
            learn_links(alloc, holdings, name, sealed.kind(), sealed.bytes());
            Ok(Some(sealed))
        }
        Ok(None) => Ok(None),
        Err(fault) => Err(fault),
    }
}
