ghost use Rattle.std.specs.Prelude.{◌≡◌, ◌⊎◌, IsTrue, IfErr, IfOk, IfSome};
ghost use Rattle.git_name.specs.Object.{object_name};
ghost use Rattle.git_name.specs.Count.{fault_in};
ghost use Rattle.fork_ledger.specs.Store.{CountsFault};
ghost use Rattle.fork_ledger.specs.Surveyed.{IsSurveyed};

use crate::arrival::store_fault;
use crate::fault::VaultFault;
use crate::leading::learn_links;
use git_name::{Name, Sealed};
use loose_store::{LooseFiles, StoreFault};
use object_table::Holdings;
use read_cache::CachedStore;
use std::alloc::Global;
use std::marker::Model;

/// A store whose objects are read before a vault is opened over it. The vault can then recall these objects for
/// tenants without reading them a second time, and knows their links.
#[derive(Drop)]
pub struct Survey<S: LooseFiles> {
    pub(crate) files: CachedStore<S>,
    pub(crate) holdings: Holdings,
}

impl<S: LooseFiles> Model for Survey<S> {
    ghost use Rattle.fork_ledger.specs.Surveyed.{IsCatalogued};
    ghost use Rattle.read_cache.specs.Stores.{StoreState, store_code};

    ghost Value = { StoreState };

    ghost coded = { store_code };

    ghost view = { λ a. a.files };

    ghost invariant = { λ a. IsCatalogued a.files a.holdings };
}

impl<S: LooseFiles + Drop> Survey<S> {
    /// A survey of this store. It lists the names of the files and reads none of them.
    pub fn new(alloc: Global, files: S) -> Result<Survey<S>, VaultFault>
        ensures contents { IsTrue (S.honest files) → IfOk result (λ survey. survey.contents ≡ S.contents files) }
        ensures honest { IfOk result (λ survey. survey.honest ≡ S.honest files) }
        ensures failures { IfOk result (λ survey. survey.failures ≡ S.failures files) }
        ensures cause { IfErr result (λ fault. (fault ≡ VaultFault.Store) ⊎ (fault ≡ VaultFault.Memory)) }
    {
        let Ok(mut files) = CachedStore::new(alloc, files) else {
            return Err(VaultFault::Memory);
        };
        let names = match files.names(alloc) {
            Ok(names) => names,
            Err(fault) => return Err(store_fault(fault)),
        };
        match Holdings::over(alloc, files.hashing(), names.as_slice()) {
            Ok(holdings) => Ok(Survey { files, holdings }),
            Err(_) => Err(VaultFault::Memory),
        }
    }
}

impl<S: LooseFiles> Survey<S> {
    /// Reads the object of this name, if its file is whole, and learns its links.
    pub fn read(&mut self, alloc: Global, name: Name) -> Result<Option<Sealed>, VaultFault>
        ensures found { IsTrue self.old.honest → IfOk result (IsSurveyed self.old.contents name) }
        ensures kept { IsTrue self.old.honest → self.new.contents ≡ self.old.contents }

        // Over any store.
        ensures named { IfOk result (λ found. IfSome found (λ object. object_name object ≡ name)) }
        ensures honest { self.new.honest ≡ self.old.honest }
        ensures counted { CountsFault self.old.failures self.new.failures (fault_in result) }
        ensures cause { IfErr result (λ fault. (fault ≡ VaultFault.Store) ⊎ (fault ≡ VaultFault.Memory)) }
    {
        match self.files.read_past(alloc, name) {
            Ok(Some(sealed)) => {
                learn_links(
                    alloc,
                    &mut self.holdings,
                    name,
                    sealed.kind(),
                    sealed.bytes(),
                );
                Ok(Some(sealed))
            }
            Ok(None) => Ok(None),
            Err(StoreFault::Damaged) => Ok(None),
            Err(StoreFault::Device) => Err(VaultFault::Store),
            Err(StoreFault::Memory) => Err(VaultFault::Memory),
        }
    }
}
