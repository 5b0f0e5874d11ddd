use crate::own::Own;
use crate::vault_fault::told;
use fork_reach::{Source, SourceFault};
use git_name::{Hashing, Kind, Name, Sealed};
use git_reftx::Known;
use indexmap::IndexSet;
use loose_store::LooseFiles;
use std::alloc::{AllocError, Global};

// A tenant's own part of the vault, as what the tenant sees.
impl<S: LooseFiles> Known for Own<'_, S> {
    ghost use Rattle.fork_reach.specs.Source.{kind_in};
    ghost use Rattle.fork_ledger.specs.Tenants.{private_of};

    ghost kinds = { λ own. kind_in (private_of own.vault.now.tenants own.tenant.now).visible };

    fn kind_of(&self, name: Name) -> Option<Kind> {
        self.kind_seen(name)
    }
}

impl<S: LooseFiles> Source for Own<'_, S> {
    ghost use Rattle.fork_host.specs.Handle.{Base, Rest, own_state};

    ghost Base = { Base };

    ghost Rest = { Rest };

    ghost state = { own_state };

    fn hashing(&self) -> Hashing {
        self.hashing_of_names()
    }

    fn kind_of(&self, name: Name) -> Option<Kind> {
        self.kind_seen(name)
    }

    fn lend(&self, name: Name) -> Option<(Kind, &[u8])> {
        self.lend_seen(name)
    }

    fn read(&mut self, alloc: Global, name: Name) -> Result<Option<Sealed>, SourceFault> {
        told(self.get(alloc, name))
    }

    fn known_between(
        &self,
        alloc: Global,
        wanted: &[Name],
        excluded: &[Name],
    ) -> Result<Option<IndexSet<Name, Hashing>>, AllocError> {
        self.known_seen(alloc, wanted, excluded)
    }

    fn known_history(
        &mut self,
        alloc: Global,
        wanted: &[Name],
        excluded: &[Name],
    ) -> Result<Option<IndexSet<Name, Hashing>>, AllocError> {
        self.history_seen(alloc, wanted, excluded)
    }

    fn known_bases(
        &mut self,
        alloc: Global,
        a: Name,
        b: Name,
    ) -> Result<Option<IndexSet<Name, Hashing>>, AllocError> {
        self.bases_seen(alloc, a, b)
    }

    fn known_seconds(&self, name: Name) -> Option<u64> {
        self.seconds_seen(name)
    }

    fn learn_links(&mut self, alloc: Global, name: Name) {
        self.learn_seen(alloc, name);
    }

    fn keep_reached(&mut self, alloc: Global, names: &[Name]) {
        self.keep_seen(alloc, names);
    }
}
