// One of two kinds of store.
ghost use Rattle.either.specs.Either.{either};

use crate::files::{FileFault, LooseFiles};
use either::{Either, for_both};
use git_name::{Hashing, Kind, Name, Sealed};
use std::alloc::{AllocError, Global};

impl<L: LooseFiles, R: LooseFiles> LooseFiles for Either<L, R> {
    ghost contents = { either (λ files. L.contents files) (λ files. R.contents files) };

    ghost honest = { either (λ files. L.honest files) (λ files. R.honest files) };

    ghost failures = { either (λ files. L.failures files) (λ files. R.failures files) };

    ghost durability = { either (λ files. L.durability files) (λ files. R.durability files) };

    fn get(&mut self, alloc: Global, name: Name) -> Result<Option<Vec<u8>>, FileFault> {
        for_both!(self, files => files.get(alloc, name))
    }

    fn lend(&self, name: Name) -> Option<(Kind, &[u8])> {
        for_both!(self, files => files.lend(name))
    }

    fn put(&mut self, alloc: Global, name: Name, bytes: &[u8]) -> Result<(), FileFault> {
        for_both!(self, files => files.put(alloc, name, bytes))
    }

    fn put_object(&mut self, alloc: Global, sealed: Sealed) -> Result<Option<Sealed>, FileFault> {
        for_both!(self, files => files.put_object(alloc, sealed))
    }

    fn remove(&mut self, alloc: Global, name: Name) -> Result<(), FileFault> {
        for_both!(self, files => files.remove(alloc, name))
    }

    fn names(&mut self, alloc: Global) -> Result<Vec<Name>, FileFault> {
        for_both!(self, files => files.names(alloc))
    }

    fn rely_on(&mut self, name: Name) -> Result<(), AllocError> {
        for_both!(self, files => files.rely_on(name))
    }

    fn sync(&mut self, alloc: Global) -> Result<(), FileFault> {
        for_both!(self, files => files.sync(alloc))
    }

    fn sync_ahead(&mut self, alloc: Global) -> Result<(), FileFault> {
        for_both!(self, files => files.sync_ahead(alloc))
    }

    fn has_removed(&self) -> bool {
        for_both!(self, files => files.has_removed())
    }

    fn forget_removed(&mut self, alloc: Global) -> Result<(), FileFault> {
        for_both!(self, files => files.forget_removed(alloc))
    }

    fn hashing(&self) -> Hashing {
        for_both!(self, files => files.hashing())
    }

    fn is_fresh(&self) -> bool {
        for_both!(self, files => files.is_fresh())
    }

    fn failures(&self) -> u64 {
        for_both!(self, files => files.failures())
    }
}
