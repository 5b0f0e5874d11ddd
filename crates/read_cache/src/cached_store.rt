ghost use Rattle.std.specs.Prelude.{◌≡◌, false, IsTrue, IfErr, IfOk, IfSome, OnOk, Some, true};
ghost use Rattle.std.specs.FinMap as map;
ghost use Rattle.git_name.specs.Object.{object_name, typed_bytes};
ghost use Rattle.loose_store.specs.Durability.{IsSync};
ghost use Rattle.loose_store.specs.Files.{SameBut};
ghost use Rattle.loose_store.specs.Failures.{Counts, CountsPut};
ghost use Rattle.loose_store.specs.Stored.{ReadsTo, Whole, CountsRead as CountsAsked};
ghost use Rattle.read_cache.specs.Stores.{CountsCachedRead, with_durability};

use crate::read_cache::ReadCache;
use git_name::{Hashing, Kind, Name, Sealed, seal_as};
use loose_store::{FileFault, LooseFiles, StoreFault, content_of, one_object, read_checked};
use std::alloc::{AllocError, Global};
use std::marker::Model;

/// A store with a cache of the objects that were read last. Its value is that of the store. Over an honest store, each
/// cached object has its whole file. If the store was fresh, every file in it was written here, whole, so it is not
/// hashed again.
#[derive(Drop)]
pub struct CachedStore<S: LooseFiles> {
    files: S,
    cache: ReadCache,
    is_sure: bool,
}

impl<S: LooseFiles> Model for CachedStore<S> {
    ghost use Rattle.std.specs.Prelude.{IsTrue};
    ghost use Rattle.read_cache.specs.Cached.{AreWhole, IsSure};
    ghost use Rattle.read_cache.specs.Stores.{StoreState, store_code};

    ghost Value = { StoreState };

    ghost coded = { store_code };

    ghost view = { λ a. record {
      contents = S.contents a.files;
      honest = S.honest a.files;
      failures = S.failures a.files;
      durability = S.durability a.files;
    } };

    ghost invariant = { λ a. (IsTrue (S.honest a.files) → AreWhole a.cache (S.contents a.files)) × IsSure a.is_sure (S.honest a.files) (S.contents a.files) };
}

impl<S: LooseFiles + Drop> CachedStore<S> {
    /// Wraps a store, with an empty cache.
    pub fn new(alloc: Global, files: S) -> Result<CachedStore<S>, AllocError>
        ensures contents { IfOk result (λ store. store.contents ≡ S.contents files) }
        ensures honest { IfOk result (λ store. store.honest ≡ S.honest files) }
        ensures failures { IfOk result (λ store. store.failures ≡ S.failures files) }
        ensures durability { IfOk result (λ store. store.durability ≡ S.durability files) }
    {
        let cache = ReadCache::new(alloc)?;
        let is_sure = files.is_fresh();
        Ok(CachedStore {
            files,
            cache,
            is_sure,
        })
    }
}

impl<S: LooseFiles> CachedStore<S> {
    /// Returns the store.
    pub fn close(self) -> S
        ensures contents { S.contents result ≡ self.contents }
        ensures honest { S.honest result ≡ self.honest }
        ensures failures { S.failures result ≡ self.failures }
    {
        self.files
    }

    /// How to hash the names of its files.
    pub fn hashing(&self) -> Hashing {
        self.files.hashing()
    }

    /// Reads the object of this name, if it has a file, from the cache or from the store. Caches what it reads from the
    /// store.
    pub fn read(&mut self, alloc: Global, name: Name) -> Result<Option<Sealed>, StoreFault>
        ensures reads { IsTrue self.old.honest → ReadsTo self.old.contents name result }
        ensures kept { IsTrue self.old.honest → self.new.contents ≡ self.old.contents }
        // Over any store.
        ensures named { IfOk result (λ found. IfSome found (λ sealed. object_name sealed ≡ name)) }
        ensures honest { self.new.honest ≡ self.old.honest }
        ensures cause { CountsCachedRead self.old.failures self.new.failures result }
    {
        read_through(alloc, &mut self.files, &mut self.cache, self.is_sure, name)
    }

    /// The kind and the bytes of the object of this name, borrowed if its file is in memory and need not be
    /// hashed; `None` if it has to be read.
    pub fn lend(&self, name: Name) -> Option<(Kind, &[u8])>
        ensures { IfSome result (λ lent. IsTrue self.now.honest × Whole self.now.contents name (record { kind = lent.0; bytes = lent.1.now })) }
    {
        if !self.is_sure {
            return None;
        }
        lent(&self.files, name)
    }

    /// Reads the object of this name as `read` does, but only from the store, and without caching it.
    pub fn read_past(&mut self, alloc: Global, name: Name) -> Result<Option<Sealed>, StoreFault>
        ensures reads { IsTrue self.old.honest → ReadsTo self.old.contents name result }
        ensures kept { IsTrue self.old.honest → self.new.contents ≡ self.old.contents }
        // Over any store.
        ensures named { IfOk result (λ found. IfSome found (λ sealed. object_name sealed ≡ name)) }
        ensures honest { self.new.honest ≡ self.old.honest }
        ensures cause { CountsCachedRead self.old.failures self.new.failures result }
        // The store was asked: one that failed 2^64 - 1 times answers nothing.
        ensures asked { CountsAsked self.old.failures self.new.failures result }
    {
        read_checked(alloc, &mut self.files, name)
    }

    /// The names of the files, ascending.
    pub fn names(&mut self, alloc: Global) -> Result<Vec<Name>, FileFault>
        ensures found { IsTrue self.old.honest → IfOk result (λ names. names.items ≡ map.keys self.old.contents) }
        ensures kept { IsTrue self.old.honest → self.new.contents ≡ self.old.contents }
        // Over any store.
        ensures honest { self.new.honest ≡ self.old.honest }
        ensures cause { Counts self.old.failures self.new.failures result }
    {
        self.files.names(alloc)
    }

    /// Writes the file of an object, replacing one of its name. Returns the object, unless the store keeps it.
    pub fn put(&mut self, alloc: Global, sealed: Sealed) -> Result<Option<Sealed>, FileFault>
        ensures ok { IsTrue self.old.honest → OnOk result (self.new.contents ≡ map.insert self.old.contents (object_name sealed) (typed_bytes sealed)) }
        ensures others { IsTrue self.old.honest → SameBut (object_name sealed) self.old.contents self.new.contents }
        ensures honest { self.new.honest ≡ self.old.honest }
        ensures back { IfOk result (λ back. IfSome back (λ given. given ≡ sealed)) }
        ensures cause { CountsPut self.old.failures self.new.failures result }
    {
        let name = sealed.name();
        self.cache.forget(name);
        match self.files.put_object(alloc, sealed) {
            Ok(back) => Ok(back),
            Err(fault) => {
                self.is_sure = false;
                Err(fault)
            }
        }
    }

    /// Notes that the caller relies on an existing file: the next `sync` includes it.
    pub fn rely_on(&mut self, name: Name) -> Result<(), AllocError>
        ensures { self.new ≡ with_durability self.new.durability self.old }
    {
        self.files.rely_on(name)
    }

    /// Makes the files that were put, or relied on, survive a loss of power. After `Device` every later call fails too.
    pub fn sync(&mut self, alloc: Global) -> Result<(), FileFault>
        ensures same { self.new ≡ with_durability self.new.durability self.old }
        ensures durable { IsSync self.old.durability self.new.durability result }
    {
        self.files.sync(alloc)
    }

    /// Does some of the work of the next `sync`, if there is much.
    pub fn sync_ahead(&mut self, alloc: Global) -> Result<(), FileFault>
        ensures same { self.new ≡ with_durability self.new.durability self.old }
        ensures removed { self.new.durability.removed ≡ self.old.durability.removed }
    {
        self.files.sync_ahead(alloc)
    }

    /// Whether a removed file would come back if the store were opened again, or `forget_removed` has something else to do.
    pub fn has_removed(&self) -> bool
        ensures { result ≡ false → self.now.durability.removed ≡ false }
    {
        self.files.has_removed()
    }

    /// Makes removals final. After an `Err` some of the removed files may still come back.
    pub fn forget_removed(&mut self, alloc: Global) -> Result<(), FileFault>
        ensures same { self.new ≡ with_durability self.new.durability self.old }
        ensures settled { OnOk result (self.new.durability.removed ≡ false) }
    {
        self.files.forget_removed(alloc)
    }

    /// Removes a file. If there is none, it succeeds and changes nothing.
    pub fn remove(&mut self, alloc: Global, name: Name) -> Result<(), FileFault>
        ensures ok { IsTrue self.old.honest → OnOk result (self.new.contents ≡ map.remove self.old.contents name) }
        ensures others { IsTrue self.old.honest → SameBut name self.old.contents self.new.contents }
        ensures honest { self.new.honest ≡ self.old.honest }
        ensures cause { Counts self.old.failures self.new.failures result }
    {
        self.cache.forget(name);
        let Err(fault) = self.files.remove(alloc, name) else {
            return Ok(());
        };
        self.is_sure = false;
        Err(fault)
    }
}

ghost use Rattle.read_cache.specs.Cached.{HasWholeFiles, AreWhole, IsFileOf, IsSure, OpensFile};

// Reads the object of a name from the cache or from the store. A sure store is in memory, so it is read directly.
fn read_through<S: LooseFiles>(
    alloc: Global,
    files: &mut S,
    cache: &mut ReadCache,
    is_sure: bool,
    name: Name,
) -> Result<Option<Sealed>, StoreFault>
    requires kept { IsTrue (S.honest files.old) → AreWhole cache.old (S.contents files.old) }
    requires sure { IsSure is_sure (S.honest files.old) (S.contents files.old) }
    ensures reads { IsTrue (S.honest files.old) → ReadsTo (S.contents files.old) name result }
    ensures kept { IsTrue (S.honest files.old) → S.contents files.new ≡ S.contents files.old }
    ensures whole { IsTrue (S.honest files.old) → AreWhole cache.new (S.contents files.new) }
    ensures named { IfOk result (λ found. IfSome found (λ sealed. object_name sealed ≡ name)) }
    ensures honest { S.honest files.new ≡ S.honest files.old }
    ensures cause { CountsCachedRead (S.failures files.old) (S.failures files.new) result }
{
    if is_sure {
        return read_unhashed(alloc, files, name);
    }
    let Ok(kept) = cache.find(name) else {
        return Err(StoreFault::Memory);
    };
    if let Some(sealed) = kept {
        return Ok(Some(sealed));
    }
    read_and_keep(alloc, files, cache, name)
}

// Reads the object of a name from the store, and caches it.
fn read_and_keep<S: LooseFiles>(
    alloc: Global,
    files: &mut S,
    cache: &mut ReadCache,
    name: Name,
) -> Result<Option<Sealed>, StoreFault>
    requires { IsTrue (S.honest files.old) → AreWhole cache.old (S.contents files.old) }
    ensures reads { IsTrue (S.honest files.old) → ReadsTo (S.contents files.old) name result }
    ensures kept { IsTrue (S.honest files.old) → S.contents files.new ≡ S.contents files.old }
    ensures whole { IsTrue (S.honest files.old) → AreWhole cache.new (S.contents files.new) }
    ensures named { IfOk result (λ found. IfSome found (λ sealed. object_name sealed ≡ name)) }
    ensures honest { S.honest files.new ≡ S.honest files.old }
    ensures cause { CountsCachedRead (S.failures files.old) (S.failures files.new) result }
{
    match read_checked(alloc, files, name) {
        Ok(Some(sealed)) => {
            cache.keep(&sealed);
            Ok(Some(sealed))
        }
        Ok(None) => Ok(None),
        Err(fault) => Err(fault),
    }
}

// The object of a name, borrowed from a store in which each file is whole.
fn lent<S: LooseFiles>(files: &S, name: Name) -> Option<(Kind, &[u8])>
    requires honest { IsTrue (S.honest files.now) }
    requires whole { HasWholeFiles (S.contents files.now) }
    ensures { IfSome result (λ lent. Whole (S.contents files.now) name (record { kind = lent.0; bytes = lent.1.now })) }
{
    one_object();
    files.lend(name)
}

// Reads the object of a name from a store in which each file is whole.
fn read_unhashed<S: LooseFiles>(
    alloc: Global,
    files: &mut S,
    name: Name,
) -> Result<Option<Sealed>, StoreFault>
    requires honest { IsTrue (S.honest files.old) }
    requires whole { HasWholeFiles (S.contents files.old) }
    ensures reads { ReadsTo (S.contents files.old) name result }
    ensures kept { S.contents files.new ≡ S.contents files.old }
    ensures named { IfOk result (λ found. IfSome found (λ sealed. object_name sealed ≡ name)) }
    ensures honest { S.honest files.new ≡ S.honest files.old }
    ensures cause { CountsCachedRead (S.failures files.old) (S.failures files.new) result }
{
    if let Some((kind, content)) = lent(files, name) {
        return copied(alloc, kind, content, name);
    }
    let found = match files.get(alloc, name) {
        Ok(found) => found,
        Err(FileFault::Device) => return Err(StoreFault::Device),
        Err(FileFault::Memory) => return Err(StoreFault::Memory),
    };
    let Some(file) = found else {
        return Ok(None);
    };
    opened(alloc, file.as_slice(), name)
}

// A copy of the object of this kind, content and name.
fn copied(
    alloc: Global,
    kind: Kind,
    content: &[u8],
    name: Name,
) -> Result<Option<Sealed>, StoreFault>
    requires { object_name (record { kind = kind; bytes = content.now }) ≡ name }
    ensures copied { IfOk result (λ found. found ≡ Some (record { kind = kind; bytes = content.now })) }
    ensures cause { IfErr result (λ fault. fault ≡ StoreFault.Memory) }
{
    let Ok(content) = content.to_vec(alloc) else {
        return Err(StoreFault::Memory);
    };
    Ok(Some(seal_as(kind, content, name)))
}

// The object in this file, whose name is known.
fn opened(alloc: Global, file: &[u8], name: Name) -> Result<Option<Sealed>, StoreFault>
    requires { IsFileOf file.now name }
    ensures opened { IfOk result (OpensFile file.now name) }
    ensures cause { IfErr result (λ fault. fault ≡ StoreFault.Memory) }
{
    one_object();
    let Some((kind, content)) = content_of(file) else {
        unreachable!();
    };
    let Ok(content) = content.to_vec(alloc) else {
        return Err(StoreFault::Memory);
    };
    Ok(Some(seal_as(kind, content, name)))
}
