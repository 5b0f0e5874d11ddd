ghost use Rattle.std.specs.Prelude.{◌≡◌, ◌≢◌, ◌≤◌, ◌⊎◌, ℕ, List, [], Contains, IfOk, IfSome, length};
ghost use Rattle.std.specs.List.{IsDistinct};
ghost use Rattle.std.specs.Map.{keys_of, lookup, remove_entry};
ghost use Rattle.lru.specs.LruCache.{promoted, put_entries};
ghost use Rattle.git_name.specs.Object.{Object, object_name};
ghost use Rattle.git_name.specs.Same.{same_name};

use git_name::{Name, Sealed};
use lru::LruCache;
use std::alloc::{AllocError, Global};
use std::marker::Model;
use std::num::NonZeroUsize;

/// The largest number of objects in the cache.
pub const MOST: usize = 256;

/// The longest content of an object in the cache, in bytes.
pub const LARGEST: usize = 65536;

/// The objects that were read last, except large ones.
#[derive(Drop)]
pub struct ReadCache {
    kept: LruCache<Name, Sealed>,
}

impl Model for ReadCache {
    ghost use Rattle.std.specs.Prelude.{◌≡◌};
    ghost use Rattle.read_cache.specs.Cached.{AreFit, Cached, cached_code};

    ghost Value = { Cached };

    ghost coded = { cached_code };

    ghost view = { λ a. a.kept.entries };

    ghost invariant = { λ a. AreFit a.kept.entries × (a.kept.cap ≡ 256) };
}

impl ReadCache {
    /// An empty cache with room for `MOST` objects.
    pub fn new(alloc: Global) -> Result<ReadCache, AllocError>
        ensures { IfOk result (λ cache. cache ≡ []) }
    {
        let room = NonZeroUsize::new(MOST).unwrap_or(NonZeroUsize::MIN);
        Ok(ReadCache {
            kept: LruCache::new(alloc, room)?,
        })
    }

    /// A copy of the object of a name, if it is cached. It becomes the most recently used.
    pub fn find(&mut self, name: Name) -> Result<Option<Sealed>, AllocError>
        ensures found { IfOk result (λ found. IfSome found (λ sealed. Contains self.old (name, sealed))) }
        ensures named { IfOk result (λ found. IfSome found (λ sealed. object_name sealed ≡ name)) }
        ensures kept { (n : List ℕ) (o : Object) → Contains self.new (n, o) → Contains self.old (n, o) }
    {
        cached(&mut self.kept, name)
    }

    /// States how much any cache holds at most. It does nothing; proofs call it for its clauses.
    pub fn bounds(&self)
        ensures few { length self.now ≤ 256 }
        ensures small { (n : List ℕ) (o : Object) → Contains self.now (n, o) → length o.bytes ≤ 65536 }
    {
        let _kept = &self.kept;
        let _count = self.kept.len();
    }

    /// Caches a copy of an object, if it is not large and there is memory for it.
    pub fn keep(&mut self, sealed: &Sealed)
        ensures { (n : List ℕ) (o : Object) → Contains self.new (n, o) → Contains self.old (n, o) ⊎ ((n ≡ object_name sealed.now) × (o ≡ sealed.now)) }
    {
        put(&mut self.kept, sealed);
    }

    /// Removes the object of a name.
    pub fn forget(&mut self, name: Name)
        ensures { (n : List ℕ) (o : Object) → Contains self.new (n, o) → Contains self.old (n, o) × (n ≢ name) }
    {
        drop_name(&mut self.kept, name);
    }
}

fn cached(kept: &mut LruCache<Name, Sealed>, name: Name) -> Result<Option<Sealed>, AllocError>
    ensures found { IfOk result (λ found. found ≡ lookup (same_name name) kept.old.entries) }
    ensures entries { kept.new.entries ≡ promoted (same_name name) kept.old.entries }
    ensures cap { kept.new.cap ≡ kept.old.cap }
{
    match kept.get(&name) {
        Some(sealed) => Ok(Some(sealed.clone()?)),
        None => Ok(None),
    }
}

fn put(kept: &mut LruCache<Name, Sealed>, sealed: &Sealed)
    ensures put { (kept.new.entries ≡ kept.old.entries) ⊎ (kept.new.entries ≡ put_entries same_name kept.old (object_name sealed.now) sealed.now) × (length sealed.now.bytes ≤ 65536) }
    ensures cap { kept.new.cap ≡ kept.old.cap }
{
    if sealed.bytes().len() > LARGEST {
        return;
    }
    let Ok(copy) = sealed.clone() else {
        return;
    };
    let _kept = kept.put(sealed.name(), copy);
}

fn drop_name(kept: &mut LruCache<Name, Sealed>, name: Name)
    ensures entries { kept.new.entries ≡ remove_entry (same_name name) kept.old.entries }
    ensures distinct { IsDistinct same_name (keys_of kept.old.entries) }
    ensures cap { kept.new.cap ≡ kept.old.cap }
{
    let _count = kept.len();
    kept.pop(&name);
}
