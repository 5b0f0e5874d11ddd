ghost use Rattle.std.specs.Prelude.{◌≡◌, false, true, OnOk, OnErr, IfOk, Some, None};
ghost use Rattle.std.specs.Map.{keys_of};
ghost use Rattle.std.specs.FinMap as map;
ghost use Rattle.std.specs.List.{IsDistinct};
ghost use Rattle.git_name.specs.Name.{name_cmp};
ghost use Rattle.git_name.specs.Same.{Sets, same_name};

use crate::files::{FileFault, LooseFiles};
use crate::memory_file::MemoryFile;
use git_name::{Hashing, Kind, Name, Nearby, Sealed};
use indexmap::IndexMap;
use std::alloc::{AllocError, Global};
use std::marker::Model;

/// Files in memory, in a map that hashes their names. They are in the order in which they were put, so objects that
/// came together are near one another. An object is kept as it was put, and the bytes of its file are made when it is
/// read.
#[derive(Debug, Drop)]
pub struct Memory {
    files: IndexMap<Name, MemoryFile, Hashing>,
    nearby: Nearby,
}

impl Model for Memory {
    ghost use Rattle.std.specs.Coded.{coded_list, coded_ℕ};
    ghost use Rattle.std.specs.FinMap as map;
    ghost use Rattle.loose_store.specs.Files.{Files};
    ghost use Rattle.loose_store.specs.MemoryFile.{file_bytes};
    ghost use Rattle.git_name.specs.Maps.{map_values};

    ghost Value = { Files };

    ghost coded = { map.code (coded_list coded_ℕ) (coded_list coded_ℕ) };

    ghost view = { λ a. map_values file_bytes (map.from_entries a.files.entries) };
}

fn insert_into(
    files: &mut IndexMap<Name, MemoryFile, Hashing>,
    name: Name,
    file: MemoryFile,
) -> Result<(), AllocError>
    ensures ok { OnOk result (Sets files.old.entries files.new.entries name (Some file)) }
    ensures err { OnErr result (files.new.entries ≡ files.old.entries) }
{
    files.insert(name, file)?;
    Ok(())
}

fn remove_from(files: &mut IndexMap<Name, MemoryFile, Hashing>, name: Name)
    ensures { Sets files.old.entries files.new.entries name None }
{
    files.swap_remove(&name);
}

// The names of the files, in no particular order.
fn listed(
    alloc: Global,
    files: &IndexMap<Name, MemoryFile, Hashing>,
) -> Result<Vec<Name>, AllocError>
    ensures names { IfOk result (λ names. names.items ≡ keys_of files.now.entries) }
    ensures distinct { IsDistinct same_name (keys_of files.now.entries) }
{
    let _count = files.len();
    files.keys().copied().collect(alloc)
}

// The names of the files, ascending.
fn names_in(
    alloc: Global,
    files: &IndexMap<Name, MemoryFile, Hashing>,
) -> Result<Vec<Name>, AllocError>
    ensures { IfOk result (λ names. names.items ≡ map.keys (map.from_entries {R = name_cmp} files.now.entries)) }
{
    let mut names = listed(alloc, files)?;
    names.sort_unstable();
    Ok(names)
}

impl Memory {
    ghost use Rattle.loose_store.specs.MemoryFile.{file_bytes};

    /// An empty store.
    pub fn new(alloc: Global) -> Memory
        ensures { result ≡ map.empty }
    {
        Memory::with_hashing(alloc, Hashing::default())
    }

    /// An empty store that hashes names this way.
    pub fn with_hashing(alloc: Global, hashing: Hashing) -> Memory
        ensures { result ≡ map.empty }
    {
        Memory {
            files: IndexMap::with_hasher(alloc, hashing),
            nearby: Nearby::new(),
        }
    }

    /// Puts these bytes under a name. Tests use it to damage a file.
    pub fn set(&mut self, alloc: Global, name: Name, bytes: &[u8]) -> Result<(), AllocError>
        ensures ok { OnOk result (self.new ≡ map.insert self.old name bytes.now) }
        ensures err { OnErr result (self.new ≡ self.old) }
    {
        let copy = bytes.to_vec(alloc)?;
        self.keep(name, MemoryFile::Bytes(copy))
    }

    // Puts a file under a name.
    fn keep(&mut self, name: Name, file: MemoryFile) -> Result<(), AllocError>
        ensures ok { OnOk result (self.new ≡ map.insert self.old name (file_bytes file)) }
        ensures err { OnErr result (self.new ≡ self.old) }
    {
        insert_into(&mut self.files, name, file)
    }
}

impl LooseFiles for Memory {
    ghost contents = { λ files. files };

    ghost honest = { λ _. true };

    ghost failures = { λ _. 0 };

    ghost durability = { λ _. record { synced = true; removed = false } };

    fn get(&mut self, alloc: Global, name: Name) -> Result<Option<Vec<u8>>, FileFault> {
        let Some(file) = self.nearby.get(&self.files, name) else {
            return Ok(None);
        };
        Ok(Some(file.to_bytes(alloc)?))
    }

    fn lend(&self, name: Name) -> Option<(Kind, &[u8])> {
        match self.nearby.get(&self.files, name) {
            Some(file) => file.object(),
            None => None,
        }
    }

    fn put(&mut self, alloc: Global, name: Name, bytes: &[u8]) -> Result<(), FileFault> {
        Ok(self.set(alloc, name, bytes)?)
    }

    fn put_object(&mut self, _alloc: Global, sealed: Sealed) -> Result<Option<Sealed>, FileFault> {
        let name = sealed.name();
        let (kind, content) = sealed.into_parts();
        self.keep(name, MemoryFile::Object(kind, content))?;
        Ok(None)
    }

    fn remove(&mut self, _alloc: Global, name: Name) -> Result<(), FileFault> {
        remove_from(&mut self.files, name);
        Ok(())
    }

    fn names(&mut self, alloc: Global) -> Result<Vec<Name>, FileFault> {
        Ok(names_in(alloc, &self.files)?)
    }

    fn sync(&mut self, _alloc: Global) -> Result<(), FileFault> {
        Ok(())
    }

    fn has_removed(&self) -> bool {
        false
    }

    fn forget_removed(&mut self, _alloc: Global) -> Result<(), FileFault> {
        Ok(())
    }

    fn hashing(&self) -> Hashing {
        *self.files.hasher()
    }

    fn is_fresh(&self) -> bool {
        self.files.is_empty()
    }

    fn failures(&self) -> u64 {
        0
    }
}
