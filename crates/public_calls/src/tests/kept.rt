ghost use Rattle.std.specs.Prelude.{◌≡◌};
ghost use Rattle.std.specs.Option.{option_copied};
ghost use Rattle.std.specs.FinMap as map;
ghost use Rattle.git_name.specs.Name.{name_cmp};

use fork_push::Sides;
use fork_reach::{Source, SourceFault};
use git_name::{Hashing, Kind, Name, Sealed};
use std::alloc::{AllocError, Global};
use std::collections::BTreeMap;

/// Objects in memory. Reads are counted from 1. The store fails at read `fails_at`, and the bytes of the object
/// `lost` are damaged, if these are set.
#[derive(Drop)]
pub struct Kept {
    objects: BTreeMap<Name, Sealed>,
    pub reads: u64,
    pub fails_at: u64,
    pub failures: u64,
    pub lost: Option<Name>,
}

impl Kept {
    pub fn new(alloc: Global) -> Kept {
        Kept {
            objects: BTreeMap::new(alloc),
            reads: 0,
            fails_at: 0,
            failures: 0,
            lost: None,
        }
    }

    pub fn put(&mut self, sealed: Sealed) -> Result<Name, AllocError> {
        let name = sealed.name();
        self.objects.insert(name, sealed)?;
        Ok(name)
    }

    fn find(&self, name: Name) -> Option<&Sealed>
        ensures { option_copied result ≡ map.get (map.from_entries {R = name_cmp} self.now.objects.entries) name }
    {
        self.objects.get(&name)
    }
}

impl Source for Kept {
    ghost use Rattle.std.specs.Prelude.{false, ⊤};
    ghost use Rattle.std.specs.FinMap as map;

    ghost Base = { ⊤ };

    ghost Rest = { ⊤ };

    ghost state = { λ kept. record { objects = map.from_entries kept.objects.entries; honest = false; failures = kept.failures; base = tt; rest = tt } };

    fn hashing(&self) -> Hashing {
        Hashing::default()
    }

    fn kind_of(&self, name: Name) -> Option<Kind> {
        match self.find(name) {
            Some(sealed) => Some(sealed.kind()),
            None => None,
        }
    }

    fn read(&mut self, _alloc: Global, name: Name) -> Result<Option<Sealed>, SourceFault> {
        self.reads = self.reads.saturating_add(1);
        if self.reads == self.fails_at {
            if self.failures < u64::MAX {
                self.failures += 1;
            }
            return Err(SourceFault::Store);
        }
        if self.lost == Some(name) {
            return Err(SourceFault::Damaged);
        }
        let Some(sealed) = self.find(name) else {
            return Ok(None);
        };
        // `put` keeps each object under its own name, but no clause says so.
        if sealed.name() != name {
            return Err(SourceFault::Damaged);
        }
        match sealed.clone() {
            Ok(copy) => Ok(Some(copy)),
            Err(_) => Err(SourceFault::Memory),
        }
    }
}

impl Sides for Kept {
    fn is_within(&self, limit: u64) -> bool {
        let mut left = limit;
        for sealed in self.objects.values() {
            let size = sealed.bytes().len() as u64 + 64;
            if size > left {
                return false;
            }
            left -= size;
        }
        true
    }
}
