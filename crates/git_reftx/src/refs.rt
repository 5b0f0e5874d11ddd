ghost use Rattle.std.specs.Prelude.{◌≡◌, ◌==◌, ◌++◌, ◌∷◌, [], Ok, OnOk, OnErr, IfOk, IfErr};
ghost use Rattle.std.specs.FinMap as map;
ghost use Rattle.std.specs.List.Sorted.{IsStrictlySortedBy};
ghost use Rattle.git_name.specs.Name.{name_cmp};
ghost use Rattle.git_reftx.specs.Judging.{TellsTransacted};
ghost use Rattle.git_reftx.specs.Push.{TellsPush};
ghost use Rattle.git_reftx.specs.Sound.{AreSound};
ghost use Rattle.git_reftx.specs.Transaction.{transacted};

use crate::above::has_above;
use crate::command::Command;
use crate::fault::{ApplyError, PushRefError};
use crate::known::Known;
use crate::ref_map::RefMap;
use crate::transact::{MAX_REFERENCES, transact};
use git_name::Name;
use git_refname::RefName;
use shared_map::Iter;
use std::alloc::{AllocError, Global};
use std::marker::Model;

/// The references of a repository: at most 4,096 (own), none above another. Contracts see them as a map
/// from names of references to names of objects.
#[derive(Drop)]
pub struct Refs {
    map: RefMap,
}

impl Model for Refs {
    ghost use Rattle.std.specs.FinMap as finite;
    ghost use Rattle.std.specs.Coded.{coded_list, coded_ℕ};
    ghost use Rattle.git_reftx.specs.Sound.{AreSound};
    ghost use Rattle.git_reftx.specs.Transaction.{References};

    ghost Value = { References };

    ghost coded = { finite.code (coded_list coded_ℕ) (coded_list coded_ℕ) };

    ghost view = { λ a. a.map };

    ghost invariant = { λ a. AreSound a.map };
}

impl Refs {
    /// No references.
    pub fn new(alloc: Global) -> Refs
        ensures { result ≡ map.empty }
    {
        Refs {
            map: RefMap::new(alloc),
        }
    }

    /// The number of references.
    pub fn len(&self) -> usize
        ensures len { result ≡ map.len self.now }
        ensures sound { AreSound self.now }
    {
        self.map.len()
    }

    /// Whether there are no references.
    pub fn is_empty(&self) -> bool
        ensures { result ≡ (map.len self.now == 0) }
    {
        self.map.len() == 0
    }

    /// The object at which the reference points, if it exists.
    pub fn get(&self, name: &RefName) -> Option<Name>
        ensures { result ≡ map.get self.now name.now }
    {
        self.map.get(name)
    }

    /// The references, by name, in ascending order.
    pub fn iter(&self) -> Iter<'_>
        ensures entries { result ≡ map.entries self.now }
        ensures ordered { IsStrictlySortedBy name_cmp (map.keys self.now) }
    {
        self.map.iter()
    }

    /// A copy of the references. The two share memory until one of them changes.
    pub fn copy(&self) -> Result<Refs, AllocError>
        ensures { IfOk result (λ copied. copied ≡ self.now) }
    {
        let map = self.map.copy()?;
        Ok(Refs { map })
    }

    /// Shares with other references what both have at the same place, so that it is in memory once. An `Err`
    /// leaves the references as they were. Its time is linear in these references.
    pub fn share_with(&mut self, other: &Refs) -> Result<(), AllocError>
        ensures { self.new ≡ self.old }
    {
        self.map.share_with(&other.map)
    }

    /// Appends a reference. Its name must come after all others, and none of them may be above it. An `Err`
    /// leaves the references as they were. It looks up the map once for each `/` in the name.
    pub fn push(&mut self, name: RefName, target: Name) -> Result<(), PushRefError>
        ensures ok { OnOk result (map.entries self.new ≡ map.entries self.old ++ (name, target) ∷ []) }
        ensures err { OnErr result (self.new ≡ self.old) }
        ensures cause { IfErr result (TellsPush self.old name) }
    {
        let _name = name.as_bytes();
        if !self.map.is_behind(&name) {
            return Err(PushRefError::OutOfOrder);
        }
        if has_above(&self.map, &name) {
            return Err(PushRefError::RefConflict);
        }
        if self.map.len() >= MAX_REFERENCES {
            return Err(PushRefError::TooMany);
        }
        let Ok(()) = self.map.insert(&name, target) else {
            return Err(PushRefError::Memory);
        };
        Ok(())
    }

    /// Carries out all commands of a transaction, or none: an `Err` leaves the references as they were. A
    /// refusal is the first that applies.
    pub fn apply<K: Known>(
        &mut self,
        alloc: Global,
        commands: &[Command],
        known: &K,
    ) -> Result<(), ApplyError>
        ensures ok { OnOk result (transacted self.old commands.now (K.kinds known.now) ≡ Ok self.new) }
        ensures err { OnErr result (self.new ≡ self.old) }
        ensures cause { IfErr result (TellsTransacted (transacted self.old commands.now (K.kinds known.now))) }
    {
        match transact(alloc, &self.map, commands, known) {
            Ok(map) => {
                self.map = map;
                Ok(())
            }
            Err(error) => Err(error),
        }
    }

    /// The references after all commands of a transaction, if it is not refused. A refusal is the first
    /// that applies.
    pub fn transacted<K: Known>(
        &self,
        alloc: Global,
        commands: &[Command],
        known: &K,
    ) -> Result<Refs, ApplyError>
        ensures found { IfOk result (λ new. transacted self.now commands.now (K.kinds known.now) ≡ Ok new) }
        ensures exact { IfErr result (TellsTransacted (transacted self.now commands.now (K.kinds known.now))) }
    {
        let map = transact(alloc, &self.map, commands, known)?;
        Ok(Refs { map })
    }
}
