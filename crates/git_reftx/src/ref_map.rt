ghost use Rattle.std.specs.Prelude.{◌≡◌, ◌≤◌, ◌+◌, ◌++◌, ◌↔◌, All, IsTrue, OnOk, OnErr, IfOk, codes, length, take};
ghost use Rattle.std.specs.FinMap as map;
ghost use Rattle.std.specs.List.{list_any};
ghost use Rattle.std.specs.List.Sorted.{IsStrictlySortedBy};
ghost use Rattle.git_name.specs.Name.{name_cmp};
ghost use Rattle.git_refname.specs.Rule.{begins};
ghost use Rattle.git_refname.specs.declared.name.TheConstants.{MAX_REF_NAME};
ghost use Rattle.git_reftx.specs.Fronts.{Before};
ghost use Rattle.git_reftx.specs.Sound.{AreRefNames};
ghost use Rattle.git_reftx.specs.Transaction.{stands_above};

use git_name::Name;
use git_refname::{MAX_REF_NAME, RefName};
use shared_map::{Iter, SharedMap};
use std::alloc::{AllocError, Global};
use std::marker::Model;

// Names of references, and the object at which each points. Contracts say of the names only that each is valid.
#[derive(Drop)]
pub(crate) struct RefMap {
    references: SharedMap,
}

impl Model for RefMap {
    ghost use Rattle.std.specs.FinMap as map;
    ghost use Rattle.std.specs.Coded.{coded_list, coded_ℕ};
    ghost use Rattle.git_reftx.specs.Transaction.{References};
    ghost use Rattle.git_reftx.specs.Sound.{AreRefNames};

    ghost Value = { References };

    ghost coded = { map.code (coded_list coded_ℕ) (coded_list coded_ℕ) };

    ghost view = { λ a. a.references };

    ghost invariant = { λ a. AreRefNames a.references };
}

impl RefMap {
    // No references.
    pub(crate) fn new(alloc: Global) -> RefMap
        ensures { result ≡ map.empty }
    {
        RefMap {
            references: SharedMap::new(alloc),
        }
    }

    // The number of references.
    pub(crate) fn len(&self) -> usize
        ensures len { result ≡ map.len self.now }
        ensures named { AreRefNames self.now }
    {
        self.references.len()
    }

    // The object at which the reference points.
    pub(crate) fn get(&self, name: &RefName) -> Option<Name>
        ensures { result ≡ map.get self.now name.now }
    {
        self.references.get(name.as_bytes())
    }

    // Whether there is a reference of this name.
    pub(crate) fn contains(&self, name: &[u8]) -> bool
        ensures { result ≡ map.contains_key self.now name.now }
    {
        self.references.get(name).is_some()
    }

    // The references in ascending order.
    pub(crate) fn iter(&self) -> Iter<'_>
        ensures entries { result ≡ map.entries self.now }
        ensures ordered { IsStrictlySortedBy name_cmp (map.keys self.now) }
    {
        self.references.iter()
    }

    // Whether the name comes after all others.
    pub(crate) fn is_behind(&self, name: &RefName) -> bool
        ensures { IsTrue result ↔ All (λ other. Before other name.now) (map.keys self.now) }
    {
        self.references.first_from(name.as_bytes()).is_none()
    }

    // Whether the name is above one of the references. Such a reference is then the first from the name and a `/` on.
    pub(crate) fn has_below(&self, name: &RefName) -> bool
        ensures { result ≡ list_any (λ lower. stands_above name.now lower) (map.keys self.now) }
    {
        let text = name.as_bytes();
        let mut front = [0; MAX_REF_NAME + 1];
        write_front(&mut front, text);
        begins_one(&self.references, &front[..text.len() + 1])
    }

    // Points a reference at an object.
    pub(crate) fn insert(&mut self, name: &RefName, target: Name) -> Result<(), AllocError>
        ensures ok { OnOk result (self.new ≡ map.insert self.old name.now target) }
        ensures err { OnErr result (self.new ≡ self.old) }
    {
        self.references.insert(name.as_bytes(), target)
    }

    // Removes a reference, if it exists.
    pub(crate) fn remove(&mut self, name: &RefName) -> Result<(), AllocError>
        ensures ok { OnOk result (self.new ≡ map.remove self.old name.now) }
        ensures err { OnErr result (self.new ≡ self.old) }
    {
        self.references.remove(name.as_bytes())
    }

    // A copy of the references. The two share memory until one of them changes.
    pub(crate) fn copy(&self) -> Result<RefMap, AllocError>
        ensures { IfOk result (λ copied. copied ≡ self.now) }
    {
        let references = self.references.copy()?;
        Ok(RefMap { references })
    }

    // Shares with another map what both have at the same place, so that it is in memory once.
    pub(crate) fn share_with(&mut self, other: &RefMap) -> Result<(), AllocError>
        ensures { self.new ≡ self.old }
    {
        self.references.share_with(&other.references)
    }
}

// Whether one of the texts begins with these bytes.
fn begins_one(references: &SharedMap, front: &[u8]) -> bool
    ensures { result ≡ list_any (λ text. begins front.now text) (map.keys references.now) }
{
    // Called for its clause that the texts are in order.
    let _texts = references.iter();
    let Some(first) = references.first_from(front) else {
        return false;
    };
    first.starts_with(front)
}

// Writes a name and a `/`.
fn write_front(out: &mut [u8; MAX_REF_NAME + 1], name: &[u8])
    requires { length name.now ≤ MAX_REF_NAME }
    ensures { take (length name.now + 1) out.new ≡ name.now ++ codes "/" }
{
    out[..name.len()].copy_from_slice(name);
    out[name.len()] = b'/';
}
