ghost use Rattle.std.specs.Prelude.{◌≡◌, true, IfOk};
ghost use Rattle.shared_map.specs.Chunks.{is_before};

use git_name::Name;
use std::alloc::{AllocError, Global};
use std::marker::Model;
use std::rc::RcSlice;

// A key, whose bytes its copies share, and the name of an object.
#[derive(Drop)]
pub(crate) struct Entry {
    key: RcSlice<u8>,
    value: Name,
}

impl Model for Entry {
    ghost use Rattle.std.specs.Prelude.{List, ℕ};
    ghost use Rattle.std.specs.Rc.{rc_slice_items};

    ghost Value = { List ℕ × List ℕ };

    ghost view = { λ a. (rc_slice_items a.key, a.value) };
}

impl Entry {
    pub(crate) fn new(alloc: Global, key: &[u8], value: Name) -> Result<Entry, AllocError>
        ensures { IfOk result (λ entry. entry ≡ (key.now, value)) }
    {
        let key = RcSlice::from_slice(alloc, key)?;
        Ok(Entry { key, value })
    }

    pub(crate) fn key(&self) -> &[u8]
        ensures { result.now ≡ self.now.0 }
    {
        self.key.as_slice()
    }

    pub(crate) fn value(&self) -> &Name
        ensures { result.now ≡ self.now.1 }
    {
        &self.value
    }

    // A copy of the entry, which shares the bytes of the key.
    pub(crate) fn share(&self) -> Result<Entry, AllocError>
        ensures { IfOk result (λ entry. entry ≡ self.now) }
    {
        let key = self.key.clone()?;
        Ok(Entry {
            key,
            value: self.value,
        })
    }

    // Whether the key comes before another one.
    pub(crate) fn is_before(&self, key: &[u8]) -> bool
        ensures { result ≡ is_before key.now self.now }
    {
        self.key().cmp(key).is_lt()
    }

    // Whether the entries are equal.
    pub(crate) fn is_same(&self, other: &Entry) -> bool
        ensures { result ≡ true → self.now ≡ other.now }
    {
        if self.value != other.value {
            return false;
        }
        self.key() == other.key()
    }
}
