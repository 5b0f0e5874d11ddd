ghost use Rattle.std.specs.Prelude.{◌≡◌, ◌<◌, ◌≤◌, ℕ, true, false, IsTrue, slice_index};

use std::fmt;
use std::marker::Model;

// How many lengths are kept. In a tree, this many file names, each beginning with the one before, take more
// than 8 MiB: n of them have at least n * (n + 1) / 2 bytes, and 40 more each.
pub(crate) const MANY: usize = 4096;

// The lengths, ascending, of the earlier files' names with which the last file name begins. At most `DEPTH`
// are kept. No other file name can come again in order, since the keys between begin with it.
#[derive(Drop)]
pub(crate) struct Fronts<const DEPTH: usize> {
    lengths: [u32; DEPTH],
    count: usize,
    is_full: bool,
}

impl<const DEPTH: usize> Model for Fronts<DEPTH> {
    ghost use Rattle.std.specs.Prelude.{◌≤◌};
    ghost use Rattle.git_tree.specs.Fronts.{FrontLengths, IsRising};

    ghost Value = { FrontLengths };

    ghost view = { λ a. record { lengths = a.lengths; count = a.count; is_full = a.is_full } };

    ghost invariant = { λ a. (a.count ≤ DEPTH) × IsRising a.lengths a.count };
}

impl<const DEPTH: usize> fmt::Debug for Fronts<DEPTH> {
    fn fmt<W: fmt::Write>(&self, f: &mut fmt::Formatter<W>) -> fmt::Result {
        f.debug_struct("Fronts")
            .field("count", &self.count)
            .field("is_full", &self.is_full)
            .finish()
    }
}

impl<const DEPTH: usize> Fronts<DEPTH> {
    ghost use Rattle.git_tree.specs.Known.{Knows};

    // No lengths.
    pub(crate) fn new() -> Fronts<DEPTH> {
        Fronts {
            lengths: [0; DEPTH],
            count: 0,
            is_full: false,
        }
    }

    // Whether an entry in order may have the name of an earlier file. Its file name has `len` bytes, and
    // shares the first `shared` with the last one. Only a tree can repeat a name in order.
    pub(crate) fn may_hold(&self, shared: usize, len: usize, is_tree: bool) -> bool
        ensures { is_tree ≡ true → shared ≡ len → Knows self.now len → IsTrue result }
    {
        if !is_tree || shared != len {
            return false;
        }
        let mut count = self.count;
        while count > 0 && self.lengths[count - 1] as usize > len {
            count -= 1;
        }
        self.is_full || count > 0 && self.lengths[count - 1] as usize == len
    }

    // Advances to a file name that shares its first `shared` bytes with the last one, and has `len` bytes.
    pub(crate) fn advance(&mut self, shared: usize, len: usize, is_tree: bool)
        requires grows { is_tree ≡ false → shared < len }
        ensures kept { (n : ℕ) → n ≤ shared → Knows self.old n → Knows self.new n }
        ensures added { is_tree ≡ false → Knows self.new len }
    {
        let mut count = self.count;
        while count > 0 && self.lengths[count - 1] as usize > shared {
            count -= 1;
        }
        if is_tree {
            self.count = count;
        } else if count < DEPTH && len <= u32::MAX as usize {
            self.lengths[count] = len as u32;
            self.count = count + 1;
        } else {
            self.count = count;
            self.is_full = true;
        }
    }
}
