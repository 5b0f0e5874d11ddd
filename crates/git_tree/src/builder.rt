ghost use Rattle.std.specs.Prelude.{◌≡◌, ◌∷◌, [], ◌++◌, OnOk, OnErr, IfErr, IfOk, length, take};
ghost use Rattle.git_name.specs.Name.{IsName};
ghost use Rattle.git_tree.specs.Building.{IsBuilt};
ghost use Rattle.git_tree.specs.Entry.{entry_with, spelled};
ghost use Rattle.git_tree.specs.Pushing.{IsPushFault, IsCause};
ghost use Rattle.git_tree.specs.Row.{entries_in};
ghost use Rattle.git_tree.specs.Tracks.{MayFollow, FollowsLast, reached_at};
ghost use Rattle.git_tree.specs.Tree.{IsTree};

use crate::entry::TreeEntry;
use crate::fault::TreeFault;
use crate::file_name::is_file_name;
use crate::fronts::{Fronts, MANY};
use crate::mode::Mode;
use crate::place::{Last, place};
use git_name::Name;
use memchr::memchr;
use std::alloc::{AllocError, Global};
use std::marker::Model;
use thiserror::Error;

/// Why an entry was not appended.
#[derive(Clone, Copy, Debug, PartialEq, Eq, Error)]
pub enum PushError {
    /// The entry cannot come after the others: a fault of name, of a repeated file name or of order.
    #[error(transparent)]
    Fault(TreeFault),
    /// Memory ran out.
    #[error("memory ran out")]
    Memory,
}

/// A tree built entry by entry, in the order of its keys. Contracts see the list of the entries appended.
#[derive(Debug, Drop)]
pub struct TreeBuilder {
    bytes: Vec<u8>,
    // Where the last file name begins in the bytes, and how long it is.
    start: usize,
    len: usize,
    is_tree: bool,
    fronts: Fronts<MANY>,
}

impl Model for TreeBuilder {
    ghost use Rattle.std.specs.Prelude.{List};
    ghost use Rattle.git_tree.specs.Building.{IsBuilt};
    ghost use Rattle.git_tree.specs.Entry.{Entry};
    ghost use Rattle.git_tree.specs.Row.{entries_in};

    ghost Value = { List Entry };

    ghost view = { λ b. entries_in b.bytes.items };

    ghost invariant = { λ b. IsBuilt b.bytes.items b.start b.len b.is_tree b.fronts };
}

// Appends the bytes of an entry. An `Err` may leave some of them.
fn put_some(bytes: &mut Vec<u8>, mode: Mode, file_name: &[u8], name: Name) -> Result<(), AllocError>
    ensures ok { OnOk result (bytes.new.items ≡ bytes.old.items ++ spelled (entry_with mode file_name.now name)) }
    ensures kept { take (length bytes.old.items) bytes.new.items ≡ bytes.old.items }
{
    bytes.extend_from_slice(mode.digits())?;
    bytes.push(b' ')?;
    bytes.extend_from_slice(file_name)?;
    bytes.push(0)?;
    bytes.extend_from_slice(name.as_bytes().as_slice())?;
    Ok(())
}

// Appends all bytes of an entry, or none.
fn put(bytes: &mut Vec<u8>, mode: Mode, file_name: &[u8], name: Name) -> Result<(), AllocError>
    ensures ok { OnOk result (bytes.new.items ≡ bytes.old.items ++ spelled (entry_with mode file_name.now name)) }
    ensures err { OnErr result (bytes.new.items ≡ bytes.old.items) }
{
    let old_len = bytes.len();
    let result = put_some(bytes, mode, file_name, name);
    if result.is_err() {
        bytes.truncate(old_len);
    }
    result
}

// Judges whether an entry may come after those in `bytes`, whose last file name begins at `start` and has
// `len` bytes. Returns how many bytes the two file names share at the start.
fn judge(
    bytes: &[u8],
    start: usize,
    len: usize,
    is_tree: bool,
    fronts: &Fronts<MANY>,
    mode: Mode,
    file_name: &[u8],
    name: Name,
) -> Result<usize, TreeFault>
    requires built { IsBuilt bytes.now start len is_tree fronts.now }
    requires name { IsName name }
    ensures follows { IfOk result (λ _. MayFollow (entries_in bytes.now) (entry_with mode file_name.now name)) }
    ensures steps { IfOk result (λ shared.
        FollowsLast (reached_at bytes.now start len is_tree fronts.now) (entry_with mode file_name.now name) shared) }
    ensures fault { IfErr result (λ fault. IsPushFault fault (entries_in bytes.now) (entry_with mode file_name.now name)) }
{
    if memchr(0, file_name).is_some() || !is_file_name(file_name) {
        return Err(TreeFault::Name);
    }
    let (_, rest) = bytes.split_at(start);
    let (last, _) = rest.split_at(len);
    let last = Last {
        file_name: last,
        is_tree,
    };
    let entry = TreeEntry {
        mode,
        file_name,
        name,
    };
    place(last, fronts, bytes, entry)
}

impl TreeBuilder {
    /// A tree without entries.
    pub fn new(alloc: Global) -> TreeBuilder
        ensures { result ≡ [] }
    {
        TreeBuilder {
            bytes: Vec::new(alloc),
            start: 0,
            len: 0,
            is_tree: false,
            fronts: Fronts::new(),
        }
    }

    /// Appends an entry. After an `Err` more entries may be appended.
    pub fn push(&mut self, mode: Mode, file_name: &[u8], name: Name) -> Result<(), PushError>
        ensures ok { OnOk result (self.new ≡ self.old ++ entry_with mode file_name.now name ∷ []) }
        ensures err { OnErr result (self.new ≡ self.old) }
        ensures cause { IfErr result (λ error. IsCause error self.old (entry_with mode file_name.now name)) }
    {
        let bytes = self.bytes.as_slice();
        let _name = name.as_bytes();
        let (start, len, last_is_tree) = (self.start, self.len, self.is_tree);
        let shared = match judge(
            bytes,
            start,
            len,
            last_is_tree,
            &self.fronts,
            mode,
            file_name,
            name,
        ) {
            Ok(shared) => shared,
            Err(fault) => return Err(PushError::Fault(fault)),
        };
        if put(&mut self.bytes, mode, file_name, name).is_err() {
            return Err(PushError::Memory);
        }
        let is_tree = mode.is_tree();
        self.start = self.bytes.len() - 33 - file_name.len();
        self.len = file_name.len();
        self.is_tree = is_tree;
        self.fronts.advance(shared, file_name.len(), is_tree);
        Ok(())
    }

    /// Returns the bytes of the tree: the one spelling of its entries. It allocates nothing.
    pub fn finish(self) -> Vec<u8>
        ensures { IsTree self result.items }
    {
        let TreeBuilder { bytes, .. } = self;
        bytes
    }
}
