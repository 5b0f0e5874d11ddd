ghost use Rattle.std.specs.Prelude.{◌≡◌, ◌≢◌, MatchBool};
ghost use Rattle.std.specs.List.{AllByRecursion, Any};
ghost use Rattle.git_tree.specs.Row.{IsRow, entries_in};

use crate::entry::TreeEntry;
use crate::reading::take_entry;
use std::marker::Model;

/// The entries of a tree, in order, each borrowed from the bytes on demand. Contracts see the list of those
/// still to come.
#[derive(Debug, Drop)]
pub struct Entries<'a> {
    rest: &'a [u8],
}

impl<'a> Model for Entries<'a> {
    ghost use Rattle.std.specs.Prelude.{List};
    ghost use Rattle.git_tree.specs.Entry.{Entry};
    ghost use Rattle.git_tree.specs.Row.{IsRow, entries_in};

    ghost Value = { List Entry };

    ghost view = { λ s. entries_in s.rest.now };

    ghost invariant = { λ s. IsRow s.rest.now };
}

impl<'a> Entries<'a> {
    // The entries of bytes that are valid entries one after another.
    pub(crate) fn new(bytes: &'a [u8]) -> Entries<'a>
        requires { IsRow bytes.now }
        ensures { result ≡ entries_in bytes.now }
    {
        Entries { rest: bytes }
    }

    /// A copy of the iterator, which yields the same entries. It allocates nothing.
    pub fn copy(&self) -> Entries<'a>
        ensures { result ≡ self.now }
    {
        Entries { rest: self.rest }
    }
}

impl<'a> Iterator for Entries<'a> {
    ghost use Rattle.std.specs.Iterator.{YieldsFirstBy, item_count};
    ghost use Rattle.git_tree.specs.Entry.{plain_entry};

    type Item = TreeEntry<'a>;

    ghost next_gives = { YieldsFirstBy plain_entry (λ rest. rest) };

    ghost remaining = { item_count (λ rest. rest) };

    fn next(&mut self) -> Option<TreeEntry<'a>> {
        if self.rest.is_empty() {
            return None;
        }
        let Ok((entry, after)) = take_entry(self.rest) else {
            unreachable!();
        };
        self.rest = after;
        Some(entry)
    }
}

// Whether one of the entries in the bytes has the file name.
pub(crate) fn stands_among(bytes: &[u8], file_name: &[u8]) -> bool
    requires { IsRow bytes.now }
    ensures { MatchBool result
        (Any (λ e. e.file_name ≡ file_name.now) (entries_in bytes.now))
        (AllByRecursion (λ e. e.file_name ≢ file_name.now) (entries_in bytes.now)) }
{
    for entry in Entries::new(bytes) {
        if entry.file_name == file_name {
            return true;
        }
    }
    false
}
