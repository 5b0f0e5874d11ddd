use crate::chunk::Chunk;
use crate::entry::Entry;
use git_name::Name;
use std::marker::Model;

/// The keys of a map and the names of objects, in ascending order. Contracts see the list of those that are
/// left.
#[derive(Drop)]
pub struct Iter<'a> {
    entries: &'a [Entry],
    chunks: &'a [Chunk],
}

impl<'a> Model for Iter<'a> {
    ghost use Rattle.std.specs.Prelude.{◌++◌};
    ghost use Rattle.shared_map.specs.Chunks.{Entries, joined};

    ghost Value = { Entries };

    ghost view = { λ a. a.entries.now ++ joined a.chunks.now };
}

impl<'a> Iter<'a> {
    ghost use Rattle.std.specs.Prelude.{◌≡◌};
    ghost use Rattle.shared_map.specs.Chunks.{joined};

    // The entries of these chunks.
    pub(crate) fn new(chunks: &'a [Chunk]) -> Iter<'a>
        ensures { result ≡ joined chunks.now }
    {
        Iter {
            entries: &[],
            chunks,
        }
    }
}

impl<'a> Iterator for Iter<'a> {
    ghost use Rattle.std.specs.Iterator.{YieldsFirstBy, item_count};
    ghost use Rattle.shared_map.specs.Chunks.{lent};

    type Item = (&'a [u8], &'a Name);

    ghost next_gives = { YieldsFirstBy lent (λ rest. rest) };

    ghost remaining = { item_count (λ rest. rest) };

    fn next(&mut self) -> Option<(&'a [u8], &'a Name)> {
        'chunks: while self.entries.is_empty() {
            let Some((chunk, others)) = self.chunks.split_first() else {
                return None;
            };
            self.entries = chunk.entries();
            self.chunks = others;
        }
        let Some((entry, others)) = self.entries.split_first() else {
            return None;
        };
        self.entries = others;
        Some((entry.key(), entry.value()))
    }
}
