ghost use Rattle.std.specs.Prelude.{◌≡◌, ◌≤◌, ◌+◌, ◌<◌, true, [], length, take, drop, slice_index_or};
ghost use Rattle.shared_map.specs.Chunks.{AreBefore, AreBehind, AreFull, AreNotBefore, IsReached, Rises, joined};

use crate::chunk::Chunk;
use crate::entry::Entry;

// Whether there are keys and all come before this one. The entries are in order. Names often come in order
// too, so this is asked first.
fn are_before(entries: &[Entry], key: &[u8]) -> bool
    requires { Rises entries.now }
    ensures { result ≡ true → AreBefore key.now entries.now }
{
    if entries.is_empty() {
        return false;
    }
    entries[entries.len() - 1].is_before(key)
}

// How many entries have keys before this one, by binary search. They are in order.
pub(crate) fn count_before(entries: &[Entry], key: &[u8]) -> usize
    requires { Rises entries.now }
    ensures within { result ≤ length entries.now }
    ensures before { AreBefore key.now (take result entries.now) }
    ensures behind { AreNotBefore key.now (drop result entries.now) }
{
    if are_before(entries, key) {
        return entries.len();
    }
    let mut low = 0;
    let mut high = entries.len();
    'halves: while low < high {
        let middle = low + (high - low) / 2;
        if entries[middle].is_before(key) {
            low = middle + 1;
            continue;
        }
        high = middle;
    }
    low
}

// The place of the only chunk that can have the key: the first that does not end before it, or the last.
pub(crate) fn chunk_for(chunks: &[Chunk], key: &[u8]) -> usize
    requires order { Rises (joined chunks.now) }
    requires full { AreFull chunks.now }
    ensures within { result ≤ length chunks.now }
    ensures before { AreBefore key.now (joined (take result chunks.now)) }
    ensures behind { AreBehind key.now (joined (drop (result + 1) chunks.now)) }
    ensures last { AreBefore key.now (slice_index_or chunks.now result []) → joined (drop (result + 1) chunks.now) ≡ [] }
{
    let at = count_chunks_before(chunks, key);
    if at < chunks.len() {
        return at;
    }
    if at == 0 {
        return at;
    }
    at - 1
}

// Whether there are chunks and all end before a key.
pub(crate) fn are_chunks_before(chunks: &[Chunk], key: &[u8]) -> bool
    requires order { Rises (joined chunks.now) }
    requires full { AreFull chunks.now }
    ensures { result ≡ true → AreBefore key.now (joined chunks.now) }
{
    if chunks.is_empty() {
        return false;
    }
    chunks[chunks.len() - 1].is_before(key)
}

// How many chunks end before a key, by binary search.
fn count_chunks_before(chunks: &[Chunk], key: &[u8]) -> usize
    requires order { Rises (joined chunks.now) }
    requires full { AreFull chunks.now }
    ensures within { result ≤ length chunks.now }
    ensures before { AreBefore key.now (joined (take result chunks.now)) }
    ensures reached { IsReached key.now (drop result chunks.now) }
{
    if are_chunks_before(chunks, key) {
        return chunks.len();
    }
    let mut low = 0;
    let mut high = chunks.len();
    'halves: while low < high {
        let middle = low + (high - low) / 2;
        if chunks[middle].is_before(key) {
            low = middle + 1;
            continue;
        }
        high = middle;
    }
    low
}
