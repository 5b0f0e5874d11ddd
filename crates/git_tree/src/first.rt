ghost use Rattle.std.specs.Prelude.{◌≡◌, ◌<◌, ◌∷◌, [], IfSome, IfNone, length};
ghost use Rattle.git_tree.specs.Entry.{plain_entry};
ghost use Rattle.git_tree.specs.Row.{IsRow, entries_in};

use crate::entry::TreeEntry;
use crate::reading::take_entry;

/// Splits off the entry at the start of the bytes, for callers that follow entries before they check that the
/// bytes are a tree. It allocates nothing.
pub fn first_entry(bytes: &[u8]) -> Option<(TreeEntry<'_>, &[u8])>
    // If the bytes are valid entries one after another, it is the first, and the others follow.
    ensures first { IfSome result (λ p. IsRow bytes.now → entries_in bytes.now ≡ plain_entry p.0 ∷ entries_in p.1.now) }
    ensures row { IfSome result (λ p. IsRow bytes.now → IsRow p.1.now) }
    ensures shorter { IfSome result (λ p. length p.1.now < length bytes.now) }
    // Such bytes give none only at their end.
    ensures none { IfNone result (IsRow bytes.now → bytes.now ≡ []) }
{
    if bytes.is_empty() {
        return None;
    }
    match take_entry(bytes) {
        Ok((entry, behind)) => Some((entry, behind)),
        Err(_) => None,
    }
}
