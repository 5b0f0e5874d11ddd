ghost use Rattle.std.specs.Prelude.{◌≡◌, ◌&&◌, ◌==◌, false, IfSome, IfNone};
ghost use Rattle.std.specs.FinMap as map;
ghost use Rattle.std.specs.List.{list_any};
ghost use Rattle.git_reftx.specs.Fronts.{IsFrontAbove};
ghost use Rattle.git_reftx.specs.Transaction.{stands_above};

use crate::ref_map::RefMap;
use git_refname::RefName;

// Whether one of the references is above the name. Looks up each prefix of it that ends before a `/`.
pub(crate) fn has_above(references: &RefMap, name: &RefName) -> bool
    ensures { result ≡ list_any (λ upper. stands_above upper name.now) (map.keys references.now) }
{
    front_above(references, name.as_bytes()).is_some()
}

// The shortest prefix of the name that is a reference above it.
pub(crate) fn front_above<'a>(references: &RefMap, name: &'a [u8]) -> Option<&'a [u8]>
    ensures found { IfSome result (λ upper. IsFrontAbove (map.keys references.now) name.now upper.now) }
    ensures none { IfNone result (list_any (λ upper. stands_above upper name.now) (map.keys references.now) ≡ false) }
{
    for (at, byte) in name.iter().enumerate() {
        if is_above(references, &name[..at], *byte) {
            return Some(&name[..at]);
        }
    }
    None
}

// Whether this prefix of a name is a reference, and a `/` comes next.
fn is_above(references: &RefMap, front: &[u8], next: u8) -> bool
    ensures { result ≡ ((next == 47) && map.contains_key references.now front.now) }
{
    if next != b'/' {
        return false;
    }
    references.contains(front)
}
