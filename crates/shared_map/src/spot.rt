ghost use Rattle.std.specs.Prelude.{◌≡◌};
ghost use Rattle.shared_map.specs.Chunks.{Rises};
ghost use Rattle.shared_map.specs.Spot.{IsSpot};

use crate::entry::Entry;
use crate::search::count_before;
use git_name::Name;

// Where a key is among entries: how many come before it, how many do not come after it, and its value, if it has one.
#[derive(Drop)]
pub(crate) struct Spot {
    pub(crate) at: usize,
    pub(crate) past: usize,
    pub(crate) value: Option<Name>,
}

// Where a key is among entries that are in order.
pub(crate) fn spot_of(entries: &[Entry], key: &[u8]) -> Spot
    requires { Rises entries.now }
    ensures { IsSpot key.now entries.now result }
{
    let at = count_before(entries, key);
    if at >= entries.len() {
        return Spot {
            at,
            past: at,
            value: None,
        };
    }
    let entry = &entries[at];
    if entry.key() != key {
        return Spot {
            at,
            past: at,
            value: None,
        };
    }
    Spot {
        at,
        past: at + 1,
        value: Some(*entry.value()),
    }
}
