ghost use Rattle.std.specs.Prelude.{◌≡◌};
ghost use Rattle.std.specs.BTreeSet.{contains};
ghost use Rattle.git_name.specs.Name.{name_cmp};
ghost use Rattle.fork_sound.specs.Reading.{is_unmet_read, is_unsound_read};

use crate::reading::Reading;
use crate::readings::Readings;
use git_name::Name;
use git_object::Link;
use std::collections::BTreeSet;

// Whether the object breaks the grammar of its kind, or one of its links is unresolved.
pub(crate) fn is_unsound(readings: &Readings, seen: &BTreeSet<Name>, reading: &Reading) -> bool
    ensures { result ≡ is_unsound_read readings.now (contains name_cmp seen.now) reading.now }
{
    if reading.is_wrong() {
        return true;
    }
    for link in reading.links() {
        if is_unmet(readings, seen, *link) {
            return true;
        }
    }
    false
}

// Whether the link's name is not seen, or its object has another kind.
fn is_unmet(readings: &Readings, seen: &BTreeSet<Name>, link: Link) -> bool
    ensures { result ≡ is_unmet_read readings.now (contains name_cmp seen.now) link }
{
    if !seen.contains(&link.name) {
        return true;
    }
    match readings.get(link.name) {
        Some(reading) => link.kind != reading.kind(),
        None => false,
    }
}
