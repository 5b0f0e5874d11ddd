ghost use Rattle.std.specs.Prelude.{◌≡◌};
ghost use Rattle.std.specs.BTreeSet.{contains};
ghost use Rattle.std.specs.List.{find};
ghost use Rattle.git_name.specs.Name.{name_cmp};
ghost use Rattle.fork_reach.specs.Source.{Objects};
ghost use Rattle.fork_sound.specs.Reading.{AreReadings, is_bad_read};
ghost use Rattle.fork_sound.specs.Sound.{is_bad};

use crate::links::is_unsound;
use crate::readings::Readings;
use git_name::Name;
use std::collections::BTreeSet;

/// The first of the seen names, ascending, whose object was not read or is unsound among those seen. It reads nothing.
pub fn first_bad(readings: &Readings, seen: &BTreeSet<Name>) -> Option<Name>
    ensures found { (objects : Objects) → AreReadings readings.now (contains name_cmp seen.now) objects → result ≡ find (is_bad objects (contains name_cmp seen.now)) seen.now.keys }
{
    first_bad_read(readings, seen)
}

// As `first_bad`, in terms of what was read.
fn first_bad_read(readings: &Readings, seen: &BTreeSet<Name>) -> Option<Name>
    ensures { result ≡ find (is_bad_read readings.now (contains name_cmp seen.now)) seen.now.keys }
{
    for name in seen {
        if is_bad(readings, seen, *name) {
            return Some(*name);
        }
    }
    None
}

// Whether the object of this name was not read, or is unsound.
fn is_bad(readings: &Readings, seen: &BTreeSet<Name>, name: Name) -> bool
    ensures { result ≡ is_bad_read readings.now (contains name_cmp seen.now) name }
{
    match readings.get(name) {
        Some(reading) => is_unsound(readings, seen, reading),
        None => true,
    }
}
