ghost use Rattle.std.specs.Prelude.{◌≡◌, Some, IfSome, slice_get};
ghost use Rattle.std.specs.Bool.{OnTrue};
ghost use Rattle.std.specs.HashSet.{contains};
ghost use Rattle.std.specs.Option.{option_copied};
ghost use Rattle.indexmap.specs.IndexMap.{get};
ghost use Rattle.indexmap.specs.IndexSet.{index_of};
ghost use Rattle.git_name.specs.Same.{same_name};

use crate::map_hashing::Hashing;
use crate::name::Name;
use indexmap::{IndexMap, IndexSet};
use std::array;
use std::cell::Cell;

// How many places before and after the last one are tried.
const REACH: usize = 8;

// If `far` is above this, only the last place itself is tried.
const PATIENCE: usize = 4;

// The largest value of `far`, so that a few names found near bring it down again.
const COUNTED: usize = 8;

// How many places of hashed names are remembered.
const GUESSES: usize = 1024;

/// The two places of a table at which names were found last. Objects that were added together are close
/// together, so a walk along their links finds most of them near one of the two places and need not
/// hash their names: a hash leads to a random place, which is seldom in a processor's cache. It also
/// remembers places of names that had to be hashed, such as those of objects that stay from commit to
/// commit and that many trees link to.
#[derive(Debug, Drop)]
pub struct Nearby {
    last: Cell<usize>,
    other: Cell<usize>,
    // How much more often names were lately found far from these places than near.
    far: Cell<usize>,
    // By the first 10 bits of a name, where a hashed name with these bits was found last.
    guesses: [Cell<u32>; GUESSES],
}

// Whether the name is at this place.
fn stands_at(names: &[Name], at: usize, name: Name) -> bool
    ensures { OnTrue result (slice_get names.now at ≡ Some name) }
{
    match names.get(at) {
        Some(found) => *found == name,
        None => false,
    }
}

// The place of the name, if it is `step` places before or after `place`.
fn place_beside(names: &[Name], place: usize, step: usize, name: Name) -> Option<usize>
    ensures { IfSome result (λ at. slice_get names.now at ≡ Some name) }
{
    let before = place.wrapping_sub(step);
    if stands_at(names, before, name) {
        return Some(before);
    }
    let behind = place.wrapping_add(step);
    if stands_at(names, behind, name) {
        return Some(behind);
    }
    None
}

// The place of the name, if it is near `last` or `other`. Tries nearer places first, those of both by turns: a walk
// that goes back and forth between two places would otherwise try all places near the wrong one each time.
fn place_near(names: &[Name], last: usize, other: usize, name: Name) -> Option<usize>
    ensures { IfSome result (λ at. slice_get names.now at ≡ Some name) }
{
    for step in 0..REACH {
        if let Some(at) = place_beside(names, other, step, name) {
            return Some(at);
        }
        if let Some(at) = place_beside(names, last, step + 1, name) {
            return Some(at);
        }
    }
    None
}

// The index of the guess for names with the first bits of this one.
fn guess_of(name: Name) -> usize {
    let bytes = name.as_bytes();
    ((bytes[0] as usize) << 2) | ((bytes[1] >> 6) as usize)
}

// Whether one place is near the other.
fn is_near(place: usize, other: usize) -> bool {
    place.abs_diff(other) <= REACH
}

impl Nearby {
    /// A finder at the beginning of a table.
    pub fn new() -> Nearby {
        Nearby {
            last: Cell::new(0),
            other: Cell::new(0),
            far: Cell::new(0),
            guesses: array::from_fn(|_| Cell::new(0)),
        }
    }

    // Counts whether a name was found near one of the last places.
    fn count(&self, is_near: bool) {
        let far = self.far.get();
        if is_near {
            self.far.set(far.saturating_sub(1));
        } else {
            self.far.set(far.saturating_add(1).min(COUNTED));
        }
    }

    // Notes a place that was found far from the last ones, or near them by chance.
    fn note(&self, place: usize) {
        self.count(is_near(place, self.last.get()) || is_near(place, self.other.get()));
        self.other.set(self.last.replace(place));
    }

    // Notes the place of a name that was found by its hash.
    fn learn(&self, name: Name, place: usize) {
        if let (Some(guess), Ok(place)) = (self.guesses.get(guess_of(name)), u32::try_from(place)) {
            guess.set(place);
        }
        self.note(place);
    }

    // The place of the name, if it is near one of the last places.
    fn find_near(&self, names: &[Name], last: usize, name: Name) -> Option<usize>
        ensures { IfSome result (λ at. slice_get names.now at ≡ Some name) }
    {
        if self.far.get() > PATIENCE {
            return None;
        }
        let place = place_near(names, last, self.other.get(), name)?;
        if !is_near(place, last) {
            self.other.set(last);
        }
        self.last.set(place);
        self.count(true);
        Some(place)
    }

    // The place of the name, if it is where the last hashed name with the same first bits was.
    fn find_again(&self, names: &[Name], name: Name) -> Option<usize>
        ensures { IfSome result (λ at. slice_get names.now at ≡ Some name) }
    {
        let place = self.guesses.get(guess_of(name))?.get() as usize;
        if !stands_at(names, place, name) {
            return None;
        }
        self.note(place);
        Some(place)
    }

    // The place of the name, if it is found without its hash.
    fn find(&self, names: &[Name], name: Name) -> Option<usize>
        ensures { IfSome result (λ at. slice_get names.now at ≡ Some name) }
    {
        let last = self.last.get();
        if stands_at(names, last, name) {
            return Some(last);
        }
        if let Some(place) = self.find_near(names, last, name) {
            return Some(place);
        }
        self.find_again(names, name)
    }

    /// The place of a name in a set. Searches near the last places first, whatever table they belong to.
    pub fn place(&self, names: &IndexSet<Name, Hashing>, name: Name) -> Option<usize>
        ensures { result ≡ index_of same_name names.now name }
    {
        if let Some(place) = self.find(names.as_slice(), name) {
            return Some(place);
        }
        let Some(place) = names.get_index_of(&name) else {
            self.count(false);
            return None;
        };
        self.learn(name, place);
        Some(place)
    }

    /// Whether a set has a name. Searches near the last places first, whatever table they belong to.
    pub fn holds(&self, names: &IndexSet<Name, Hashing>, name: Name) -> bool
        ensures { result ≡ contains same_name names.now name }
    {
        self.place(names, name).is_some()
    }

    /// The value of a name in a map. Searches near the last places first, whatever table they belong to.
    pub fn get<'a, V>(&self, entries: &'a IndexMap<Name, V, Hashing>, name: Name) -> Option<&'a V>
        ensures { option_copied result ≡ get same_name entries.now name }
    {
        if let Some(place) = self.find(entries.keys().as_slice(), name) {
            if let Some((_, value)) = entries.get_index(place) {
                return Some(value);
            }
        }
        let Some((place, _, value)) = entries.get_full(&name) else {
            self.count(false);
            return None;
        };
        self.learn(name, place);
        Some(value)
    }
}
