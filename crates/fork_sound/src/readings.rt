ghost use Rattle.std.specs.Prelude.{◌≡◌, Some, OnOk, OnErr};
ghost use Rattle.std.specs.Option.{option_copied};
ghost use Rattle.std.specs.BTreeMap.{IsUnchanged, Updates};
ghost use Rattle.std.specs.FinMap as map;
ghost use Rattle.git_name.specs.Name.{name_cmp};

use crate::reading::Reading;
use git_name::Name;
use std::alloc::{AllocError, Global};
use std::collections::BTreeMap;
use std::marker::Model;

/// What is known of objects that were read, under their names.
#[derive(Drop)]
pub struct Readings {
    readings: BTreeMap<Name, Reading>,
}

impl Model for Readings {
    ghost use Rattle.std.specs.FinMap as finite;
    ghost use Rattle.std.specs.Coded.{coded_list, coded_ℕ};
    ghost use Rattle.fork_sound.specs.contracts.reading.Reading as reading;
    ghost use Rattle.fork_sound.specs.Reading.{ReadingMap};

    ghost Value = { ReadingMap };

    ghost coded = { finite.code (coded_list coded_ℕ) reading.the_row.coded };

    ghost view = { λ a. finite.from_entries a.readings.entries };
}

impl Readings {
    /// Empty readings.
    pub fn new(alloc: Global) -> Readings
        ensures { result ≡ map.empty }
    {
        Readings {
            readings: BTreeMap::new(alloc),
        }
    }

    /// Keeps what is known of the object of this name.
    pub fn insert(&mut self, name: Name, reading: Reading) -> Result<(), AllocError>
        ensures ok { OnOk result (self.new ≡ map.insert self.old name reading) }
        ensures err { OnErr result (self.new ≡ self.old) }
    {
        put(&mut self.readings, name, reading)
    }

    /// Whether the object of this name was read.
    pub fn contains(&self, name: Name) -> bool
        ensures { result ≡ map.contains_key self.now name }
    {
        self.readings.contains_key(&name)
    }

    /// What is known of the object of this name.
    pub fn get(&self, name: Name) -> Option<&Reading>
        ensures { option_copied result ≡ map.get self.now name }
    {
        self.readings.get(&name)
    }
}

fn put(
    readings: &mut BTreeMap<Name, Reading>,
    name: Name,
    reading: Reading,
) -> Result<(), AllocError>
    ensures ok { OnOk result (Updates name_cmp readings.old readings.new name (Some reading)) }
    ensures err { OnErr result (IsUnchanged readings.old readings.new) }
{
    readings.insert(name, reading)?;
    Ok(())
}
