ghost use Rattle.std.specs.Prelude.{◌≡◌, IfOk, OnOk, OnErr, Some};
ghost use Rattle.std.specs.BTreeMap.{IsUnchanged, Updates};
ghost use Rattle.std.specs.FinMap as map;
ghost use Rattle.std.specs.List.Sorted.{IsStrictlySortedBy};
ghost use Rattle.std.specs.Map.{keys_of};
ghost use Rattle.git_name.specs.Name.{name_cmp};
ghost use Rattle.fork_request.specs.Harms.{harm_lines};

use fork_request::Harm;
use git_name::Name;
use std::alloc::{AllocError, Global};
use std::collections::BTreeMap;
use std::marker::Model;

/// What is wrong with the files of objects that tenants hold, in ascending order of their names.
#[derive(Drop)]
pub struct Harms {
    found: BTreeMap<Name, Harm>,
}

impl Model for Harms {
    ghost use Rattle.std.specs.FinMap as finite;
    ghost use Rattle.fork_ledger.specs.Harms.{HarmMap, harms_code};

    ghost Value = { HarmMap };

    ghost coded = { harms_code };

    ghost view = { λ a. finite.from_entries a.found.entries };
}

impl Harms {
    // Nothing is wrong.
    pub(crate) fn new(alloc: Global) -> Harms
        ensures { result ≡ map.empty }
    {
        Harms {
            found: BTreeMap::new(alloc),
        }
    }

    // Adds what is wrong with the file of a name.
    pub(crate) fn note(&mut self, name: Name, harm: Harm) -> Result<(), AllocError>
        ensures ok { OnOk result (self.new ≡ map.insert self.old name harm) }
        ensures err { OnErr result (self.new ≡ self.old) }
    {
        put(&mut self.found, name, harm)
    }

    /// The report, one line for each name.
    pub fn lines(&self, alloc: Global) -> Result<Vec<u8>, AllocError>
        ensures { IfOk result (λ text. text.items ≡ harm_lines (map.entries self.now)) }
    {
        lines_of(alloc, &self.found)
    }
}

fn put(found: &mut BTreeMap<Name, Harm>, name: Name, harm: Harm) -> Result<(), AllocError>
    ensures ok { OnOk result (Updates name_cmp found.old found.new name (Some harm)) }
    ensures err { OnErr result (IsUnchanged found.old found.new) }
{
    found.insert(name, harm)?;
    Ok(())
}

fn lines_of(alloc: Global, found: &BTreeMap<Name, Harm>) -> Result<Vec<u8>, AllocError>
    ensures text { IfOk result (λ text. text.items ≡ harm_lines found.now.entries) }
    ensures ordered { IsStrictlySortedBy name_cmp (keys_of found.now.entries) }
{
    let _count = found.len();
    let mut text = Vec::new(alloc);
    for (name, harm) in found.iter() {
        harm.write(*name, &mut text)?;
    }
    Ok(text)
}
