ghost use Rattle.std.specs.Prelude.{◌≡◌, Some, OnErr, OnOk};
ghost use Rattle.std.specs.BTreeMap.{IsUnchanged, Updates};
ghost use Rattle.std.specs.FinMap as map;
ghost use Rattle.git_name.specs.Name.{name_cmp};
ghost use Rattle.fork_reach.specs.Source.{Objects};
ghost use Rattle.fork_query.specs.Followed.{AreEnds};

use git_name::Name;
use std::alloc::{AllocError, Global};
use std::collections::BTreeMap;
use std::marker::Model;

// The tags that a query has followed, and the name that each peels to, or `None` if its chain is a cycle. Contracts
// see a map from names to these.
#[derive(Drop)]
pub(crate) struct Followed {
    ends: BTreeMap<Name, Option<Name>>,
}

impl Model for Followed {
    ghost use Rattle.std.specs.FinMap as finite;
    ghost use Rattle.std.specs.Coded.{coded_list, coded_option, coded_ℕ};
    ghost use Rattle.fork_query.specs.Followed.{TagEnds};

    ghost Value = { TagEnds };

    ghost coded = { finite.code (coded_list coded_ℕ) (coded_option (coded_list coded_ℕ)) };

    ghost view = { λ a. finite.from_entries a.ends.entries };
}

impl Followed {
    // No tag has been followed.
    #[tactic(auto, using(crate::proofs::FollowedLemmas::none_followed))]
    pub(crate) fn new(alloc: Global) -> Followed
        ensures { (objects : Objects) → AreEnds objects result }
    {
        Followed {
            ends: BTreeMap::new(alloc),
        }
    }

    // The name that this tag peels to, if it was followed.
    pub(crate) fn end_of(&self, tag: Name) -> Option<Option<Name>>
        ensures { result ≡ map.get self.now tag }
    {
        self.ends.get(&tag).copied()
    }

    // Notes the name that this tag peels to.
    pub(crate) fn note(&mut self, tag: Name, end: Option<Name>) -> Result<(), AllocError>
        ensures { OnOk result (self.new ≡ map.insert self.old tag end) }
    {
        put(&mut self.ends, tag, end)
    }
}

fn put(
    ends: &mut BTreeMap<Name, Option<Name>>,
    tag: Name,
    end: Option<Name>,
) -> Result<(), AllocError>
    ensures { OnOk result (Updates name_cmp ends.old ends.new tag (Some end)) }
{
    ends.insert(tag, end)?;
    Ok(())
}
