// Stages objects that a tenant saw before, from what was read of them before there was a vault.
ghost use Rattle.std.specs.Prelude.{◌≡◌, ◌∷◌, [], true, IfErr, OnErr, OnOk};
ghost use Rattle.std.specs.FinMap.{contains_key};
ghost use Rattle.looks.specs.Growth.{GrowsAmong};
ghost use Rattle.object_table.specs.Clashes.{AreAs};
ghost use Rattle.object_table.specs.Rows.{places_of};
ghost use Rattle.object_table.specs.Ledgers.{at_ledger};
ghost use Rattle.object_table.specs.Words.{staged_words};
ghost use Rattle.loose_store.specs.Files.{Files};
ghost use Rattle.fork_ledger.specs.Kept.{Covers, IsExact};

use fork_request::TenantName;
use git_name::{Kind, Name};
use object_table::{Holdings, StageFault};
use thiserror::Error;

/// Why an object was not recalled.
#[derive(Clone, Copy, Debug, PartialEq, Eq, Error)]
pub enum RecallFault {
    /// Some tenant has an object of this name with another kind or length.
    #[error("the name is that of another object")]
    Collision,
    #[error("no memory")]
    Memory,
}

// Stages an object of this name, kind and length, and adds its name to the catalogue if it is not there.
pub(crate) fn recall(
    holdings: &mut Holdings,
    tenant: &TenantName,
    name: Name,
    kind: Kind,
    length: u64,
) -> Result<(), RecallFault>
    ensures ok { OnOk result (holdings.new.ledgers ≡ at_ledger holdings.old.ledgers tenant.now (staged_words name kind length)) }
    ensures err { OnErr result (holdings.new.ledgers ≡ holdings.old.ledgers) }
    ensures clash { IfErr result (λ fault. fault ≡ RecallFault.Collision → AreAs holdings.old.ledgers name kind length → ⊥) }
    ensures links { holdings.new.links ≡ holdings.old.links }
    ensures grows { GrowsAmong (name ∷ []) (places_of holdings.old.catalogue) (places_of holdings.new.catalogue) }
    ensures covers { (files : Files) → Covers files (places_of holdings.old.catalogue) → Covers files (places_of holdings.new.catalogue) }
    ensures exact { (files : Files) → contains_key files name ≡ true → IsExact files (places_of holdings.old.catalogue) → IsExact files (places_of holdings.new.catalogue) }
{
    let Ok(()) = holdings.enter(name) else {
        return Err(RecallFault::Memory);
    };
    match holdings.stage(tenant, name, kind, length) {
        Ok(()) => Ok(()),
        Err(StageFault::Memory) => Err(RecallFault::Memory),
        Err(StageFault::Unlisted) => unreachable!(),
        Err(StageFault::Clash) => Err(RecallFault::Collision),
    }
}
