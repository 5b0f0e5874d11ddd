use crate::vault_fault::told;
use fork_ledger::Vault;
use fork_push::Sides;
use fork_reach::{Source, SourceFault};
use fork_request::TenantName;
use git_name::{Hashing, Kind, Name, Sealed};
use loose_store::LooseFiles;
use std::alloc::Global;

// What a tenant sees and what it has staged, as both sides of a push.
#[derive(Drop)]
pub(crate) struct Both<'a, S: LooseFiles> {
    pub(crate) vault: &'a mut Vault<S>,
    pub(crate) tenant: &'a TenantName,
}

impl<S: LooseFiles> Source for Both<'_, S> {
    ghost use Rattle.std.specs.Prelude.{ℕ, List};
    ghost use Rattle.std.specs.Borrow.{Bor};
    ghost use Rattle.std.specs.FinMap.{FinMap};
    ghost use Rattle.git_name.specs.Name.{name_cmp};
    ghost use Rattle.looks.specs.Places.{Places};
    ghost use Rattle.fork_reach.specs.Objects.{Measures};
    ghost use Rattle.fork_ledger.specs.Private.{both_of};
    ghost use Rattle.fork_ledger.specs.Tenants.{private_of, shape_of};
    ghost use Rattle.fork_host.specs.Handle.{Rest};

    ghost Base = { (ℕ × Bor (List ℕ)) × FinMap name_cmp (Measures × Measures) × Places };

    ghost Rest = { Rest };

    ghost state = { λ both. record {
      objects = both_of (private_of both.vault.now.tenants both.tenant.now);
      honest = both.vault.now.honest;
      failures = both.vault.now.failures;
      base = ((both.vault.ghost_name, both.tenant), shape_of both.vault.now.tenants, both.vault.now.places);
      rest = (both.vault.now.tenants, both.vault.now.files);
    } };

    fn hashing(&self) -> Hashing {
        self.vault.hashing()
    }

    fn kind_of(&self, name: Name) -> Option<Kind> {
        match self.vault.kind_of(self.tenant, name) {
            Some(held) => Some(held.kind),
            None => None,
        }
    }

    fn lend(&self, name: Name) -> Option<(Kind, &[u8])> {
        self.vault.lend_held(self.tenant, name)
    }

    fn read(&mut self, alloc: Global, name: Name) -> Result<Option<Sealed>, SourceFault> {
        let Some(held) = self.vault.kind_of(self.tenant, name) else {
            return Ok(None);
        };
        if held.visible {
            return told(self.vault.get(alloc, self.tenant, name));
        }
        told(self.vault.get_staged(alloc, self.tenant, name))
    }

    fn learn_links(&mut self, alloc: Global, name: Name) {
        self.vault.learn_links(alloc, self.tenant, name);
    }
}

impl<S: LooseFiles> Sides for Both<'_, S> {
    fn is_within(&self, limit: u64) -> bool {
        self.vault.is_within(self.tenant, limit)
    }
}
