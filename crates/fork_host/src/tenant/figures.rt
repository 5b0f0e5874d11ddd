// What the host reports of a tenant, in numbers.
ghost use Rattle.std.specs.Prelude.{◌≡◌, ◌++◌, codes, decimal, flat_map, OnOk};
ghost use Rattle.fork_ledger.specs.Private.{Private};
ghost use Rattle.fork_model.specs.Figures.{figure_line, figures_of, uploaded};
ghost use Rattle.fork_model.specs.Sound.{IsOrderly};
ghost use Rattle.fork_host.specs.Shown.{seen_by, shown};

use crate::tenant::Tenant;
use fork_ledger::Vault;
use fork_request::TenantName;
use loose_store::LooseFiles;
use std::alloc::AllocError;
use std::io::Write;

impl Tenant {
    // Adds the tenant's line: its name, and each figure after SP.
    pub(crate) fn add_figures<S: LooseFiles>(
        &self,
        vault: &Vault<S>,
        name: &TenantName,
        text: &mut Vec<u8>,
    ) -> Result<(), AllocError>
        requires { IsOrderly (shown self.now vault.now name.now) }
        ensures { OnOk result (text.new.items ≡ text.old.items ++ figure_line name.now (shown self.now vault.now name.now)) }
    {
        text.extend_from_slice(name.as_bytes())?;
        add_figures(text, &self.figures(vault, name))?;
        text.push(b'\n')?;
        Ok(())
    }

    // What its objects use, its limit, how many repositories, references and objects it has, how many
    // bytes of its open upload came, and how many offers it has made.
    fn figures<S: LooseFiles>(&self, vault: &Vault<S>, name: &TenantName) -> [u128; 7]
        requires { IsOrderly (shown self.now vault.now name.now) }
        ensures { result ≡ figures_of (shown self.now vault.now name.now) }
    {
        let repositories = self.repositories.len();
        let offers = self.made.len();
        [
            vault.used(name),
            self.limit as u128,
            repositories as u128,
            self.repositories.reference_count(),
            vault.seen_count(name) as u128,
            self.uploaded() as u128,
            offers as u128,
        ]
    }

    // How many references its repositories and its offers have, up to 2^64 - 1.
    pub(crate) fn reference_count(&self) -> u64 {
        let own = u64::try_from(self.repositories.reference_count()).unwrap_or(u64::MAX);
        own.saturating_add(self.made.reference_count())
    }

    // How many bytes of its open upload came, and 0 if none is open.
    fn uploaded(&self) -> u64
        ensures { (own : Private) → result ≡ uploaded (seen_by self.now own).upload }
    {
        match &self.upload {
            Some(upload) => upload.count(),
            None => 0,
        }
    }
}

// Adds each figure after SP.
fn add_figures(text: &mut Vec<u8>, figures: &[u128]) -> Result<(), AllocError>
    ensures { OnOk result (text.new.items ≡ text.old.items ++ flat_map (λ figure. codes " " ++ decimal figure) figures.now) }
{
    for figure in figures {
        let Ok(()) = write!(text, " {}", *figure) else {
            return Err(AllocError);
        };
    }
    Ok(())
}
