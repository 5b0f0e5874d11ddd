// What outlives the host's process for one tenant.
ghost use Rattle.std.specs.Prelude.{◌≡◌, IfOk, is_some, option_map};
ghost use Rattle.fork_model.specs.Sound.{AreToOthers, IsOrderly};
ghost use Rattle.state_text.specs.Kept.{state_kept};
ghost use Rattle.fork_host.specs.Shown.{shown};

use crate::keeping::keep_names;
use crate::tenant::Tenant;
use fork_ledger::Vault;
use fork_request::TenantName;
use loose_store::LooseFiles;
use push_stream::OpenUpload;
use state_text::TenantState;
use std::alloc::{AllocError, Global};

impl Tenant {
    // The tenant's limit, its repositories, the names of the objects that it sees, and its offers.
    pub(crate) fn state<S: LooseFiles>(
        &self,
        alloc: Global,
        vault: &Vault<S>,
        name: &TenantName,
    ) -> Result<TenantState, AllocError>
        requires orderly { IsOrderly (shown self.now vault.now name.now) }
        requires others { AreToOthers name.now (shown self.now vault.now name.now) }
        ensures { IfOk result (λ state. state ≡ state_kept (name.now, shown self.now vault.now name.now)) }
    {
        let names = vault.names(alloc, name)?;
        let Some(mut state) = TenantState::new(alloc, name.copy(), self.limit) else {
            unreachable!();
        };
        self.repositories.keep(&mut state)?;
        keep_names(&mut state, names)?;
        self.made.keep(&mut state)?;
        Ok(state)
    }

    // Whether an upload is open.
    pub(crate) fn is_uploading(&self) -> bool
        ensures { result ≡ is_some self.now.upload }
    {
        self.upload.is_some()
    }

    // The upload, if one is open.
    pub(crate) fn upload(&self) -> Option<&OpenUpload>
        ensures { option_map (λ upload. upload.now.brief) result ≡ self.now.upload }
    {
        match &self.upload {
            Some(upload) => Some(upload),
            None => None,
        }
    }
}
