// The row of `prune`.
ghost use Rattle.std.specs.Prelude.{◌≡◌, ◌++◌, [], IfOk, IsTrue};
ghost use Rattle.fork_model.specs.Answer.{prune_answer, targets_of};
ghost use Rattle.fork_host.specs.Bounds.{IsBounded};
ghost use Rattle.fork_host.specs.Handle.{Ready, Uses, shown_by};
ghost use Rattle.fork_host.specs.Made.{targets_kept};
ghost use Rattle.fork_host.specs.Rows.{Yields};
ghost use Rattle.fork_host.specs.Safe.{IsSafe};
ghost use Rattle.fork_host.specs.Shown.{shown};

use crate::own::Own;
use crate::pruning::keep_reached;
use crate::tenant::Tenant;
use fork_request::{HostFault, Reply};
use git_name::Name;
use loose_store::LooseFiles;
use std::alloc::{AllocError, Global};

impl Tenant {
    #[tactic(auto, unfolding(fork_model::specs::Answer::prune_answer))]
    // Removes the objects that no reference of a repository or of an offer reaches.
    pub(crate) fn prune<S: LooseFiles>(&self, alloc: Global, own: &mut Own<'_, S>) -> Reply
        requires ready { Ready own.old self.now.limit }
        ensures row { IsTrue own.old.vault.now.honest → Yields (prune_answer (shown_by self.now own.old)) (shown_by self.now own.old) result (shown self.now own.new.vault.now own.old.tenant.now) }
        ensures safe { IsSafe (IsBounded [] own.old.vault.now own.new.vault.now) (shown_by self.now own.old) result (shown self.now own.new.vault.now own.old.tenant.now) }
        ensures own { Uses [] own.old own.new }
    {
        let Ok(roots) = self.roots(alloc) else {
            return Reply::Failed(HostFault::Memory);
        };
        // Read for its range: the use of what is seen has 64 bits.
        let _limit = self.limit;
        keep_reached(alloc, own, roots.as_slice())
    }

    // The targets of the references of repositories, then of offers: what they reach is kept.
    fn roots(&self, alloc: Global) -> Result<Vec<Name>, AllocError>
        ensures { IfOk result (λ names. names.items ≡ targets_of self.now.repositories ++ targets_kept self.now.made) }
    {
        let mut names = self.repositories.targets(alloc)?;
        self.made.add_targets(&mut names)?;
        Ok(names)
    }
}
