// The row of `quota`.
ghost use Rattle.fork_model.specs.Answer.{quota_answer};
ghost use Rattle.fork_host.specs.Handle.{Ready, shown_by};
ghost use Rattle.fork_host.specs.Rows.{Gives};

use crate::own::Own;
use crate::replies::told_use;
use crate::tenant::Tenant;
use fork_request::Reply;
use loose_store::LooseFiles;
use std::alloc::Global;

impl Tenant {
    #[tactic(auto, unfolding(fork_model::specs::Answer::quota_answer))]
    // What the objects that are seen use, and the limit.
    pub(crate) fn quota<S: LooseFiles>(&self, alloc: Global, own: &Own<'_, S>) -> Reply
        requires ready { Ready own.now self.now.limit }
        ensures { Gives (quota_answer (shown_by self.now own.now)) (shown_by self.now own.now) result (shown_by self.now own.now) }
    {
        told_use(alloc, own.used(), self.limit)
    }
}
