ghost use Rattle.std.specs.Prelude.{◌≡◌, Ok};
ghost use Rattle.fork_reach.specs.Faults.{IsAsked};
ghost use Rattle.fork_push.specs.Push.{within_limit};
ghost use Rattle.fork_push.specs.Verdict.{TellsJudged, fault_of_verdict};

use crate::refusal::PushRefusal;
use crate::sides::Sides;
use crate::verdict::Verdict;
use git_reftx::Refs;

// The verdict on a push that leaves these references, by the limit on what all objects may use.
pub(crate) fn accept_within<S: Sides>(sides: &S, limit: u64, references: Refs) -> Verdict
    ensures judged { TellsJudged (within_limit (S.state sides.now).objects limit (Ok references)) result }
    ensures asked { IsAsked (S.state sides.now) (S.state sides.now) (fault_of_verdict result) }
{
    if !sides.is_within(limit) {
        return Verdict::Refused(PushRefusal::OverQuota);
    }
    Verdict::Accepted(references)
}
