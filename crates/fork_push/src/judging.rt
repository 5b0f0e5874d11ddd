ghost use Rattle.std.specs.Prelude.{◌≡◌, Ok, IsTrue};
ghost use Rattle.push_stream.specs.Brief.{brief_shown};
ghost use Rattle.git_reftx.specs.Transaction.{transacted};
ghost use Rattle.fork_reach.specs.Faults.{IsAsked};
ghost use Rattle.fork_reach.specs.Source.{kind_in};
ghost use Rattle.fork_push.specs.Here.{AreThere};
ghost use Rattle.fork_push.specs.Push.{judged, within_limit};
ghost use Rattle.fork_push.specs.Verdict.{IfAccepted, IsAcceptable, TellsJudged, fault_of_verdict};

use crate::both_kinds::BothKinds;
use crate::limit::accept_within;
use crate::refusal::PushRefusal;
use crate::sent::judge_sent;
use crate::sides::Sides;
use crate::verdict::Verdict;
use fork_reach::SourceFault;
use git_name::Sealed;
use git_reftx::{ApplyError, Command, Refs};
use push_stream::{Brief, StreamFault};
use std::alloc::Global;

#[tactic(auto, unfolding(crate::specs::Push::judged))]
/// Judges a push into a repository with these references, under a limit on what all objects may use. It changes
/// nothing, and reads no blob that was sent. It also does not read the objects that are `here`, some of those that were
/// sent, in their order.
pub fn judge<S: Sides>(
    alloc: Global,
    sides: &mut S,
    here: &[Sealed],
    finished: &Result<Brief, StreamFault>,
    references: &Refs,
    limit: u64,
) -> Verdict
    requires { IsTrue (S.state sides.old).honest → AreThere (S.state sides.old).objects here.now }
    ensures judged { IsTrue (S.state sides.old).honest → TellsJudged (judged (S.state sides.old).objects references.now limit (brief_shown finished.now)) result }

    // Over any store.
    ensures accepted { IfAccepted result (IsAcceptable (S.state sides.old).objects references.now limit) }
    ensures asked { IsAsked (S.state sides.old) (S.state sides.new) (fault_of_verdict result) }
{
    match finished {
        Ok(brief) => judge_brief(alloc, sides, here, brief, references, limit),
        Err(fault) => Verdict::Refused(PushRefusal::Stream(*fault)),
    }
}

#[tactic(auto, unfolding(crate::specs::Push::judged))]
// Judges a push whose stream is valid.
fn judge_brief<S: Sides>(
    alloc: Global,
    sides: &mut S,
    here: &[Sealed],
    brief: &Brief,
    references: &Refs,
    limit: u64,
) -> Verdict
    requires { IsTrue (S.state sides.old).honest → AreThere (S.state sides.old).objects here.now }
    ensures judged { IsTrue (S.state sides.old).honest → TellsJudged (judged (S.state sides.old).objects references.now limit (Ok (brief.now.commands.items, brief.now.names.items))) result }
    ensures accepted { IfAccepted result (IsAcceptable (S.state sides.old).objects references.now limit) }
    ensures asked { IsAsked (S.state sides.old) (S.state sides.new) (fault_of_verdict result) }
{
    match judge_sent(alloc, sides, here, brief.names.as_slice()) {
        Ok(None) => judge_transaction(alloc, sides, brief.commands.as_slice(), references, limit),
        Ok(Some(refusal)) => Verdict::Refused(refusal),
        Err(fault) => Verdict::Failed(fault),
    }
}

// Judges a push whose stream and links are valid.
fn judge_transaction<S: Sides>(
    alloc: Global,
    sides: &S,
    commands: &[Command],
    references: &Refs,
    limit: u64,
) -> Verdict
    ensures judged { TellsJudged (within_limit (S.state sides.now).objects limit (transacted references.now commands.now (kind_in (S.state sides.now).objects))) result }
    ensures asked { IsAsked (S.state sides.now) (S.state sides.now) (fault_of_verdict result) }
{
    let new = match references.transacted(alloc, commands, &BothKinds(sides)) {
        Ok(new) => new,
        Err(ApplyError::Refused(refusal)) => {
            return Verdict::Refused(PushRefusal::Transaction(refusal));
        }
        Err(ApplyError::Memory) => return Verdict::Failed(SourceFault::Memory),
    };
    accept_within(sides, limit, new)
}
