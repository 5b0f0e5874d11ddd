use crate::refusal::PushRefusal;
use fork_reach::SourceFault;
use git_reftx::Refs;

/// The verdict on a push.
#[derive(Drop)]
pub enum Verdict {
    /// It is accepted; these are the references afterwards.
    Accepted(Refs),
    /// It is refused, for the first reason against it.
    Refused(PushRefusal),
    /// A sent object could not be read, or memory ran out.
    Failed(SourceFault),
}
