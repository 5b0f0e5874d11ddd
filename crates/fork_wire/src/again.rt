ghost use Rattle.std.specs.Prelude.{◌≡◌, IfErr, IfOk};
ghost use Rattle.fork_request.specs.Told.{is_host_fault};
ghost use Rattle.fork_model.specs.Sound.{IsOrderlyWorld, IsRightWorld};
ghost use Rattle.fork_host.specs.Shown.{Trusted, world_of};
ghost use Rattle.fork_host.specs.Step.{IsStep};
ghost use Rattle.fork_wire.specs.Again.{IsAnsweredAgain, IsServedAgain};
ghost use Rattle.fork_wire.specs.Sessions.{event_of};

use crate::kept::may_change;
use crate::session::answer;
use fork_frame::{Frame, FrameFault, Next, next_frame};
use fork_host::Host;
use fork_model::a_run_is_private;
use fork_request::{HostFault, Reply};
use loose_store::LooseFiles;
use std::alloc::Global;
use std::io::Read;
use thiserror::Error;

/// Why `serve_again` stopped before the end of the frames.
#[derive(Clone, Copy, Debug, PartialEq, Eq, Error)]
pub enum AgainFault {
    #[error("the input could not be read")]
    Read,
    #[error("no memory")]
    Memory,
    #[error("a request that was kept would not be kept again")]
    Altered,
    #[error("a host fault answered a request that was answered before")]
    Host(HostFault),
}

// The host fault that answered a repeated request.
impl From<HostFault> for AgainFault {
    ghost use Rattle.fork_wire.specs.declared.again.AgainFault.{AgainFault};

    ghost from_gives = { λ host fault. fault ≡ AgainFault.Host host };

    fn from(fault: HostFault) -> AgainFault {
        AgainFault::Host(fault)
    }
}

/// Repeats frames that were answered before, and returns how many there were. It reads up to the end of
/// the input, or up to bytes that are not a frame, and sends no reply. It returns an error at a host
/// fault, and at a frame that follows one that no journal would have kept. So what a kill or a power loss
/// leaves at the end is skipped, and an alteration elsewhere is reported.
pub fn serve_again<S: LooseFiles, R: Read>(
    host: &mut Host<S>,
    alloc: Global,
    reader: &mut R,
) -> Result<u64, AgainFault>
    ensures again { IfOk result (IsServedAgain host.old host.new (R.remaining reader.old)) }
    ensures trusted { Trusted host.old → Trusted host.new }
    ensures orderly { IsOrderlyWorld (world_of host.new) }
    ensures right { Trusted host.old → IsRightWorld (world_of host.new) }
{
    a_run_is_private();
    host.invariant();
    let mut is_kept = true;
    for count in 0..u64::MAX {
        let frame = match next_frame(alloc, reader) {
            Ok(Next::Frame(frame)) => frame,
            Ok(Next::End) => return Ok(count),
            Ok(Next::Bad) => return Ok(count),
            Err(FrameFault::Read) => return Err(AgainFault::Read),
            Err(FrameFault::Memory) => return Err(AgainFault::Memory),
        };
        if !is_kept {
            return Err(AgainFault::Altered);
        }
        is_kept = answer_again(host, alloc, frame)?;
    }
    Err(AgainFault::Read)
}

/// Answers a request, and returns whether a journal would keep it. Reports only host faults.
pub(crate) fn answer_again<S: LooseFiles>(
    host: &mut Host<S>,
    alloc: Global,
    frame: Frame,
) -> Result<bool, HostFault>
    ensures ok { IfOk result (λ _. IsAnsweredAgain host.old host.new frame) }
    ensures trusted { Trusted host.old → Trusted host.new }
    ensures orderly { IsOrderlyWorld (world_of host.new) }
    ensures right { Trusted host.old → IsRightWorld (world_of host.new) }
{
    let reply = answer(host, alloc, &frame);
    match &reply {
        Reply::Failed(fault) => Err(*fault),
        _ => Ok(may_change(&frame, &reply)),
    }
}
