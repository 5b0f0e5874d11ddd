ghost use Rattle.std.specs.Prelude.{◌≡◌, ◌≢◌};

use fork_frame::{FrameFault, ReplyFault};
use thiserror::Error;

/// Why a session stopped before its end. The host is in the state that the requests answered so far produced.
#[derive(Clone, Copy, Debug, PartialEq, Eq, Error)]
pub enum SessionFault {
    #[error("the input could not be read")]
    Read,
    #[error("the output could not be written")]
    Write,
    #[error("no memory")]
    Memory,
    #[error("a request could not be kept")]
    Journal,
}

// The session fault for a frame that could not be read.
pub(crate) fn of_frame(fault: FrameFault) -> SessionFault
    ensures read { result ≢ SessionFault.Write }
    ensures kept { result ≢ SessionFault.Journal }
    ensures memory { result ≡ SessionFault.Memory → fault ≡ FrameFault.Memory }
{
    match fault {
        FrameFault::Read => SessionFault::Read,
        FrameFault::Memory => SessionFault::Memory,
    }
}

// The session fault for a reply that could not be sent.
pub(crate) fn of_reply(fault: ReplyFault) -> SessionFault
    ensures sent { result ≢ SessionFault.Read }
    ensures kept { result ≢ SessionFault.Journal }
    ensures memory { result ≡ SessionFault.Memory → fault ≡ ReplyFault.Memory }
{
    match fault {
        ReplyFault::Memory => SessionFault::Memory,
        ReplyFault::Write => SessionFault::Write,
    }
}
