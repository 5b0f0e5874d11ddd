ghost use Rattle.std.specs.Prelude.{◌≡◌};
ghost use Rattle.fork_program.specs.Fault.{again_fault, journal_fault, load_fault, session_fault, state_fault, store_fault};
ghost use Rattle.fork_program.specs.Keeping.{IsUnkept};

use crate::fault::Fault;
use fork_request::HostFault;
use fork_state::LoadFault;
use fork_wire::{AgainFault, SessionFault};
use loose_store::FileFault;

/// The fault that reports a session's fault.
pub fn of_session(fault: SessionFault) -> Fault
    ensures { result ≡ session_fault fault }
{
    match fault {
        SessionFault::Read => Fault::Read,
        SessionFault::Write => Fault::Write,
        SessionFault::Memory => Fault::Memory,
        SessionFault::Journal => Fault::NotKept,
    }
}

/// The fault that reports that a folder could not be opened.
pub fn of_store(fault: FileFault) -> Fault
    ensures told { result ≡ store_fault fault }
    ensures within { IsUnkept result }
{
    match fault {
        FileFault::Device => Fault::Store,
        FileFault::Memory => Fault::Memory,
    }
}

/// The fault that reports that a state could not be read.
pub fn of_state(fault: FileFault) -> Fault
    ensures told { result ≡ state_fault fault }
    ensures within { IsUnkept result }
{
    match fault {
        FileFault::Device => Fault::Unreadable,
        FileFault::Memory => Fault::Memory,
    }
}

/// The fault that reports that a journal could not be read.
pub fn of_journal(fault: FileFault) -> Fault
    ensures told { result ≡ journal_fault fault }
    ensures within { IsUnkept result }
{
    match fault {
        FileFault::Device => Fault::Journal,
        FileFault::Memory => Fault::Memory,
    }
}

/// The fault that reports that the requests of a journal could not be repeated.
pub fn of_again(fault: AgainFault) -> Fault
    ensures told { result ≡ again_fault fault }
    ensures within { IsUnkept result }
{
    match fault {
        AgainFault::Read => Fault::Journal,
        AgainFault::Memory => Fault::Memory,
        AgainFault::Altered => Fault::Journal,
        AgainFault::Host(HostFault::Memory) => Fault::Memory,
        AgainFault::Host(HostFault::Store) => Fault::Store,
        AgainFault::Host(HostFault::Damaged) => Fault::Journal,
        AgainFault::Host(HostFault::Collision) => Fault::Journal,
    }
}

/// The fault that reports that no host could be loaded from a state.
pub fn of_load(fault: LoadFault) -> Fault
    ensures told { result ≡ load_fault fault }
    ensures within { IsUnkept result }
{
    match fault {
        LoadFault::Line(line) => Fault::Line(line),
        LoadFault::Read => Fault::Unreadable,
        LoadFault::Lost(name) => Fault::Lost(name),
        LoadFault::Damaged(name) => Fault::Damaged(name),
        LoadFault::Unsound(name) => Fault::Unsound(name),
        LoadFault::OverLimit(tenant) => Fault::OverLimit(tenant),
        LoadFault::Store => Fault::Store,
        LoadFault::Memory => Fault::Memory,
    }
}
