ghost use Rattle.std.specs.Prelude.{◌≡◌};
ghost use Rattle.fork_host.specs.Rows.{fault_read, read_told};

use fork_ledger::VaultFault;
use fork_reach::SourceFault;

// How a source reports a fault of the vault. Two objects of one name never meet in a read.
pub(crate) fn source_fault(fault: VaultFault) -> SourceFault
    ensures { result ≡ fault_read fault }
{
    match fault {
        VaultFault::Store => SourceFault::Store,
        VaultFault::Memory => SourceFault::Memory,
        VaultFault::Damaged | VaultFault::Collision => SourceFault::Damaged,
    }
}

// How a source reports what the vault returned.
pub(crate) fn told<T>(found: Result<T, VaultFault>) -> Result<T, SourceFault>
    ensures { result ≡ read_told found }
{
    match found {
        Ok(found) => Ok(found),
        Err(fault) => Err(source_fault(fault)),
    }
}
