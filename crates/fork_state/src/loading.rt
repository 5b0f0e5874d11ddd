ghost use Rattle.std.specs.Prelude.{◌≡◌, IfErr, IfOk, IfSome, IsTrue};
ghost use Rattle.fork_ledger.specs.Store.{IsOver};
ghost use Rattle.fork_host.specs.Shown.{Trusted, world_of};
ghost use Rattle.fork_state.specs.Loaded.{IsLoadFault, IsLoadedFrom, IsTextFault, IsTextFrom, restore_fault};

use crate::fault::LoadFault;
use fork_host::{Host, RestoreError};
use git_name::Name;
use loose_store::LooseFiles;
use state_text::{StateFault, Version, read};
use std::alloc::Global;
use std::io::Read;

/// Loads the host that the text describes, over the store that holds its objects, and gives the SHA-256 of the text, and its
/// version, which may be either. The text is read in pieces, to its end, and checked first, whatever the store does; what it
/// describes is checked after that.
pub fn load<S: LooseFiles + Drop, R: Read>(
    alloc: Global,
    reader: &mut R,
    files: S,
) -> Result<(Host<S>, Name, Version), LoadFault>
    ensures loaded { IsTrue (S.honest files) → IfOk result (λ found. IsLoadedFrom (R.remaining reader.old) (R.remaining reader.new) (S.contents files) (world_of found.0) found.1 found.2) }
    ensures refused { IsTrue (S.honest files) → IfSome (R.remaining reader.old) (λ text. IfErr result (IsLoadFault (S.contents files) text)) }

    // Over any store.
    ensures text { IfOk result (λ found. IsTextFrom (R.remaining reader.old) (R.remaining reader.new) found.1 found.2) }
    ensures judged { IfSome (R.remaining reader.old) (λ text. IfErr result (IsTextFault text)) }
    ensures trusted { IfOk result (λ found. IsTrue (S.honest files) → Trusted found.0) }
    ensures store { IfOk result (λ found. IsOver (S.contents files) (S.honest files) (S.failures files) found.0.vault) }
{
    let (states, name, version) = match read(alloc, reader) {
        Ok(found) => found,
        Err(StateFault::Line(number)) => return Err(LoadFault::Line(number)),
        Err(StateFault::Read) => return Err(LoadFault::Read),
        Err(StateFault::Memory) => return Err(LoadFault::Memory),
    };
    match Host::restore(alloc, files, states) {
        Ok(host) => Ok((host, name, version)),
        Err(error) => Err(of_restore(error)),
    }
}

// The load fault that reports a restore error.
fn of_restore(error: RestoreError) -> LoadFault
    ensures { result ≡ restore_fault error }
{
    match error {
        RestoreError::Lost(name) => LoadFault::Lost(name),
        RestoreError::Damaged(name) => LoadFault::Damaged(name),
        RestoreError::Unsound(name) => LoadFault::Unsound(name),
        RestoreError::OverLimit(tenant) => LoadFault::OverLimit(tenant),
        RestoreError::Store => LoadFault::Store,
        RestoreError::Memory => LoadFault::Memory,
    }
}
