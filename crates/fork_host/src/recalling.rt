// Restores what a tenant saw, from what was read of it.
ghost use Rattle.std.specs.Prelude.{◌≡◌, OnErr, OnOk, true};
ghost use Rattle.std.specs.FinMap as map;
ghost use Rattle.fork_host.specs.Handle.{IsSame, visible_by};
ghost use Rattle.fork_host.specs.Own.{ChangesTenant, SeesOnly};
ghost use Rattle.fork_host.specs.Read.{AreRead, EachRead, RecallsRead};
ghost use Rattle.fork_host.specs.Refilled.{SeesAgain};

use crate::own::Own;
use crate::staging::{discard, publish};
use fork_ledger::RecallFault;
use fork_sound::Readings;
use git_name::Name;
use loose_store::LooseFiles;

// Lets a tenant see the objects of these names that were read. On failure the tenant sees what it saw.
pub(crate) fn recall_all<S: LooseFiles>(
    own: &mut Own<'_, S>,
    readings: &Readings,
    names: &[Name],
) -> Result<(), RecallFault>
    requires there { map.contains_key own.old.vault.now.tenants own.old.tenant.now ≡ true }
    requires read { AreRead own.old.vault.now.honest own.old.vault.now.files names.now readings.now }
    ensures ok { OnOk result (SeesAgain own.old.tenant.now names.now own.old.vault.now own.new.vault.now) }
    ensures err { OnErr result (ChangesTenant own.old.tenant.now (SeesOnly (visible_by own.old)) own.old.vault.now own.new.vault.now) }
    ensures files { own.new.vault.now.files ≡ own.old.vault.now.files }
    ensures honest { own.new.vault.now.honest ≡ own.old.vault.now.honest }
    ensures failures { own.new.vault.now.failures ≡ own.old.vault.now.failures }
    ensures same { IsSame own.old own.new }
{
    for name in names {
        match recall_read(own, readings, *name) {
            Ok(()) => {}
            Err(error) => {
                discard(own);
                return Err(error);
            }
        }
    }
    publish(own);
    Ok(())
}

// Stages the object of this name, if it was read.
fn recall_read<S: LooseFiles>(
    own: &mut Own<'_, S>,
    readings: &Readings,
    name: Name,
) -> Result<(), RecallFault>
    requires { EachRead own.old.vault.now.honest own.old.vault.now.files readings.now }
    ensures recalls { OnOk result (RecallsRead own.old.vault.now.honest own.old.tenant.now name own.old.vault.now.files own.old.vault.now.tenants own.new.vault.now.tenants (map.get readings.now name)) }
    ensures err { OnErr result (own.new.vault.now.tenants ≡ own.old.vault.now.tenants) }
    ensures files { own.new.vault.now.files ≡ own.old.vault.now.files }
    ensures honest { own.new.vault.now.honest ≡ own.old.vault.now.honest }
    ensures failures { own.new.vault.now.failures ≡ own.old.vault.now.failures }
    ensures same { IsSame own.old own.new }
{
    let Some(reading) = readings.get(name) else {
        return Ok(());
    };
    own.recall(name, reading.kind(), reading.size())
}
