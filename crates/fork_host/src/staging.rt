// What pushes and uploads do to a tenant's own part of the vault.
ghost use Rattle.std.specs.Prelude.{◌≡◌, IfErr, IfOk, IsTrue, OnOk, OnErr, Some, true};
ghost use Rattle.std.specs.FinMap as map;
ghost use Rattle.std.specs.List.{AllByRecursion};
ghost use Rattle.git_name.specs.Object.{object_name};
ghost use Rattle.looks.specs.Growth.{GrowsAmong};
ghost use Rattle.fork_request.specs.declared.reply.Reply.TheVariants.{Failed};
ghost use Rattle.fork_ledger.specs.AllStaged.{with_all_staged};
ghost use Rattle.fork_ledger.specs.Private.{with_discarded, with_published};
ghost use Rattle.fork_ledger.specs.Store.{LeavesStore};
ghost use Rattle.fork_host.specs.Bounds.{Gains, IsBounded};
ghost use Rattle.fork_push.specs.Here.{AreThere};
ghost use Rattle.fork_host.specs.Handle.{IsSame, both_by};
ghost use Rattle.fork_host.specs.Own.{ChangesTenant, IsOwn, MadeBy, both_in, staged_in, visible_in};
ghost use Rattle.fork_host.specs.Rows.{vault_told};
ghost use Rattle.fork_host.specs.Sent.{sent_names};

use crate::own::Own;
use fork_ledger::VaultFault;
use git_name::Sealed;
use loose_store::LooseFiles;
use std::alloc::Global;

// Stages these objects in turn, beside what is staged. On failure none of them is staged. Returns those that the store
// gave back.
pub(crate) fn stage_all<S: LooseFiles>(
    alloc: Global,
    own: &mut Own<'_, S>,
    sent: Vec<Sealed>,
) -> Result<Vec<Sealed>, VaultFault>
    requires there { map.contains_key own.old.vault.now.tenants own.old.tenant.now ≡ true }
    ensures ok { OnOk result (ChangesTenant own.old.tenant.now (MadeBy (with_all_staged sent.items)) own.old.vault.now own.new.vault.now) }
    ensures err { OnErr result (ChangesTenant own.old.tenant.now (MadeBy (λ private. private)) own.old.vault.now own.new.vault.now) }
    ensures own { IsOwn own.old.tenant.now own.old.vault.now own.new.vault.now }
    ensures came { IsTrue own.old.vault.now.honest → OnOk result (AllByRecursion (λ object. map.get (staged_in own.new.vault.now own.old.tenant.now) (object_name object) ≡ Some object) sent.items) }
    ensures back { IsTrue own.old.vault.now.honest → IfOk result (λ back. AreThere (both_by own.new) back.items) }
    ensures gains { OnOk result (Gains sent.items own.old.vault.now own.new.vault.now) }
    ensures bounds { IfErr result (λ fault. IsBounded sent.items own.old.vault.now own.new.vault.now (Failed (vault_told fault))) }
    ensures grows { GrowsAmong (sent_names sent.items) own.old.vault.now.places own.new.vault.now.places }
    ensures same { IsSame own.old own.new }
{
    own.stage_all(alloc, sent)
}

// Discards what is staged.
pub(crate) fn discard<S: LooseFiles>(own: &mut Own<'_, S>)
    requires there { map.contains_key own.old.vault.now.tenants own.old.tenant.now ≡ true }
    ensures changes { ChangesTenant own.old.tenant.now (MadeBy with_discarded) own.old.vault.now own.new.vault.now }
    ensures own { IsOwn own.old.tenant.now own.old.vault.now own.new.vault.now }
    ensures none { staged_in own.new.vault.now own.old.tenant.now ≡ map.empty }
    ensures still { visible_in own.new.vault.now own.old.tenant.now ≡ visible_in own.old.vault.now own.old.tenant.now }
    ensures store { LeavesStore own.old.vault.now own.new.vault.now }
    ensures same { IsSame own.old own.new }
{
    own.discard();
}

// Makes what is staged visible.
pub(crate) fn publish<S: LooseFiles>(own: &mut Own<'_, S>)
    requires there { map.contains_key own.old.vault.now.tenants own.old.tenant.now ≡ true }
    ensures changes { ChangesTenant own.old.tenant.now (MadeBy with_published) own.old.vault.now own.new.vault.now }
    ensures own { IsOwn own.old.tenant.now own.old.vault.now own.new.vault.now }
    ensures none { staged_in own.new.vault.now own.old.tenant.now ≡ map.empty }
    ensures seen { visible_in own.new.vault.now own.old.tenant.now ≡ both_in own.old.vault.now own.old.tenant.now }
    ensures store { LeavesStore own.old.vault.now own.new.vault.now }
    ensures same { IsSame own.old own.new }
{
    own.publish();
}
