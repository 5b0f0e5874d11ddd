ghost use Rattle.std.specs.Prelude.{◌≡◌, ◌<◌, ◌^◌, [], IsTrue, true};
ghost use Rattle.std.specs.FinMap as map;
ghost use Rattle.fork_reach.specs.Objects.{use_of};
ghost use Rattle.fork_reach.specs.Reach.{is_reached, linked_names};
ghost use Rattle.fork_host.specs.Bounds.{IsBounded};
ghost use Rattle.fork_host.specs.Handle.{Uses, visible_by};
ghost use Rattle.fork_host.specs.Own.{visible_in};
ghost use Rattle.fork_host.specs.Rows.{KeepsObjects, IsPruned};

use crate::own::Own;
use crate::replies::{done_or_unchanged, host_fault};
use fork_request::{HostFault, Reply};
use git_name::Name;
use loose_store::LooseFiles;
use std::alloc::Global;

// Keeps, of what a tenant sees, what these names reach: walks from object to object, reads those whose links are not known, and
// looks each name up.
fn walk_and_keep<S: LooseFiles>(alloc: Global, own: &mut Own<'_, S>, roots: &[Name]) -> Reply
    requires there { map.contains_key own.old.vault.now.tenants own.old.tenant.now ≡ true }
    requires within { use_of (visible_by own.old) < 2 ^ 64 }
    ensures kept { IsTrue own.old.vault.now.honest → KeepsObjects (map.retain_keys (visible_by own.old) (is_reached (linked_names (visible_by own.old)) (visible_by own.old) roots.now)) (visible_by own.old) result (visible_in own.new.vault.now own.old.tenant.now) }
    // Over any store.
    ensures pruned { IsPruned roots.now (visible_by own.old) result (visible_in own.new.vault.now own.old.tenant.now) }
    ensures bounds { IsBounded [] own.old.vault.now own.new.vault.now result }
    ensures own { Uses [] own.old own.new }
{
    match own.reached(alloc, roots) {
        Ok(names) => {
            let before = own.used();
            own.keep_only(&names);
            done_or_unchanged(alloc, own.used() == before)
        }
        Err(fault) => Reply::Failed(host_fault(fault)),
    }
}

// The same, at once if the vault knows all links on the way.
pub(crate) fn keep_reached<S: LooseFiles>(
    alloc: Global,
    own: &mut Own<'_, S>,
    roots: &[Name],
) -> Reply
    requires there { map.contains_key own.old.vault.now.tenants own.old.tenant.now ≡ true }
    requires within { use_of (visible_by own.old) < 2 ^ 64 }
    ensures kept { IsTrue own.old.vault.now.honest → KeepsObjects (map.retain_keys (visible_by own.old) (is_reached (linked_names (visible_by own.old)) (visible_by own.old) roots.now)) (visible_by own.old) result (visible_in own.new.vault.now own.old.tenant.now) }
    // Over any store.
    ensures pruned { IsPruned roots.now (visible_by own.old) result (visible_in own.new.vault.now own.old.tenant.now) }
    ensures bounds { IsBounded [] own.old.vault.now own.new.vault.now result }
    ensures own { Uses [] own.old own.new }
{
    let before = own.used();
    let Ok(is_done) = own.retain_reached(alloc, roots) else {
        return Reply::Failed(HostFault::Memory);
    };
    if is_done {
        return done_or_unchanged(alloc, own.used() == before);
    }
    walk_and_keep(alloc, own, roots)
}
