// Receives a piece of an upload, and stages its objects as they arrive.
ghost use Rattle.std.specs.Prelude.{◌≡◌, ◌≤◌, ◌+◌, ◌<◌, ◌++◌, ℕ, [], List, length, true};
ghost use Rattle.std.specs.FinMap as map;
ghost use Rattle.looks.specs.Growth.{GrowsAmong};
ghost use Rattle.push_stream.specs.Reading.{gained};
ghost use Rattle.push_stream.specs.Stream.{sent_in, stream_of};
ghost use Rattle.fork_host.specs.Bounds.{IsBounded};
ghost use Rattle.fork_host.specs.Fed.{IsFed};
ghost use Rattle.fork_host.specs.Handle.{IsSame, staged_by};
ghost use Rattle.fork_host.specs.Own.{IsOwn, KeepsSeen};
ghost use Rattle.fork_host.specs.Sent.{sent_names};
ghost use Rattle.fork_host.specs.Staged.{Came};

use crate::own::Own;
use crate::replies::{done, vault_fault};
use crate::staging::{discard, stage_all};
use fork_request::{HostFault, Refusal, Reply};
use loose_store::LooseFiles;
use push_stream::{MAX_UPLOAD, OpenUpload};
use std::alloc::Global;

// Receives a piece of an upload, if there is room for it. Stages its objects beside the earlier ones; if the stream is
// wrong with it, none stays staged. A host fault leaves what was received before.
pub(crate) fn feed<S: LooseFiles>(
    alloc: Global,
    own: &mut Own<'_, S>,
    upload: &mut OpenUpload,
    piece: &[u8],
) -> Reply
    requires there { map.contains_key own.old.vault.now.tenants own.old.tenant.now ≡ true }
    ensures fed { IsFed own.old.tenant.now upload.old.brief piece.now own.old.vault.now result upload.new.brief own.new.vault.now }
    ensures bounds { (bytes : List ℕ) → Came own.old.vault.now.honest bytes upload.old.brief (staged_by own.old) → IsBounded (sent_in (stream_of (bytes ++ piece.now))) own.old.vault.now own.new.vault.now result }
    ensures grows { GrowsAmong (sent_names (gained upload.old.brief.flow piece.now)) own.old.vault.now.places own.new.vault.now.places }
    ensures seen { KeepsSeen own.old.tenant.now own.old.vault.now own.new.vault.now }
    ensures own { IsOwn own.old.tenant.now own.old.vault.now own.new.vault.now }
    ensures same { IsSame own.old own.new }
{
    let room = MAX_UPLOAD as u64 - upload.count();
    if piece.len() as u64 > room {
        return Reply::Refused(Refusal::StagedTooLong);
    }
    let Ok(step) = upload.look(alloc, piece) else {
        return Reply::Failed(HostFault::Memory);
    };
    if step.is_fault {
        upload.take();
        discard(own);
        return done(alloc);
    }
    if let Err(fault) = stage_all(alloc, own, step.objects) {
        upload.leave();
        return Reply::Failed(vault_fault(fault));
    }
    upload.take();
    done(alloc)
}
