ghost use Rattle.std.specs.Prelude.{◌≡◌, ◌⊎◌, IfOk, None};
ghost use Rattle.fork_model.specs.Sound.{IsOrderlyWorld, IsRightWorld};
ghost use Rattle.fork_host.specs.Shown.{Trusted, world_of};
ghost use Rattle.fork_wire.specs.Again.{IsAnsweredAgain, IsServedAgain};

use crate::again::{AgainFault, answer_again};
use fork_frame::{Asker, Frame, FrameFault, Next, next_frame};
use fork_host::Host;
use fork_request::{Request, TenantName};
use loose_store::LooseFiles;
use std::alloc::{AllocError, Global};
use std::collections::BTreeMap;
use std::io::Read;

/// How many uploads of each tenant were ended in a log of open uploads, as far as they were not passed over.
#[derive(Drop)]
pub struct EndedUploads {
    counts: BTreeMap<TenantName, u64>,
}

// Whether the request is the end of an upload, or a piece of one, and whose.
fn upload_of(frame: &Frame) -> Option<(&TenantName, bool)> {
    let Asker::Tenant(tenant) = &frame.asker else {
        return None;
    };
    match Request::read(frame.payload.as_bytes()) {
        Request::Part(_) => Some((tenant, false)),
        Request::PartEnd(_) => Some((tenant, true)),
        _ => None,
    }
}

impl EndedUploads {
    // How many uploads of a tenant are left.
    fn count_of(&self, tenant: &TenantName) -> u64 {
        match self.counts.get(tenant) {
            Some(count) => *count,
            None => 0,
        }
    }

    // Counts an end.
    fn note(&mut self, frame: &Frame) -> Result<(), AllocError> {
        let Some((tenant, true)) = upload_of(frame) else {
            return Ok(());
        };
        let count = self.count_of(tenant).saturating_add(1);
        self.counts.insert(tenant.copy(), count)?;
        Ok(())
    }

    /// Reads a log, up to its end or to what is no frame.
    pub fn read<R: Read>(alloc: Global, reader: &mut R) -> Result<EndedUploads, AgainFault> {
        let mut ended = EndedUploads {
            counts: BTreeMap::new(alloc),
        };
        for _ in 0..u64::MAX {
            let frame = match next_frame(alloc, reader) {
                Ok(Next::Frame(frame)) => frame,
                Ok(Next::End) => return Ok(ended),
                Ok(Next::Bad) => return Ok(ended),
                Err(FrameFault::Read) => return Err(AgainFault::Read),
                Err(FrameFault::Memory) => return Err(AgainFault::Memory),
            };
            let Ok(()) = ended.note(&frame) else {
                return Err(AgainFault::Memory);
            };
        }
        Err(AgainFault::Read)
    }

    // Whether a frame is of an upload that was ended. Passes over its end.
    fn is_over(&mut self, frame: &Frame) -> Result<bool, AllocError> {
        let Some((tenant, is_end)) = upload_of(frame) else {
            return Ok(false);
        };
        let count = self.count_of(tenant);
        if count == 0 {
            return Ok(false);
        }
        if is_end {
            self.counts.insert(tenant.copy(), count - 1)?;
        }
        Ok(true)
    }
}

/// Repeats the frames of a log of the uploads that are open at its end, and returns how many there were. `ended` was read from
/// the same log. Reports host faults, and a frame that no journal would have kept.
pub fn reopen_uploads<S: LooseFiles, R: Read>(
    host: &mut Host<S>,
    alloc: Global,
    reader: &mut R,
    ended: &mut EndedUploads,
) -> Result<u64, AgainFault>
    ensures again { IfOk result (IsServedAgain host.old host.new None) }
    ensures trusted { Trusted host.old → Trusted host.new }
    ensures orderly { IsOrderlyWorld (world_of host.new) }
    ensures right { Trusted host.old → IsRightWorld (world_of host.new) }
{
    host.invariant();
    let mut count = 0u64;
    for _ in 0..u64::MAX {
        let frame = match next_frame(alloc, reader) {
            Ok(Next::Frame(frame)) => frame,
            Ok(Next::End) => return Ok(count),
            Ok(Next::Bad) => return Ok(count),
            Err(FrameFault::Read) => return Err(AgainFault::Read),
            Err(FrameFault::Memory) => return Err(AgainFault::Memory),
        };
        let repeated = reopen_by(host, alloc, ended, frame)?;
        count = count.saturating_add(repeated);
    }
    Err(AgainFault::Read)
}

// Repeats a frame, unless it is of an upload that was ended. Returns how many were repeated.
fn reopen_by<S: LooseFiles>(
    host: &mut Host<S>,
    alloc: Global,
    ended: &mut EndedUploads,
    frame: Frame,
) -> Result<u64, AgainFault>
    ensures ok { IfOk result (λ count. ((count ≡ 0) × (host.new ≡ host.old)) ⊎ ((count ≡ 1) × IsAnsweredAgain host.old host.new frame)) }
    ensures trusted { Trusted host.old → Trusted host.new }
    ensures orderly { IsOrderlyWorld (world_of host.new) }
    ensures right { Trusted host.old → IsRightWorld (world_of host.new) }
{
    host.invariant();
    let Ok(is_over) = ended.is_over(&frame) else {
        return Err(AgainFault::Memory);
    };
    if is_over {
        return Ok(0);
    }
    if answer_again(host, alloc, frame)? {
        return Ok(1);
    }
    Err(AgainFault::Altered)
}
