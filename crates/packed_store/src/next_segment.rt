ghost use Rattle.std.specs.Prelude.{◌≡◌, ◌<◌, ◌≤◌, IsTrue, IfOk, true, length};
ghost use Rattle.devices.specs.Device.{files_of};
ghost use Rattle.packed_store.specs.Place.{segment_of};

use crate::place::{LAST_SEGMENT, path_of};
use crate::survey::has_bytes;
use devices::{Device, DeviceFault};
use std::alloc::Global;

// Whether a segment has no bytes. One that does not exist has none.
fn is_blank<D: Device>(device: &D, alloc: Global, segment: u32) -> Result<bool, DeviceFault>
    ensures { IsTrue (D.honest device.now) → IfOk result (λ is. is ≡ true → length (segment_of (files_of (D.past device.now)) segment) ≡ 0) }
{
    let path = path_of(alloc, segment)?;
    let has = has_bytes(device, alloc, path.as_str(), 1)?;
    Ok(!has)
}

// The number of the next segment, which must not exist.
fn next_segment<D: Device>(device: &D, alloc: Global, segment: u32) -> Result<u32, DeviceFault>
    ensures empty { IsTrue (D.honest device.now) → IfOk result (λ next. length (segment_of (files_of (D.past device.now)) next) ≡ 0) }
    ensures later { IfOk result (λ next. segment ≤ next) }
    ensures begun { IfOk result (λ next. 0 < next) }
{
    if segment >= LAST_SEGMENT {
        return Err(DeviceFault::Device);
    }
    let next = segment + 1;
    let path = path_of(alloc, next)?;
    let found = device.read_part(alloc, path.as_str(), 0, 0)?;
    if found.is_some() {
        return Err(DeviceFault::Device);
    }
    Ok(next)
}

/// The segment to begin after this one: the same, if it is one and has no bytes, or else the next, which does not exist.
pub(crate) fn segment_after<D: Device>(
    device: &D,
    alloc: Global,
    segment: u32,
) -> Result<u32, DeviceFault>
    ensures empty { IsTrue (D.honest device.now) → IfOk result (λ next. length (segment_of (files_of (D.past device.now)) next) ≡ 0) }
    ensures later { IfOk result (λ next. segment ≤ next) }
    ensures begun { IfOk result (λ next. 0 < next) }
{
    if segment == 0 {
        return next_segment(device, alloc, 0);
    }
    if !is_blank(device, alloc, segment)? {
        return next_segment(device, alloc, segment);
    }
    Ok(segment)
}
