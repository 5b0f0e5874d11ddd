// What the segments of a device have.
ghost use Rattle.std.specs.Prelude.{◌≡◌, ◌+◌, ◌<◌, ◌≤◌, ℕ, IsTrue, IfOk, IfSome, IfNone, OnOk, None, drop, false, true, length};
ghost use Rattle.devices.specs.Device.{Files, files_of};
ghost use Rattle.packed_store.specs.Opening.{Adds, AreNumbersWithin, Surveys, listed};
ghost use Rattle.packed_store.specs.Place.{IsNumbered, bytes_of, segment_of};
ghost use Rattle.packed_store.specs.Stored.{AllWritten, IsPart};
ghost use Rattle.packed_store.specs.Survey.{shown_in};
ghost use Rattle.packed_store.specs.Numbered.{IsCalled};
ghost use Rattle.packed_store.specs.Taking.{Reads, ReadsAll, Takes, seen_in};

use crate::found::Found;
use crate::place::{MAX_FILE, SEGMENTS, path_of};
use devices::{Device, DeviceFault};
use std::alloc::Global;
use std::str;

// The most bytes that are read at once: at least as many as any record has.
const WINDOW: u32 = 16_777_216;

/// The last segment, how many bytes it has, and whether its end is no whole record.
#[derive(Clone, Copy, Debug)]
pub(crate) struct Last {
    pub(crate) segment: u32,
    pub(crate) end: u32,
    pub(crate) is_torn: bool,
}

/// The last segment, the first one, and how many bytes all of them have.
#[derive(Clone, Copy, Debug)]
pub(crate) struct Extent {
    pub(crate) last: Last,
    pub(crate) first: u32,
    pub(crate) total: u64,
}

// A file has at least so many bytes, and fewer than so many.
#[derive(Clone, Copy)]
struct Between {
    least: u32,
    more: u32,
}

/// Whether a file has at least so many bytes.
pub(crate) fn has_bytes<D: Device>(
    device: &D,
    alloc: Global,
    path: &str,
    count: u32,
) -> Result<bool, DeviceFault>
    requires { 0 < count }
    ensures more { IsTrue (D.honest device.now) → IfOk result (λ has. has ≡ true → count ≤ length (bytes_of (D.past device.now) path.now)) }
    ensures fewer { IsTrue (D.honest device.now) → IfOk result (λ has. has ≡ false → length (bytes_of (D.past device.now) path.now) < count) }
{
    let found = device.read_part(alloc, path, count as u64, 0)?;
    Ok(found.is_some())
}

// Halves what is not known of the length of a file.
fn halve<D: Device>(
    device: &D,
    alloc: Global,
    path: &str,
    known: Between,
) -> Result<Between, DeviceFault>
    requires { known.least + 1 < known.more }
    ensures least { IsTrue (D.honest device.now) → known.least ≤ length (bytes_of (D.past device.now) path.now) → IfOk result (λ now. now.least ≤ length (bytes_of (D.past device.now) path.now)) }
    ensures more { IsTrue (D.honest device.now) → length (bytes_of (D.past device.now) path.now) < known.more → IfOk result (λ now. length (bytes_of (D.past device.now) path.now) < now.more) }
    ensures smaller { IfOk result (λ now. (now.least < now.more) × (now.more + known.least < known.more + now.least)) }
{
    let Between { least, more } = known;
    let middle = least + (more - least) / 2;
    if has_bytes(device, alloc, path, middle)? {
        return Ok(Between {
            least: middle,
            more,
        });
    }
    Ok(Between {
        least,
        more: middle,
    })
}

/// How many bytes a file has. One of 2^32 - 1 bytes or more is no store's.
pub(crate) fn length_of<D: Device>(
    device: &D,
    alloc: Global,
    path: &str,
) -> Result<u32, DeviceFault>
    ensures { IsTrue (D.honest device.now) → IfOk result (λ count. length (bytes_of (D.past device.now) path.now) ≡ count) }
{
    if has_bytes(device, alloc, path, u32::MAX)? {
        return Err(DeviceFault::Device);
    }
    let mut known = Between {
        least: 0,
        more: u32::MAX,
    };
    while known.more - known.least > 1 {
        known = halve(device, alloc, path, known)?;
    }
    Ok(known.least)
}

// Takes in the records of a segment that has so many bytes, from its first byte on. Returns whether all of them are whole.
fn survey_bytes<D: Device>(
    device: &D,
    alloc: Global,
    segment: u32,
    end: u32,
    found: &mut Found,
) -> Result<bool, DeviceFault>
    ensures written { IsTrue (D.honest device.now) → OnOk result (AllWritten (files_of (D.past device.now)) (shown_in found.old.live.entries found.old.pending.entries) → AllWritten (files_of (D.past device.now)) (shown_in found.new.live.entries found.new.pending.entries)) }
    ensures reads { IsTrue (D.honest device.now) → length (segment_of (files_of (D.past device.now)) segment) ≡ end → OnOk result (ReadsAll (segment_of (files_of (D.past device.now)) segment) segment (seen_in found.old.live.entries found.old.pending.entries found.old.is_damaged) (seen_in found.new.live.entries found.new.pending.entries found.new.is_damaged)) }
{
    let mut at: u32 = 0;
    while at < end {
        let taken = take_next(device, alloc, segment, at, end, found)?;
        if taken == 0 {
            return Ok(false);
        }
        at += taken;
    }
    Ok(!found.is_damaged)
}

// Takes in the whole records at the front of bytes that a device gave, if these are in the segment.
fn take_window(
    found: &mut Found,
    bytes: &[u8],
    segment: u32,
    at: u32,
    end: u32,
) -> Result<u32, DeviceFault>
    ensures within { IfOk result (λ taken. at + taken ≤ end) }
    ensures written { OnOk result ((files : Files) → IsPart files segment at bytes.now → AllWritten files (shown_in found.old.live.entries found.old.pending.entries) → AllWritten files (shown_in found.new.live.entries found.new.pending.entries)) }
    ensures reads { IfOk result (λ taken. Reads bytes.now segment at (seen_in found.old.live.entries found.old.pending.entries found.old.is_damaged) (seen_in found.new.live.entries found.new.pending.entries found.new.is_damaged) taken) }
    ensures ends { IfOk result (λ taken. Takes (drop taken bytes.now) segment (at + taken) (seen_in found.new.live.entries found.new.pending.entries found.new.is_damaged) (seen_in found.new.live.entries found.new.pending.entries found.new.is_damaged) None) }
{
    if at > end {
        return Err(DeviceFault::Device);
    }
    if bytes.len() > (end - at) as usize {
        return Err(DeviceFault::Device);
    }
    Ok(found.take_in(bytes, segment, at)?)
}

// How many bytes of a segment are read at once, from a byte on. Unless they are the last ones, they have room for any record.
fn window_at(at: u32, end: u32) -> u32
    requires { at < end }
    ensures within { at + result ≤ end }
    ensures long { at + result < end → MAX_FILE + 69 ≤ result }
{
    if end - at <= WINDOW {
        return end - at;
    }
    WINDOW
}

// Reads a window of a segment, and takes in the whole records at its front.
fn take_next<D: Device>(
    device: &D,
    alloc: Global,
    segment: u32,
    at: u32,
    end: u32,
    found: &mut Found,
) -> Result<u32, DeviceFault>
    requires { at < end }
    ensures within { IfOk result (λ taken. at + taken ≤ end) }
    ensures written { IsTrue (D.honest device.now) → OnOk result (AllWritten (files_of (D.past device.now)) (shown_in found.old.live.entries found.old.pending.entries) → AllWritten (files_of (D.past device.now)) (shown_in found.new.live.entries found.new.pending.entries)) }
    ensures reads { IsTrue (D.honest device.now) → IfOk result (λ taken. Reads (drop at (segment_of (files_of (D.past device.now)) segment)) segment at (seen_in found.old.live.entries found.old.pending.entries found.old.is_damaged) (seen_in found.new.live.entries found.new.pending.entries found.new.is_damaged) taken) }
    ensures ends { IsTrue (D.honest device.now) → length (segment_of (files_of (D.past device.now)) segment) ≡ end → IfOk result (λ taken. taken ≡ 0 → Takes (drop at (segment_of (files_of (D.past device.now)) segment)) segment at (seen_in found.new.live.entries found.new.pending.entries found.new.is_damaged) (seen_in found.new.live.entries found.new.pending.entries found.new.is_damaged) None) }
{
    let path = path_of(alloc, segment)?;
    let size = window_at(at, end);
    let Some(bytes) = device.read_part(alloc, path.as_str(), at as u64, size as usize)? else {
        return Err(DeviceFault::Device);
    };
    take_window(found, bytes.as_slice(), segment, at, end)
}

// Takes in the whole records of a segment.
fn survey_segment<D: Device>(
    device: &D,
    alloc: Global,
    segment: u32,
    found: &mut Found,
) -> Result<Last, DeviceFault>
    ensures written { IsTrue (D.honest device.now) → OnOk result (AllWritten (files_of (D.past device.now)) (shown_in found.old.live.entries found.old.pending.entries) → AllWritten (files_of (D.past device.now)) (shown_in found.new.live.entries found.new.pending.entries)) }
    ensures last { IsTrue (D.honest device.now) → IfOk result (λ last. length (segment_of (files_of (D.past device.now)) last.segment) ≡ last.end) }
    ensures segment { IfOk result (λ last. last.segment ≡ segment) }
    ensures reads { IsTrue (D.honest device.now) → OnOk result (ReadsAll (segment_of (files_of (D.past device.now)) segment) segment (seen_in found.old.live.entries found.old.pending.entries false) (seen_in found.new.live.entries found.new.pending.entries found.new.is_damaged)) }
{
    found.begin_segment();
    let path = path_of(alloc, segment)?;
    let end = length_of(device, alloc, path.as_str())?;
    let is_whole = survey_bytes(device, alloc, segment, end, found)?;
    Ok(Last {
        segment,
        end,
        is_torn: !is_whole,
    })
}

// The number that eight digits write. The first segment is 1.
fn number_of(called: &[u8]) -> Option<u32>
    ensures found { IfSome result (λ segment. IsNumbered called.now segment) }
    ensures none { IfNone result ((segment : ℕ) → IsNumbered called.now segment → ⊥) }
{
    if called.len() != 8 {
        return None;
    }
    if called[0] == b'+' {
        return None;
    }
    let Ok(digits) = str::from_utf8(called) else {
        return None;
    };
    let Ok(number) = digits.parse::<u32>() else {
        return None;
    };
    if number == 0 {
        return None;
    }
    Some(number)
}

// Takes in the whole records of a segment, if one is called so.
fn survey_called<D: Device>(
    device: &D,
    alloc: Global,
    called: &[u8],
    found: &mut Found,
) -> Result<Option<Last>, DeviceFault>
    ensures written { IsTrue (D.honest device.now) → OnOk result (AllWritten (files_of (D.past device.now)) (shown_in found.old.live.entries found.old.pending.entries) → AllWritten (files_of (D.past device.now)) (shown_in found.new.live.entries found.new.pending.entries)) }
    ensures last { IsTrue (D.honest device.now) → IfOk result (λ next. IfSome next (λ last. length (segment_of (files_of (D.past device.now)) last.segment) ≡ last.end)) }
    ensures called { IfOk result (λ next. (n : ℕ) → IsNumbered called.now n → IsCalled next n) }
    ensures begun { IfOk result (λ next. IfSome next (λ last. 0 < last.segment)) }
    ensures adds { IsTrue (D.honest device.now) → OnOk result (Adds (files_of (D.past device.now)) called.now (shown_in found.old.live.entries found.old.pending.entries) (shown_in found.new.live.entries found.new.pending.entries)) }
{
    let Some(segment) = number_of(called) else {
        return Ok(None);
    };
    let last = survey_segment(device, alloc, segment, found)?;
    Ok(Some(last))
}

// How many bytes a segment has, if it is one.
fn bytes_in(next: Option<Last>) -> u64 {
    match next {
        Some(last) => last.end as u64,
        None => 0,
    }
}

// The least number of a segment, of the one so far and that of the next one.
fn first_of(first: u32, next: Option<Last>) -> u32
    ensures least { result ≤ first }
    ensures within { IfSome next (λ one. result ≤ one.segment) }
{
    match next {
        Some(last) => first.min(last.segment),
        None => first,
    }
}

// The segment with the greatest number, of the one so far and the next one.
fn last_of(last: Last, next: Option<Last>) -> Last
    ensures most { last.segment ≤ result.segment }
    ensures within { IfSome next (λ one. one.segment ≤ result.segment) }
    ensures begun { (last.is_torn ≡ false → 0 < last.segment) → IfSome next (λ one. 0 < one.segment) → result.is_torn ≡ false → 0 < result.segment }
    ensures counted { (files : Files) → (last.is_torn ≡ false → length (segment_of files last.segment) ≡ last.end) → IfSome next (λ one. length (segment_of files one.segment) ≡ one.end) → result.is_torn ≡ false → length (segment_of files result.segment) ≡ result.end }
{
    let Some(one) = next else {
        return last;
    };
    if one.segment < last.segment {
        return last;
    }
    one
}

/// Takes in the whole records of all segments, in the order of their numbers. Returns their extent.
pub(crate) fn survey<D: Device>(
    device: &D,
    alloc: Global,
    found: &mut Found,
) -> Result<Extent, DeviceFault>
    ensures written { IsTrue (D.honest device.now) → OnOk result (AllWritten (files_of (D.past device.now)) (shown_in found.old.live.entries found.old.pending.entries) → AllWritten (files_of (D.past device.now)) (shown_in found.new.live.entries found.new.pending.entries)) }
    ensures surveys { IsTrue (D.honest device.now) → OnOk result (Surveys (files_of (D.past device.now)) (listed (files_of (D.past device.now))) (shown_in found.old.live.entries found.old.pending.entries) (shown_in found.new.live.entries found.new.pending.entries)) }
    ensures within { IsTrue (D.honest device.now) → IfOk result (λ extent. AreNumbersWithin (listed (files_of (D.past device.now))) extent.first extent.last.segment) }
    ensures ahead { IfOk result (λ extent. (n : ℕ) → extent.last.segment ≤ n → 0 < n → extent.first ≤ n) }
    ensures begun { IfOk result (λ extent. extent.last.is_torn ≡ false → 0 < extent.last.segment) }
    ensures last { IsTrue (D.honest device.now) → IfOk result (λ extent. extent.last.is_torn ≡ false → length (segment_of (files_of (D.past device.now)) extent.last.segment) ≡ extent.last.end) }
{
    let mut last = Last {
        segment: 0,
        end: 0,
        is_torn: true,
    };
    let mut first = u32::MAX;
    let mut total: u64 = 0;
    let listing = device.list(alloc, SEGMENTS)?;
    for called in listing.iter() {
        let next = survey_called(device, alloc, called.as_slice(), found)?;
        total = total.saturating_add(bytes_in(next));
        first = first_of(first, next);
        last = last_of(last, next);
    }
    let first = first.min(last.segment.max(1));
    Ok(Extent { last, first, total })
}
