ghost use Rattle.std.specs.Prelude.{◌≡◌, IfOk, string_bytes};
ghost use Rattle.packed_store.specs.Place.{segment_path};

use itoa::Buffer;
use std::alloc::{AllocError, Global};

/// The longest file: 8 MiB of content, and the header of an object.
pub(crate) const MAX_FILE: usize = 8_388_608 + 15;

/// An object's file of fewer bytes has a short title.
pub(crate) const SHORT: u32 = 32_768;

/// The bytes of a record before its own: the kind, the length and the name.
pub(crate) const TITLE: u32 = 37;

/// The bytes of a short title.
pub(crate) const SHORT_TITLE: u32 = 34;

/// The greatest number of a segment.
pub(crate) const LAST_SEGMENT: u32 = 99_999_999;

/// The folder of the segments.
pub(crate) const SEGMENTS: &str = "segments/";

// How many bytes the path of a segment has.
const PATH_LENGTH: usize = 17;

/// Where the bytes of a record are that come after its title: in which segment, from which byte on, and how many they are.
#[derive(Clone, Copy, Debug, Drop)]
pub(crate) struct Place {
    pub(crate) segment: u32,
    pub(crate) at: u32,
    pub(crate) len: u32,
}

/// The path of a segment.
pub(crate) fn path_of(alloc: Global, segment: u32) -> Result<String, AllocError>
    ensures { IfOk result (λ path. string_bytes path ≡ segment_path segment) }
{
    let mut buffer = Buffer::new();
    let digits = buffer.format(segment);
    let mut path = String::with_capacity(alloc, PATH_LENGTH)?;
    path.push_str(SEGMENTS)?;
    for _ in 0..8usize.saturating_sub(digits.len()) {
        path.push_str("0")?;
    }
    path.push_str(digits)?;
    Ok(path)
}
