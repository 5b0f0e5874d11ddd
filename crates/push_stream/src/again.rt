use git_reftx::MAX_COMMANDS;

/// The greatest length of an upload's header in bytes (own): lines of 512 bytes and LF, and an empty line.
pub const MAX_HEADER: usize = MAX_COMMANDS * 513 + 1;

/// The parts of the bytes that open an upload again. They are the header's text, the records of the sent
/// objects in order, the tail, and then `zeros` zero bytes.
#[derive(Clone, Copy, Debug)]
pub struct Again<'a> {
    pub header: &'a [u8],
    pub tail: &'a [u8],
    pub zeros: u64,
}
