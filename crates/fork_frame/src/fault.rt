/// Why no frame could be read.
#[derive(Clone, Copy, Debug, PartialEq, Eq)]
pub enum FrameFault {
    /// The reader failed.
    Read,
    /// Memory for the payload ran out.
    Memory,
}

/// Why a reply was not sent.
#[derive(Clone, Copy, Debug, PartialEq, Eq)]
pub enum ReplyFault {
    /// Memory for the reply's bytes ran out; nothing was written.
    Memory,
    /// The writer failed. It may have written a prefix of the frame.
    Write,
}
