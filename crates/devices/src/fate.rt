/// What a loss of power does to one effect of a device, if it was not synced.
#[derive(Clone, Copy, Debug, PartialEq, Eq)]
pub struct Fate {
    /// Whether the change of names stays.
    pub is_kept: bool,
    /// How many of the bytes that were written stay, from the front: all, if there are not so many. Of an append, how many
    /// of those that it and earlier ones wrote and that did not stay already.
    pub bytes: usize,
    /// How many bytes come after these in a file that the effect made.
    pub others: usize,
    /// What these are.
    pub other: u8,
}
