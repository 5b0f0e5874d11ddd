/// Why objects were not staged.
#[derive(Clone, Copy, Debug, PartialEq, Eq)]
pub enum StageFault {
    Memory,
    /// A name is not in the catalogue.
    Unlisted,
    /// A tenant holds an object with one of the names but another kind or length, or two of the objects have the same
    /// name and differ in kind or length.
    Clash,
}
