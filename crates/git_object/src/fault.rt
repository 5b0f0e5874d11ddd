ghost use Rattle.std.specs.Prelude.{◌≡◌};

use git_header::HeaderFault;
use thiserror::Error;

/// Why bytes are not a tag: the fault of the first faulty line.
#[derive(Clone, Copy, Debug, PartialEq, Eq, Error)]
pub enum TagFault {
    /// A line that is not allowed at its place, or a header that ends too early.
    #[error("a header line is out of order or missing")]
    HeaderOrder,
    /// The line requires an object name, but has none.
    #[error("a header line has no object name")]
    Name,
    /// The tagger's line has no ident.
    #[error("a header line has no ident")]
    Ident,
    /// A line without a line feed, a further header of a wrong form, or an empty tag name.
    #[error("a header line is malformed")]
    HeaderLine,
    /// A zero byte in a header line.
    #[error("a header line contains a NUL byte")]
    ZeroByte,
    /// A type that is not one of the four words.
    #[error("a header line has no type")]
    TypeWord,
}

// Converts the faults that tags share with commits.
impl From<HeaderFault> for TagFault {
    ghost use Rattle.git_object.specs.Fault.{tag_fault};

    ghost from_gives = { λ line fault. fault ≡ tag_fault line };

    fn from(fault: HeaderFault) -> TagFault {
        match fault {
            HeaderFault::HeaderOrder => TagFault::HeaderOrder,
            HeaderFault::Name => TagFault::Name,
            HeaderFault::Ident => TagFault::Ident,
            HeaderFault::HeaderLine => TagFault::HeaderLine,
            HeaderFault::ZeroByte => TagFault::ZeroByte,
        }
    }
}
