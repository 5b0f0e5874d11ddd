use thiserror::Error;

/// What is wrong with a header: the fault of a line, or an end that comes too early.
#[derive(Clone, Copy, Debug, PartialEq, Eq, Error)]
pub enum HeaderFault {
    /// A line that is not allowed at its place, or a header that ends too early.
    #[error("a header line is out of order or missing")]
    HeaderOrder,
    /// The line requires an object name, but has none.
    #[error("a header line has no object name")]
    Name,
    /// The line requires an ident, but has none.
    #[error("a header line has no ident")]
    Ident,
    /// A line without a line feed, or a further header of a wrong form.
    #[error("a header line is malformed")]
    HeaderLine,
    /// A zero byte in a header line.
    #[error("a header line contains a NUL byte")]
    ZeroByte,
}
