/// How a session ends.
#[derive(Clone, Copy, Debug, PartialEq, Eq)]
pub enum Ended {
    /// The input ends after a whole frame, or is empty.
    Clean,
    /// What comes next is not a frame.
    BadFrame,
}
