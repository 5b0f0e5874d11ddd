use thiserror::Error;

/// A rule of reference names. They are checked in this order (git-check-ref-format(1); the last two
/// are own).
#[derive(Clone, Copy, Debug, PartialEq, Eq, Error)]
pub enum Rule {
    #[error("a component begins with `.` or ends in `.lock`")]
    Component,
    #[error("the name has no `/`")]
    OneLevel,
    #[error("the name holds `..`")]
    TwoDots,
    #[error("the name holds a control byte, DEL, SP, `~`, `^` or `:`")]
    Unprintable,
    #[error("the name holds `?`, `*` or `[`")]
    Pattern,
    #[error("the name begins or ends with `/`, or holds `//`")]
    Slashes,
    #[error("the name ends with `.`")]
    LastDot,
    #[error("the name holds `@{{`")]
    AtBrace,
    #[error("the name is the single `@`")]
    LoneAt,
    #[error("the name holds a backslash")]
    Backslash,
    #[error("the name does not begin with `refs/`")]
    OutsideRefs,
    #[error("the name has more than 255 bytes")]
    TooLong,
}
