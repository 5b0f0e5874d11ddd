ghost use Rattle.std.specs.Prelude.{◌≡◌};
ghost use Rattle.git_reftx.specs.Line.{line_at};
ghost use Rattle.git_reftx.specs.Shown.{line_shown};

use git_name::split_once;

/// The greatest length of a line in bytes, without its LF.
const LONGEST: usize = 512;

/// What is at the start of a text of lines.
#[derive(Clone, Copy, Debug)]
pub enum Line<'a> {
    /// A line, and what follows its LF.
    Whole(&'a [u8], &'a [u8]),
    /// The beginning of a line that may still become valid.
    Unfinished,
    /// 513 bytes without LF.
    TooLong,
}

#[tactic(auto, unfolding(crate::specs::Line::line_at))]
/// The line at the start of a text: at most 512 bytes and LF (own). It allocates nothing.
pub fn first_line(text: &[u8]) -> Line<'_>
    ensures { line_shown result ≡ line_at text.now }
{
    match split_once(text, b'\n') {
        Some((line, behind)) if line.len() <= LONGEST => Line::Whole(line, behind),
        None if text.len() <= LONGEST => Line::Unfinished,
        _ => Line::TooLong,
    }
}
