// The links that a walk follows.
ghost use Rattle.std.specs.Prelude.{◌≡◌, get_or};
ghost use Rattle.number_links.specs.Facts.{goes_from, parents_from, time_beside};

use crate::times::Times;

/// The links that a walk follows.
#[derive(Clone, Copy)]
pub enum Along {
    /// All links.
    Links,
    /// Only the parents of commits.
    Parents,
}

// The time to keep for a number with these links. A number without links has 0.
pub(crate) fn time_beside(to: &[u32], word: u64) -> u64
    ensures { result ≡ time_beside to.now word }
{
    if to.is_empty() {
        return 0;
    }
    word
}

// The parents among these links. A commit's first link is its tree, and the others are its parents.
fn parents_from(to: &[u32], time: u64) -> &[u32]
    ensures { result.now ≡ parents_from to.now time }
{
    if to.is_empty() {
        return &[];
    }
    if time == 0 {
        return &[];
    }
    &to[1..]
}

// The links that a walk follows from a number with these links.
pub(crate) fn goes_from<'a>(times: &Times, along: Along, to: &'a [u32], n: u32) -> &'a [u32]
    ensures { result.now ≡ goes_from along to.now (get_or times.now n 0) }
{
    match along {
        Along::Links => to,
        Along::Parents => parents_from(to, times.at(n)),
    }
}
