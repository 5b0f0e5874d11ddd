ghost use Rattle.std.specs.Prelude.{◌≡◌, ◌≢◌, IfSome, IfNone};
ghost use Rattle.fork_frame.specs.declared.asker.Asker.{Asker};
ghost use Rattle.fork_frame.specs.Asker.{IsAsker, asker_word};

use crate::asker::Asker;
use fork_request::{MAX_PAYLOAD, TenantName};
use git_name::{decimal, split_once};

/// The line that begins a frame: who asks, and how many bytes the payload has.
#[derive(Debug, Drop, PartialEq, Eq)]
pub struct Line {
    pub asker: Asker,
    pub len: usize,
}

// The asker that the word names.
fn asker_of(word: &[u8]) -> Option<Asker>
    ensures found { IfSome result (λ asker. IsAsker asker × (word.now ≡ asker_word asker)) }
    ensures none { IfNone result ((asker : Asker) → IsAsker asker → word.now ≢ asker_word asker) }
{
    if word == b"@host".as_slice() {
        return Some(Asker::Host);
    }
    match TenantName::read(word) {
        Some(name) => Some(Asker::Tenant(name)),
        None => None,
    }
}

impl Line {
    ghost use Rattle.fork_frame.specs.declared.line.Line.{Line};
    ghost use Rattle.fork_frame.specs.Line.{IsFrameLine};

    /// Reads a line, given without its LF. It allocates nothing.
    pub fn read(text: &[u8]) -> Option<Line>
        ensures found { IfSome result (λ line. IsFrameLine line text.now) }
        ensures none { IfNone result ((line : Line) → ¬ IsFrameLine line text.now) }
    {
        let Some((word, digits)) = split_once(text, b' ') else {
            return None;
        };
        let Some(asker) = asker_of(word) else {
            return None;
        };
        let Some(len) = decimal(digits) else {
            return None;
        };
        if len > MAX_PAYLOAD as u64 {
            return None;
        }
        Some(Line {
            asker,
            len: len as usize,
        })
    }
}
