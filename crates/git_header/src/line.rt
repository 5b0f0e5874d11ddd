ghost use Rattle.std.specs.Prelude.{◌≡◌, ◌≢◌, ◌∷◌, ◌++◌, ◌↔◌, IsTrue, List, ℕ, IfSome, IfNone, IfOk, IfErr};
ghost use Rattle.git_name.specs.Text.{Lacks};
ghost use Rattle.git_header.specs.Line.{ending, IsEnding, IsLine, IsNoLine, IsNoWord};
ghost use Rattle.git_header.specs.Lent.{message_of};

use crate::fault::HeaderFault;
use memchr::memchr;

// The bytes before the first occurrence of `byte`, and those after it.
pub(crate) fn cut(byte: u8, bytes: &[u8]) -> Option<(&[u8], &[u8])>
    ensures whole { IfSome result (λ p. bytes.now ≡ p.0.now ++ byte ∷ p.1.now) }
    ensures first { IfSome result (λ p. Lacks byte p.0.now) }
    ensures none { IfNone result (Lacks byte bytes.now) }
{
    let end = memchr(byte, bytes)?;
    Some((&bytes[..end], &bytes[end + 1..]))
}

/// What follows the word, if the bytes begin with it.
pub fn after_word<'a>(word: &[u8], bytes: &'a [u8]) -> Option<&'a [u8]>
    ensures found { IfSome result (λ rest. bytes.now ≡ word.now ++ rest.now) }
    ensures none { IfNone result ((rest : List ℕ) → bytes.now ≢ word.now ++ rest) }
{
    bytes.strip_prefix(word)
}

// Whether the header ends here: at the end of the bytes, or at an empty line.
pub(crate) fn is_ending(text: &[u8]) -> bool
    ensures { IsTrue result ↔ IsEnding text.now }
{
    match text {
        [] => true,
        [first, ..] => *first == b'\n',
    }
}

// The message after the header. `None` is no message, which differs from an empty one.
pub(crate) fn message_in(text: &[u8]) -> Option<&[u8]>
    requires { IsEnding text.now }
    ensures { text.now ≡ ending (message_of result) }
{
    match text {
        [] => None,
        [_, message @ ..] => Some(message),
    }
}

// The first line of a header, without its line feed, and what follows it. A header ends at an empty
// line or at the end of the bytes.
pub(crate) fn take_line(text: &[u8]) -> Result<(&[u8], &[u8]), HeaderFault>
    ensures found { IfOk result (λ p. IsLine p.0.now p.1.now text.now) }
    ensures plain { IfOk result (λ p. Lacks 0 p.0.now) }
    ensures exact { IfErr result (λ why. IsNoLine why text.now) }
{
    if is_ending(text) {
        return Err(HeaderFault::HeaderOrder);
    }
    let Some((line, rest)) = cut(b'\n', text) else {
        return Err(HeaderFault::HeaderLine);
    };
    if memchr(0, line).is_some() {
        return Err(HeaderFault::ZeroByte);
    }
    Ok((line, rest))
}

/// What follows the required word in the first line of a header, and what follows the line.
pub fn take_value<'a>(word: &[u8], text: &'a [u8]) -> Result<(&'a [u8], &'a [u8]), HeaderFault>
    ensures found { IfOk result (λ p. IsLine (word.now ++ p.0.now) p.1.now text.now) }
    ensures plain { IfOk result (λ p. Lacks 0 (word.now ++ p.0.now)) }
    ensures exact { IfErr result (λ why. IsNoWord word.now why text.now) }
{
    let (line, rest) = take_line(text)?;
    let Some(value) = after_word(word, line) else {
        return Err(HeaderFault::HeaderOrder);
    };
    Ok((value, rest))
}
