ghost use Rattle.std.specs.Prelude.{◌≡◌, ◌≢◌, ◌∷◌, ◌++◌, ◌↔◌, IsTrue, All, IfOk, IfErr, List, ℕ, map};
ghost use Rattle.std.specs.List.{AllByRecursion, flat_map};
ghost use Rattle.std.proofs.Props.{props};
ghost use Rattle.git_header.specs.Header.{IsPlain, IsKey, IsHeader, NoHeader, header_grammar, header_lines, kind_at};
ghost use Rattle.git_header.specs.Judging.{IsFirstFault};
ghost use Rattle.git_name.specs.Text.{ended};
ghost use Rattle.git_header.specs.Line.{IsEnding};
ghost use Rattle.git_header.specs.More.{more_of};
ghost use Rattle.git_header.specs.declared.fault.HeaderFault.TheVariants as fault;

use crate::continuation::{Continuation, take_more};
use crate::fault::HeaderFault;
use crate::kind::is_own_word;
use crate::line::{cut, take_line};
use memchr::{memchr, memchr2};

/// A further header of a commit or a tag, as the parameter says: its key, its value and the values of its
/// continuation lines. A value of this type is always valid.
#[derive(Clone, Copy, Debug)]
pub struct Header<'a, const KIND: u8> {
    key: &'a [u8],
    value: &'a [u8],
    more: Continuation<'a>,
    pub ghost right: { IsHeader (kind_at KIND) (record { key = key.now; value = value.now; more = more_of more.rest }) } by { Prim.hlevel props },
}

// Whether the bytes hold no line feed and no zero byte.
fn is_plain(bytes: &[u8]) -> bool
    ensures { IsTrue result ↔ IsPlain bytes.now }
{
    memchr2(b'\n', 0, bytes).is_none()
}

// Whether each of the values is plain.
fn all_plain(values: &[&[u8]]) -> bool
    ensures { IsTrue result ↔ All (λ value. IsPlain value.now) values.now }
{
    for value in values {
        if !is_plain(value) {
            return false;
        }
    }
    true
}

// Whether each of the values is plain, by recursion over the list.
fn are_plain(values: &[&[u8]]) -> bool
    ensures { IsTrue result ↔ AllByRecursion IsPlain (map (λ value. value.now) values.now) }
{
    all_plain(values)
}

// Whether the bytes may be the key of a further header.
fn is_key<const KIND: u8>(key: &[u8]) -> bool
    ensures { IsTrue result ↔ IsKey (kind_at KIND) key.now }
{
    if key.is_empty() || memchr(b' ', key).is_some() {
        return false;
    }
    is_plain(key) && !is_own_word::<KIND>(key)
}

impl<'a, const KIND: u8> Header<'a, KIND> {
    ghost use Rattle.git_header.specs.Left.{header_of, more_left};

    /// Builds a further header from its parts. Each of `more` becomes a continuation line.
    pub fn new(
        key: &'a [u8],
        value: &'a [u8],
        more: &'a [&'a [u8]],
    ) -> Result<Header<'a, KIND>, HeaderFault>
        ensures found { IfOk result (λ header. header_of header ≡ record { key = key.now; value = value.now; more = map (λ value. value.now) more.now }) }
        ensures exact { IfErr result (λ why. (why ≡ fault.HeaderLine) × (IsHeader (kind_at KIND) (record { key = key.now; value = value.now; more = map (λ value. value.now) more.now }) → ⊥)) }
    {
        if !is_key::<KIND>(key) || !is_plain(value) || !are_plain(more) {
            return Err(HeaderFault::HeaderLine);
        }
        let more = Continuation::of_values(more);
        Ok(Header { key, value, more })
    }

    // Takes the further header at the start, with its continuation lines. Returns it and what follows.
    pub(crate) fn take(text: &'a [u8]) -> Result<(Header<'a, KIND>, &'a [u8]), HeaderFault>
        requires { IsEnding text.now → ⊥ }
        ensures header { IfOk result (λ p. IsHeader (kind_at KIND) (header_of p.0)) }
        ensures parts { IfOk result (λ p. text.now ≡ flat_map ended (header_lines (header_of p.0)) ++ p.1.now) }
        ensures last { IfOk result (λ p. (line : List ℕ) → p.1.now ≢ 32 ∷ line) }
        ensures exact { IfErr result (λ why. IsFirstFault (header_grammar (kind_at KIND)) NoHeader why text.now) }
    {
        let (line, rest) = take_line(text)?;
        let Some((key, value)) = cut(b' ', line) else {
            return Err(HeaderFault::HeaderLine);
        };
        if is_own_word::<KIND>(key) {
            return Err(HeaderFault::HeaderOrder);
        }
        if key.is_empty() {
            return Err(HeaderFault::HeaderLine);
        }
        let (lines, rest) = take_more(rest)?;
        let more = Continuation::of_lines(lines);
        Ok((Header { key, value, more }, rest))
    }

    /// The word that begins the header.
    pub fn key(&self) -> &'a [u8]
        ensures { result.now ≡ (header_of self.now).key }
    {
        self.key
    }

    /// The value after the key.
    pub fn value(&self) -> &'a [u8]
        ensures { result.now ≡ (header_of self.now).value }
    {
        self.value
    }

    /// The values of the continuation lines, in order.
    pub fn more(&self) -> Continuation<'a>
        ensures { more_left result ≡ (header_of self.now).more }
    {
        self.more
    }
}
