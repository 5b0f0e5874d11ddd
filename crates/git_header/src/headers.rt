ghost use Rattle.std.proofs.Props.{props};
ghost use Rattle.git_header.specs.Row.{AreHeaders};
ghost use Rattle.std.specs.Prelude.{◌≡◌, ◌++◌, IfOk, IfErr};
ghost use Rattle.std.specs.List.{flat_map, AllByRecursion};
ghost use Rattle.git_header.specs.Header.{IsHeader, NoHeader, header_grammar, header_lines, kind_at};
ghost use Rattle.git_header.specs.Judging.{IsFirstFault};
ghost use Rattle.git_name.specs.Text.{ended};
ghost use Rattle.git_header.specs.Line.{IsEnding, ending};

use crate::fault::HeaderFault;
use crate::header::Header;
use crate::line::{is_ending, message_in};

// Takes the lines of further headers at the start, up to the header's end. Returns them and what follows.
fn take_lines<const KIND: u8>(text: &[u8]) -> Result<(&[u8], &[u8]), HeaderFault>
    ensures found { IfOk result (λ p. AreHeaders (kind_at KIND) p.0.now) }
    ensures parts { IfOk result (λ p. text.now ≡ p.0.now ++ p.1.now) }
    ensures last { IfOk result (λ p. IsEnding p.1.now) }
    ensures exact { IfErr result (λ why. IsFirstFault (header_grammar (kind_at KIND)) NoHeader why text.now) }
{
    let mut rest = text;
    'headers: while !is_ending(rest) {
        let (_, after) = Header::<KIND>::take(rest)?;
        rest = after;
    }
    Ok((&text[..text.len() - rest.len()], rest))
}

/// The further headers of a commit or a tag, in order, borrowed from its bytes.
#[derive(Clone, Copy, Debug)]
pub struct Headers<'a, const KIND: u8> {
    rest: &'a [u8],
    pub ghost row: { AreHeaders (kind_at KIND) rest.now } by { Prim.hlevel props },
}

impl<'a, const KIND: u8> Iterator for Headers<'a, KIND> {
    ghost use Rattle.std.specs.Iterator.{YieldsFirstBy, item_count};
    ghost use Rattle.git_header.specs.Left.{header_of, headers_left};
    ghost use Rattle.git_header.specs.Row.{headers_in};

    type Item = Header<'a, KIND>;

    ghost next_gives = { YieldsFirstBy header_of (λ s. headers_in s.rest.now) };

    ghost remaining = { item_count (λ s. headers_in s.rest.now) };

    fn next(&mut self) -> Option<Header<'a, KIND>> {
        if self.rest.is_empty() {
            return None;
        }
        let Ok(taken) = Header::take(self.rest) else {
            unreachable!();
        };
        self.rest = taken.1;
        Some(taken.0)
    }
}

impl<'a, const KIND: u8> Headers<'a, KIND> {
    ghost use Rattle.git_header.specs.Left.{headers_left};
    ghost use Rattle.git_header.specs.Lent.{message_of};

    /// Takes the further headers in the text, and the message after them. `None` is no message, which differs
    /// from an empty one.
    pub fn take(text: &'a [u8]) -> Result<(Headers<'a, KIND>, Option<&'a [u8]>), HeaderFault>
        ensures right { IfOk result (λ p. AllByRecursion (IsHeader (kind_at KIND)) (headers_left p.0)) }
        ensures found { IfOk result (λ p. text.now ≡ flat_map ended (flat_map header_lines (headers_left p.0)) ++ ending (message_of p.1)) }
        ensures exact { IfErr result (λ why. IsFirstFault (header_grammar (kind_at KIND)) NoHeader why text.now) }
    {
        let (lines, rest) = take_lines::<KIND>(text)?;
        Ok((Headers { rest: lines }, message_in(rest)))
    }
}
