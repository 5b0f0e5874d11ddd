ghost use Rattle.std.specs.Prelude.{◌≡◌, ◌≢◌, ◌∷◌, [], ◌++◌, IfOk, IfErr, IfSome, IfNone, List, ℕ, map};
ghost use Rattle.std.proofs.Props.{props};
ghost use Rattle.git_name.specs.declared.kind.Kind.{Kind};
ghost use Rattle.git_header.specs.Header.{SomeHeader, header_grammar};
ghost use Rattle.git_header.specs.Judging.{IsFirstFault};
ghost use Rattle.git_header.specs.More.{IsMoreOf, more_of};
ghost use Rattle.git_header.specs.Row.{IsMore, more_in};

use crate::fault::HeaderFault;
use crate::line::{after_word, take_line};
use crate::more::More;

// Takes the continuation lines at the start. Returns them and what follows.
pub(crate) fn take_more(text: &[u8]) -> Result<(&[u8], &[u8]), HeaderFault>
    ensures found { IfOk result (λ p. IsMore p.0.now) }
    ensures parts { IfOk result (λ p. text.now ≡ p.0.now ++ p.1.now) }
    ensures last { IfOk result (λ p. (line : List ℕ) → p.1.now ≢ 32 ∷ line) }
    ensures exact { IfErr result (λ why. (kind : Kind) → IsFirstFault (header_grammar kind) SomeHeader why text.now) }
{
    let mut rest = text;
    'lines: while let Some(_) = after_word(b" ", rest) {
        let (_, after) = take_line(rest)?;
        rest = after;
    }
    Ok((&text[..text.len() - rest.len()], rest))
}

// The value of the first continuation line, and what follows the line.
fn first_value(text: &[u8]) -> Option<(&[u8], &[u8])>
    requires { IsMore text.now }
    ensures some { IfSome result (λ p. more_in text.now ≡ p.0.now ∷ more_in p.1.now) }
    ensures rest { IfSome result (λ p. IsMore p.1.now) }
    ensures none { IfNone result (more_in text.now ≡ []) }
{
    if text.is_empty() {
        return None;
    }
    let Ok(taken) = take_line(text) else {
        unreachable!();
    };
    Some((&taken.0[1..], taken.1))
}

/// The values of the continuation lines of a further header, in order.
#[derive(Clone, Copy, Debug)]
pub struct Continuation<'a> {
    rest: More<'a>,
    pub ghost right: { IsMoreOf rest } by { Prim.hlevel props },
}

impl<'a> Continuation<'a> {
    ghost use Rattle.git_header.specs.Left.{more_left};

    // The values of the continuation lines in the bytes.
    pub(crate) fn of_lines(text: &'a [u8]) -> Continuation<'a>
        requires { IsMore text.now }
        ensures { more_left result ≡ more_in text.now }
    {
        Continuation {
            rest: More::Text(text),
        }
    }

    // The values, given one by one.
    pub(crate) fn of_values(values: &'a [&'a [u8]]) -> Continuation<'a>
        ensures { more_left result ≡ map (λ value. value.now) values.now }
    {
        Continuation {
            rest: More::Values(values),
        }
    }
}

impl<'a> Iterator for Continuation<'a> {
    ghost use Rattle.std.specs.Iterator.{YieldsFirstBy, item_count};
    ghost use Rattle.git_header.specs.More.{more_of};

    type Item = &'a [u8];

    ghost next_gives = { YieldsFirstBy (λ value. value.now) (λ s. more_of s.rest) };

    ghost remaining = { item_count (λ s. more_of s.rest) };

    fn next(&mut self) -> Option<&'a [u8]> {
        match self.rest {
            More::Text(text) => {
                let Some(taken) = first_value(text) else {
                    return None;
                };
                self.rest = More::Text(taken.1);
                Some(taken.0)
            }
            More::Values(values) => {
                let [first, rest @ ..] = values else {
                    return None;
                };
                self.rest = More::Values(rest);
                Some(*first)
            }
        }
    }
}
