ghost use Rattle.std.specs.Prelude.{◌≡◌, ◌≢◌, ◌++◌, List, ℕ, IfOk, IfErr, codes, map};
ghost use Rattle.std.specs.List.{flat_map, AllByRecursion};
ghost use Rattle.git_name.specs.Name.{IsName};
ghost use Rattle.git_name.specs.Text.{ended};
ghost use Rattle.git_commit.specs.Commit.{parent_line};
ghost use Rattle.std.proofs.Props.{props};
ghost use Rattle.git_commit.specs.Parents.{AreParentLines};
ghost use Rattle.git_header.specs.Judging.{IsFirstFault};
ghost use Rattle.git_commit.specs.Fault.{AfterTree, commit_grammar};

use crate::fault::CommitFault;
use git_header::{after_word, take_name};
use git_name::Name;

/// The names of a commit's parents, in order, borrowed from its bytes.
#[derive(Clone, Copy, Debug)]
pub struct Parents<'a> {
    rest: &'a [u8],
    pub ghost row: { AreParentLines rest.now } by { Prim.hlevel props },
}

impl<'a> Iterator for Parents<'a> {
    ghost use Rattle.std.specs.Iterator.{YieldsFirst, item_count};
    ghost use Rattle.git_commit.specs.Parents.{parents_spelled};

    type Item = Name;

    ghost next_gives = { YieldsFirst (λ s. parents_spelled s.rest.now) };

    ghost remaining = { item_count (λ s. parents_spelled s.rest.now) };

    fn next(&mut self) -> Option<Name> {
        if self.rest.is_empty() {
            return None;
        }
        let Ok(taken) = take_name(b"parent ", self.rest) else {
            unreachable!();
        };
        self.rest = taken.1;
        Some(taken.0)
    }
}

// Takes the lines of parents at the start. Returns them and what follows.
fn take_parents(text: &[u8]) -> Result<(&[u8], &[u8]), CommitFault>
    ensures found { IfOk result (λ p. AreParentLines p.0.now) }
    ensures parts { IfOk result (λ p. text.now ≡ p.0.now ++ p.1.now) }
    ensures last { IfOk result (λ p. (line : List ℕ) → p.1.now ≢ codes "parent " ++ line) }
    ensures exact { IfErr result (λ why. IsFirstFault commit_grammar AfterTree why text.now) }
{
    let mut rest = text;
    'lines: while let Some(_) = after_word(b"parent ", rest) {
        let (_, after) = match take_name(b"parent ", rest) {
            Ok(taken) => taken,
            Err(fault) => return Err(fault),
        };
        rest = after;
    }
    Ok((&text[..text.len() - rest.len()], rest))
}

impl<'a> Parents<'a> {
    ghost use Rattle.git_commit.specs.Left.{parents_left};

    // Takes the parents at the start. Returns them and what follows.
    pub(crate) fn take(text: &'a [u8]) -> Result<(Parents<'a>, &'a [u8]), CommitFault>
        ensures names { IfOk result (λ p. AllByRecursion IsName (parents_left p.0)) }
        ensures found { IfOk result (λ p. text.now ≡ flat_map ended (map parent_line (parents_left p.0)) ++ p.1.now) }
        ensures last { IfOk result (λ p. (line : List ℕ) → p.1.now ≢ codes "parent " ++ line) }
        ensures exact { IfErr result (λ why. IsFirstFault commit_grammar AfterTree why text.now) }
    {
        let (lines, rest) = take_parents(text)?;
        Ok((Parents { rest: lines }, rest))
    }
}
