ghost use Rattle.std.specs.Prelude.{◌≡◌, ◌≢◌, ◌++◌, List, ℕ, IfOk, IfErr, codes, None};
ghost use Rattle.std.specs.List.{flat_map};
ghost use Rattle.git_name.specs.Name.{IsName};
ghost use Rattle.git_header.specs.Value.{word_and_name};
ghost use Rattle.git_name.specs.Text.{ended};
ghost use Rattle.git_header.specs.Line.{IsLine};
ghost use Rattle.git_header.specs.Judging.{IsFirstFault};
ghost use Rattle.git_object.specs.Tag.{IsTagName, IsTagger, type_line, tag_line, tagger_lines};
ghost use Rattle.git_object.specs.Fault.{AtObject, AtType, AtName, AtTagger, tag_grammar};
ghost use Rattle.git_object.specs.View.{tagger_of};

use crate::fault::TagFault;
use git_header::{Ident, after_word, take_ident, take_name, take_value};
use git_name::{Kind, Name};

// The name of the object in the first line, and what follows the line.
pub(crate) fn take_object(text: &[u8]) -> Result<(Name, &[u8]), TagFault>
    ensures name { IfOk result (λ p. IsName p.0) }
    ensures found { IfOk result (λ p. IsLine (word_and_name (codes "object ") p.0) p.1.now text.now) }
    ensures exact { IfErr result (λ why. IsFirstFault tag_grammar AtObject why text.now) }
{
    match take_name(b"object ", text) {
        Ok(taken) => Ok(taken),
        Err(fault) => Err(TagFault::from(fault)),
    }
}

// The kind that the object must have, in the first line, and what follows the line.
pub(crate) fn take_type(text: &[u8]) -> Result<(Kind, &[u8]), TagFault>
    ensures found { IfOk result (λ p. IsLine (type_line p.0) p.1.now text.now) }
    ensures exact { IfErr result (λ why. IsFirstFault tag_grammar AtType why text.now) }
{
    let (word, rest) = take_value(b"type ", text)?;
    let Some(kind) = Kind::from_word(word) else {
        return Err(TagFault::TypeWord);
    };
    Ok((kind, rest))
}

// The name that the tag gives itself, in the first line, and what follows the line.
pub(crate) fn take_tag_name(text: &[u8]) -> Result<(&[u8], &[u8]), TagFault>
    ensures name { IfOk result (λ p. IsTagName p.0.now) }
    ensures found { IfOk result (λ p. IsLine (tag_line p.0.now) p.1.now text.now) }
    ensures exact { IfErr result (λ why. IsFirstFault tag_grammar AtName why text.now) }
{
    let (name, rest) = take_value(b"tag ", text)?;
    if name.is_empty() {
        return Err(TagFault::HeaderLine);
    }
    Ok((name, rest))
}

// The tagger in the first line, if there is one, and what follows the line.
pub(crate) fn take_tagger(text: &[u8]) -> Result<(Option<Ident<'_>>, &[u8]), TagFault>
    ensures ident { IfOk result (λ p. IsTagger (tagger_of p.0)) }
    ensures parts { IfOk result (λ p. text.now ≡ flat_map ended (tagger_lines (tagger_of p.0)) ++ p.1.now) }
    ensures none { IfOk result (λ p. tagger_of p.0 ≡ None → (line : List ℕ) → p.1.now ≢ codes "tagger " ++ line) }
    ensures exact { IfErr result (λ why. IsFirstFault tag_grammar AtTagger why text.now) }
{
    let Some(_) = after_word(b"tagger ", text) else {
        return Ok((None, text));
    };
    let (tagger, rest) = take_ident(b"tagger ", text)?;
    Ok((Some(tagger), rest))
}
