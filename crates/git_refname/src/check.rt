ghost use Rattle.std.specs.Prelude.{◌≡◌, ◌≤◌, Some, OnOk, IfErr, length};
ghost use Rattle.git_refname.specs.declared.name.TheConstants.{MAX_REF_NAME};
ghost use Rattle.git_refname.specs.Marks.{marks_of};
ghost use Rattle.git_refname.specs.Rule.{IsRefName, breaks, least_broken_rule};

use crate::marks::Marks;
use crate::name::MAX_REF_NAME;
use crate::rule::Rule;

// The rules in their order.
const RULES: [Rule; 12] = [
    Rule::Component,
    Rule::OneLevel,
    Rule::TwoDots,
    Rule::Unprintable,
    Rule::Pattern,
    Rule::Slashes,
    Rule::LastDot,
    Rule::AtBrace,
    Rule::LoneAt,
    Rule::Backslash,
    Rule::OutsideRefs,
    Rule::TooLong,
];

#[tactic(auto, unfolding(crate::specs::Rule::least_broken_rule))]
// The first rule that the name breaks. The name is read once.
pub(crate) fn check(text: &[u8]) -> Result<(), Rule>
    ensures ok { OnOk result (IsRefName text.now) }
    ensures short { OnOk result (length text.now ≤ MAX_REF_NAME) }
    ensures broken { IfErr result (λ rule. least_broken_rule text.now ≡ Some rule) }
{
    let marks = marks_in(text);
    for rule in RULES {
        if breaks(marks, text, rule) {
            return Err(rule);
        }
    }
    Ok(())
}

// The marks in the text: all that decides a rule wherever it occurs.
fn marks_in(text: &[u8]) -> Marks
    ensures { result ≡ marks_of text.now }
{
    let mut marks = Marks::new();
    for (at, byte) in text.iter().enumerate() {
        marks = marks.with(&text[..at + 1], *byte);
    }
    marks
}

// Whether the name breaks the rule.
fn breaks(marks: Marks, name: &[u8], rule: Rule) -> bool
    requires { marks ≡ marks_of name.now }
    ensures { result ≡ breaks name.now rule }
{
    match rule {
        Rule::Component => {
            name.starts_with(b".") | marks.dot | name.ends_with(b".lock") | marks.lock
        }
        Rule::OneLevel => !marks.slash,
        Rule::TwoDots => marks.two_dots,
        Rule::Unprintable => marks.unprintable,
        Rule::Pattern => marks.pattern,
        Rule::Slashes => name.starts_with(b"/") | name.ends_with(b"/") | marks.two_slashes,
        Rule::LastDot => name.ends_with(b"."),
        Rule::AtBrace => marks.at_brace,
        Rule::LoneAt => name == b"@".as_slice(),
        Rule::Backslash => marks.backslash,
        Rule::OutsideRefs => !name.starts_with(b"refs/"),
        Rule::TooLong => name.len() > MAX_REF_NAME,
    }
}
