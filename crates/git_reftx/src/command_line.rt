ghost use Rattle.std.specs.Prelude.{◌≡◌, ℕ, List, Some};
ghost use Rattle.git_name.specs.Text.{words_of};
ghost use Rattle.git_reftx.specs.Command.{is_zero, change_to, demand_of, names_spelled, update, create, delete, verify, command_by, command_of};
ghost use Rattle.git_reftx.specs.Shown.{asked_of, command_of_parts, few, names_shown, parts_shown};

use crate::command::{Change, Demand};
use git_name::{Name, first_word};

// The names that follow the reference in a command.
#[derive(Clone, Copy, Debug)]
pub(crate) enum Names {
    Nothing,
    One(Name),
    Two(Name, Name),
}

// Reads a command's line: the reference, what is required of it, and what becomes of it.
pub(crate) fn read_line(line: &[u8]) -> Option<(&[u8], Demand, Change)>
    ensures { parts_shown result ≡ command_of (words_of line.now) }
{
    let (verb, rest) = first_word(line)?;
    match first_word(rest) {
        Some((reference, words)) => parts_of(verb, reference, read_names(words)?),
        None => parts_of(verb, rest, Names::Nothing),
    }
}

// The parts of a command by its words. An empty reference makes no command.
fn parts_of<'a>(
    verb: &[u8],
    reference: &'a [u8],
    names: Names,
) -> Option<(&'a [u8], Demand, Change)>
    ensures { parts_shown result ≡ command_of_parts verb.now reference.now (Some (names_shown names)) }
{
    if reference.is_empty() {
        return None;
    }
    let (demand, change) = asked_by(verb, names)?;
    Some((reference, demand, change))
}

// Reads the names in the words of a text, if there are one or two.
fn read_names(text: &[u8]) -> Option<Names>
    ensures { result ≡ few (names_spelled (words_of text.now)) }
{
    let Some((digits, rest)) = first_word(text) else {
        let name = Name::parse_hex(text)?;
        return Some(Names::One(name));
    };
    let name = Name::parse_hex(digits)?;
    match first_word(rest) {
        Some(_) => None,
        None => {
            let other = Name::parse_hex(rest)?;
            Some(Names::Two(name, other))
        }
    }
}

// What the first word of a line asks for.
fn asked_by(verb: &[u8], names: Names) -> Option<(Demand, Change)>
    ensures { (reference : List ℕ) → asked_of reference result ≡ command_by verb.now reference (Some (names_shown names)) }
{
    if verb == b"update".as_slice() {
        return asked_by_update(names);
    }
    if verb == b"create".as_slice() {
        return asked_by_create(names);
    }
    if verb == b"delete".as_slice() {
        return asked_by_delete(names);
    }
    if verb == b"verify".as_slice() {
        return asked_by_verify(names);
    }
    None
}

// `NEW [OLD]`
fn asked_by_update(names: Names) -> Option<(Demand, Change)>
    ensures { (reference : List ℕ) → asked_of reference result ≡ update reference (Some (names_shown names)) }
{
    match names {
        Names::Nothing => None,
        Names::One(new) => Some((Demand::Any, change_to(new))),
        Names::Two(new, old) => Some((demand_of(old), change_to(new))),
    }
}

// `NEW`
fn asked_by_create(names: Names) -> Option<(Demand, Change)>
    ensures { (reference : List ℕ) → asked_of reference result ≡ create reference (Some (names_shown names)) }
{
    match names {
        Names::One(new) if !is_zero(new) => Some((Demand::Absent, Change::Point(new))),
        _ => None,
    }
}

// `[OLD]`
fn asked_by_delete(names: Names) -> Option<(Demand, Change)>
    ensures { (reference : List ℕ) → asked_of reference result ≡ delete reference (Some (names_shown names)) }
{
    match names {
        Names::Nothing => Some((Demand::Present, Change::Remove)),
        Names::One(old) if !is_zero(old) => Some((Demand::At(old), Change::Remove)),
        _ => None,
    }
}

// `[OLD]`
fn asked_by_verify(names: Names) -> Option<(Demand, Change)>
    ensures { (reference : List ℕ) → asked_of reference result ≡ verify reference (Some (names_shown names)) }
{
    match names {
        Names::Nothing => Some((Demand::Absent, Change::Keep)),
        Names::One(old) => Some((demand_of(old), Change::Keep)),
        Names::Two(..) => None,
    }
}

fn is_zero(name: Name) -> bool
    ensures { result ≡ is_zero name }
{
    name.as_bytes().as_slice() == [0; 32].as_slice()
}

fn change_to(name: Name) -> Change
    ensures { result ≡ change_to name }
{
    if is_zero(name) {
        Change::Remove
    } else {
        Change::Point(name)
    }
}

fn demand_of(name: Name) -> Demand
    ensures { result ≡ demand_of name }
{
    if is_zero(name) {
        Demand::Absent
    } else {
        Demand::At(name)
    }
}
