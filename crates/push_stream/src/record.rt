ghost use Rattle.std.specs.Prelude.{◌≡◌, ◌≤◌, ◌<◌, ◌+◌, IfOk, IfErr, IfSome};
ghost use Rattle.git_name.specs.Kind.{kind_of_word};
ghost use Rattle.git_name.specs.Name.{name_in};
ghost use Rattle.git_name.specs.Number.{number_in};
ghost use Rattle.git_name.specs.Text.{words_of};
ghost use Rattle.push_stream.specs.Gaining.{Awaits};
ghost use Rattle.push_stream.specs.Record.{Taken, head_of_parts, head_of_words, content_at, parts_at, record_at};
ghost use Rattle.push_stream.specs.Shown.{record_parts_shown, TellsRecord};

use crate::content_limit::MAX_CONTENT;
use crate::fault::{BodyError, StreamFault};
use git_name::{Kind, Name, Sealed, decimal, first_word, seal};
use git_object::Object;
use git_reftx::{Line, first_line};
use std::alloc::Global;

// What a record's line says.
#[derive(Clone, Copy, Debug)]
pub(crate) struct Head {
    name: Name,
    kind: Kind,
    size: u64,
}

// The parts of the record at the start of a text.
#[derive(Clone, Copy, Debug)]
pub(crate) enum Parts<'a> {
    // What its line says, the content, and what follows its last LF.
    Whole(Head, &'a [u8], &'a [u8]),
    // The beginning of a record that may still become valid, or an empty text.
    Open,
    // What is wrong with it.
    Wrong(StreamFault),
}

#[tactic(auto, unfolding(crate::specs::Record::record_at))]
// Takes the record at the start of a text. Returns its object and what follows.
pub(crate) fn take_record(alloc: Global, text: &[u8]) -> Result<(Sealed, &[u8]), BodyError>
    ensures taken { IfOk result (λ p. record_at text.now ≡ Taken p.0 p.1.now) }
    ensures exact { IfErr result (TellsRecord (record_at text.now)) }
{
    match first_parts(text) {
        Parts::Whole(head, content, behind) => {
            let Ok(bytes) = content.to_vec(alloc) else {
                return Err(BodyError::Memory);
            };
            let sealed = seal(head.kind, bytes);
            if sealed.name() != head.name {
                return Err(BodyError::Fault(StreamFault::WrongName(head.name)));
            }
            if Object::read(head.kind, sealed.bytes()).is_err() {
                return Err(BodyError::Fault(StreamFault::BadObject(head.name)));
            }
            Ok((sealed, behind))
        }
        Parts::Open => Err(BodyError::Fault(StreamFault::Truncated)),
        Parts::Wrong(fault) => Err(BodyError::Fault(fault)),
    }
}

#[tactic(auto, unfolding(crate::specs::Record::parts_at))]
// The parts of the record at the start of a text.
fn first_parts(text: &[u8]) -> Parts<'_>
    ensures { record_parts_shown result ≡ parts_at text.now }
{
    match first_line(text) {
        Line::Whole(line, behind) => match read_head(line) {
            Some(head) => take_content(head, behind),
            None => Parts::Wrong(StreamFault::Syntax),
        },
        Line::Unfinished => Parts::Open,
        Line::TooLong => Parts::Wrong(StreamFault::Syntax),
    }
}

// Reads a record's line.
fn read_head(line: &[u8]) -> Option<Head>
    ensures { result ≡ head_of_words (words_of line.now) }
{
    let (digits, rest) = first_word(line)?;
    let (word, number) = first_word(rest)?;
    match first_word(number) {
        Some(_) => None,
        None => head_of(digits, word, number),
    }
}

fn head_of(digits: &[u8], word: &[u8], number: &[u8]) -> Option<Head>
    ensures { result ≡ head_of_parts (name_in digits.now) (kind_of_word word.now) (number_in number.now) }
{
    let name = Name::parse_hex(digits)?;
    let kind = Kind::from_word(word)?;
    let size = decimal(number)?;
    Some(Head { name, kind, size })
}

// Takes the content after a record's line, and the LF that ends it.
fn take_content(head: Head, text: &[u8]) -> Parts<'_>
    ensures { record_parts_shown result ≡ content_at head text.now }
{
    if head.size > MAX_CONTENT as u64 {
        return Parts::Wrong(StreamFault::TooLarge(head.name));
    }
    let size = head.size as usize;
    if text.len() <= size {
        return Parts::Open;
    }
    let (content, behind) = text.split_at(size);
    match behind {
        [b'\n', behind @ ..] => Parts::Whole(head, content, behind),
        _ => Parts::Wrong(StreamFault::Syntax),
    }
}

// The record at the start of a text stays unfinished until the text has this many bytes. Returns 0 if the
// record's line is incomplete.
pub(crate) fn awaited(text: &[u8]) -> usize
    ensures { Awaits text.now result }
{
    match first_line(text) {
        Line::Whole(line, _) => match read_head(line) {
            Some(head) => awaited_behind(line.len(), head),
            None => 0,
        },
        Line::Unfinished => 0,
        Line::TooLong => 0,
    }
}

// The length of a record whose line has `line` bytes, with its two LF.
fn awaited_behind(line: usize, head: Head) -> usize
    requires { line ≤ 512 }
    ensures whole { head.size ≤ MAX_CONTENT → result ≡ line + 2 + head.size }
    ensures large { MAX_CONTENT < head.size → result ≡ 0 }
{
    if head.size <= MAX_CONTENT as u64 {
        return line + 2 + head.size as usize;
    }
    0
}
