ghost use Rattle.std.specs.Prelude.{◌≡◌, ◌≢◌, ◌∷◌, [], ℕ, List, Ok, Err, IfOk, IfErr, IfSome, IfNone, length};
ghost use Rattle.git_reftx.specs.Reading.{command_at};
ghost use Rattle.push_stream.specs.Shown.{TellsStreamFault};
ghost use Rattle.push_stream.specs.Stream.{Stream, after_command, behind, finished, no_command, records_in, stream_of};

use crate::fault::{BodyError, StreamFault};
use crate::record::take_record;
use git_name::Sealed;
use git_reftx::{Command, CommandFault, MAX_COMMANDS, ReadError, first_command};
use std::alloc::Global;

/// What a whole stream holds: its commands and its objects. Both are in the stream's order, and an
/// object that is sent twice is listed twice.
#[derive(Debug, Drop)]
pub struct Body {
    pub commands: Vec<Command>,
    pub objects: Vec<Sealed>,
}

/// Reads a whole stream from its bytes.
pub fn read_body(alloc: Global, bytes: &[u8]) -> Result<Body, BodyError>
    ensures found { IfOk result (λ body. finished (stream_of bytes.now) ≡ Ok (body.commands.items, body.objects.items)) }
    ensures exact { IfErr result (TellsStreamFault (stream_of bytes.now)) }
{
    let (commands, records) = read_header(alloc, bytes)?;
    match read_records(alloc, records) {
        Ok(objects) => Ok(Body { commands, objects }),
        Err(error) => Err(error),
    }
}

// Reads the commands. Returns them and what follows the empty line.
fn read_header(alloc: Global, bytes: &[u8]) -> Result<(Vec<Command>, &[u8]), BodyError>
    ensures found { IfOk result (λ p. stream_of bytes.now ≡ behind p.0.items [] (records_in (length p.1.now) p.1.now)) }
    ensures exact { IfErr result (TellsStreamFault (stream_of bytes.now)) }
{
    let mut commands = Vec::new(alloc);
    let mut rest = bytes;
    while !rest.is_empty() {
        if let Some(records) = behind_empty_line(rest) {
            return Ok((commands, records));
        }
        let (command, behind) = take_command(alloc, rest)?;
        if commands.len() == MAX_COMMANDS {
            return Err(BodyError::Fault(StreamFault::TooMany));
        }
        let Ok(()) = commands.push(command) else {
            return Err(BodyError::Memory);
        };
        rest = behind;
    }
    Err(BodyError::Fault(StreamFault::Truncated))
}

// What follows an empty line at the start.
pub(crate) fn behind_empty_line(text: &[u8]) -> Option<&[u8]>
    ensures found { IfSome result (λ behind. text.now ≡ 10 ∷ behind.now) }
    ensures none { IfNone result ((behind : List ℕ) → text.now ≢ 10 ∷ behind) }
{
    match text {
        [b'\n', behind @ ..] => Some(behind),
        _ => None,
    }
}

// Takes the command at the start of a text. Returns it and what follows its line.
fn take_command(alloc: Global, text: &[u8]) -> Result<(Command, &[u8]), BodyError>
    ensures taken { IfOk result (λ p. command_at text.now ≡ Ok (p.0, p.1.now)) }
    ensures exact { IfErr result (λ error. (others : List ℕ → Stream) → TellsStreamFault (after_command text.now others (command_at text.now)) error) }
{
    match first_command(alloc, text) {
        Ok(taken) => Ok(taken),
        Err(ReadError::Fault(fault)) => Err(BodyError::Fault(fault_of(fault))),
        Err(ReadError::Memory) => Err(BodyError::Memory),
    }
}

// The fault of a stream whose next command has this fault.
fn fault_of(fault: CommandFault) -> StreamFault
    ensures { (text : List ℕ) → finished (no_command text fault) ≡ Err result }
{
    match fault {
        CommandFault::Syntax => StreamFault::Syntax,
        CommandFault::TooMany => StreamFault::TooMany,
        CommandFault::Truncated => StreamFault::Truncated,
    }
}

// Reads the objects of the records up to the end of a text.
fn read_records(alloc: Global, text: &[u8]) -> Result<Vec<Sealed>, BodyError>
    ensures found { IfOk result (λ sent. finished (records_in (length text.now) text.now) ≡ Ok ([], sent.items)) }
    ensures exact { IfErr result (TellsStreamFault (records_in (length text.now) text.now)) }
{
    let mut sent = Vec::new(alloc);
    let mut left = text;
    while !left.is_empty() {
        let (sealed, behind) = take_record(alloc, left)?;
        let Ok(()) = sent.push(sealed) else {
            return Err(BodyError::Memory);
        };
        left = behind;
    }
    Ok(sent)
}
