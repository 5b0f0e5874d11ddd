// What a text adds to a stream: its complete commands and objects.
ghost use Rattle.std.specs.Prelude.{◌≡◌, ◌-◌, ◌+◌, ◌≤◌, ◌++◌, ℕ, true, false, List, [], Ok, Err, IfOk, IfErr, IfSome, IfNone, length};
ghost use Rattle.git_reftx.specs.declared.fault.CommandFault.TheVariants.{Truncated};
ghost use Rattle.git_reftx.specs.declared.reading.TheConstants.{MAX_COMMANDS};
ghost use Rattle.git_reftx.specs.Reading.{command_at};
ghost use Rattle.push_stream.specs.declared.content_limit.TheConstants.{MAX_REST};
ghost use Rattle.push_stream.specs.Adding.{IsAdded};
ghost use Rattle.push_stream.specs.Gaining.{Awaits, EndsIn, HasFront, TellsBreak, TellsWrong, headed_by, is_cut, is_truncated};
ghost use Rattle.push_stream.specs.Reading.{added_in};
ghost use Rattle.push_stream.specs.Record.{Open, Taken, record_at};
ghost use Rattle.push_stream.specs.Spelling.{records_of};
ghost use Rattle.push_stream.specs.Stream.{Flows, Stream, after_command, behind, header_in, records_in};

use crate::body::behind_empty_line;
use crate::fault::{BodyError, StreamFault};
use crate::record::{awaited, take_record};
use git_name::Sealed;
use git_reftx::{Command, CommandFault, MAX_COMMANDS, ReadError, first_command};
use std::alloc::Global;

// What a text adds, whether the empty line was read, and the unfinished rest of the text.
#[derive(Debug, Drop)]
pub(crate) struct Added {
    // The text's whole command lines, and the empty line.
    pub(crate) header: Vec<u8>,
    pub(crate) commands: Vec<Command>,
    pub(crate) objects: Vec<Sealed>,
    pub(crate) headed: bool,
    pub(crate) rest: Vec<u8>,
    // The rest stays unfinished until it and what follows have this many bytes.
    pub(crate) wanted: usize,
}

// What a text adds after this many commands, before or after the empty line.
pub(crate) fn add(alloc: Global, headed: bool, had: usize, text: &[u8]) -> Result<Added, BodyError>
    requires { had ≤ MAX_COMMANDS }
    ensures found { IfOk result (λ added. added_in headed had text.now ≡ Flows added.commands.items added.objects.items added.headed added.rest.items) }
    ensures few { IfOk result (λ added. had + length added.commands.items ≤ MAX_COMMANDS) }
    ensures short { IfOk result (λ added. length added.rest.items ≤ MAX_REST) }
    ensures waits { IfOk result (λ added. Awaits added.rest.items added.wanted) }
    ensures header { IfOk result (λ added. added_in headed had added.header.items ≡ Flows added.commands.items [] added.headed []) }
    ensures spelled { IfOk result (λ added. text.now ≡ added.header.items ++ (records_of added.objects.items ++ added.rest.items)) }
    ensures bare { IfOk result (λ added. added.headed ≡ false → (headed ≡ false) × (added.objects.items ≡ [])) }
    ensures exact { IfErr result (TellsBreak (added_in headed had text.now)) }
{
    if headed {
        return add_objects(alloc, Vec::new(alloc), Vec::new(alloc), text);
    }
    let (commands, is_headed, left) = whole_commands(alloc, had, text)?;
    let Ok(header) = before(text, left).to_vec(alloc) else {
        return Err(BodyError::Memory);
    };
    if is_headed {
        return add_objects(alloc, header, commands, left);
    }
    let Ok(rest) = left.to_vec(alloc) else {
        return Err(BodyError::Memory);
    };
    Ok(Added {
        header,
        commands,
        objects: Vec::new(alloc),
        headed: false,
        rest,
        wanted: 0,
    })
}

// What two texts add after the empty line, if the first ends at the end of a record. Each is read in place.
// Returns `None` if the second is empty, if the two do not read this way, or if memory runs out. The caller
// then reads them as one text, and that reports why.
pub(crate) fn add_in_turn(
    alloc: Global,
    headed: bool,
    had: usize,
    first: &[u8],
    second: &[u8],
) -> Option<Added>
    requires { had ≤ MAX_COMMANDS }
    ensures { IfSome result (λ added. IsAdded headed had (first.now ++ second.now) added) }
{
    if !headed {
        return None;
    }
    if second.is_empty() {
        return None;
    }
    let Ok((mut objects, left)) = whole_records(alloc, first) else {
        return None;
    };
    if !left.is_empty() {
        return None;
    }
    let Ok((mut more, left)) = whole_records(alloc, second) else {
        return None;
    };
    let Ok(()) = objects.append(&mut more) else {
        return None;
    };
    let Ok(rest) = left.to_vec(alloc) else {
        return None;
    };
    Some(Added {
        header: Vec::new(alloc),
        commands: Vec::new(alloc),
        objects,
        headed: true,
        rest,
        wanted: awaited(left),
    })
}

#[tactic(auto, using(crate::proofs::RestLemmas::open_short))]
// What a text of records adds, with this header and these commands before it.
fn add_objects(
    alloc: Global,
    header: Vec<u8>,
    commands: Vec<Command>,
    text: &[u8],
) -> Result<Added, BodyError>
    ensures found { IfOk result (λ added. behind commands.items [] (records_in (length text.now) text.now) ≡ Flows added.commands.items added.objects.items added.headed added.rest.items) }
    ensures header { IfOk result (λ added. added.header.items ≡ header.items) }
    ensures commands { IfOk result (λ added. added.commands.items ≡ commands.items) }
    ensures headed { IfOk result (λ added. added.headed ≡ true) }
    ensures spelled { IfOk result (λ added. text.now ≡ records_of added.objects.items ++ added.rest.items) }
    ensures short { IfOk result (λ added. length added.rest.items ≤ MAX_REST) }
    ensures waits { IfOk result (λ added. Awaits added.rest.items added.wanted) }
    ensures exact { IfErr result (TellsBreak (behind commands.items [] (records_in (length text.now) text.now))) }
{
    let (objects, left) = whole_records(alloc, text)?;
    let Ok(rest) = left.to_vec(alloc) else {
        return Err(BodyError::Memory);
    };
    Ok(Added {
        header,
        commands,
        objects,
        headed: true,
        rest,
        wanted: awaited(left),
    })
}

// The part of a text before its end.
fn before<'x>(text: &'x [u8], end: &[u8]) -> &'x [u8]
    requires { EndsIn end.now text.now }
    ensures { text.now ≡ result.now ++ end.now }
{
    &text[..text.len() - end.len()]
}

// The complete commands at the start of a text, after this many; whether an empty line follows them;
// and what follows that.
fn whole_commands(
    alloc: Global,
    had: usize,
    text: &[u8],
) -> Result<(Vec<Command>, bool, &[u8]), BodyError>
    requires { had ≤ MAX_COMMANDS }
    ensures found { IfOk result (λ p. header_in (MAX_COMMANDS - had) text.now ≡ behind p.0.items [] (headed_by p.1 p.2.now)) }
    ensures few { IfOk result (λ p. had + length p.0.items ≤ MAX_COMMANDS) }
    ensures short { IfOk result (λ p. p.1 ≡ false → length p.2.now ≤ MAX_REST) }
    ensures front { IfOk result (λ p. HasFront (MAX_COMMANDS - had) text.now p.0.items p.1 p.2.now) }
    ensures exact { IfErr result (TellsBreak (header_in (MAX_COMMANDS - had) text.now)) }
{
    let mut commands = Vec::new(alloc);
    let mut left = text;
    while !left.is_empty() {
        if let Some(records) = behind_empty_line(left) {
            return Ok((commands, true, records));
        }
        let Some((command, others)) = next_command(alloc, left)? else {
            return Ok((commands, false, left));
        };
        if had + commands.len() == MAX_COMMANDS {
            return Err(BodyError::Fault(StreamFault::TooMany));
        }
        let Ok(()) = commands.push(command) else {
            return Err(BodyError::Memory);
        };
        left = others;
    }
    Ok((commands, false, left))
}

// The objects of the complete records at the start of a text, and what follows them.
fn whole_records(alloc: Global, text: &[u8]) -> Result<(Vec<Sealed>, &[u8]), BodyError>
    ensures found { IfOk result (λ p. records_in (length text.now) text.now ≡ Flows [] p.0.items true p.1.now) }
    ensures unfinished { IfOk result (λ p. record_at p.1.now ≡ Open) }
    ensures spelled { IfOk result (λ p. text.now ≡ records_of p.0.items ++ p.1.now) }
    ensures exact { IfErr result (TellsBreak (records_in (length text.now) text.now)) }
{
    let mut objects = Vec::new(alloc);
    let mut left = text;
    while !left.is_empty() {
        let Some((sealed, others)) = next_record(alloc, left)? else {
            return Ok((objects, left));
        };
        let Ok(()) = objects.push(sealed) else {
            return Err(BodyError::Memory);
        };
        left = others;
    }
    Ok((objects, left))
}

// The command at the start of a text and what follows its line, or `None` if it is unfinished.
fn next_command(alloc: Global, text: &[u8]) -> Result<Option<(Command, &[u8])>, BodyError>
    ensures taken { IfOk result (λ found. IfSome found (λ p. command_at text.now ≡ Ok (p.0, p.1.now))) }
    ensures unfinished { IfOk result (λ found. IfNone found (command_at text.now ≡ Err Truncated)) }
    ensures exact { IfErr result (λ error. (others : List ℕ → Stream) → TellsBreak (after_command text.now others (command_at text.now)) error) }
{
    match first_command(alloc, text) {
        Ok(taken) => Ok(Some(taken)),
        Err(ReadError::Fault(CommandFault::Truncated)) => Ok(None),
        Err(ReadError::Fault(CommandFault::Syntax)) => Err(BodyError::Fault(StreamFault::Syntax)),
        Err(ReadError::Fault(CommandFault::TooMany)) => Err(BodyError::Fault(StreamFault::TooMany)),
        Err(ReadError::Memory) => Err(BodyError::Memory),
    }
}

// The record at the start of a text and what follows it, or `None` if it is unfinished.
fn next_record(alloc: Global, text: &[u8]) -> Result<Option<(Sealed, &[u8])>, BodyError>
    ensures taken { IfOk result (λ found. IfSome found (λ p. record_at text.now ≡ Taken p.0 p.1.now)) }
    ensures unfinished { IfOk result (λ found. IfNone found (record_at text.now ≡ Open)) }
    ensures exact { IfErr result (TellsWrong (record_at text.now)) }
{
    match take_record(alloc, text) {
        Ok(taken) => Ok(Some(taken)),
        Err(error) => {
            if is_cut(&error) {
                return Ok(None);
            }
            Err(error)
        }
    }
}

// Whether the only fault is that a text ends too early.
fn is_cut(error: &BodyError) -> bool
    ensures { result ≡ is_cut error.now }
{
    match error {
        BodyError::Fault(fault) => is_truncated(fault),
        BodyError::Memory => false,
    }
}

fn is_truncated(fault: &StreamFault) -> bool
    ensures { result ≡ is_truncated fault.now }
{
    match fault {
        StreamFault::Truncated => true,
        _ => false,
    }
}
