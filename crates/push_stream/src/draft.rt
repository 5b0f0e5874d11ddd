// An upload with the piece that is looked at, which may still be dropped.
ghost use Rattle.std.specs.Prelude.{◌≡◌, ◌≤◌, ◌<◌, ◌+◌, ◌++◌, None, true, false, [], IfOk, IsTrue, OnOk, OnErr, length, map};
ghost use Rattle.git_name.specs.Text.{Begins};
ghost use Rattle.push_stream.specs.declared.upload_limit.TheConstants.{MAX_UPLOAD};
ghost use Rattle.push_stream.specs.Again.{Opens};
ghost use Rattle.push_stream.specs.OpenUpload.{Grows, IsStanding, is_broken, opening_at, opening_with, reading_at, reading_with};
ghost use Rattle.push_stream.specs.Reading.{gained, read_on, sent_of};

use crate::fault::{BodyError, StreamFault};
use crate::gaining::{Added, add, add_in_turn};
use crate::sent::{Sent, sent_of};
use crate::step::Step;
use git_name::Sealed;
use git_reftx::Command;
use std::alloc::{AllocError, Global};

// The state of a stream, besides its lists.
#[derive(Clone, Copy, Debug)]
pub(crate) struct Mark {
    pub(crate) count: u64,
    pub(crate) headed: bool,
    // The rest stays an unfinished record until it has this many bytes.
    pub(crate) wanted: usize,
    pub(crate) fault: Option<StreamFault>,
}

impl Mark {
    // The state before anything is received.
    pub(crate) fn new() -> Mark
        ensures count { result.count ≡ 0 }
        ensures headed { result.headed ≡ false }
        ensures wanted { result.wanted ≡ 0 }
        ensures fault { result.fault ≡ None }
    {
        Mark {
            count: 0,
            headed: false,
            wanted: 0,
            fault: None,
        }
    }
}

// What was received of a stream. Its lists only grow, so that what they were can be recovered.
#[derive(Debug, Drop)]
pub(crate) struct Draft {
    // The whole command lines, and the empty line.
    pub(crate) header: Vec<u8>,
    pub(crate) commands: Vec<Command>,
    pub(crate) sent: Vec<Sent>,
    // The unfinished rest and what was copied after it. If the stream broke, what broke it.
    pub(crate) bytes: Vec<u8>,
    // The unfinished rest, if it is not all of `bytes`.
    pub(crate) rest: Option<Vec<u8>>,
    pub(crate) mark: Mark,
}

// Reads one more piece. An `Err` means lack of memory, and only lets the lists grow.
pub(crate) fn read_piece(alloc: Global, draft: &mut Draft, piece: &[u8]) -> Result<Step, AllocError>
    requires whole { draft.old.rest ≡ None }
    requires standing { IsStanding (reading_at draft.old) draft.old.mark.wanted }
    requires opens { Opens (opening_at draft.old) }
    requires fits { draft.old.mark.count + length piece.now ≤ MAX_UPLOAD }
    ensures grows { Grows draft.old draft.new }
    ensures read { OnOk result (reading_at draft.new ≡ read_on (reading_at draft.old) piece.now) }
    ensures standing { OnOk result (IsStanding (reading_at draft.new) draft.new.mark.wanted) }
    ensures opens { OnOk result (Opens (opening_at draft.new)) }
    ensures gained { IfOk result (λ step. step.objects.items ≡ gained (reading_at draft.old).flow piece.now) }
    ensures fault { IfOk result (λ step. step.is_fault ≡ is_broken (reading_at draft.new).flow) }
{
    let count = draft.mark.count + piece.len() as u64;
    if draft.mark.fault.is_some() {
        draft.mark.count = count;
        return Ok(no_objects(alloc, true));
    }
    let Ok(left) = complete(&mut draft.bytes, draft.mark.wanted, piece) else {
        return Err(AllocError);
    };
    let headed = draft.mark.headed;
    let had = draft.commands.len();
    if let Some(added) = add_in_turn(alloc, headed, had, draft.bytes.as_slice(), left) {
        return note(alloc, draft, added, count);
    }
    let Ok(()) = draft.bytes.extend_from_slice(left) else {
        return Err(AllocError);
    };
    if is_short(draft.mark, draft.bytes.len()) {
        draft.mark.count = count;
        return Ok(no_objects(alloc, false));
    }
    match add(alloc, headed, had, draft.bytes.as_slice()) {
        Ok(added) => note(alloc, draft, added, count),
        Err(BodyError::Fault(fault)) => {
            draft.mark = Mark {
                count,
                headed: false,
                wanted: 0,
                fault: Some(fault),
            };
            Ok(no_objects(alloc, true))
        }
        Err(BodyError::Memory) => Err(AllocError),
    }
}

// Copies what the unfinished record needs of a piece, after the rest. Returns what is left of the piece.
fn complete<'x>(bytes: &mut Vec<u8>, wanted: usize, piece: &'x [u8]) -> Result<&'x [u8], AllocError>
    ensures begins { Begins bytes.old.items bytes.new.items }
    ensures parted { IfOk result (λ left. bytes.old.items ++ piece.now ≡ bytes.new.items ++ left.now) }
{
    let (front, left) = piece.split_at(lacking(wanted, bytes.len(), piece.len()));
    let Ok(()) = bytes.extend_from_slice(front) else {
        return Err(AllocError);
    };
    Ok(left)
}

// How many of the next `come` bytes complete a record that has `rest` of its `wanted` bytes: none if there is
// no rest, and all if the record's length is not known.
fn lacking(wanted: usize, rest: usize, come: usize) -> usize
    ensures { result ≤ come }
{
    if rest == 0 {
        return 0;
    }
    if wanted <= rest {
        return come;
    }
    come.min(wanted - rest)
}

// A step without objects.
fn no_objects(alloc: Global, is_fault: bool) -> Step
    ensures objects { result.objects.items ≡ [] }
    ensures fault { result.is_fault ≡ is_fault }
{
    Step {
        objects: Vec::new(alloc),
        is_fault,
    }
}

// Whether this many bytes leave a record unfinished.
fn is_short(mark: Mark, len: usize) -> bool
    ensures headed { IsTrue result → mark.headed ≡ true }
    ensures short { IsTrue result → len < mark.wanted }
{
    if !mark.headed {
        return false;
    }
    len < mark.wanted
}

// Adds to the draft what a text added.
fn note(alloc: Global, draft: &mut Draft, added: Added, count: u64) -> Result<Step, AllocError>
    ensures header { Begins draft.old.header.items draft.new.header.items }
    ensures commands { Begins draft.old.commands.items draft.new.commands.items }
    ensures sent { Begins draft.old.sent.items draft.new.sent.items }
    ensures bytes { draft.new.bytes.items ≡ draft.old.bytes.items }
    ensures read { OnOk result (reading_at draft.new ≡ reading_with count draft.old.commands.items draft.old.sent.items added) }
    ensures opening { OnOk result (opening_at draft.new ≡ opening_with count draft.old.header.items draft.old.commands.items draft.old.sent.items added) }
    ensures wanted { OnOk result (draft.new.mark.wanted ≡ added.wanted) }
    ensures objects { IfOk result (λ step. step.objects.items ≡ added.objects.items) }
    ensures right { IfOk result (λ step. step.is_fault ≡ false) }
{
    let Added {
        mut header,
        mut commands,
        objects,
        headed,
        rest,
        wanted,
    } = added;
    let Ok(()) = draft.header.append(&mut header) else {
        return Err(AllocError);
    };
    let Ok(()) = draft.commands.append(&mut commands) else {
        return Err(AllocError);
    };
    let Ok(mut told) = told_of(alloc, objects.as_slice()) else {
        return Err(AllocError);
    };
    let Ok(()) = draft.sent.append(&mut told) else {
        return Err(AllocError);
    };
    draft.rest = Some(rest);
    draft.mark = Mark {
        count,
        headed,
        wanted,
        fault: None,
    };
    Ok(Step {
        objects,
        is_fault: false,
    })
}

// What is known of these objects.
fn told_of(alloc: Global, objects: &[Sealed]) -> Result<Vec<Sent>, AllocError>
    ensures { IfOk result (λ told. told.items ≡ map sent_of objects.now) }
{
    let mut told = Vec::new(alloc);
    for sealed in objects {
        told.push(sent_of(sealed))?;
    }
    Ok(told)
}
