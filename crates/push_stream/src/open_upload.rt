ghost use Rattle.std.specs.Prelude.{◌≡◌, ◌+◌, ◌≤◌, ◌++◌, None, true, false, List, [], Ok, Err, IfOk, IfErr, OnOk, OnErr, is_some, length, map, replicate, vec_capacity};
ghost use Rattle.git_name.specs.Object.{Object};
ghost use Rattle.push_stream.specs.declared.again.TheConstants.{MAX_HEADER};
ghost use Rattle.push_stream.specs.declared.content_limit.TheConstants.{MAX_REST};
ghost use Rattle.push_stream.specs.declared.upload_limit.TheConstants.{MAX_UPLOAD};
ghost use Rattle.push_stream.specs.Again.{Opens, told_in};
ghost use Rattle.push_stream.specs.OpenUpload.{IsHeld, IsStanding, RollsBack, TellsEnd, flow_from, is_broken, opening_at, reading_at, reading_kept};
ghost use Rattle.push_stream.specs.Reading.{finished_flow, gained, read_on, reading_of, rest_in, sent_of};
ghost use Rattle.push_stream.specs.Spelling.{AreWithin, records_of};
ghost use Rattle.push_stream.specs.Stream.{AreObjects, sent_in, stream_of};

use crate::again::Again;
use crate::brief::Brief;
use crate::draft::{Draft, Mark, read_piece};
use crate::fault::{BodyError, StreamFault};
use crate::sent::Sent;
use crate::step::Step;
use git_name::Name;
use git_reftx::{Command, RefWord};
use std::alloc::{AllocError, Global};
use std::marker::Model;

// The part of a draft that is the upload without the piece that is looked at.
#[derive(Clone, Copy, Debug)]
pub(crate) struct Kept {
    pub(crate) mark: Mark,
    pub(crate) header: usize,
    pub(crate) commands: usize,
    pub(crate) sent: usize,
    pub(crate) bytes: usize,
}

/// A stream of at most 33,554,432 bytes, read in pieces as it is received. Each object is handed out as soon
/// as it is complete. The header's text, the unfinished rest, and the names, kinds and lengths of the objects
/// are kept. Contracts see what is known of the bytes received, and what would be known with the piece that
/// was looked at last.
#[derive(Debug, Drop)]
pub struct OpenUpload {
    draft: Draft,
    kept: Kept,
}

impl Model for OpenUpload {
    ghost use Rattle.push_stream.specs.OpenUpload.{OpenUploadValue, IsHeld, open_upload_code, reading_at, reading_kept};

    ghost Value = { OpenUploadValue };

    ghost coded = { open_upload_code };

    ghost view = { λ a. record { brief = reading_kept a.kept a.draft; looked = reading_at a.draft } };

    ghost invariant = { λ a. IsHeld a.kept a.draft };
}

impl OpenUpload {
    #[tactic(auto, unfolding(crate::specs::Stream::stream_of))]
    /// An upload before anything is received.
    pub fn new(alloc: Global) -> OpenUpload
        ensures brief { result.brief ≡ reading_of [] }
    {
        let draft = Draft {
            header: Vec::new(alloc),
            commands: Vec::new(alloc),
            sent: Vec::new(alloc),
            bytes: Vec::new(alloc),
            rest: None,
            mark: Mark::new(),
        };
        let kept = Kept {
            mark: Mark::new(),
            header: 0,
            commands: 0,
            sent: 0,
            bytes: 0,
        };
        OpenUpload { draft, kept }
    }

    /// The number of bytes received.
    pub fn count(&self) -> u64
        ensures value { result ≡ self.now.brief.count }
        ensures within { result ≤ MAX_UPLOAD }
    {
        self.kept.mark.count
    }

    /// Whether the stream is wrong.
    pub fn is_fault(&self) -> bool
        ensures { result ≡ is_broken self.now.brief.flow }
    {
        self.kept.mark.fault.is_some()
    }

    /// The unfinished rest; empty if the stream is wrong.
    pub fn rest(&self) -> &[u8]
        ensures value { result.now ≡ rest_in self.now.brief.flow }
        ensures within { length result.now ≤ MAX_REST }
    {
        if self.is_fault() {
            return &[];
        }
        &self.draft.bytes[..self.kept.bytes]
    }

    /// What was sent so far, in the stream's order; empty if the stream is wrong.
    pub fn sent(&self) -> &[Sent]
        ensures { result.now ≡ told_in self.now.brief.flow }
    {
        let sent = &self.draft.sent[..self.kept.sent];
        if self.is_fault() {
            return &[];
        }
        sent
    }

    /// Returns the parts of bytes that open this upload again, for any objects with the names, kinds and
    /// lengths that were sent. The bytes have the reading that this upload has, and hold exactly these
    /// objects. Zero bytes replace those received after the stream broke, since only their number is kept.
    pub fn again(&self) -> Again<'_>
        ensures read { (objects : List Object) → AreObjects objects → AreWithin objects → map sent_of objects ≡ told_in self.now.brief.flow → reading_of (result.header.now ++ (records_of objects ++ (result.tail.now ++ replicate result.zeros 0))) ≡ self.now.brief }
        ensures sent { (objects : List Object) → AreObjects objects → AreWithin objects → map sent_of objects ≡ told_in self.now.brief.flow → sent_in (stream_of (result.header.now ++ (records_of objects ++ (result.tail.now ++ replicate result.zeros 0)))) ≡ objects }
        ensures whole { is_broken self.now.brief.flow ≡ false → result.zeros ≡ 0 }
        ensures rest { is_broken self.now.brief.flow ≡ false → result.tail.now ≡ rest_in self.now.brief.flow }
        ensures short { length result.header.now ≤ MAX_HEADER }
        ensures within { length result.header.now + length result.tail.now + result.zeros ≤ self.now.brief.count }
    {
        let header = &self.draft.header[..self.kept.header];
        let tail = &self.draft.bytes[..self.kept.bytes];
        let zeros = missing(&self.kept.mark, header.len() + tail.len());
        Again {
            header,
            tail,
            zeros,
        }
    }

    /// Returns what one more piece would add. The upload keeps its value, even after an `Err`, which means
    /// lack of memory. The piece that was looked at before is forgotten.
    pub fn look(&mut self, alloc: Global, piece: &[u8]) -> Result<Step, AllocError>
        requires { self.old.brief.count + length piece.now ≤ MAX_UPLOAD }
        ensures brief { self.new.brief ≡ self.old.brief }
        ensures looked { OnOk result (self.new.looked ≡ read_on self.old.brief piece.now) }
        ensures gained { IfOk result (λ step. step.objects.items ≡ gained self.old.brief.flow piece.now) }
        ensures fault { IfOk result (λ step. step.is_fault ≡ is_broken self.new.looked.flow) }
    {
        look_at(alloc, &mut self.draft, &self.kept, piece)
    }

    /// Takes the piece that was looked at last. It allocates nothing. If the stream is wrong, only what shows the fault
    /// is kept: the header, and the bytes that could not be read.
    pub fn take(&mut self)
        ensures brief { self.new.brief ≡ self.old.looked }
        ensures looked { self.new.looked ≡ self.old.looked }
    {
        settle(&mut self.draft);
        self.kept = whole(&self.draft);
    }

    /// Forgets the piece that was looked at. It allocates nothing.
    pub fn leave(&mut self)
        ensures brief { self.new.brief ≡ self.old.brief }
        ensures looked { self.new.looked ≡ self.old.brief }
    {
        roll_back(&mut self.draft, &self.kept);
    }

    /// Takes one more piece, and returns what it adds. An `Err`, which means lack of memory, leaves the
    /// upload as it was.
    pub fn feed(&mut self, alloc: Global, piece: &[u8]) -> Result<Step, AllocError>
        requires { self.old.brief.count + length piece.now ≤ MAX_UPLOAD }
        ensures ok { OnOk result (self.new.brief ≡ read_on self.old.brief piece.now) }
        ensures err { OnErr result (self.new.brief ≡ self.old.brief) }
        ensures gained { IfOk result (λ step. step.objects.items ≡ gained self.old.brief.flow piece.now) }
        ensures fault { IfOk result (λ step. step.is_fault ≡ is_broken self.new.brief.flow) }
    {
        let Ok(step) = self.look(alloc, piece) else {
            return Err(AllocError);
        };
        self.take();
        Ok(step)
    }

    /// Returns what the stream holds if it ends here: its commands, and the names of what was sent.
    pub fn finish(&self, alloc: Global) -> Result<Brief, BodyError>
        ensures found { IfOk result (λ brief. finished_flow self.now.brief.flow ≡ Ok (brief.commands.items, brief.names.items)) }
        ensures exact { IfErr result (TellsEnd self.now.brief.flow) }
    {
        finish_in(
            alloc,
            &self.kept.mark,
            &self.draft.commands[..self.kept.commands],
            &self.draft.sent[..self.kept.sent],
            &self.draft.bytes[..self.kept.bytes],
        )
    }
}

// How many of the bytes received are missing, if the stream is broken and `there` are kept.
fn missing(mark: &Mark, there: usize) -> u64
    requires { there ≤ mark.now.count }
    ensures going { is_some mark.now.fault ≡ false → result ≡ 0 }
    ensures broken { is_some mark.now.fault ≡ true → there + result ≡ mark.now.count }
{
    if mark.fault.is_none() {
        return 0;
    }
    mark.count - there as u64
}

// What a stream that ends here holds.
fn finish_in(
    alloc: Global,
    mark: &Mark,
    commands: &[Command],
    sent: &[Sent],
    rest: &[u8],
) -> Result<Brief, BodyError>
    ensures found { IfOk result (λ brief. finished_flow (flow_from commands.now sent.now mark.now.headed rest.now mark.now.fault) ≡ Ok (brief.commands.items, brief.names.items)) }
    ensures exact { IfErr result (TellsEnd (flow_from commands.now sent.now mark.now.headed rest.now mark.now.fault)) }
{
    if let Some(fault) = mark.fault {
        return Err(BodyError::Fault(fault));
    }
    if !mark.headed {
        return Err(BodyError::Fault(StreamFault::Truncated));
    }
    if !rest.is_empty() {
        return Err(BodyError::Fault(StreamFault::Truncated));
    }
    let Ok(commands) = copied_commands(alloc, commands) else {
        return Err(BodyError::Memory);
    };
    let Ok(names) = names_of(alloc, sent) else {
        return Err(BodyError::Memory);
    };
    Ok(Brief { commands, names })
}

// A copy of the commands.
fn copied_commands(alloc: Global, commands: &[Command]) -> Result<Vec<Command>, AllocError>
    ensures { IfOk result (λ copied. copied.items ≡ commands.now) }
{
    let mut copied = Vec::new(alloc);
    for command in commands {
        let reference = command.reference.as_bytes().to_vec(alloc)?;
        copied.push(Command {
            reference: RefWord::new(reference),
            demand: command.demand,
            change: command.change,
        })?;
    }
    Ok(copied)
}

// The names of what was sent.
fn names_of(alloc: Global, sent: &[Sent]) -> Result<Vec<Name>, AllocError>
    ensures { IfOk result (λ names. names.items ≡ map (λ one. one.name) sent.now) }
{
    let mut names = Vec::new(alloc);
    for one in sent {
        names.push(one.name)?;
    }
    Ok(names)
}

// Frees what is known of the commands and the objects, if the stream is broken.
fn forget_sent(draft: &mut Draft)
    ensures reading { reading_at draft.new ≡ reading_at draft.old }
    ensures opening { opening_at draft.new ≡ opening_at draft.old }
    ensures mark { draft.new.mark ≡ draft.old.mark }
    ensures rest { draft.new.rest ≡ draft.old.rest }
    ensures commands { is_some draft.new.mark.fault ≡ true → (draft.new.commands.items ≡ []) × (vec_capacity draft.new.commands ≡ 0) }
    ensures sent { is_some draft.new.mark.fault ≡ true → (draft.new.sent.items ≡ []) × (vec_capacity draft.new.sent ≡ 0) }
{
    let Some(_fault) = draft.mark.fault else {
        return;
    };
    draft.commands.clear();
    draft.commands.shrink_to_fit();
    draft.sent.clear();
    draft.sent.shrink_to_fit();
}

// Makes the rest of a draft all of its bytes, and frees what a broken stream does not need.
fn settle(draft: &mut Draft)
    ensures reading { reading_at draft.new ≡ reading_at draft.old }
    ensures opening { opening_at draft.new ≡ opening_at draft.old }
    ensures mark { draft.new.mark ≡ draft.old.mark }
    ensures rest { draft.new.rest ≡ None }
    ensures commands { is_some draft.new.mark.fault ≡ true → (draft.new.commands.items ≡ []) × (vec_capacity draft.new.commands ≡ 0) }
    ensures sent { is_some draft.new.mark.fault ≡ true → (draft.new.sent.items ≡ []) × (vec_capacity draft.new.sent ≡ 0) }
{
    if let Some(rest) = draft.rest.take() {
        draft.bytes = rest;
    }
    forget_sent(draft);
}

// All of a draft.
fn whole(draft: &Draft) -> Kept
    requires rest { draft.now.rest ≡ None }
    requires stands { IsStanding (reading_at draft.now) draft.now.mark.wanted }
    requires opens { Opens (opening_at draft.now) }
    requires commands { is_some draft.now.mark.fault ≡ true → draft.now.commands.items ≡ [] }
    requires sent { is_some draft.now.mark.fault ≡ true → draft.now.sent.items ≡ [] }
    ensures held { IsHeld result draft.now }
    ensures kept { reading_kept result draft.now ≡ reading_at draft.now }
{
    Kept {
        mark: draft.mark,
        header: draft.header.len(),
        commands: draft.commands.len(),
        sent: draft.sent.len(),
        bytes: draft.bytes.len(),
    }
}

// Restores a draft to what was kept of it. It allocates nothing.
fn roll_back(draft: &mut Draft, kept: &Kept)
    ensures { RollsBack kept.now draft.old draft.new }
{
    draft.header.truncate(kept.header);
    draft.commands.truncate(kept.commands);
    draft.sent.truncate(kept.sent);
    draft.bytes.truncate(kept.bytes);
    draft.rest = None;
    draft.mark = kept.mark;
}

// Reads one more piece after what was kept of a draft. An `Err` restores the draft.
fn look_at(alloc: Global, draft: &mut Draft, kept: &Kept, piece: &[u8]) -> Result<Step, AllocError>
    requires held { IsHeld kept.now draft.old }
    requires fits { kept.now.mark.count + length piece.now ≤ MAX_UPLOAD }
    ensures held { IsHeld kept.now draft.new }
    ensures kept { reading_kept kept.now draft.new ≡ reading_kept kept.now draft.old }
    ensures looked { OnOk result (reading_at draft.new ≡ read_on (reading_kept kept.now draft.old) piece.now) }
    ensures gained { IfOk result (λ step. step.objects.items ≡ gained (reading_kept kept.now draft.old).flow piece.now) }
    ensures fault { IfOk result (λ step. step.is_fault ≡ is_broken (reading_at draft.new).flow) }
{
    roll_back(draft, kept);
    match read_piece(alloc, draft, piece) {
        Ok(step) => Ok(step),
        Err(_) => {
            roll_back(draft, kept);
            Err(AllocError)
        }
    }
}
