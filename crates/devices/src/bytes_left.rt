ghost use Rattle.std.specs.Prelude.{◌≡◌, ◌⊎◌, ◌++◌, IfOk, OnOk, None, option_map, replicate};
ghost use Rattle.std.specs.FinMap as map;
ghost use Rattle.std.specs.Option.{option_copied};
ghost use Rattle.devices.specs.Crash.{MayBytes, IsFrontFrom, bytes_after, has_failed, is_file, names_after};
ghost use Rattle.devices.specs.Device.{bytes_or_none};
ghost use Rattle.devices.specs.Loss.{damaged_by, grown_by, is_sure, left_bytes, made_in, synced_in};
ghost use Rattle.devices.specs.Note.{effect_of, effects_of};

use crate::fate::Fate;
use crate::kept::fate_at;
use crate::note::Note;
use crate::seen::is_at;
use crate::text::Text;
use crate::tree::Tree;
use std::alloc::{AllocError, Global};

fn copied(alloc: Global, text: &Text) -> Result<Vec<u8>, AllocError>
    ensures { IfOk result (λ bytes. bytes.items ≡ text.now) }
{
    text.as_bytes().to_vec(alloc)
}

// The bytes that a file had at first, and none if it did not exist.
fn first_bytes(alloc: Global, base: &Tree, path: &Text) -> Result<Vec<u8>, AllocError>
    ensures { IfOk result (λ bytes. bytes.items ≡ bytes_or_none (map.get base.now path.now)) }
{
    let Some(found) = base.get(path) else {
        return Ok(Vec::new(alloc));
    };
    copied(alloc, found)
}

// The bytes with which a note of this number made a file, if it did.
fn made_by<'a>(note: &'a Note, number: usize, file: &(&Text, usize)) -> Option<&'a Text>
    ensures { option_copied result ≡ made_in (effect_of note.now) number file.now.1 }
{
    if file.1 != number {
        return None;
    }
    note.written()
}

// The bytes of a file that are seen.
fn seen_bytes(
    alloc: Global,
    base: &Tree,
    notes: &[Note],
    file: &(&Text, usize),
) -> Result<Vec<u8>, AllocError>
    ensures { IfOk result (λ bytes. bytes.items ≡ bytes_after base.now (effects_of notes.now) (file.now.0.now, file.now.1)) }
{
    let Some((note, past)) = notes.split_first() else {
        return first_bytes(alloc, base, file.0);
    };
    if let Some(bytes) = made_by(note, notes.len(), file) {
        return copied(alloc, bytes);
    }
    let mut seen = seen_bytes(alloc, base, past, file)?;
    let Some((path, bytes)) = note.appended() else {
        return Ok(seen);
    };
    if !is_at(base, past, path, file) {
        return Ok(seen);
    }
    seen.extend_from_slice(bytes.as_bytes())?;
    Ok(seen)
}

// Whether a sync of a file failed.
fn has_failed(base: &Tree, notes: &[Note], file: &(&Text, usize)) -> bool
    ensures { result ≡ has_failed base.now (effects_of notes.now) (file.now.0.now, file.now.1) }
{
    let Some((note, past)) = notes.split_first() else {
        return false;
    };
    let Some(path) = note.failed_file() else {
        return has_failed(base, past, file);
    };
    if is_at(base, past, path, file) {
        return true;
    }
    has_failed(base, past, file)
}

// Whether a note is a sync that is sure to have kept the bytes of a file.
fn is_sure(base: &Tree, past: &[Note], note: &Note, file: &(&Text, usize)) -> bool
    ensures { result ≡ is_sure base.now (effects_of past.now) (synced_in (effect_of note.now)) (file.now.0.now, file.now.1) }
{
    let Some(path) = note.synced_file() else {
        return false;
    };
    if !is_at(base, past, path, file) {
        return false;
    }
    !has_failed(base, past, file)
}

// Adds a byte so many times.
fn add_times(bytes: &mut Vec<u8>, byte: u8, times: usize) -> Result<(), AllocError>
    ensures { OnOk result (bytes.new.items ≡ bytes.old.items ++ replicate times byte) }
{
    for _ in 0..times {
        bytes.push(byte)?;
    }
    Ok(())
}

// What a loss leaves of bytes with which a file was made.
fn damaged(alloc: Global, bytes: &[u8], fate: Option<&Fate>) -> Result<Vec<u8>, AllocError>
    ensures { IfOk result (λ left. left.items ≡ damaged_by (option_copied fate.entry) bytes.now) }
{
    let Some(fate) = fate else {
        return bytes.to_vec(alloc);
    };
    let mut left = bytes[..bytes.len().min(fate.bytes)].to_vec(alloc)?;
    add_times(&mut left, fate.other, fate.others)?;
    Ok(left)
}

// The bytes that are left, and a front of those that follow them in the whole, unless it begins otherwise.
fn grown(mut left: Vec<u8>, whole: &[u8], fate: Option<&Fate>) -> Result<Vec<u8>, AllocError>
    ensures may { IfOk result (λ bytes. (bytes.items ≡ left.items) ⊎ IsFrontFrom left.items whole.now bytes.items) }
    ensures chosen { IfOk result (λ bytes. bytes.items ≡ grown_by (option_copied fate.entry) left.items whole.now) }
{
    let Some(more) = whole.strip_prefix(left.as_slice()) else {
        return Ok(left);
    };
    let Some(fate) = fate else {
        left.extend_from_slice(more)?;
        return Ok(left);
    };
    left.extend_from_slice(&more[..more.len().min(fate.bytes)])?;
    Ok(left)
}

// The bytes that are left in a file.
pub(crate) fn left_bytes(
    alloc: Global,
    base: &Tree,
    fates: &[Fate],
    notes: &[Note],
    file: &(&Text, usize),
) -> Result<Vec<u8>, AllocError>
    ensures may { IfOk result (λ bytes. MayBytes base.now (effects_of notes.now) (file.now.0.now, file.now.1) bytes.items) }
    ensures chosen { IfOk result (λ bytes. bytes.items ≡ left_bytes base.now fates.now (effects_of notes.now) (file.now.0.now, file.now.1)) }
{
    let Some((note, past)) = notes.split_first() else {
        return first_bytes(alloc, base, file.0);
    };
    let fate = fate_at(fates, past.len());
    if let Some(bytes) = made_by(note, notes.len(), file) {
        return damaged(alloc, bytes.as_bytes(), fate);
    }
    if is_sure(base, past, note, file) {
        return seen_bytes(alloc, base, past, file);
    }
    let left = left_bytes(alloc, base, fates, past, file)?;
    let Some((path, bytes)) = note.appended() else {
        return Ok(left);
    };
    if !is_at(base, past, path, file) {
        return Ok(left);
    }
    let mut whole = seen_bytes(alloc, base, past, file)?;
    whole.extend_from_slice(bytes.as_bytes())?;
    grown(left, whole.as_slice(), fate)
}
