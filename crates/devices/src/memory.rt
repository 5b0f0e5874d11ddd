ghost use Rattle.std.specs.Prelude.{◌≡◌, ◌∷◌, ◌++◌, [], List, ℕ, drop, length, OnOk, OnErr, IfOk, Some, None, true, option_and_then, option_map};
ghost use Rattle.std.specs.FinMap as map;
ghost use Rattle.devices.specs.Device.{bytes_or_none, part_of, put_there, within};
ghost use Rattle.devices.specs.Crash.{MayLeave};
ghost use Rattle.devices.specs.Loss.{left_at};
ghost use Rattle.devices.specs.Note.{Make, effects_of, past_of};

use crate::device::{Device, DeviceFault};
use crate::fate::Fate;
use crate::loss::left_files;
use crate::note::Note;
use crate::text::Text;
use crate::tree::Tree;
use std::alloc::{AllocError, Global};
use std::cell::Cell;

/// Files in memory, and the list of all that was done to them. It can be made to fail.
#[derive(Drop)]
pub struct Memory {
    alloc: Global,
    // What it began with.
    base: Tree,
    files: Tree,
    notes: Vec<Note>,
    // How many calls pass before one fails, if one shall.
    passing: Cell<Option<u64>>,
    ghost make: { Make base notes.items files },
}

// Whether this call fails. Counts it off.
fn fails(passing: &Cell<Option<u64>>) -> bool {
    let left = passing.get();
    passing.set(match left {
        Some(count) => count.checked_sub(1),
        None => None,
    });
    left == Some(0)
}

// Adds a note before the others.
fn add(notes: &mut Vec<Note>, note: Note) -> Result<(), AllocError>
    ensures ok { OnOk result (notes.new.items ≡ note ∷ notes.old.items) }
    ensures err { OnErr result (notes.new.items ≡ notes.old.items) }
{
    notes.insert(0, note)?;
    Ok(())
}

// Takes the first note out again.
fn take_back(notes: &mut Vec<Note>)
    ensures { notes.new.items ≡ drop 1 notes.old.items }
{
    if !notes.is_empty() {
        notes.remove(0);
    }
}

// Adds a note, and puts a file under a path. If there is no memory for either, nothing changes.
fn add_with(
    notes: &mut Vec<Note>,
    files: &mut Tree,
    note: Note,
    path: Text,
    bytes: Text,
) -> Result<(), AllocError>
    ensures ok { OnOk result ((notes.new.items ≡ note ∷ notes.old.items) × (files.new ≡ map.insert files.old path bytes)) }
    ensures err { OnErr result ((notes.new.items ≡ notes.old.items) × (files.new ≡ files.old)) }
{
    add(notes, note)?;
    match files.insert(path, bytes) {
        Ok(()) => Ok(()),
        Err(fault) => {
            take_back(notes);
            Err(fault)
        }
    }
}

// The bytes of a file, and these after them.
fn longer(alloc: Global, files: &Tree, path: &Text, bytes: &[u8]) -> Result<Text, AllocError>
    ensures { IfOk result (λ whole. whole ≡ bytes_or_none (map.get files.now path.now) ++ bytes.now) }
{
    let Some(found) = files.get(path) else {
        return Text::new(alloc, bytes);
    };
    let mut whole = found.as_bytes().to_vec(alloc)?;
    whole.extend_from_slice(bytes)?;
    Text::new(alloc, whole.as_slice())
}

// Gives a file another path, if it exists.
fn rename_in(
    alloc: Global,
    notes: &mut Vec<Note>,
    files: &mut Tree,
    note: Note,
    from: &Text,
    to: Text,
) -> Result<(), AllocError>
    ensures ok { OnOk result ((notes.new.items ≡ note ∷ notes.old.items) × (files.new ≡ put_there (map.remove files.old from.now) to (map.get files.old from.now))) }
    ensures err { OnErr result ((notes.new.items ≡ notes.old.items) × (files.new ≡ files.old)) }
{
    let Some(found) = files.get(from) else {
        return add(notes, note);
    };
    let bytes = Text::new(alloc, found.as_bytes())?;
    if to == *from {
        return add_with(notes, files, note, to, bytes);
    }
    add_with(notes, files, note, to, bytes)?;
    files.remove(from);
    Ok(())
}

// The bytes of a file, if there are at most so many.
fn read_in(
    alloc: Global,
    files: &Tree,
    path: &Text,
    most: u64,
) -> Result<Option<Vec<u8>>, AllocError>
    ensures { IfOk result (λ found. option_map (λ bytes. bytes.items) found ≡ option_map (within most) (map.get files.now path.now)) }
{
    let Some(found) = files.get(path) else {
        return Ok(None);
    };
    if found.as_bytes().len() as u64 > most {
        return Ok(Some(Vec::new(alloc)));
    }
    Ok(Some(found.as_bytes().to_vec(alloc)?))
}

// How many bytes a file has, if it exists.
fn len_in(files: &Tree, path: &Text) -> Option<u64>
    ensures { result ≡ option_map length (map.get files.now path.now) }
{
    match files.get(path) {
        Some(found) => Some(found.as_bytes().len() as u64),
        None => None,
    }
}

// A part of a file's bytes, if it has so many.
fn read_part_in(
    alloc: Global,
    files: &Tree,
    path: &Text,
    at: u64,
    len: usize,
) -> Result<Option<Vec<u8>>, AllocError>
    ensures { IfOk result (λ found. option_map (λ bytes. bytes.items) found ≡ option_and_then (part_of at len) (map.get files.now path.now)) }
{
    let Some(found) = files.get(path) else {
        return Ok(None);
    };
    let bytes = found.as_bytes();
    let count = bytes.len() as u64;
    if at > count || count - at < len as u64 {
        return Ok(None);
    }
    Ok(Some(bytes[at as usize..][..len].to_vec(alloc)?))
}

impl Memory {
    ghost use Rattle.std.specs.Prelude.{[]};

    /// No files.
    pub fn new(alloc: Global) -> Memory
        ensures notes { result.notes.items ≡ [] }
        ensures base { result.base ≡ map.empty }
    {
        Memory {
            alloc,
            base: Tree::new(alloc),
            files: Tree::new(alloc),
            notes: Vec::new(alloc),
            passing: Cell::new(None),
        }
    }

    /// So many calls pass, and the next one fails. What it does is not done, but a sync that fails is one that failed.
    pub fn fail_after(&mut self, passing: u64)
        ensures notes { self.new.notes ≡ self.old.notes }
        ensures base { self.new.base ≡ self.old.base }
    {
        self.passing.set(Some(passing));
    }

    /// The device that a loss of power leaves of this one. The fate at each place is that of one effect, from the oldest
    /// on, where a sync that failed is an effect too. An effect that has none is left whole, so no fates lose nothing.
    pub fn lose_power(&self, fates: &[Fate]) -> Result<Memory, AllocError>
        ensures may { IfOk result (λ left. MayLeave self.now.base (effects_of self.now.notes.items) left.base) }
        ensures chosen { IfOk result (λ left. (path : List ℕ) → map.get left.base path ≡ left_at self.now.base fates.now (effects_of self.now.notes.items) path) }
        ensures begun { IfOk result (λ left. left.notes.items ≡ []) }
    {
        let base = left_files(self.alloc, &self.base, fates, self.notes.as_slice())?;
        let files = base.copy(self.alloc)?;
        Ok(Memory {
            alloc: self.alloc,
            base,
            files,
            notes: Vec::new(self.alloc),
            passing: Cell::new(None),
        })
    }
}

impl Device for Memory {
    ghost past = { λ device. past_of device.base device.notes.items };

    ghost honest = { λ _. true };

    fn read(&self, alloc: Global, path: &str, most: u64) -> Result<Option<Vec<u8>>, DeviceFault> {
        if fails(&self.passing) {
            return Err(DeviceFault::Device);
        }
        let path = Text::new(self.alloc, path.as_bytes())?;
        Ok(read_in(alloc, &self.files, &path, most)?)
    }

    fn len(&self, path: &str) -> Result<Option<u64>, DeviceFault> {
        if fails(&self.passing) {
            return Err(DeviceFault::Device);
        }
        let path = Text::new(self.alloc, path.as_bytes())?;
        Ok(len_in(&self.files, &path))
    }

    fn read_part(
        &self,
        alloc: Global,
        path: &str,
        at: u64,
        len: usize,
    ) -> Result<Option<Vec<u8>>, DeviceFault> {
        if fails(&self.passing) {
            return Err(DeviceFault::Device);
        }
        let path = Text::new(self.alloc, path.as_bytes())?;
        Ok(read_part_in(alloc, &self.files, &path, at, len)?)
    }

    fn write(&mut self, path: &str, bytes: &[u8]) -> Result<(), DeviceFault> {
        if fails(&self.passing) {
            return Err(DeviceFault::Device);
        }
        let path_noted = Text::new(self.alloc, path.as_bytes())?;
        let bytes_noted = Text::new(self.alloc, bytes)?;
        let path = Text::new(self.alloc, path.as_bytes())?;
        let bytes = Text::new(self.alloc, bytes)?;
        let note = Note::Write(path_noted, bytes_noted);
        Ok(add_with(&mut self.notes, &mut self.files, note, path, bytes)?)
    }

    fn append(&mut self, path: &str, bytes: &[u8]) -> Result<(), DeviceFault> {
        if fails(&self.passing) {
            return Err(DeviceFault::Device);
        }
        let path_noted = Text::new(self.alloc, path.as_bytes())?;
        let bytes_noted = Text::new(self.alloc, bytes)?;
        let path = Text::new(self.alloc, path.as_bytes())?;
        let whole = longer(self.alloc, &self.files, &path, bytes)?;
        let note = Note::Append(path_noted, bytes_noted);
        Ok(add_with(&mut self.notes, &mut self.files, note, path, whole)?)
    }

    fn rename(&mut self, from: &str, to: &str) -> Result<bool, DeviceFault> {
        if fails(&self.passing) {
            return Err(DeviceFault::Device);
        }
        let from_noted = Text::new(self.alloc, from.as_bytes())?;
        let to_noted = Text::new(self.alloc, to.as_bytes())?;
        let from = Text::new(self.alloc, from.as_bytes())?;
        let to = Text::new(self.alloc, to.as_bytes())?;
        let was_there = self.files.get(&from).is_some();
        let note = Note::Rename(from_noted, to_noted);
        match rename_in(
            self.alloc,
            &mut self.notes,
            &mut self.files,
            note,
            &from,
            to,
        ) {
            Ok(()) => Ok(was_there),
            Err(_) => Err(DeviceFault::Memory),
        }
    }

    fn remove(&mut self, path: &str) -> Result<(), DeviceFault> {
        if fails(&self.passing) {
            return Err(DeviceFault::Device);
        }
        let noted = Text::new(self.alloc, path.as_bytes())?;
        let path = Text::new(self.alloc, path.as_bytes())?;
        add(&mut self.notes, Note::Remove(noted))?;
        self.files.remove(&path);
        Ok(())
    }

    fn list(&self, alloc: Global, folder: &str) -> Result<Vec<Vec<u8>>, DeviceFault> {
        if fails(&self.passing) {
            return Err(DeviceFault::Device);
        }
        Ok(self.files.list(alloc, folder.as_bytes())?)
    }

    fn sync_file(&mut self, path: &str) -> Result<(), DeviceFault> {
        let path = Text::new(self.alloc, path.as_bytes())?;
        if fails(&self.passing) {
            add(&mut self.notes, Note::FailFile(path))?;
            return Err(DeviceFault::Device);
        }
        Ok(add(&mut self.notes, Note::SyncFile(path))?)
    }

    fn sync_folder(&mut self, folder: &str) -> Result<(), DeviceFault> {
        let folder = Text::new(self.alloc, folder.as_bytes())?;
        if fails(&self.passing) {
            add(&mut self.notes, Note::FailFolder(folder))?;
            return Err(DeviceFault::Device);
        }
        Ok(add(&mut self.notes, Note::SyncFolder(folder))?)
    }
}
