ghost use Rattle.std.specs.Prelude.{◌≡◌, ◌++◌, IfSome, OnErr, OnOk, map};
ghost use Rattle.fork_program.specs.Causes.{AddsCause, IsCauseTold, IsOfFolder, cause_line};

use crate::asked::folder_asked;
use crate::trial::{Trial, words_for};
use packed_store::{Layout, layout_of};
use std::alloc::{AllocError, Global};
use std::fs::{File, Files};
use std::io;

// What a start does with a packed folder before it reads the state.
const OPENING_PACKED: [(Trial, &'static str); 6] = [
    (Trial::Make, ""),
    (Trial::Lock, "/lock"),
    (Trial::Make, "/segments"),
    (Trial::List, "/segments"),
    (Trial::Look, "/part"),
    (Trial::Look, "/journal/part"),
];

// The same with another folder.
const OPENING: [(Trial, &'static str); 8] = [
    (Trial::Make, ""),
    (Trial::Lock, "/lock"),
    (Trial::Make, "/objects"),
    (Trial::List, "/objects"),
    (Trial::List, "/swept"),
    (Trial::Look, "/part"),
    (Trial::Look, "/journal/part"),
    (Trial::LookInEach, "/objects"),
];

// What a start does with the state.
const LOADING: [(Trial, &'static str); 1] = [(Trial::Read, "/state")];

// Appends the line of a cause to `told`.
fn write_line(
    alloc: Global,
    words: &str,
    dir: &str,
    rest: &str,
    told: &mut Vec<u8>,
) -> Result<(), AllocError>
    ensures ok { OnOk result (told.new.items ≡ told.old.items ++ cause_line words.now (dir.now ++ rest.now)) }
    ensures err { OnErr result (told.new.items ≡ told.old.items) }
{
    let line = format!(in alloc; "forkhost: {words}: {dir}{rest}\n")?;
    told.extend_from_slice(line.as_bytes())
}

// The same for an error.
fn write_cause(
    alloc: Global,
    dir: &str,
    rest: &str,
    error: &io::Error,
    told: &mut Vec<u8>,
) -> Result<(), AllocError>
    ensures { AddsCause dir.now told.old.items told.new.items }
{
    let words = words_for(alloc, error)?;
    match write_line(alloc, words.as_str(), dir, rest, told) {
        Ok(()) => Ok(()),
        Err(error) => Err(error),
    }
}

// Tries these at the folder, one after another, and reports the first that fails.
fn tell_first<H: Files<File = File> + AllocGlobal>(
    rt: &H,
    alloc: Global,
    dir: &str,
    trials: &[(Trial, &'static str)],
    told: &mut Vec<u8>,
) -> Result<(), AllocError>
    ensures { AddsCause dir.now told.old.items told.new.items }
{
    for (trial, rest) in trials {
        let path = format!(in alloc; "{dir}{rest}")?;
        if let Err(error) = trial.at(rt, alloc, path.as_str()) {
            return write_cause(alloc, dir, rest, &error, told);
        }
    }
    Ok(())
}

// Whether a folder is packed, or is to be by the words, if it has no layout yet.
fn is_packed<H: Files>(rt: &H, alloc: Global, words: &[&str], dir: &str) -> bool {
    match layout_of(rt, alloc, dir) {
        Ok(Some(layout)) => layout == Layout::Packed,
        Ok(None) => words.contains(&"--packed"),
        Err(_) => false,
    }
}

// The trials that may find the cause of the fault in `told`.
fn trials_for(told: &[u8], is_packed: bool) -> Option<&'static [(Trial, &'static str)]>
    ensures { IfSome result (λ _. IsOfFolder told.now) }
{
    if told == b"forkhost: store\n".as_slice() {
        return Some(if is_packed {
            OPENING_PACKED.as_slice()
        } else {
            OPENING.as_slice()
        });
    }
    if told == b"forkhost: state unreadable\n".as_slice() {
        return Some(LOADING.as_slice());
    }
    None
}

/// Reports why the folder of the command that the words ask for could not be opened, or its state could not
/// be read, if `told` is that fault and the cause still exists.
pub fn tell_cause<H: Files<File = File> + AllocGlobal>(
    rt: &H,
    alloc: Global,
    words: &[&str],
    told: &mut Vec<u8>,
) -> Result<(), AllocError>
    ensures { IsCauseTold (map (λ word. word.now) words.entry.now) told.old.items told.new.items }
{
    let Some(dir) = folder_asked(alloc, words) else {
        return Ok(());
    };
    let is_packed = is_packed(rt, alloc, words, dir);
    match trials_for(told.as_slice(), is_packed) {
        Some(trials) => tell_first(rt, alloc, dir, trials, told),
        None => Ok(()),
    }
}
