ghost use Rattle.std.specs.Prelude.{◌≡◌};
ghost use Rattle.std.specs.List.{slice_get};
ghost use Rattle.std.specs.Option.{option_copied};
ghost use Rattle.devices.specs.Crash.{folder_has_failed};
ghost use Rattle.devices.specs.Loss.{changes_in, folder_in, is_chosen, is_right_in, is_synced, keeps, kept_in};
ghost use Rattle.devices.specs.Note.{effect_of, effects_of};

use crate::fate::Fate;
use crate::note::Note;
use crate::text::Text;
use crate::tree::name_in;

// Whether a path is right in a folder.
fn is_right_in(folder: &Text, path: &Text) -> bool
    ensures { result ≡ is_right_in folder.now path.now }
{
    name_in(path.as_bytes(), folder.as_bytes()).is_some()
}

// Whether a note changes a name right in a folder.
fn changes_in(folder: &Text, note: &Note) -> bool
    ensures { result ≡ changes_in folder.now (effect_of note.now) }
{
    match note {
        Note::Write(path, _) => is_right_in(folder, path),
        Note::Append(path, _) => is_right_in(folder, path),
        Note::Rename(from, to) => {
            if is_right_in(folder, from) {
                return true;
            }
            is_right_in(folder, to)
        }
        Note::Remove(path) => is_right_in(folder, path),
        _ => false,
    }
}

// Whether a sync of this folder failed.
fn folder_has_failed(notes: &[Note], folder: &Text) -> bool
    ensures { result ≡ folder_has_failed (effects_of notes.now) folder.now }
{
    let Some((note, past)) = notes.split_first() else {
        return false;
    };
    let Some(other) = note.failed_folder() else {
        return folder_has_failed(past, folder);
    };
    if *other == *folder {
        return true;
    }
    folder_has_failed(past, folder)
}

// Whether this note is a sync of a folder that keeps another's change of names.
fn keeps(newest: &Note, past: &[Note], note: &Note) -> bool
    ensures { result ≡ keeps (folder_in (effect_of newest.now)) (effects_of past.now) (effect_of note.now) }
{
    let Some(folder) = newest.synced_folder() else {
        return false;
    };
    if folder_has_failed(past, folder) {
        return false;
    }
    changes_in(folder, note)
}

// Whether a sync of a folder after this note keeps its change of names.
fn is_synced(whole: &[Note], note: &Note, place: usize) -> bool
    ensures { result ≡ is_synced (effects_of whole.now) (effect_of note.now) place }
{
    let Some((newest, past)) = whole.split_first() else {
        return false;
    };
    if past.len() <= place {
        return false;
    }
    if keeps(newest, past, note) {
        return true;
    }
    is_synced(past, note, place)
}

// The fate of the effect at a place, if it has one.
pub(crate) fn fate_at(fates: &[Fate], place: usize) -> Option<&Fate>
    ensures { option_copied result ≡ slice_get fates.now place }
{
    fates.get(place)
}

// Whether a change of names is kept.
pub(crate) fn is_kept(fates: &[Fate], whole: &[Note], note: &Note, place: usize) -> bool
    ensures { result ≡ kept_in fates.now (effects_of whole.now) (effect_of note.now) place }
{
    let Some(fate) = fate_at(fates, place) else {
        return true;
    };
    if fate.is_kept {
        return true;
    }
    is_synced(whole, note, place)
}
