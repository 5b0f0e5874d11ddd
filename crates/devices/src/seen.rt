ghost use Rattle.std.specs.Prelude.{◌≡◌, ◌+◌, length, option_map};
ghost use Rattle.devices.specs.Crash.{File, first_names, is_file, names_after};
ghost use Rattle.devices.specs.Loss.{changed, touches};
ghost use Rattle.devices.specs.Note.{effect_of, effects_of};

use crate::note::Note;
use crate::text::Text;
use crate::tree::Tree;

// Which file was at a path at first.
pub(crate) fn first_at<'a>(base: &'a Tree, path: &'a Text) -> Option<(&'a Text, usize)>
    ensures { option_map (λ file. (file.0.now, file.1)) result ≡ first_names base.now path.now }
{
    if base.get(path).is_none() {
        return None;
    }
    Some((path, 0))
}

// Which file is at a path after a note: from the note's number, the file of its source, and the file that was at the path.
pub(crate) fn changed_at<'a>(
    note: &'a Note,
    number: usize,
    source: Option<(&'a Text, usize)>,
    before: Option<(&'a Text, usize)>,
    path: &'a Text,
) -> Option<(&'a Text, usize)>
    ensures { option_map (λ file. (file.0.now, file.1)) result ≡ changed (effect_of note.now) number (option_map (λ file. (file.0.now, file.1)) source.entry) (option_map (λ file. (file.0.now, file.1)) before.entry) path.now }
{
    match note {
        Note::Write(at, _) => {
            if *at == *path {
                return Some((at, number));
            }
            before
        }
        Note::Append(at, _) => {
            if source.is_none() && *at == *path {
                return Some((at, number));
            }
            before
        }
        Note::Rename(from, to) => {
            let Some(file) = source else {
                return before;
            };
            if *to == *path {
                return Some(file);
            }
            if *from == *path {
                return None;
            }
            before
        }
        Note::Remove(at) => {
            if source.is_some() && *at == *path {
                return None;
            }
            before
        }
        _ => before,
    }
}

// Whether a note may change which file is at a path.
pub(crate) fn touches(note: &Note, path: &Text) -> bool
    ensures { result ≡ touches (effect_of note.now) path.now }
{
    match note {
        Note::Write(at, _) => *at == *path,
        Note::Append(at, _) => *at == *path,
        Note::Rename(from, to) => *from == *path || *to == *path,
        Note::Remove(at) => *at == *path,
        _ => false,
    }
}

// Which file is seen at a path.
pub(crate) fn seen_at<'a>(
    base: &'a Tree,
    notes: &'a [Note],
    path: &'a Text,
) -> Option<(&'a Text, usize)>
    ensures { option_map (λ file. (file.0.now, file.1)) result ≡ names_after base.now (effects_of notes.now) path.now }
{
    let Some((note, past)) = notes.split_first() else {
        return first_at(base, path);
    };
    if !touches(note, path) {
        return seen_at(base, past, path);
    }
    let Some(source) = note.source() else {
        return changed_at(note, notes.len(), None, None, path);
    };
    if *source == *path {
        let before = seen_at(base, past, path);
        return changed_at(note, notes.len(), before, before, path);
    }
    let file = seen_at(base, past, source);
    if file.is_some() {
        return changed_at(note, notes.len(), file, None, path);
    }
    let before = seen_at(base, past, path);
    changed_at(note, notes.len(), file, before, path)
}

// Whether this file is seen at a path.
pub(crate) fn is_at(base: &Tree, notes: &[Note], path: &Text, file: &(&Text, usize)) -> bool
    ensures { result ≡ is_file (names_after base.now (effects_of notes.now) path.now) (file.now.0.now, file.now.1) }
{
    let Some(seen) = seen_at(base, notes, path) else {
        return false;
    };
    *seen.0 == *file.0 && seen.1 == file.1
}
