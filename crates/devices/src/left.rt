ghost use Rattle.std.specs.Prelude.{◌≡◌, option_map};
ghost use Rattle.devices.specs.Loss.{kept_in, left_names};
ghost use Rattle.devices.specs.Note.{effects_of};

use crate::fate::Fate;
use crate::kept::is_kept;
use crate::note::Note;
use crate::seen::{changed_at, first_at, seen_at, touches};
use crate::text::Text;
use crate::tree::Tree;

// Which file is left at a path, of the notes up to one of the whole list.
pub(crate) fn left_at<'a>(
    base: &'a Tree,
    fates: &[Fate],
    whole: &[Note],
    notes: &'a [Note],
    path: &'a Text,
) -> Option<(&'a Text, usize)>
    ensures { option_map (λ file. (file.0.now, file.1)) result ≡ left_names base.now (kept_in fates.now (effects_of whole.now)) (effects_of notes.now) path.now }
{
    let Some((note, past)) = notes.split_first() else {
        return first_at(base, path);
    };
    if !touches(note, path) {
        return left_at(base, fates, whole, past, path);
    }
    if !is_kept(fates, whole, note, past.len()) {
        return left_at(base, fates, whole, past, path);
    }
    let Some(source) = note.source() else {
        return changed_at(note, notes.len(), None, None, path);
    };
    let file = seen_at(base, past, source);
    let before = left_at(base, fates, whole, past, path);
    changed_at(note, notes.len(), file, before, path)
}
