ghost use Rattle.std.specs.Prelude.{◌≡◌, IfOk, OnOk, List, ℕ, nat_eq};
ghost use Rattle.std.specs.Cmp.Lexicographic.{pointwise};
ghost use Rattle.std.specs.FinMap as map;
ghost use Rattle.std.specs.List.{list_any};
ghost use Rattle.devices.specs.Crash.{MayLeave, Stands};
ghost use Rattle.devices.specs.Copy.{AreFound};
ghost use Rattle.devices.specs.Device.{put_there};
ghost use Rattle.devices.specs.Loss.{ArePlaced, kept_in, left_at, left_names, paths_of};
ghost use Rattle.devices.specs.Note.{effects_of};

use crate::bytes_left::left_bytes;
use crate::fate::Fate;
use crate::left::left_at;
use crate::note::Note;
use crate::text::Text;
use crate::tree::Tree;
use std::alloc::{AllocError, Global};

// The paths at which there may be a file.
fn paths_in(alloc: Global, base: &Tree, notes: &[Note]) -> Result<Vec<Text>, AllocError>
    ensures { IfOk result (λ paths. paths.items ≡ paths_of base.now (effects_of notes.now)) }
{
    let Some((note, past)) = notes.split_first() else {
        return base.paths(alloc);
    };
    let mut paths = paths_in(alloc, base, past)?;
    let Some(path) = note.target() else {
        return Ok(paths);
    };
    paths.push(Text::new(alloc, path.as_bytes())?)?;
    Ok(paths)
}

// Whether a path is one of these.
fn is_among(paths: &[Text], path: &Text) -> bool
    ensures { result ≡ list_any (pointwise nat_eq path.now) paths.now }
{
    let Some((first, others)) = paths.split_first() else {
        return false;
    };
    if *path == *first {
        return true;
    }
    is_among(others, path)
}

// The file that is left at a path.
fn left_file(
    alloc: Global,
    base: &Tree,
    fates: &[Fate],
    notes: &[Note],
    path: &Text,
) -> Result<Option<Text>, AllocError>
    ensures may { IfOk result (λ found. Stands base.now (effects_of notes.now) (left_names base.now (kept_in fates.now (effects_of notes.now)) (effects_of notes.now) path.now) found) }
    ensures chosen { IfOk result (λ found. found ≡ left_at base.now fates.now (effects_of notes.now) path.now) }
{
    let Some(file) = left_at(base, fates, notes, notes, path) else {
        return Ok(None);
    };
    let bytes = left_bytes(alloc, base, fates, notes, &file)?;
    Ok(Some(Text::new(alloc, bytes.as_slice())?))
}

// Adds to files what is left at a path.
fn add_left(
    alloc: Global,
    base: &Tree,
    fates: &[Fate],
    notes: &[Note],
    path: &Text,
    left: &mut Tree,
) -> Result<(), AllocError>
    ensures { OnOk result (left.new ≡ put_there left.old path.now (left_at base.now fates.now (effects_of notes.now) path.now)) }
{
    let Some(bytes) = left_file(alloc, base, fates, notes, path)? else {
        return Ok(());
    };
    left.insert(Text::new(alloc, path.as_bytes())?, bytes)?;
    Ok(())
}

// The files that are left at these paths.
fn left_among(
    alloc: Global,
    base: &Tree,
    fates: &[Fate],
    notes: &[Note],
    paths: &[Text],
) -> Result<Tree, AllocError>
    ensures may { IfOk result (λ left. ArePlaced base.now (effects_of notes.now) (left_names base.now (kept_in fates.now (effects_of notes.now)) (effects_of notes.now)) paths.now left) }
    ensures chosen { IfOk result (λ left. AreFound paths.now (left_at base.now fates.now (effects_of notes.now)) left) }
{
    let Some((path, others)) = paths.split_first() else {
        return Ok(Tree::new(alloc));
    };
    if is_among(others, path) {
        return left_among(alloc, base, fates, notes, others);
    }
    let mut left = left_among(alloc, base, fates, notes, others)?;
    add_left(alloc, base, fates, notes, path, &mut left)?;
    Ok(left)
}

// The files that a loss of power leaves.
pub(crate) fn left_files(
    alloc: Global,
    base: &Tree,
    fates: &[Fate],
    notes: &[Note],
) -> Result<Tree, AllocError>
    ensures may { IfOk result (λ left. MayLeave base.now (effects_of notes.now) left) }
    ensures chosen { IfOk result (λ left. (path : List ℕ) → map.get left path ≡ left_at base.now fates.now (effects_of notes.now) path) }
{
    let paths = paths_in(alloc, base, notes)?;
    left_among(alloc, base, fates, notes, paths.as_slice())
}
