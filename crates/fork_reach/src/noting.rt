ghost use Rattle.std.specs.Prelude.{[], ◌∷◌, OnOk};
ghost use Rattle.std.specs.HashSet.{contains};
ghost use Rattle.git_name.specs.Same.{same_name};
ghost use Rattle.fork_reach.specs.Along.{rests_at};
ghost use Rattle.fork_reach.specs.Hidden.{without};
ghost use Rattle.fork_reach.specs.Objects.{measures_of};
ghost use Rattle.fork_reach.specs.Seeing.{Sees};

use crate::along::Along;
use crate::names::{Names, Open};
use crate::source::Source;
use git_name::{Hashing, Name};
use indexmap::IndexSet;
use std::alloc::AllocError;

// Adds the name to `seen` if it is there and was not yet seen, and to `waiting` if a walk goes on from it. The name
// is added first, and removed again if it is hidden or not there. This saves a look-up, which would hash the name a
// second time.
fn note<N: Names>(
    there: &N,
    name: Name,
    seen: &mut IndexSet<Name, Hashing>,
    waiting: &mut Vec<Name>,
) -> Result<(), AllocError>
    ensures { OnOk result (Sees (N.names there.now) (N.ends there.now) (name ∷ []) (contains same_name seen.old) waiting.old.items (contains same_name seen.new) waiting.new.items) }
{
    let before = seen.len();
    let Ok(is_new) = seen.insert(name) else {
        return Err(AllocError);
    };
    if !is_new {
        return Ok(());
    }
    let Some(leads) = there.leads(name) else {
        seen.truncate(before);
        return Ok(());
    };
    if !leads {
        return Ok(());
    }
    waiting.push(name)?;
    Ok(())
}

// Does the same for each of these names.
fn note_all<N: Names>(
    there: &N,
    names: &[Name],
    seen: &mut IndexSet<Name, Hashing>,
    waiting: &mut Vec<Name>,
) -> Result<(), AllocError>
    ensures { OnOk result (Sees (N.names there.now) (N.ends there.now) names.now (contains same_name seen.old) waiting.old.items (contains same_name seen.new) waiting.new.items) }
{
    for name in names {
        note(there, *name, seen, waiting)?;
    }
    Ok(())
}

// Does the same over the objects of a source, except the hidden ones.
pub(crate) fn note_open<S: Source>(
    source: &S,
    hidden: &IndexSet<Name, Hashing>,
    along: Option<Along>,
    names: &[Name],
    seen: &mut IndexSet<Name, Hashing>,
    waiting: &mut Vec<Name>,
) -> Result<(), AllocError>
    ensures { OnOk result (Sees (without (measures_of (S.state source.now).objects) (contains same_name hidden.now)) (rests_at along (measures_of (S.state source.now).objects)) names.now (contains same_name seen.old) waiting.old.items (contains same_name seen.new) waiting.new.items) }
{
    let open = Open {
        source,
        hidden,
        along,
    };
    note_all(&open, names, seen, waiting)
}
