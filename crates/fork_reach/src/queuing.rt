ghost use Rattle.std.specs.Prelude.{[], ◌∷◌, OnOk};
ghost use Rattle.std.specs.HashSet.{contains};
ghost use Rattle.git_name.specs.Same.{same_name};
ghost use Rattle.fork_reach.specs.Hidden.{without};
ghost use Rattle.fork_reach.specs.Objects.{measures_of};
ghost use Rattle.fork_reach.specs.Queuing.{Queues};

use crate::names::{Names, Open};
use crate::source::Source;
use git_name::{Hashing, Name};
use indexmap::IndexSet;
use std::alloc::AllocError;

// Appends the name to the queue if it is there and not yet in the queue. The name is added first, and removed again
// if it is hidden or not there. This saves a look-up, which would hash the name a second time.
fn queue<N: Names>(
    there: &N,
    name: Name,
    names: &mut IndexSet<Name, Hashing>,
) -> Result<(), AllocError>
    ensures { OnOk result (Queues (N.names there.now) (name ∷ []) names.old.keys names.new.keys) }
{
    let before = names.len();
    let Ok(is_new) = names.insert(name) else {
        return Err(AllocError);
    };
    if !is_new {
        return Ok(());
    }
    let Some(_) = there.leads(name) else {
        names.truncate(before);
        return Ok(());
    };
    Ok(())
}

// Does the same for each of these names.
fn queue_all<N: Names>(
    there: &N,
    more: &[Name],
    names: &mut IndexSet<Name, Hashing>,
) -> Result<(), AllocError>
    ensures { OnOk result (Queues (N.names there.now) more.now names.old.keys names.new.keys) }
{
    for name in more {
        queue(there, *name, names)?;
    }
    Ok(())
}

// Does the same over the objects of a source, except the hidden ones.
pub(crate) fn queue_open<S: Source>(
    source: &S,
    hidden: &IndexSet<Name, Hashing>,
    more: &[Name],
    names: &mut IndexSet<Name, Hashing>,
) -> Result<(), AllocError>
    ensures { OnOk result (Queues (without (measures_of (S.state source.now).objects) (contains same_name hidden.now)) more.now names.old.keys names.new.keys) }
{
    let open = Open {
        source,
        hidden,
        along: None,
    };
    queue_all(&open, more, names)
}
