// The names of a commit's parents.
ghost use Rattle.std.specs.Prelude.{◌≡◌, IfOk};
ghost use Rattle.git_commit.specs.Whole.{commit_of};
ghost use Rattle.fork_reach.specs.ParentNames.{parents_in};

use git_commit::Commit;
use git_name::{Kind, Name};
use std::alloc::{AllocError, Global};

// Most commits have this many parents, so this is the room to begin with.
const USUAL: usize = 1;

// The names of a commit's parents, in order.
pub(crate) fn parents_of(alloc: Global, commit: &Commit<'_>) -> Result<Vec<Name>, AllocError>
    ensures { IfOk result (λ names. names.items ≡ (commit_of commit.now).parents) }
{
    let mut names = Vec::with_capacity(alloc, USUAL)?;
    for parent in commit.parents() {
        names.push(parent)?;
    }
    Ok(names)
}

// The names of the parents of an object of this kind with these bytes, in order. Only commits have parents.
pub(crate) fn parent_names(alloc: Global, kind: Kind, bytes: &[u8]) -> Result<Vec<Name>, AllocError>
    ensures { IfOk result (λ names. names.items ≡ parents_in kind bytes.now) }
{
    if !matches!(kind, Kind::Commit) {
        return Ok(Vec::new(alloc));
    }
    let Ok(commit) = Commit::read(bytes) else {
        return Ok(Vec::new(alloc));
    };
    parents_of(alloc, &commit)
}
