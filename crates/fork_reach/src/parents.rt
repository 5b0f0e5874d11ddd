ghost use Rattle.std.specs.Prelude.{◌≡◌, IfOk};
ghost use Rattle.git_commit.specs.Whole.{commit_of};
ghost use Rattle.fork_reach.specs.Parents.{parents_listed};

use crate::parent_names::parents_of;
use git_commit::Commit;
use git_name::Name;
use std::alloc::{AllocError, Global};
use std::slice;

// The names of a commit's parents, in order. Most commits have one, which is kept inline and allocates nothing.
#[derive(Debug, Drop)]
pub(crate) enum Parents {
    Root,
    One(Name),
    Merge(Vec<Name>),
}

impl Parents {
    // The parents of a commit.
    pub(crate) fn of(alloc: Global, commit: &Commit<'_>) -> Result<Parents, AllocError>
        ensures { IfOk result (λ parents. parents_listed parents ≡ (commit_of commit.now).parents) }
    {
        let mut left = commit.parents();
        let Some(first) = left.next() else {
            return Ok(Parents::Root);
        };
        let Some(_) = left.next() else {
            return Ok(Parents::One(first));
        };
        Ok(Parents::Merge(parents_of(alloc, commit)?))
    }

    // The parents as a slice.
    pub(crate) fn as_slice(&self) -> &[Name]
        ensures { result.now ≡ parents_listed self.now }
    {
        match self {
            Parents::Root => &[],
            Parents::One(parent) => slice::from_ref(parent),
            Parents::Merge(parents) => parents.as_slice(),
        }
    }
}
