ghost use Rattle.std.specs.Prelude.{◌≡◌, [], IfOk};
ghost use Rattle.git_commit.specs.Whole.{commit_of};
ghost use Rattle.fork_reach.specs.History.{note_of};

use crate::parents::Parents;
use git_commit::Commit;
use git_name::{Kind, Name};
use std::alloc::{AllocError, Global};
use std::marker::Model;

/// What a history keeps of a commit: its parents, in order, and the committer's seconds since 1970. Any other object
/// has no parents, and 0 seconds.
#[derive(Debug, Drop)]
pub struct Noted {
    parents: Parents,
    seconds: u64,
}

impl Model for Noted {
    ghost use Rattle.fork_reach.specs.History.{Note};
    ghost use Rattle.fork_reach.specs.Parents.{parents_listed};

    ghost Value = { Note };

    ghost view = { λ a. record { parents = parents_listed a.parents; seconds = a.seconds } };
}

impl Noted {
    // The note of an object that is not a commit.
    pub(crate) fn none() -> Noted
        ensures { result ≡ record { parents = []; seconds = 0 } }
    {
        Noted {
            parents: Parents::Root,
            seconds: 0,
        }
    }

    // The note of a commit.
    fn of_commit(alloc: Global, commit: &Commit<'_>) -> Result<Noted, AllocError>
        ensures { IfOk result (λ noted. noted ≡ record { parents = (commit_of commit.now).parents; seconds = (commit_of commit.now).committer.seconds }) }
    {
        let parents = Parents::of(alloc, commit)?;
        Ok(Noted {
            parents,
            seconds: commit.committer().seconds(),
        })
    }

    // The note of an object of this kind with these bytes.
    pub(crate) fn of(alloc: Global, kind: Kind, bytes: &[u8]) -> Result<Noted, AllocError>
        ensures { IfOk result (λ noted. noted ≡ note_of (record { kind = kind; bytes = bytes.now })) }
    {
        if !matches!(kind, Kind::Commit) {
            return Ok(Noted::none());
        }
        match Commit::read(bytes) {
            Ok(commit) => Noted::of_commit(alloc, &commit),
            Err(_) => Ok(Noted::none()),
        }
    }

    /// The names of the parents, in order.
    pub fn parents(&self) -> &[Name]
        ensures { result.now ≡ self.now.parents }
    {
        self.parents.as_slice()
    }

    /// The committer's seconds since 1970.
    pub fn seconds(&self) -> u64
        ensures { result ≡ self.now.seconds }
    {
        self.seconds
    }
}
