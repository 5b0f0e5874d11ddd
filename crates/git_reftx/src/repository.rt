ghost use Rattle.std.specs.Prelude.{◌≡◌, ◌++◌, ◌∷◌, [], Ok, OnOk, OnErr, IfOk, IfErr};
ghost use Rattle.std.specs.FinMap as map;
ghost use Rattle.git_reftx.specs.Judging.{TellsTransacted};
ghost use Rattle.git_reftx.specs.Push.{TellsPush};
ghost use Rattle.git_reftx.specs.Repository.{IsRepository, new_repository};
ghost use Rattle.git_reftx.specs.Transaction.{transacted};

use crate::branch::Branch;
use crate::command::Command;
use crate::fault::{ApplyError, PushRefError};
use crate::known::Known;
use crate::refs::Refs;
use git_name::Name;
use git_refname::RefName;
use std::alloc::{AllocError, Global};
use std::marker::Model;

/// A repository: the branch that its HEAD names, which need not exist, and its references.
#[derive(Drop)]
pub struct Repository {
    head: Branch,
    references: Refs,
}

impl Model for Repository {
    ghost use Rattle.git_reftx.specs.Repository.{Repository as Shown, repository_code};

    ghost Value = { Shown };

    ghost coded = { repository_code };

    ghost view = { λ a. record { head = a.head; references = a.references } };
}

impl Repository {
    /// A new repository: HEAD names `refs/heads/main`, and there are no references.
    pub fn new(alloc: Global) -> Repository
        ensures { result ≡ new_repository }
    {
        Repository {
            head: Branch::main(),
            references: Refs::new(alloc),
        }
    }

    /// A repository with this HEAD and these references.
    pub fn of(head: Branch, references: Refs) -> Repository
        ensures { result ≡ record { head = head; references = references } }
    {
        Repository { head, references }
    }

    /// The branch that HEAD names.
    pub fn head(&self) -> &Branch
        ensures { result.now ≡ self.now.head }
    {
        &self.head
    }

    /// The references.
    pub fn references(&self) -> &Refs
        ensures references { result.now ≡ self.now.references }
        ensures sound { IsRepository self.now }
    {
        let _head = self.head.name();
        let _count = self.references.len();
        &self.references
    }

    /// A copy of the repository.
    pub fn copy(&self) -> Result<Repository, AllocError>
        ensures { IfOk result (λ copied. copied ≡ self.now) }
    {
        let references = self.references.copy()?;
        Ok(Repository {
            head: self.head.copy(),
            references,
        })
    }

    /// Shares its references with those of another repository, as `Refs::share_with` does.
    pub fn share_with(&mut self, other: &Repository) -> Result<(), AllocError>
        ensures { self.new ≡ self.old }
    {
        self.references.share_with(&other.references)
    }

    /// Makes HEAD name this branch, whether it exists or not.
    pub fn set_head(&mut self, head: Branch)
        ensures { self.new ≡ record self.old { head = head } }
    {
        self.head = head;
    }

    /// Replaces the references.
    pub fn set_references(&mut self, references: Refs)
        ensures { self.new ≡ record self.old { references = references } }
    {
        self.references = references;
    }

    /// Appends a reference, as `Refs::push` does.
    pub fn push(&mut self, name: RefName, target: Name) -> Result<(), PushRefError>
        ensures head { self.new.head ≡ self.old.head }
        ensures ok { OnOk result (map.entries self.new.references ≡ map.entries self.old.references ++ (name, target) ∷ []) }
        ensures err { OnErr result (self.new ≡ self.old) }
        ensures cause { IfErr result (TellsPush self.old.references name) }
    {
        self.references.push(name, target)
    }

    /// Carries out all commands of a transaction of the references, or none, as `Refs::apply` does.
    pub fn apply<K: Known>(
        &mut self,
        alloc: Global,
        commands: &[Command],
        known: &K,
    ) -> Result<(), ApplyError>
        ensures head { self.new.head ≡ self.old.head }
        ensures ok { OnOk result (transacted self.old.references commands.now (K.kinds known.now) ≡ Ok self.new.references) }
        ensures err { OnErr result (self.new ≡ self.old) }
        ensures cause { IfErr result (TellsTransacted (transacted self.old.references commands.now (K.kinds known.now))) }
    {
        self.references.apply(alloc, commands, known)
    }
}
