ghost use Rattle.std.specs.Prelude.{◌≡◌, ◌≤◌, ◌++◌, ℕ, List, [], Contains, codes, flat_map, map as mapped, OnOk, OnErr, IfOk, IfErr, Ok, Err, Some, true};
ghost use Rattle.std.specs.Option.{option_copied};
ghost use Rattle.std.specs.FinMap as map;
ghost use Rattle.std.specs.BTreeMap.{IsUnchanged, Updates};
ghost use Rattle.git_name.specs.Name.{name_cmp};
ghost use Rattle.git_reftx.specs.Repository.{Repository as Shown};
ghost use Rattle.git_reftx.specs.Transaction.{References, transacted};
ghost use Rattle.git_reftx.specs.Judging.{TellsTransacted};
ghost use Rattle.fork_model.specs.Answer.{targets_of};
ghost use Rattle.fork_model.specs.Figures.{references_in};
ghost use Rattle.fork_model.specs.declared.limits.TheConstants.{MAX_REPOSITORIES};
ghost use Rattle.state_text.specs.States.{Ascend};
ghost use Rattle.fork_host.specs.Keeping.{with_repositories};

use crate::keeping::keep_repository;
use crate::targets::add_targets;
use fork_request::RepositoryName;
use git_name::Name;
use git_reftx::{ApplyError, Branch, Command, Known, Refs, Repository};
use state_text::TenantState;
use std::alloc::{AllocError, Global};
use std::collections::BTreeMap;
use std::marker::Model;

// A tenant's repositories by name.
#[derive(Drop)]
pub(crate) struct Repositories {
    repositories: BTreeMap<RepositoryName, Repository>,
}

impl Model for Repositories {
    ghost use Rattle.std.specs.FinMap as map;
    ghost use Rattle.std.specs.Coded.{coded_list, coded_ℕ};
    ghost use Rattle.git_reftx.specs.Repository.{repository_code};
    ghost use Rattle.fork_model.specs.View.{Repositories};

    ghost Value = { Repositories };

    ghost coded = { map.code (coded_list coded_ℕ) repository_code };

    ghost view = { λ a. map.from_entries a.repositories.entries };
}

impl Repositories {
    // No repositories.
    pub(crate) fn new(alloc: Global) -> Repositories
        ensures { result ≡ map.empty }
    {
        Repositories {
            repositories: BTreeMap::new(alloc),
        }
    }

    // The repositories of this list, whose names ascend.
    pub(crate) fn gather(
        alloc: Global,
        list: &[(RepositoryName, Repository)],
    ) -> Result<Repositories, AllocError>
        requires { Ascend (mapped (λ repository. repository.0) list.now) }
        ensures { IfOk result (λ gathered. map.entries gathered ≡ list.now) }
    {
        let mut repositories = Repositories::new(alloc);
        for (name, repository) in list {
            let copy = repository.copy()?;
            repositories.insert(name.copy(), copy)?;
        }
        Ok(repositories)
    }

    // The number of repositories.
    pub(crate) fn len(&self) -> usize
        ensures { result ≡ map.len self.now }
    {
        self.repositories.len()
    }

    // Whether there is a repository of this name.
    pub(crate) fn contains(&self, name: &RepositoryName) -> bool
        ensures { result ≡ map.contains_key self.now name.now }
    {
        self.repositories.contains_key(name)
    }

    // The repository of this name.
    pub(crate) fn get(&self, name: &RepositoryName) -> Option<&Repository>
        ensures { option_copied result ≡ map.get self.now name.now }
    {
        self.repositories.get(name)
    }

    // Puts a repository under a name.
    pub(crate) fn insert(
        &mut self,
        name: RepositoryName,
        repository: Repository,
    ) -> Result<(), AllocError>
        ensures ok { OnOk result (self.new ≡ map.insert self.old name repository) }
        ensures err { OnErr result (self.new ≡ self.old) }
    {
        put(&mut self.repositories, name, repository)
    }

    // Gives the repository of this name these references.
    pub(crate) fn set_references(&mut self, name: &RepositoryName, references: Refs)
        requires { map.contains_key self.old name.now ≡ true }
        ensures { (old : Shown) → map.get self.old name.now ≡ Some old → self.new ≡ map.insert self.old name.now (record old { references = references }) }
    {
        let Some(repository) = self.repositories.get_mut(name) else {
            unreachable!();
        };
        repository.set_references(references);
    }

    // Makes HEAD of the repository of this name name this branch.
    pub(crate) fn set_head(&mut self, name: &RepositoryName, head: Branch)
        requires { map.contains_key self.old name.now ≡ true }
        ensures { (old : Shown) → map.get self.old name.now ≡ Some old → self.new ≡ map.insert self.old name.now (record old { head = head }) }
    {
        let Some(repository) = self.repositories.get_mut(name) else {
            unreachable!();
        };
        repository.set_head(head);
    }

    // Carries out the commands on the references of the repository of this name, all or none of them.
    pub(crate) fn apply<K: Known>(
        &mut self,
        alloc: Global,
        name: &RepositoryName,
        commands: &[Command],
        known: &K,
    ) -> Result<(), ApplyError>
        requires { map.contains_key self.old name.now ≡ true }
        ensures ok { OnOk result ((old : Shown) → map.get self.old name.now ≡ Some old
            → (new : References) × (transacted old.references commands.now (K.kinds known.now) ≡ Ok new) × (self.new ≡ map.insert self.old name.now (record old { references = new }))) }
        ensures err { OnErr result (self.new ≡ self.old) }
        ensures cause { IfErr result (λ error. (old : Shown) → map.get self.old name.now ≡ Some old → TellsTransacted (transacted old.references commands.now (K.kinds known.now)) error) }
    {
        let Some(repository) = self.repositories.get_mut(name) else {
            unreachable!();
        };
        repository.apply(alloc, commands, known)
    }

    // The names, ascending, each with LF.
    pub(crate) fn names(&self, alloc: Global) -> Result<Vec<u8>, AllocError>
        ensures { IfOk result (λ text. text.items ≡ flat_map (λ name. name ++ codes "\n") (map.keys self.now)) }
    {
        let mut text = Vec::new(alloc);
        for (name, _repository) in self.repositories.iter() {
            text.extend_from_slice(name.as_bytes())?;
            text.push(b'\n')?;
        }
        Ok(text)
    }

    // How many references all of them have together.
    pub(crate) fn reference_count(&self) -> u128
        ensures { result ≡ references_in self.now }
    {
        let _most = self.repositories.len();
        let mut count = 0u128;
        for repository in self.repositories.values() {
            count += repository.references().len() as u128;
        }
        count
    }

    // The names of the objects at which references point, in the order of the repositories and of
    // their references.
    pub(crate) fn targets(&self, alloc: Global) -> Result<Vec<Name>, AllocError>
        ensures { IfOk result (λ names. names.items ≡ targets_of self.now) }
    {
        let mut names = Vec::new(alloc);
        for repository in self.repositories.values() {
            add_targets(&mut names, repository.references())?;
        }
        Ok(names)
    }

    // Appends a copy of each to the repositories of a tenant's state.
    pub(crate) fn keep(&self, state: &mut TenantState) -> Result<(), AllocError>
        requires none { state.old.repositories ≡ [] }
        requires few { map.len self.now ≤ MAX_REPOSITORIES }
        ensures { OnOk result (state.new ≡ with_repositories state.old (map.entries self.now)) }
    {
        for (name, repository) in self.repositories.iter() {
            let repository = repository.copy()?;
            keep_repository(state, name.copy(), repository)?;
        }
        Ok(())
    }

    // Removes the repository of this name, if it exists. It allocates nothing.
    pub(crate) fn remove(&mut self, name: &RepositoryName)
        ensures { self.new ≡ map.remove self.old name.now }
    {
        take_out(&mut self.repositories, name)
    }
}

fn put(
    repositories: &mut BTreeMap<RepositoryName, Repository>,
    name: RepositoryName,
    repository: Repository,
) -> Result<(), AllocError>
    ensures ok { OnOk result (Updates name_cmp repositories.old repositories.new name (Some repository)) }
    ensures err { OnErr result (IsUnchanged repositories.old repositories.new) }
{
    repositories.insert(name, repository)?;
    Ok(())
}

fn take_out(repositories: &mut BTreeMap<RepositoryName, Repository>, name: &RepositoryName)
    ensures { Updates name_cmp repositories.old repositories.new name.now None }
{
    repositories.remove(name);
}
