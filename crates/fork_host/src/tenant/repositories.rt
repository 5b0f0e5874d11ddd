// The rows of `init`, `repos`, `drop` and `fork`.
ghost use Rattle.std.specs.Prelude.{◌≡◌};
ghost use Rattle.std.specs.FinMap as map;
ghost use Rattle.fork_ledger.specs.Private.{Private};
ghost use Rattle.fork_model.specs.Answer.{repository_added, copied, drop_answer, fork_answer, init_answer, repositories_answer};
ghost use Rattle.fork_host.specs.Rows.{Gives};
ghost use Rattle.fork_host.specs.Shown.{seen_by};

use crate::replies::{bad_name, done};
use crate::tenant::Tenant;
use fork_model::MAX_REPOSITORIES;
use fork_request::{ByteString, HostFault, Refusal, Reply, RepositoryName};
use git_reftx::Repository;
use std::alloc::Global;

impl Tenant {
    #[tactic(auto, unfolding(fork_model::specs::Answer::init_answer))]
    // Makes a new repository.
    pub(crate) fn init(&mut self, alloc: Global, word: &[u8]) -> Reply
        ensures row { (own : Private) → Gives (init_answer (seen_by self.old own) word.now) (seen_by self.old own) result (seen_by self.new own) }
        ensures upload { self.new.upload ≡ self.old.upload }
        ensures made { self.new.made ≡ self.old.made }
    {
        match RepositoryName::read(word) {
            Some(name) => self.add_repository(alloc, name, Repository::new(alloc)),
            None => bad_name(alloc, word),
        }
    }

    // Adds a repository.
    fn add_repository(
        &mut self,
        alloc: Global,
        name: RepositoryName,
        repository: Repository,
    ) -> Reply
        ensures row { (own : Private) → Gives (repository_added (seen_by self.old own) name repository) (seen_by self.old own) result (seen_by self.new own) }
        ensures upload { self.new.upload ≡ self.old.upload }
        ensures made { self.new.made ≡ self.old.made }
    {
        if self.repositories.contains(&name) {
            return Reply::Refused(Refusal::RepositoryExists(name));
        }
        if self.repositories.len() >= MAX_REPOSITORIES {
            return Reply::Refused(Refusal::TooMany);
        }
        if self.repositories.insert(name, repository).is_err() {
            return Reply::Failed(HostFault::Memory);
        }
        done(alloc)
    }

    #[tactic(auto, unfolding(fork_model::specs::Answer::repositories_answer))]
    // The names of the repositories.
    pub(crate) fn list_repositories(&self, alloc: Global) -> Reply
        ensures { (own : Private) → Gives (repositories_answer (seen_by self.now own)) (seen_by self.now own) result (seen_by self.now own) }
    {
        match self.repositories.names(alloc) {
            Ok(names) => Reply::Done(ByteString::new(names)),
            Err(_) => Reply::Failed(HostFault::Memory),
        }
    }

    #[tactic(auto, unfolding(fork_model::specs::Answer::drop_answer))]
    // Removes a repository and its references.
    pub(crate) fn drop_repository(&mut self, alloc: Global, word: &[u8]) -> Reply
        ensures row { (own : Private) → Gives (drop_answer (seen_by self.old own) word.now) (seen_by self.old own) result (seen_by self.new own) }
        ensures upload { self.new.upload ≡ self.old.upload }
        ensures made { self.new.made ≡ self.old.made }
    {
        let Some(name) = RepositoryName::read(word) else {
            return bad_name(alloc, word);
        };
        if !self.repositories.contains(&name) {
            return Reply::Refused(Refusal::NoRepository(name));
        }
        self.repositories.remove(&name);
        done(alloc)
    }

    #[tactic(auto, unfolding(fork_model::specs::Answer::fork_answer))]
    // Makes a new repository that is a copy of another.
    pub(crate) fn fork(&mut self, alloc: Global, source: &[u8], copy: &[u8]) -> Reply
        ensures row { (own : Private) → Gives (fork_answer (seen_by self.old own) source.now copy.now) (seen_by self.old own) result (seen_by self.new own) }
        ensures upload { self.new.upload ≡ self.old.upload }
        ensures made { self.new.made ≡ self.old.made }
    {
        let Some(from) = RepositoryName::read(source) else {
            return bad_name(alloc, source);
        };
        let Some(to) = RepositoryName::read(copy) else {
            return bad_name(alloc, copy);
        };
        self.copy_repository(alloc, from, to)
    }

    // As `fork`, if both words are valid names.
    fn copy_repository(&mut self, alloc: Global, from: RepositoryName, to: RepositoryName) -> Reply
        ensures row { (own : Private) → Gives (copied (seen_by self.old own) from to (map.get self.old.repositories from)) (seen_by self.old own) result (seen_by self.new own) }
        ensures upload { self.new.upload ≡ self.old.upload }
        ensures made { self.new.made ≡ self.old.made }
    {
        let Some(repository) = self.repositories.get(&from) else {
            return Reply::Refused(Refusal::NoRepository(from));
        };
        let Ok(same) = repository.copy() else {
            return Reply::Failed(HostFault::Memory);
        };
        self.add_repository(alloc, to, same)
    }
}
