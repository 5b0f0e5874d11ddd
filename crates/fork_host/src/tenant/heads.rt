// The rows of `head` and `set-head`.
ghost use Rattle.std.specs.Prelude.{◌≡◌};
ghost use Rattle.std.specs.FinMap as map;
ghost use Rattle.fork_ledger.specs.Private.{Private};
ghost use Rattle.fork_model.specs.Answer.{head_answer, set_head_answer, set_head_in};
ghost use Rattle.fork_host.specs.Rows.{Gives};
ghost use Rattle.fork_host.specs.Shown.{seen_by};

use crate::replies::{bad_name, bad_ref, done};
use crate::tenant::Tenant;
use fork_query::head;
use fork_request::{ByteString, HostFault, Refusal, Reply, RepositoryName};
use git_reftx::Branch;
use std::alloc::Global;

impl Tenant {
    #[tactic(auto, unfolding(fork_model::specs::Answer::head_answer))]
    // The branch that HEAD of a repository names and, if it exists, its target.
    pub(crate) fn head(&self, alloc: Global, word: &[u8]) -> Reply
        ensures { (own : Private) → Gives (head_answer (seen_by self.now own) word.now) (seen_by self.now own) result (seen_by self.now own) }
    {
        let Some(name) = RepositoryName::read(word) else {
            return bad_name(alloc, word);
        };
        let Some(repository) = self.repositories.get(&name) else {
            return Reply::Refused(Refusal::NoRepository(name));
        };
        match head(alloc, repository) {
            Ok(text) => Reply::Done(ByteString::new(text)),
            Err(_) => Reply::Failed(HostFault::Memory),
        }
    }

    #[tactic(auto, unfolding(fork_model::specs::Answer::set_head_answer))]
    // Makes HEAD of a repository name another branch, whether it exists or not.
    pub(crate) fn set_head(&mut self, alloc: Global, word: &[u8], reference: &[u8]) -> Reply
        ensures row { (own : Private) → Gives (set_head_answer (seen_by self.old own) word.now reference.now) (seen_by self.old own) result (seen_by self.new own) }
        ensures upload { self.new.upload ≡ self.old.upload }
        ensures made { self.new.made ≡ self.old.made }
    {
        let Some(name) = RepositoryName::read(word) else {
            return bad_name(alloc, word);
        };
        self.point_head(alloc, name, reference)
    }

    // As `set_head`, if the word is a valid name.
    fn point_head(&mut self, alloc: Global, name: RepositoryName, reference: &[u8]) -> Reply
        ensures row { (own : Private) → Gives (set_head_in (seen_by self.old own) name reference.now (map.get self.old.repositories name)) (seen_by self.old own) result (seen_by self.new own) }
        ensures upload { self.new.upload ≡ self.old.upload }
        ensures made { self.new.made ≡ self.old.made }
    {
        if !self.repositories.contains(&name) {
            return Reply::Refused(Refusal::NoRepository(name));
        }
        let Some(branch) = Branch::read(reference) else {
            return bad_ref(alloc, reference);
        };
        self.repositories.set_head(&name, branch);
        done(alloc)
    }
}
