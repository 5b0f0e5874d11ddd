// The rows of `update-refs` and `for-each-ref`.
ghost use Rattle.std.specs.Prelude.{◌≡◌, Some, option_map, true};
ghost use Rattle.std.specs.FinMap as map;
ghost use Rattle.git_reftx.specs.Repository.{Repository};
ghost use Rattle.git_reftx.specs.Transaction.{transacted};
ghost use Rattle.fork_reach.specs.Source.{kind_in};
ghost use Rattle.fork_model.specs.Answer.{references_answer, update_answer, with_references};
ghost use Rattle.fork_host.specs.Handle.{shown_by, visible_by};
ghost use Rattle.fork_host.specs.Rows.{Gives};

use crate::own::Own;
use crate::replies::{bad_name, command_refusal, done, transaction_refusal};
use crate::tenant::Tenant;
use fork_query::for_each_ref;
use fork_request::{ByteString, HostFault, Refusal, Reply, RepositoryName};
use git_reftx::{ApplyError, Command, ReadError, read_commands};
use loose_store::LooseFiles;
use std::alloc::Global;

impl Tenant {
    #[tactic(auto, unfolding(fork_model::specs::Answer::update_answer))]
    // Carries out a transaction of a repository's references.
    pub(crate) fn update_refs<S: LooseFiles>(
        &mut self,
        alloc: Global,
        own: &Own<'_, S>,
        word: &[u8],
        body: &[u8],
    ) -> Reply
        ensures row { Gives (update_answer (shown_by self.old own.now) word.now body.now) (shown_by self.old own.now) result (shown_by self.new own.now) }
        ensures upload { self.new.upload ≡ self.old.upload }
        ensures made { self.new.made ≡ self.old.made }
    {
        let Some(name) = RepositoryName::read(word) else {
            return bad_name(alloc, word);
        };
        if !self.repositories.contains(&name) {
            return Reply::Refused(Refusal::NoRepository(name));
        }
        match read_commands(alloc, body) {
            Ok(commands) => self.carry_out(alloc, own, &name, commands.as_slice()),
            Err(ReadError::Fault(fault)) => Reply::Refused(command_refusal(fault)),
            Err(ReadError::Memory) => Reply::Failed(HostFault::Memory),
        }
    }

    // Carries out the commands in an existing repository, all or none.
    fn carry_out<S: LooseFiles>(
        &mut self,
        alloc: Global,
        own: &Own<'_, S>,
        name: &RepositoryName,
        commands: &[Command],
    ) -> Reply
        requires { map.contains_key self.old.repositories name.now ≡ true }
        ensures row { (old : Repository) → map.get self.old.repositories name.now ≡ Some old
            → Gives (with_references (shown_by self.old own.now) name.now old (transacted old.references commands.now (kind_in (visible_by own.now)))) (shown_by self.old own.now) result (shown_by self.new own.now) }
        ensures upload { self.new.upload ≡ self.old.upload }
        ensures made { self.new.made ≡ self.old.made }
    {
        match self.repositories.apply(alloc, name, commands, own) {
            Ok(()) => done(alloc),
            Err(ApplyError::Refused(refusal)) => Reply::Refused(transaction_refusal(refusal)),
            Err(ApplyError::Memory) => Reply::Failed(HostFault::Memory),
        }
    }

    #[tactic(auto, unfolding(fork_model::specs::Answer::references_answer))]
    // The references of a repository.
    pub(crate) fn for_each_ref<S: LooseFiles>(
        &self,
        alloc: Global,
        own: &Own<'_, S>,
        word: &[u8],
        prefix: Option<&[u8]>,
    ) -> Reply
        ensures { Gives (references_answer (shown_by self.now own.now) word.now (option_map (λ word. word.now) prefix.entry)) (shown_by self.now own.now) result (shown_by self.now own.now) }
    {
        let Some(name) = RepositoryName::read(word) else {
            return bad_name(alloc, word);
        };
        let Some(repository) = self.repositories.get(&name) else {
            return Reply::Refused(Refusal::NoRepository(name));
        };
        match for_each_ref(alloc, own, repository.references(), prefix) {
            Ok(text) => Reply::Done(ByteString::new(text)),
            Err(_) => Reply::Failed(HostFault::Memory),
        }
    }
}
