// Rows that query what a tenant sees, and change nothing.
ghost use Rattle.std.specs.Prelude.{[], IsTrue};
ghost use Rattle.git_name.specs.Text.{words_of};
ghost use Rattle.fork_model.specs.Answer.{cat_file_answer, fetch_answer, ls_tree_answer, merge_base_answer, rev_list_answer};
ghost use Rattle.fork_host.specs.Bounds.{IsBounded};
ghost use Rattle.fork_host.specs.Handle.{Ready, Uses, shown_by, visible_by};
ghost use Rattle.fork_host.specs.Rows.{Yields};
ghost use Rattle.fork_host.specs.Safe.{IsNamedReply, IsSafe, TellsSeen};
ghost use Rattle.fork_request.specs.Asked.{AsksBases, AsksObject, Fetches};
ghost use Rattle.fork_host.specs.Shown.{shown};

use crate::items::has_many;
use crate::own::Own;
use crate::replies::{bad_name, told};
use crate::tenant::Tenant;
use fork_query::{cat_file, fetch, ls_tree, merge_base, rev_list};
use fork_request::{Refusal, Reply, RepositoryName};
use git_name::Name;
use loose_store::LooseFiles;
use std::alloc::Global;

impl Tenant {
    #[tactic(auto, unfolding(fork_model::specs::Answer::cat_file_answer))]
    // The record of an object.
    pub(crate) fn cat_file<S: LooseFiles>(
        &self,
        alloc: Global,
        own: &mut Own<'_, S>,
        name: Name,
    ) -> Reply
        requires ready { Ready own.old self.now.limit }
        ensures row { IsTrue own.old.vault.now.honest → Yields (cat_file_answer (shown_by self.now own.old) name) (shown_by self.now own.old) result (shown self.now own.new.vault.now own.old.tenant.now) }
        ensures named { IsNamedReply (AsksObject name) result }
        ensures safe { IsSafe (IsBounded [] own.old.vault.now own.new.vault.now) (shown_by self.now own.old) result (shown self.now own.new.vault.now own.old.tenant.now) }
        ensures own { Uses [] own.old own.new }
    {
        told(cat_file(alloc, own, name))
    }

    #[tactic(auto, unfolding(fork_model::specs::Answer::ls_tree_answer))]
    // The entries of the tree that a name leads to.
    pub(crate) fn ls_tree<S: LooseFiles>(
        &self,
        alloc: Global,
        own: &mut Own<'_, S>,
        name: Name,
    ) -> Reply
        requires ready { Ready own.old self.now.limit }
        ensures row { IsTrue own.old.vault.now.honest → Yields (ls_tree_answer (shown_by self.now own.old) name) (shown_by self.now own.old) result (shown self.now own.new.vault.now own.old.tenant.now) }
        ensures safe { IsSafe (IsBounded [] own.old.vault.now own.new.vault.now) (shown_by self.now own.old) result (shown self.now own.new.vault.now own.old.tenant.now) }
        ensures own { Uses [] own.old own.new }
    {
        told(ls_tree(alloc, own, name))
    }

    #[tactic(auto, unfolding(fork_model::specs::Answer::rev_list_answer))]
    // The ancestors of the wanted commits, except those of the excluded ones.
    pub(crate) fn rev_list<S: LooseFiles>(
        &self,
        alloc: Global,
        own: &mut Own<'_, S>,
        word: &[u8],
        items: &[u8],
    ) -> Reply
        requires ready { Ready own.old self.now.limit }
        ensures row { IsTrue own.old.vault.now.honest → Yields (rev_list_answer (shown_by self.now own.old) word.now (words_of items.now)) (shown_by self.now own.old) result (shown self.now own.new.vault.now own.old.tenant.now) }
        ensures safe { IsSafe (IsBounded [] own.old.vault.now own.new.vault.now) (shown_by self.now own.old) result (shown self.now own.new.vault.now own.old.tenant.now) }
        ensures own { Uses [] own.old own.new }
    {
        let Some(name) = RepositoryName::read(word) else {
            return bad_name(alloc, word);
        };
        if has_many(items) {
            return Reply::Refused(Refusal::TooMany);
        }
        let Some(repository) = self.repositories.get(&name) else {
            return Reply::Refused(Refusal::NoRepository(name));
        };
        told(rev_list(alloc, own, repository, items))
    }

    #[tactic(auto, unfolding(fork_model::specs::Answer::merge_base_answer))]
    // The best common ancestors of two commits.
    pub(crate) fn merge_base<S: LooseFiles>(
        &self,
        alloc: Global,
        own: &mut Own<'_, S>,
        word: &[u8],
        first: &[u8],
        second: &[u8],
    ) -> Reply
        requires ready { Ready own.old self.now.limit }
        ensures row { IsTrue own.old.vault.now.honest → Yields (merge_base_answer (shown_by self.now own.old) word.now first.now second.now) (shown_by self.now own.old) result (shown self.now own.new.vault.now own.old.tenant.now) }
        ensures safe { IsSafe (IsBounded [] own.old.vault.now own.new.vault.now) (shown_by self.now own.old) result (shown self.now own.new.vault.now own.old.tenant.now) }
        ensures seen { TellsSeen (visible_by own.old) (AsksBases word.now first.now second.now) result }
        ensures own { Uses [] own.old own.new }
    {
        let Some(name) = RepositoryName::read(word) else {
            return bad_name(alloc, word);
        };
        let Some(repository) = self.repositories.get(&name) else {
            return Reply::Refused(Refusal::NoRepository(name));
        };
        told(merge_base(alloc, own, repository, first, second))
    }

    #[tactic(auto, unfolding(fork_model::specs::Answer::fetch_answer))]
    // The records of what the wanted objects reach and the excluded ones do not.
    pub(crate) fn fetch<S: LooseFiles>(
        &self,
        alloc: Global,
        own: &mut Own<'_, S>,
        word: &[u8],
        items: &[u8],
    ) -> Reply
        requires ready { Ready own.old self.now.limit }
        ensures row { IsTrue own.old.vault.now.honest → Yields (fetch_answer (shown_by self.now own.old) word.now (words_of items.now)) (shown_by self.now own.old) result (shown self.now own.new.vault.now own.old.tenant.now) }
        ensures named { IsNamedReply (Fetches word.now (words_of items.now)) result }
        ensures safe { IsSafe (IsBounded [] own.old.vault.now own.new.vault.now) (shown_by self.now own.old) result (shown self.now own.new.vault.now own.old.tenant.now) }
        ensures own { Uses [] own.old own.new }
    {
        let Some(name) = RepositoryName::read(word) else {
            return bad_name(alloc, word);
        };
        if has_many(items) {
            return Reply::Refused(Refusal::TooMany);
        }
        let Some(repository) = self.repositories.get(&name) else {
            return Reply::Refused(Refusal::NoRepository(name));
        };
        told(fetch(alloc, own, repository, items))
    }
}
