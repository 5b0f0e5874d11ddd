ghost use Rattle.std.specs.Prelude.{◌≡◌, IsTrue, false};
ghost use Rattle.fork_request.specs.Asked.{ask_of};
ghost use Rattle.fork_model.specs.Answer.{answer};
ghost use Rattle.fork_model.specs.Context.{nothing_offered};
ghost use Rattle.fork_model.specs.Disclosure.{changes_offers, looks_at_offers};
ghost use Rattle.fork_model.specs.Sound.{AreToOthers};
ghost use Rattle.fork_host.specs.Adding.{new_account};
ghost use Rattle.fork_host.specs.Bounds.{IsBounded};
ghost use Rattle.fork_host.specs.Handle.{Ready, Touches, shown_by, staged_by};
ghost use Rattle.fork_host.specs.Own.{staged_in};
ghost use Rattle.fork_host.specs.Rows.{YieldsOver};
ghost use Rattle.fork_host.specs.Handle.{visible_by};
ghost use Rattle.fork_host.specs.Safe.{IsNamedReply, IsSafe, TellsSeen};
ghost use Rattle.fork_host.specs.Sent.{sent_by, sent_names};
ghost use Rattle.fork_host.specs.Shown.{shown};
ghost use Rattle.fork_host.specs.Staged.{IsStaged};

mod figures;
mod heads;
mod keeping;
mod offers;
mod prune;
mod pushes;
mod queries;
mod quota;
mod references;
mod repositories;

use crate::made::Made;
use crate::own::Own;
use crate::repositories::Repositories;
use fork_request::{Refusal, Reply, Request};
use git_name::Name;
use loose_store::LooseFiles;
use push_stream::OpenUpload;
use std::alloc::Global;
use std::marker::Model;

// One tenant of a host: its account. Its objects are in the vault.
#[derive(Drop)]
pub(crate) struct Tenant {
    repositories: Repositories,
    made: Made,
    upload: Option<OpenUpload>,
    limit: u64,
}

impl Model for Tenant {
    ghost use Rattle.std.specs.Prelude.{option_map};
    ghost use Rattle.fork_host.specs.Shown.{Account, account_code};

    ghost Value = { Account };

    ghost coded = { account_code };

    ghost view = { λ a. record { repositories = a.repositories; made = a.made; upload = option_map (λ upload. upload.brief) a.upload; limit = a.limit } };
}

impl Tenant {
    // A tenant that sees nothing.
    pub(crate) fn new(alloc: Global, limit: u64) -> Tenant
        ensures { result ≡ new_account limit }
    {
        Tenant {
            repositories: Repositories::new(alloc),
            made: Made::new(alloc),
            upload: None,
            limit,
        }
    }

    // Gives the tenant these repositories and offers.
    pub(crate) fn settle(&mut self, repositories: Repositories, made: Made)
        ensures { self.new ≡ record self.old { repositories = repositories; made = made } }
    {
        self.repositories = repositories;
        self.made = made;
    }

    #[tactic(auto, unfolding(fork_model::specs::Answer::answer))]
    // Answers a request from the tenant's account and its own part of the vault. Each row of the answer is
    // a method, in the file of its subject. It does not depend on the offers of others.
    pub(crate) fn answer<S: LooseFiles>(
        &mut self,
        alloc: Global,
        own: &mut Own<'_, S>,
        request: Request<'_>,
    ) -> Reply
        requires ready { Ready own.old self.old.limit }
        requires staged { IsStaged own.old.vault.now.honest self.old.upload (staged_by own.old) }
        requires alone { looks_at_offers (ask_of request) ≡ false }
        ensures row { YieldsOver own.old.vault.now.honest (answer (nothing_offered own.old.tenant.now) (shown_by self.old own.old) (ask_of request.entry)) (shown_by self.old own.old) result (shown self.new own.new.vault.now own.old.tenant.now) }
        ensures safe { IsSafe (IsBounded (sent_by (shown_by self.old own.old) (ask_of request.entry)) own.old.vault.now own.new.vault.now) (shown_by self.old own.old) result (shown self.new own.new.vault.now own.old.tenant.now) }
        ensures made { changes_offers (ask_of request.entry) ≡ false → self.new.made ≡ self.old.made }
        ensures others { AreToOthers own.old.tenant.now (shown_by self.old own.old) → AreToOthers own.old.tenant.now (shown self.new own.new.vault.now own.old.tenant.now) }
        ensures named { IsNamedReply (ask_of request.entry) result }
        ensures seen { TellsSeen (visible_by own.old) (ask_of request.entry) result }
        ensures own { Touches (sent_names (sent_by (shown_by self.old own.old) (ask_of request.entry))) own.old own.new }
        ensures staged { IsStaged own.old.vault.now.honest self.new.upload (staged_in own.new.vault.now own.old.tenant.now) }
    {
        match request {
            Request::Init(word) => self.init(alloc, word),
            Request::Drop(word) => self.drop_repository(alloc, word),
            Request::Fork(source, copy) => self.fork(alloc, source, copy),
            Request::Push(word, body) => self.push(alloc, own, word, body),
            Request::Part(body) => self.part(alloc, own, body),
            Request::PartEnd(word) => self.part_end(alloc, own, word),
            Request::PartDrop => self.part_drop(alloc, own),
            Request::UpdateRefs(word, body) => self.update_refs(alloc, own, word, body),
            Request::SetHead(word, reference) => self.set_head(alloc, word, reference),
            Request::Offer(word, receiver) => self.offer(alloc, own.tenant(), word, receiver),
            Request::Withdraw(word, receiver) => self.withdraw(alloc, own.tenant(), word, receiver),
            Request::CatFile(name) => self.cat_file(alloc, own, Name::new(name)),
            Request::LsTree(name) => self.ls_tree(alloc, own, Name::new(name)),
            Request::RevList(word, items) => self.rev_list(alloc, own, word, items),
            Request::MergeBase(word, a, b) => self.merge_base(alloc, own, word, a, b),
            Request::ForEachRef(word, prefix) => self.for_each_ref(alloc, own, word, prefix),
            Request::Head(word) => self.head(alloc, word),
            Request::Fetch(word, items) => self.fetch(alloc, own, word, items),
            Request::Repositories => self.list_repositories(alloc),
            Request::Quota => self.quota(alloc, own),
            Request::Prune => self.prune(alloc, own),
            Request::Offers => unreachable!(),
            Request::ForkOffer(_, _, _) => unreachable!(),
            Request::Bad => Reply::Refused(Refusal::BadRequest),
        }
    }
}
