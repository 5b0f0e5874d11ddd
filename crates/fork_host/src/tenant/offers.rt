// Rows about the offers that a tenant has made and those that it meets.
ghost use Rattle.std.specs.Prelude.{◌≡◌, ◌++◌, codes, nat_le, None, OnErr, OnOk, Some, if◌then◌else◌};
ghost use Rattle.std.specs.Option.{option_copied};
ghost use Rattle.fork_model.specs.declared.limits.TheConstants.{MAX_REPOSITORIES};
ghost use Rattle.fork_host.specs.Made.{rows_from};
ghost use Rattle.std.specs.FinMap as map;
ghost use Rattle.fork_ledger.specs.Private.{Private};
ghost use Rattle.fork_model.specs.Answer.{offer_added, offer_answer, offer_in, offer_rows, offers_answer, withdraw_answer, withdrawn};
ghost use Rattle.fork_model.specs.Context.{Context, nothing_offered};
ghost use Rattle.fork_host.specs.Rows.{Gives};
ghost use Rattle.fork_host.specs.Shown.{seen_by};

use crate::replies::{bad_name, done};
use crate::tenant::Tenant;
use fork_model::{MAX_OFFERS, MAX_REPOSITORIES};
use fork_request::{ByteString, HostFault, Refusal, Reply, RepositoryName, TenantName};
use git_reftx::Repository;
use std::alloc::{AllocError, Global};

impl Tenant {
    #[tactic(auto, unfolding(fork_model::specs::Answer::offer_answer))]
    // Offers a repository as it is to another tenant, whether that tenant exists or not.
    pub(crate) fn offer(
        &mut self,
        alloc: Global,
        name: &TenantName,
        word: &[u8],
        receiver: &[u8],
    ) -> Reply
        ensures row { (own : Private) → Gives (offer_answer (nothing_offered name.now) (seen_by self.old own) word.now receiver.now) (seen_by self.old own) result (seen_by self.new own) }
        ensures upload { self.new.upload ≡ self.old.upload }
    {
        let Some(of) = RepositoryName::read(word) else {
            return bad_name(alloc, word);
        };
        let Some(to) = receiver_named(name, receiver) else {
            return bad_name(alloc, receiver);
        };
        self.offer_repository(alloc, of, to)
    }

    // As `offer`, if both words are valid names.
    fn offer_repository(&mut self, alloc: Global, of: RepositoryName, to: TenantName) -> Reply
        ensures row { (own : Private) → Gives (offer_in (seen_by self.old own) of to (map.get self.old.repositories of)) (seen_by self.old own) result (seen_by self.new own) }
        ensures upload { self.new.upload ≡ self.old.upload }
    {
        let Some(repository) = self.repositories.get(&of) else {
            return Reply::Refused(Refusal::NoRepository(of));
        };
        let Ok(same) = repository.copy() else {
            return Reply::Failed(HostFault::Memory);
        };
        self.add_offer(alloc, of, to, same)
    }

    // Adds an offer.
    fn add_offer(
        &mut self,
        alloc: Global,
        of: RepositoryName,
        to: TenantName,
        repository: Repository,
    ) -> Reply
        ensures row { (own : Private) → Gives (offer_added (seen_by self.old own) (to, of) repository) (seen_by self.old own) result (seen_by self.new own) }
        ensures upload { self.new.upload ≡ self.old.upload }
    {
        if self.made.contains(&to, &of) {
            return Reply::Refused(Refusal::OfferExists(to, of));
        }
        if self.made.len() >= MAX_OFFERS {
            return Reply::Refused(Refusal::TooMany);
        }
        if self.made.insert(to, of, repository).is_err() {
            return Reply::Failed(HostFault::Memory);
        }
        done(alloc)
    }

    #[tactic(auto, unfolding(fork_model::specs::Answer::withdraw_answer))]
    // Removes an offer. Its repository need not exist any more.
    pub(crate) fn withdraw(
        &mut self,
        alloc: Global,
        name: &TenantName,
        word: &[u8],
        receiver: &[u8],
    ) -> Reply
        ensures row { (own : Private) → Gives (withdraw_answer (nothing_offered name.now) (seen_by self.old own) word.now receiver.now) (seen_by self.old own) result (seen_by self.new own) }
        ensures upload { self.new.upload ≡ self.old.upload }
    {
        let Some(of) = RepositoryName::read(word) else {
            return bad_name(alloc, word);
        };
        let Some(to) = receiver_named(name, receiver) else {
            return bad_name(alloc, receiver);
        };
        if !self.made.contains(&to, &of) {
            return Reply::Refused(Refusal::NoOffer(to, of));
        }
        self.made.remove(&to, &of);
        done(alloc)
    }

    #[tactic(auto, unfolding(fork_model::specs::Answer::offers_answer))]
    // The offers to the tenant, given as rows, then those that it has made.
    pub(crate) fn offers(&self, rows: Vec<u8>) -> Reply
        ensures { (context : Context) (own : Private) → rows.items ≡ offer_rows (codes "from ") context.offered → Gives (offers_answer context (seen_by self.now own)) (seen_by self.now own) result (seen_by self.now own) }
    {
        let mut rows = rows;
        match self.made.add_rows(&mut rows) {
            Ok(()) => Reply::Done(ByteString::new(rows)),
            Err(_) => Reply::Failed(HostFault::Memory),
        }
    }

    // The offer to this receiver of the repository of this name.
    pub(crate) fn offered_to(
        &self,
        receiver: &TenantName,
        name: &RepositoryName,
    ) -> Option<&Repository>
        ensures { option_copied result ≡ map.get self.now.made (receiver.now, name.now) }
    {
        self.made.get(receiver, name)
    }

    // Adds a row for each offer to this receiver. `name` is the tenant's own name.
    pub(crate) fn add_rows_to(
        &self,
        name: &TenantName,
        receiver: &TenantName,
        rows: &mut Vec<u8>,
    ) -> Result<(), AllocError>
        ensures { OnOk result (rows.new.items ≡ rows.old.items ++ rows_from name.now receiver.now self.now.made) }
    {
        self.made.add_rows_to(name, receiver, rows)
    }

    // How many bytes its objects may use.
    pub(crate) fn limit(&self) -> u64
        ensures { result ≡ self.now.limit }
    {
        self.limit
    }

    // Why a new repository of this name is refused, if it is.
    pub(crate) fn refuses(&self, name: &RepositoryName) -> Option<Refusal>
        ensures { result ≡ (if map.contains_key self.now.repositories name.now then Some (Refusal.RepositoryExists name.now) else if nat_le MAX_REPOSITORIES (map.len self.now.repositories) then Some Refusal.TooMany else None) }
    {
        if self.repositories.contains(name) {
            return Some(Refusal::RepositoryExists(name.copy()));
        }
        if self.repositories.len() >= MAX_REPOSITORIES {
            return Some(Refusal::TooMany);
        }
        None
    }

    // Puts a repository under a name.
    pub(crate) fn put_repository(
        &mut self,
        name: RepositoryName,
        repository: Repository,
    ) -> Result<(), AllocError>
        ensures ok { OnOk result (self.new ≡ record self.old { repositories = map.insert self.old.repositories name repository }) }
        ensures err { OnErr result (self.new ≡ self.old) }
    {
        self.repositories.insert(name, repository)
    }

    // Removes the repository of a name. It allocates nothing.
    pub(crate) fn take_repository(&mut self, name: &RepositoryName)
        ensures { self.new ≡ record self.old { repositories = map.remove self.old.repositories name.now } }
    {
        self.repositories.remove(name);
    }
}

ghost use Rattle.std.specs.Prelude.{◌&&◌, not, is_some, IfSome};
ghost use Rattle.fork_request.specs.declared.name.TheConstants.{MAX_TENANT_NAME};
ghost use Rattle.fork_request.specs.Names.{is_plain_name};
ghost use Rattle.git_name.specs.Same.{same_name};

// The receiver that a word names, if it is a valid name and not the tenant's own.
fn receiver_named(own: &TenantName, word: &[u8]) -> Option<TenantName>
    ensures found { IfSome result (λ name. name ≡ word.now) }
    ensures test { is_some result ≡ (is_plain_name MAX_TENANT_NAME word.now && not (same_name word.now own.now)) }
{
    let Some(name) = TenantName::read(word) else {
        return None;
    };
    if name == *own {
        return None;
    }
    Some(name)
}
