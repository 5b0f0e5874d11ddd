// Takes what a whole stream holds: all of it or nothing.
ghost use Rattle.std.specs.Prelude.{◌≡◌, ℕ, IsTrue, IfOk, IfSome, Ok, List, Some, false, map as map_list, true};
ghost use Rattle.std.specs.FinMap as map;
ghost use Rattle.git_name.specs.Object.{Object, object_name};
ghost use Rattle.git_reftx.specs.Repository.{Repository};
ghost use Rattle.push_stream.specs.Brief.{brief_shown};
ghost use Rattle.push_stream.specs.Stream.{Stream, finished as finished_in, sent_in};
ghost use Rattle.fork_reach.specs.Objects.{with_objects};
ghost use Rattle.fork_request.specs.Told.{is_done};
ghost use Rattle.fork_ledger.specs.Store.{LeavesStore};
ghost use Rattle.fork_ledger.specs.Tenants.{shape_of};
ghost use Rattle.fork_push.specs.Here.{AreThere};
ghost use Rattle.fork_push.specs.Push.{judged};
ghost use Rattle.fork_push.specs.Verdict.{IfAccepted, IsAcceptable, TellsJudged, fault_of_verdict};
ghost use Rattle.fork_model.specs.Answer.{Finished, pushed};
ghost use Rattle.fork_model.specs.View.{View};
ghost use Rattle.fork_host.specs.Bounds.{IsBounded, ReadsStore};
ghost use Rattle.fork_host.specs.Handle.{IsSame, Ready, Uses, both_by, staged_by, visible_by};
ghost use Rattle.fork_host.specs.Own.{IsOwn, KeepsStaged, staged_in, visible_in};
ghost use Rattle.fork_host.specs.Rows.{Yields};
ghost use Rattle.fork_host.specs.Safe.{IsSafe};
ghost use Rattle.fork_host.specs.Pushed.{IsTaken, Sends, TellsBrief, TellsHeld, view_of};
ghost use Rattle.fork_host.specs.Sent.{sent_names};

use crate::own::Own;
use crate::replies::{done, host_fault, is_done, push_refusal, stream_refusal, vault_fault};
use crate::repositories::Repositories;
use crate::staging::{discard, publish, stage_all};
use fork_push::Verdict;
use fork_request::{HostFault, Reply, RepositoryName};
use git_name::{Name, Sealed};
use git_reftx::Refs;
use loose_store::LooseFiles;
use push_stream::{Body, BodyError, Brief, StreamFault};
use std::alloc::{AllocError, Global};

#[tactic(auto, unfolding(fork_push::specs::Push::judged))]
// Takes what the body of a push holds, if nothing is staged.
pub(crate) fn take_body<S: LooseFiles>(
    alloc: Global,
    repositories: &mut Repositories,
    own: &mut Own<'_, S>,
    limit: u64,
    name: RepositoryName,
    finished: Result<Body, BodyError>,
) -> Reply
    requires ready { Ready own.old limit }
    requires quiet { staged_by own.old ≡ map.empty }
    requires there { map.contains_key repositories.old name ≡ true }
    ensures row { (rest : View) (held : Finished) (was : Repository) → TellsHeld held finished → map.get repositories.old name ≡ Some was → IsTrue own.old.vault.now.honest
        → Yields (pushed (view_of rest repositories.old (visible_by own.old) limit) name was held)
        (view_of rest repositories.old (visible_by own.old) limit) result (view_of rest repositories.new (visible_in own.new.vault.now own.old.tenant.now) limit) }
    // Over any store.
    ensures safe { (rest : View) (sent : List Object) → Sends sent finished → IsSafe (IsBounded sent own.old.vault.now own.new.vault.now) (view_of rest repositories.old (visible_by own.old) limit)
        result (view_of rest repositories.new (visible_in own.new.vault.now own.old.tenant.now) limit) }
    ensures own { (sent : List Object) → Sends sent finished → Uses (sent_names sent) own.old own.new }
{
    match finished {
        Ok(body) => take(alloc, repositories, own, limit, name, body),
        Err(BodyError::Fault(fault)) => Reply::Refused(stream_refusal(fault)),
        Err(BodyError::Memory) => Reply::Failed(HostFault::Memory),
    }
}

// Takes the commands and objects of a body: the objects are staged while they are judged.
fn take<S: LooseFiles>(
    alloc: Global,
    repositories: &mut Repositories,
    own: &mut Own<'_, S>,
    limit: u64,
    name: RepositoryName,
    body: Body,
) -> Reply
    requires ready { Ready own.old limit }
    requires quiet { staged_by own.old ≡ map.empty }
    requires there { map.contains_key repositories.old name ≡ true }
    ensures row { (rest : View) (was : Repository) → map.get repositories.old name ≡ Some was → IsTrue own.old.vault.now.honest
        → Yields (pushed (view_of rest repositories.old (visible_by own.old) limit) name was (Ok (body.commands.items, body.objects.items)))
        (view_of rest repositories.old (visible_by own.old) limit) result (view_of rest repositories.new (visible_in own.new.vault.now own.old.tenant.now) limit) }
    // Over any store.
    ensures safe { (rest : View) → IsSafe (IsBounded body.objects.items own.old.vault.now own.new.vault.now) (view_of rest repositories.old (visible_by own.old) limit)
        result (view_of rest repositories.new (visible_in own.new.vault.now own.old.tenant.now) limit) }
    ensures own { Uses (sent_names body.objects.items) own.old own.new }
{
    let Body {
        commands,
        objects: sent,
    } = body;
    let Ok(names) = names_of(alloc, sent.as_slice()) else {
        return Reply::Failed(HostFault::Memory);
    };
    let here = match stage_all(alloc, own, sent) {
        Ok(here) => here,
        Err(fault) => return Reply::Failed(vault_fault(fault)),
    };
    let brief = Brief { commands, names };
    let reply = settle(
        alloc,
        repositories,
        own,
        here.as_slice(),
        limit,
        name,
        brief,
    );
    // What was taken is no longer staged.
    if is_done(&reply) {
        return reply;
    }
    discard(own);
    reply
}

// The names of these objects, in their order.
fn names_of(alloc: Global, sent: &[Sealed]) -> Result<Vec<Name>, AllocError>
    ensures { IfOk result (λ names. names.items ≡ map_list object_name sent.now) }
{
    let mut names = Vec::new(alloc);
    for sealed in sent {
        names.push(sealed.name())?;
    }
    Ok(names)
}

#[tactic(auto, unfolding(fork_push::specs::Push::judged))]
// Takes what an upload holds at its end, if its objects are staged.
pub(crate) fn settle_upload<S: LooseFiles>(
    alloc: Global,
    repositories: &mut Repositories,
    own: &mut Own<'_, S>,
    limit: u64,
    name: RepositoryName,
    finished: Result<Brief, BodyError>,
) -> Reply
    requires ready { Ready own.old limit }
    requires there { map.contains_key repositories.old name ≡ true }
    ensures row { (rest : View) (stream : Stream) (was : Repository) → TellsBrief (finished_in stream) finished → map.get repositories.old name ≡ Some was → IsTrue own.old.vault.now.honest
        → both_by own.old ≡ with_objects (visible_by own.old) (sent_in stream)
        → Yields (pushed (view_of rest repositories.old (visible_by own.old) limit) name was (finished_in stream))
        (view_of rest repositories.old (visible_by own.old) limit) result (view_of rest repositories.new (visible_in own.new.vault.now own.old.tenant.now) limit) }
    // Over any store.
    ensures safe { (rest : View) (sent : List Object) → IsSafe (IsBounded sent own.old.vault.now own.new.vault.now) (view_of rest repositories.old (visible_by own.old) limit)
        result (view_of rest repositories.new (visible_in own.new.vault.now own.old.tenant.now) limit) }
    ensures own { IsOwn own.old.tenant.now own.old.vault.now own.new.vault.now }
    ensures kept { is_done result ≡ false → KeepsStaged own.old.tenant.now own.old.vault.now own.new.vault.now }
    ensures places { own.new.vault.now.places ≡ own.old.vault.now.places }
    ensures same { IsSame own.old own.new }
{
    match finished {
        Ok(brief) => settle(alloc, repositories, own, &[], limit, name, brief),
        Err(BodyError::Fault(fault)) => Reply::Refused(stream_refusal(fault)),
        Err(BodyError::Memory) => Reply::Failed(HostFault::Memory),
    }
}

// Judges the commands and the staged objects of these names, and takes them if they are accepted. Objects that are not
// accepted stay staged. Those that are `here` are not read.
fn settle<S: LooseFiles>(
    alloc: Global,
    repositories: &mut Repositories,
    own: &mut Own<'_, S>,
    here: &[Sealed],
    limit: u64,
    name: RepositoryName,
    brief: Brief,
) -> Reply
    requires ready { Ready own.old limit }
    requires here { IsTrue own.old.vault.now.honest → AreThere (both_by own.old) here.now }
    requires there { map.contains_key repositories.old name ≡ true }
    ensures row { (rest : View) (sent : List Object) (was : Repository) → map.get repositories.old name ≡ Some was → IsTrue own.old.vault.now.honest
        → brief.names.items ≡ map_list object_name sent → both_by own.old ≡ with_objects (visible_by own.old) sent
        → Yields (pushed (view_of rest repositories.old (visible_by own.old) limit) name was (Ok (brief.commands.items, sent)))
        (view_of rest repositories.old (visible_by own.old) limit) result (view_of rest repositories.new (visible_in own.new.vault.now own.old.tenant.now) limit) }
    // Over any store.
    ensures safe { (rest : View) (sent : List Object) → IsSafe (IsBounded sent own.old.vault.now own.new.vault.now) (view_of rest repositories.old (visible_by own.old) limit)
        result (view_of rest repositories.new (visible_in own.new.vault.now own.old.tenant.now) limit) }
    ensures own { IsOwn own.old.tenant.now own.old.vault.now own.new.vault.now }
    ensures kept { is_done result ≡ false → KeepsStaged own.old.tenant.now own.old.vault.now own.new.vault.now }
    ensures none { is_done result ≡ true → staged_in own.new.vault.now own.old.tenant.now ≡ map.empty }
    ensures places { own.new.vault.now.places ≡ own.old.vault.now.places }
    ensures same { IsSame own.old own.new }
{
    let finished = Ok(brief);
    match verdict(alloc, repositories, own, here, limit, &name, &finished) {
        Verdict::Accepted(new) => accept(alloc, repositories, own, name, new),
        Verdict::Refused(refusal) => Reply::Refused(push_refusal(refusal)),
        Verdict::Failed(fault) => Reply::Failed(host_fault(fault)),
    }
}

// Makes what is staged visible, and gives a repository these references.
fn accept<S: LooseFiles>(
    alloc: Global,
    repositories: &mut Repositories,
    own: &mut Own<'_, S>,
    name: RepositoryName,
    new: Refs,
) -> Reply
    requires there { map.contains_key own.old.vault.now.tenants own.old.tenant.now ≡ true }
    requires repository { map.contains_key repositories.old name ≡ true }
    ensures taken { (was : Repository) → map.get repositories.old name ≡ Some was
        → IsTaken own.old.tenant.now (map.insert repositories.old name (record was { references = new })) own.old.vault.now result repositories.new own.new.vault.now }
    ensures none { staged_in own.new.vault.now own.old.tenant.now ≡ map.empty }
    ensures own { IsOwn own.old.tenant.now own.old.vault.now own.new.vault.now }
    ensures store { LeavesStore own.old.vault.now own.new.vault.now }
    ensures same { IsSame own.old own.new }
{
    repositories.set_references(&name, new);
    publish(own);
    done(alloc)
}

// The verdict on a push into a repository that exists.
fn verdict<S: LooseFiles>(
    alloc: Global,
    repositories: &Repositories,
    own: &mut Own<'_, S>,
    here: &[Sealed],
    limit: u64,
    name: &RepositoryName,
    finished: &Result<Brief, StreamFault>,
) -> Verdict
    requires here { IsTrue own.old.vault.now.honest → AreThere (both_by own.old) here.now }
    requires there { map.contains_key repositories.now name.now ≡ true }
    ensures judged { (was : Repository) → map.get repositories.now name.now ≡ Some was → IsTrue own.old.vault.now.honest
        → TellsJudged (judged (both_by own.old) was.references limit (brief_shown finished.now)) result }
    ensures kept { IsTrue own.old.vault.now.honest → own.new.vault.now.tenants ≡ own.old.vault.now.tenants }

    // Over any store.
    ensures accepted { (was : Repository) → map.get repositories.now name.now ≡ Some was → IfAccepted result (IsAcceptable (both_by own.old) was.references limit) }
    ensures shape { shape_of own.new.vault.now.tenants ≡ shape_of own.old.vault.now.tenants }
    ensures read { ReadsStore own.old.vault.now own.new.vault.now (fault_of_verdict result) }
    ensures same { IsSame own.old own.new }
{
    let Some(repository) = repositories.get(name) else {
        unreachable!();
    };
    own.judge(alloc, here, finished, repository.references(), limit)
}
