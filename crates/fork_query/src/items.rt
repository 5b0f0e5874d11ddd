ghost use Rattle.std.specs.Prelude.{◌≡◌, IsTrue, OnOk};
ghost use Rattle.std.specs.FinMap as map;
ghost use Rattle.git_reftx.specs.Transaction.{is_commit};
ghost use Rattle.fork_reach.specs.Faults.{IsAsked};
ghost use Rattle.fork_reach.specs.Source.{kind_in};
ghost use Rattle.fork_query.specs.Followed.{AreEnds};
ghost use Rattle.fork_query.specs.Items.{found_commit, named_by, named_item, object_of_item, reference_of};
ghost use Rattle.fork_query.specs.Peel.{peeled};
ghost use Rattle.fork_query.specs.Told.{Tells, query_fault};

use crate::followed::Followed;
use crate::peeling::peel;
use crate::query_error::QueryError;
use crate::want::Want;
use fork_reach::{Source, SourceFault};
use fork_request::{ByteString, Refusal};
use git_name::{Kind, Name};
use git_refname::RefName;
use git_reftx::Repository;
use std::alloc::Global;

// The object that the reference of this name points at. `HEAD` means the branch that HEAD names. It is never the name
// of a reference, since it has no `/`.
fn target_of(repository: &Repository, item: &[u8]) -> Option<Name>
    ensures { result ≡ map.get repository.now.references (reference_of repository.now item.now) }
{
    let references = repository.references();
    if item == b"HEAD".as_slice() {
        return references.get(repository.head().name());
    }
    match RefName::read(item) {
        Ok(name) => references.get(&name),
        Err(_) => None,
    }
}

// The name in digits, or else the target of the reference.
fn named_by(repository: &Repository, item: &[u8]) -> Option<Name>
    ensures { result ≡ named_by repository.now item.now }
{
    match Name::parse_hex(item) {
        Some(name) => Some(name),
        None => target_of(repository, item),
    }
}

// The name of the item's object, which must exist. No object is read.
fn object_of_item<S: Source>(
    alloc: Global,
    source: &S,
    repository: &Repository,
    item: &[u8],
) -> Result<Name, QueryError>
    ensures told { Tells (λ name. name) (object_of_item (S.state source.now).objects repository.now item.now) result }
    ensures asked { IsAsked (S.state source.now) (S.state source.now) (query_fault result) }
{
    let Some(name) = named_by(repository, item) else {
        let Ok(word) = item.to_vec(alloc) else {
            return Err(QueryError::Failed(SourceFault::Memory));
        };
        return Err(QueryError::Refused(Refusal::NoRef(ByteString::new(word))));
    };
    if source.kind_of(name).is_none() {
        return Err(QueryError::Refused(Refusal::Missing(name)));
    }
    Ok(name)
}

// Whether the object of this name is a commit. Does not read its bytes.
pub(crate) fn is_commit<S: Source>(source: &S, name: Name) -> bool
    ensures { result ≡ is_commit (kind_in (S.state source.now).objects name) }
{
    match source.kind_of(name) {
        Some(Kind::Commit) => true,
        _ => false,
    }
}

// The name of the commit that this name peels to. Only tags are read.
fn commit_at<S: Source>(
    alloc: Global,
    source: &mut S,
    followed: &mut Followed,
    name: Name,
) -> Result<Name, QueryError>
    ensures told { IsTrue (S.state source.old).honest → AreEnds (S.state source.old).objects followed.old → Tells (λ name. name) (found_commit (S.state source.old).objects name (peeled (S.state source.old).objects name)) result }
    ensures known { IsTrue (S.state source.old).honest → AreEnds (S.state source.old).objects followed.old → OnOk result (AreEnds (S.state source.old).objects followed.new) }
    ensures asked { IsAsked (S.state source.old) (S.state source.new) (query_fault result) }
{
    let Some(end) = peel(alloc, source, followed, name)? else {
        return Err(QueryError::Refused(Refusal::NotACommit(name)));
    };
    if !is_commit(source, end) {
        return Err(QueryError::Refused(Refusal::NotACommit(name)));
    }
    Ok(end)
}

// The name of the item's object, or of the commit that it peels to.
pub(crate) fn named_item<S: Source>(
    alloc: Global,
    want: Want,
    source: &mut S,
    followed: &mut Followed,
    repository: &Repository,
    item: &[u8],
) -> Result<Name, QueryError>
    ensures told { IsTrue (S.state source.old).honest → AreEnds (S.state source.old).objects followed.old → Tells (λ name. name) (named_item want (S.state source.old).objects repository.now item.now) result }
    ensures known { IsTrue (S.state source.old).honest → AreEnds (S.state source.old).objects followed.old → OnOk result (AreEnds (S.state source.old).objects followed.new) }
    ensures asked { IsAsked (S.state source.old) (S.state source.new) (query_fault result) }
{
    let name = object_of_item(alloc, source, repository, item)?;
    match want {
        Want::Object => Ok(name),
        Want::Commit => commit_at(alloc, source, followed, name),
    }
}
