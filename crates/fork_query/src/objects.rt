ghost use Rattle.std.specs.Prelude.{◌≡◌, IfOk, IsTrue};
ghost use Rattle.fork_reach.specs.Faults.{IsAsked};
ghost use Rattle.fork_query.specs.Objects.{IsRecordUnder, object_told};
ghost use Rattle.fork_query.specs.Told.{Tells, query_fault};

use crate::query_error::QueryError;
use fork_reach::{Source, SourceFault};
use fork_request::Refusal;
use git_name::Name;
use push_stream::write_record;
use std::alloc::Global;

#[tactic(auto, unfolding(crate::specs::Objects::object_told))]
/// The record of the object of this name. The object is read once. If there is no such object, the request is
/// refused.
pub fn cat_file<S: Source>(alloc: Global, source: &mut S, name: Name) -> Result<Vec<u8>, QueryError>
    ensures told { IsTrue (S.state source.old).honest → Tells (λ text. text.items) (object_told (S.state source.old).objects name) result }
    // Over any source.
    ensures named { IfOk result (λ text. IsRecordUnder name text.items) }
    ensures asked { IsAsked (S.state source.old) (S.state source.new) (query_fault result) }
{
    let Some(sealed) = source.read(alloc, name)? else {
        return Err(QueryError::Refused(Refusal::Missing(name)));
    };
    match write_record(alloc, &sealed) {
        Ok(text) => Ok(text),
        Err(_) => Err(QueryError::Failed(SourceFault::Memory)),
    }
}
