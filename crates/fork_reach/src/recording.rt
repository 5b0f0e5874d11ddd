ghost use Rattle.std.specs.Prelude.{◌≡◌, ◌≢◌, ℕ, List, true, Some, IsTrue, IfOk};
ghost use Rattle.std.specs.Bool.{OnFalse};
ghost use Rattle.std.specs.HashSet.{contains};
ghost use Rattle.std.specs.FinMap as map;
ghost use Rattle.git_name.specs.Maps.{map_values};
ghost use Rattle.git_name.specs.Same.{same_name};
ghost use Rattle.git_name.specs.Count.{fault_in};
ghost use Rattle.fork_reach.specs.Faults.{IsAsked};
ghost use Rattle.fork_reach.specs.Hidden.{without};
ghost use Rattle.fork_reach.specs.History.{note_at, note_of};
ghost use Rattle.fork_reach.specs.Reach.{is_reached, parent_names};
ghost use Rattle.fork_reach.specs.Source.{kind_in};

use crate::history::History;
use crate::noted::Noted;
use crate::queuing::queue_open;
use crate::source::{Source, SourceFault};
use git_name::{Hashing, Kind, Name};
use indexmap::IndexSet;
use std::alloc::Global;

// Whether the object of this name is a commit. Does not read its bytes.
fn is_commit<S: Source>(source: &S, name: Name) -> bool
    ensures { OnFalse result (kind_in (S.state source.now).objects name ≢ Some Kind.Commit) }
{
    match source.kind_of(name) {
        Some(Kind::Commit) => true,
        _ => false,
    }
}

// The note of the object of this name. If the object can be borrowed, the source learns its links. Otherwise it is
// read once if it is a commit, and not at all if it is not.
fn noted<S: Source>(alloc: Global, source: &mut S, name: Name) -> Result<Noted, SourceFault>
    ensures noted { IsTrue (S.state source.old).honest → IfOk result (λ noted. noted ≡ note_at (S.state source.old).objects name) }
    ensures asked { IsAsked (S.state source.old) (S.state source.new) (fault_in result) }
{
    if let Some((kind, bytes)) = source.lend(name) {
        let Ok(noted) = Noted::of(alloc, kind, bytes) else {
            return Err(SourceFault::Memory);
        };
        source.learn_links(alloc, name);
        return Ok(noted);
    }
    if !is_commit(source, name) {
        return Ok(Noted::none());
    }
    match source.read(alloc, name) {
        Ok(Some(sealed)) => Noted::of(alloc, sealed.kind(), sealed.bytes()).map_err(
            |_| SourceFault::Memory,
        ),
        Ok(None) => Ok(Noted::none()),
        Err(fault) => Err(fault),
    }
}

/// The ancestors of these commits that can be reached without passing through hidden names. A commit is its own
/// ancestor. Names that the source does not find are ignored. Each commit is borrowed or read once, for its parents
/// and its time. Commits are read in the order in which they are found, so that the names of the history are also the
/// queue of what to read.
pub fn read_history<S: Source>(
    alloc: Global,
    source: &mut S,
    commits: &[Name],
    hidden: &IndexSet<Name, Hashing>,
) -> Result<History, SourceFault>
    ensures found { IsTrue (S.state source.old).honest → IfOk result (λ history. history ≡ map_values note_of (map.retain_keys (S.state source.old).objects (is_reached (parent_names (S.state source.old).objects) (without (S.state source.old).objects (contains same_name hidden.now)) commits.now))) }
    // Over any store.
    ensures seen { IfOk result (λ history. (name : List ℕ) → map.contains_key history name ≡ true → map.contains_key (S.state source.old).objects name ≡ true) }
    ensures asked { IsAsked (S.state source.old) (S.state source.new) (fault_in result) }
{
    let mut names = IndexSet::with_hasher(alloc, source.hashing());
    let mut notes = Vec::new(alloc);
    let Ok(()) = queue_open(source, hidden, commits, &mut names) else {
        return Err(SourceFault::Memory);
    };
    'queued: while let Some(name) = names.get_index(notes.len()).copied() {
        let noted = noted(alloc, source, name)?;
        let Ok(()) = queue_open(source, hidden, noted.parents(), &mut names) else {
            return Err(SourceFault::Memory);
        };
        let Ok(()) = notes.push(noted) else {
            return Err(SourceFault::Memory);
        };
    }
    Ok(History::of(names, notes))
}
