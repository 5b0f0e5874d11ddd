ghost use Rattle.std.specs.Prelude.{◌≡◌, map, not, None, IsTrue, IfOk};
ghost use Rattle.git_name.specs.Count.{fault_in};
ghost use Rattle.git_object.specs.ObjectIn.{links_in};
ghost use Rattle.fork_reach.specs.Along.{names_along, names_in, rests, rests_in};
ghost use Rattle.fork_reach.specs.Faults.{IsAsked};

use crate::parent_names::parent_names;
use crate::source::{Source, SourceFault};
use git_name::{Kind, Name};
use git_object::{Object, links};
use std::alloc::{AllocError, Global};

// The links that a walk follows.
#[derive(Clone, Copy)]
pub(crate) enum Along {
    // All links of all objects.
    Links,
    // Only the parents of commits.
    Parents,
}

// Whether a walk can follow links of objects of this kind.
fn goes_on(along: Along, kind: Kind) -> bool
    ensures { result ≡ not (rests along kind) }
{
    match (along, kind) {
        (_, Kind::Blob) => false,
        (Along::Links, _) => true,
        (Along::Parents, Kind::Commit) => true,
        (Along::Parents, _) => false,
    }
}

// Does the same, or returns `true` if it is not known which links a walk follows.
pub(crate) fn goes_on_in(along: Option<Along>, kind: Kind) -> bool
    ensures { result ≡ not (rests_in along kind) }
{
    match along {
        Some(along) => goes_on(along, kind),
        None => true,
    }
}

/// The names that an object links to, in order. An object whose bytes do not fit the grammar of its kind has no
/// links.
pub fn link_names(alloc: Global, kind: Kind, bytes: &[u8]) -> Result<Vec<Name>, AllocError>
    ensures { IfOk result (λ names. names.items ≡ map (λ link. link.name) (links_in kind bytes.now)) }
{
    let mut names = Vec::new(alloc);
    let Ok(object) = Object::read(kind, bytes) else {
        return Ok(names);
    };
    for link in links(&object) {
        names.push(link.name)?;
    }
    Ok(names)
}

// The names that a walk follows from an object.
fn names_of(alloc: Global, along: Along, kind: Kind, bytes: &[u8]) -> Result<Vec<Name>, AllocError>
    ensures { IfOk result (λ names. names.items ≡ names_in along kind bytes.now) }
{
    match along {
        Along::Links => link_names(alloc, kind, bytes),
        Along::Parents => parent_names(alloc, kind, bytes),
    }
}

// The names that a walk follows from the object of this name. If the object can be borrowed, the source learns its
// links. Otherwise it is read once.
pub(crate) fn next_names<S: Source>(
    alloc: Global,
    source: &mut S,
    along: Along,
    name: Name,
) -> Result<Vec<Name>, SourceFault>
    ensures next { IsTrue (S.state source.old).honest → IfOk result (λ names. names.items ≡ names_along along (S.state source.old).objects name) }
    ensures asked { IsAsked (S.state source.old) (S.state source.new) (fault_in result) }
{
    if let Some((kind, bytes)) = source.lend(name) {
        let Ok(names) = names_of(alloc, along, kind, bytes) else {
            return Err(SourceFault::Memory);
        };
        source.learn_links(alloc, name);
        return Ok(names);
    }
    match source.read(alloc, name) {
        Ok(Some(sealed)) => names_of(alloc, along, sealed.kind(), sealed.bytes()).map_err(
            |_| SourceFault::Memory,
        ),
        Ok(None) => Ok(Vec::new(alloc)),
        Err(fault) => Err(fault),
    }
}
