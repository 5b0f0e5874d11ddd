ghost use Rattle.std.specs.Prelude.{◌≡◌, ◌≢◌, ℕ, List, Some, true, IsTrue, IfOk, OnOk};
ghost use Rattle.std.specs.Bool.{OnFalse, OnTrue};
ghost use Rattle.std.specs.BTreeSet.{contains};
ghost use Rattle.git_name.specs.Name.{name_cmp};
ghost use Rattle.git_name.specs.Count.{fault_in};
ghost use Rattle.fork_reach.specs.Faults.{IsAsked};
ghost use Rattle.fork_reach.specs.Source.{Objects, kind_in};
ghost use Rattle.fork_query.specs.Followed.{AreEnds};
ghost use Rattle.fork_query.specs.Peel.{peeled, tag_target, target_in};

use crate::followed::Followed;
use fork_reach::{Source, SourceFault};
use git_name::{Kind, Name, Sealed};
use git_object::Tag;
use std::alloc::{AllocError, Global};
use std::collections::BTreeSet;

// Whether the object of this name is a tag. Does not read its bytes.
fn is_tag<S: Source>(source: &S, name: Name) -> bool
    ensures tag { OnTrue result (kind_in (S.state source.now).objects name ≡ Some Kind.Tag) }
    ensures other { OnFalse result (kind_in (S.state source.now).objects name ≢ Some Kind.Tag) }
{
    match source.kind_of(name) {
        Some(Kind::Tag) => true,
        _ => false,
    }
}

// The target of the object, if it is a tag.
fn target_of(sealed: &Sealed) -> Option<Name>
    ensures { result ≡ target_in sealed.now.kind sealed.now.bytes }
{
    if !matches!(sealed.kind(), Kind::Tag) {
        return None;
    }
    match Tag::read(sealed.bytes()) {
        Ok(tag) => Some(tag.object()),
        Err(_) => None,
    }
}

// The target of the tag of this name. The tag is read once.
fn read_target<S: Source>(
    alloc: Global,
    source: &mut S,
    name: Name,
) -> Result<Option<Name>, SourceFault>
    ensures target { IsTrue (S.state source.old).honest → IfOk result (λ target. target ≡ tag_target (S.state source.old).objects name) }
    ensures asked { IsAsked (S.state source.old) (S.state source.new) (fault_in result) }
{
    match source.read(alloc, name) {
        Ok(Some(sealed)) => Ok(target_of(&sealed)),
        Ok(None) => Ok(None),
        Err(fault) => Err(fault),
    }
}

// A walk along tags: the visited tags, and the name at the end, or `None` if the walk came back to a visited tag.
#[derive(Drop)]
struct Trail {
    tags: BTreeSet<Name>,
    end: Option<Name>,
}

// Follows tags from this name, up to one that was followed before. Each tag is read once, and nothing else is.
fn walk<S: Source>(
    alloc: Global,
    source: &mut S,
    followed: &Followed,
    name: Name,
) -> Result<Trail, SourceFault>
    ensures led { IsTrue (S.state source.old).honest → AreEnds (S.state source.old).objects followed.now → IfOk result (λ trail. trail.end ≡ peeled (S.state source.old).objects name) }
    ensures tags { IsTrue (S.state source.old).honest → AreEnds (S.state source.old).objects followed.now → IfOk result (λ trail. (tag : List ℕ) → contains name_cmp trail.tags tag ≡ true → trail.end ≡ peeled (S.state source.old).objects tag) }
    ensures asked { IsAsked (S.state source.old) (S.state source.new) (fault_in result) }
{
    let mut tags = BTreeSet::new(alloc);
    let mut at = name;
    'tags: while is_tag(source, at) {
        if let Some(end) = followed.end_of(at) {
            return Ok(Trail { tags, end });
        }
        let Ok(is_new) = tags.insert(at) else {
            return Err(SourceFault::Memory);
        };
        if !is_new {
            return Ok(Trail { tags, end: None });
        }
        let target = read_target(alloc, source, at)?;
        let Some(target) = target else {
            return Ok(Trail {
                tags,
                end: Some(at),
            });
        };
        at = target;
    }
    Ok(Trail {
        tags,
        end: Some(at),
    })
}

// Notes that all these tags peel to this name.
fn note_all(
    followed: &mut Followed,
    tags: &BTreeSet<Name>,
    end: &Option<Name>,
) -> Result<(), AllocError>
    ensures { (objects : Objects) → AreEnds objects followed.old → ((tag : List ℕ) → contains name_cmp tags.now tag ≡ true → end.now ≡ peeled objects tag) → OnOk result (AreEnds objects followed.new) }
{
    for tag in tags {
        followed.note(*tag, *end)?;
    }
    Ok(())
}

// The name that this name peels to, or `None` if its tags are a cycle. Each tag is read once for all names of a
// query, and nothing else is.
pub(crate) fn peel<S: Source>(
    alloc: Global,
    source: &mut S,
    followed: &mut Followed,
    name: Name,
) -> Result<Option<Name>, SourceFault>
    ensures peeled { IsTrue (S.state source.old).honest → AreEnds (S.state source.old).objects followed.old → IfOk result (λ end. end ≡ peeled (S.state source.old).objects name) }
    ensures known { IsTrue (S.state source.old).honest → AreEnds (S.state source.old).objects followed.old → OnOk result (AreEnds (S.state source.old).objects followed.new) }
    ensures asked { IsAsked (S.state source.old) (S.state source.new) (fault_in result) }
{
    let trail = walk(alloc, source, followed, name)?;
    match note_all(followed, &trail.tags, &trail.end) {
        Ok(()) => Ok(trail.end),
        Err(_) => Err(SourceFault::Memory),
    }
}
