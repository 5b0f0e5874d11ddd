ghost use Rattle.std.specs.Prelude.{◌≡◌, Contains, IsTrue, Some, IfOk, IfSome, IfNone};
ghost use Rattle.std.specs.Bool.{OnTrue};
ghost use Rattle.std.specs.List.{find};
ghost use Rattle.std.specs.Option.{option_or};
ghost use Rattle.std.specs.FinMap as map;
ghost use Rattle.git_name.specs.Count.{fault_in};
ghost use Rattle.git_name.specs.Object.{object_name};
ghost use Rattle.fork_reach.specs.Faults.{IsAsked};
ghost use Rattle.fork_push.specs.Here.{AreThere};
ghost use Rattle.fork_push.specs.Push.{is_missing, is_wrong, link_refusal, links_under};
ghost use Rattle.fork_reach.specs.Reach.{links_of_found};
ghost use Rattle.fork_reach.specs.Source.{kind_in};

use crate::linking::judge_links;
use crate::refusal::PushRefusal;
use fork_reach::{Source, SourceFault};
use git_name::{Kind, Name, Sealed};
use git_object::Link;
use std::alloc::Global;

// What is wrong with the links of the sent objects. A blob has none and is not read. Every other object is taken from
// those that are here, borrowed, or read, each time that it was sent.
pub(crate) fn judge_sent<S: Source>(
    alloc: Global,
    source: &mut S,
    here: &[Sealed],
    names: &[Name],
) -> Result<Option<PushRefusal>, SourceFault>
    requires { IsTrue (S.state source.old).honest → AreThere (S.state source.old).objects here.now }
    ensures found { IsTrue (S.state source.old).honest → IfOk result (λ refusal. refusal ≡ link_refusal (S.state source.old).objects (links_under (S.state source.old).objects names.now)) }
    ensures asked { IsAsked (S.state source.old) (S.state source.new) (fault_in result) }
{
    let mut wrong = None;
    let mut next = 0;
    for name in names {
        if let Some(link) = judge_object(alloc, source, here, *name, &mut next, &mut wrong)? {
            return Ok(Some(PushRefusal::Missing(link.name)));
        }
    }
    match wrong {
        Some(link) => Ok(Some(PushRefusal::WrongType(link.name))),
        None => Ok(None),
    }
}

// The object of this name, if it is the next of those that are here.
fn take_next<'a>(here: &'a [Sealed], name: Name, next: &mut usize) -> Option<&'a Sealed>
    ensures { IfSome result (λ sealed. Contains here.now sealed.now × (object_name sealed.now ≡ name)) }
{
    if *next >= here.len() {
        return None;
    }
    let sealed = &here[*next];
    if sealed.name() != name {
        return None;
    }
    *next += 1;
    Some(sealed)
}

// Whether the object of this name exists and is a blob.
fn is_blob<S: Source>(source: &S, name: Name) -> bool
    ensures { OnTrue result (kind_in (S.state source.now).objects name ≡ Some Kind.Blob) }
{
    match source.kind_of(name) {
        Some(Kind::Blob) => true,
        _ => false,
    }
}

// The first link of the object of this name whose object does not exist. If there is none, notes the first link to
// another kind, unless one was noted before. The source learns the links of an object that it lends.
fn judge_object<S: Source>(
    alloc: Global,
    source: &mut S,
    here: &[Sealed],
    name: Name,
    next: &mut usize,
    wrong: &mut Option<Link>,
) -> Result<Option<Link>, SourceFault>
    requires { IsTrue (S.state source.old).honest → AreThere (S.state source.old).objects here.now }
    ensures missing { IsTrue (S.state source.old).honest → IfOk result (λ link. link ≡ find (is_missing (S.state source.old).objects) (links_of_found (map.get (S.state source.old).objects name))) }
    ensures wrong { IsTrue (S.state source.old).honest → IfOk result (λ link. IfNone link (wrong.new ≡ option_or wrong.old (find (is_wrong (S.state source.old).objects) (links_of_found (map.get (S.state source.old).objects name))))) }
    ensures asked { IsAsked (S.state source.old) (S.state source.new) (fault_in result) }
{
    if let Some(sealed) = take_next(here, name, next) {
        return Ok(judge_links(source, sealed.kind(), sealed.bytes(), wrong));
    }
    if let Some((kind, bytes)) = source.lend(name) {
        let missing = judge_links(source, kind, bytes, wrong);
        source.learn_links(alloc, name);
        return Ok(missing);
    }
    if is_blob(source, name) {
        return Ok(None);
    }
    match source.read(alloc, name) {
        Ok(Some(sealed)) => Ok(judge_links(source, sealed.kind(), sealed.bytes(), wrong)),
        Ok(None) => Ok(None),
        Err(fault) => Err(fault),
    }
}
