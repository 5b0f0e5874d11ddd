ghost use Rattle.std.specs.Prelude.{◌≡◌, IfNone, None, false};
ghost use Rattle.std.specs.Bool.{OnTrue};
ghost use Rattle.std.specs.List.{find};
ghost use Rattle.std.specs.Option.{option_or};
ghost use Rattle.git_tree.specs.Entry.{plain_entry};
ghost use Rattle.git_object.specs.Links.{entry_links, link_to};
ghost use Rattle.git_object.specs.ObjectIn.{links_in};
ghost use Rattle.fork_push.specs.Push.{is_missing, is_wrong};

use fork_reach::Source;
use git_commit::first_links;
use git_name::{Kind, Name};
use git_object::{Link, Object, links};
use git_tree::{TreeEntry, first_entry};

// Whether the object of this name exists and has this kind.
fn is_met<S: Source>(source: &S, name: Name, kind: Kind) -> bool
    ensures { OnTrue result (is_wrong (S.state source.now).objects (link_to name kind) ≡ false) }
{
    match source.kind_of(name) {
        Some(found) => found == kind,
        None => false,
    }
}

// Whether the object of a tree's entry exists and has the kind that the mode requires. A gitlink
// requires none.
fn is_entry_met<S: Source>(source: &S, entry: TreeEntry<'_>) -> bool
    ensures { OnTrue result (find (is_wrong (S.state source.now).objects) (entry_links (plain_entry entry.entry)) ≡ None) }
{
    match entry.mode.link_kind() {
        Some(kind) => is_met(source, entry.name, kind),
        None => true,
    }
}

// Whether that holds for all entries, if the bytes are a tree. It does not check that they are one, so it looks at each
// entry once.
fn are_entries_met<S: Source>(source: &S, bytes: &[u8]) -> bool
    ensures { OnTrue result (find (is_wrong (S.state source.now).objects) (links_in Kind.Tree bytes.now) ≡ None) }
{
    let mut rest = bytes;
    while let Some((entry, behind)) = first_entry(rest) {
        if !is_entry_met(source, entry) {
            return false;
        }
        rest = behind;
    }
    true
}

// Whether the tree and all parents exist and have their kinds, if the bytes are a commit. It does not check that they
// are one.
fn are_names_met<S: Source>(source: &S, bytes: &[u8]) -> bool
    ensures { OnTrue result (find (is_wrong (S.state source.now).objects) (links_in Kind.Commit bytes.now) ≡ None) }
{
    let (tree, parents) = match first_links(bytes) {
        Some(names) => names,
        None => return false,
    };
    if !is_met(source, tree, Kind::Tree) {
        return false;
    }
    for parent in parents {
        if !is_met(source, parent, Kind::Commit) {
            return false;
        }
    }
    true
}

// Whether the links of an object of this kind and these bytes are right, as far as that can be seen without its
// grammar.
fn are_met<S: Source>(source: &S, kind: Kind, bytes: &[u8]) -> bool
    ensures { OnTrue result (find (is_wrong (S.state source.now).objects) (links_in kind bytes.now) ≡ None) }
{
    match kind {
        Kind::Tree => are_entries_met(source, bytes),
        Kind::Commit => are_names_met(source, bytes),
        _ => false,
    }
}

// The first link of an object of this kind and these bytes whose object does not exist. If there is none, notes the
// first link to another kind, unless one was noted before.
pub(crate) fn judge_links<S: Source>(
    source: &S,
    kind: Kind,
    bytes: &[u8],
    wrong: &mut Option<Link>,
) -> Option<Link>
    ensures missing { result ≡ find (is_missing (S.state source.now).objects) (links_in kind bytes.now) }
    ensures wrong { IfNone result (wrong.new ≡ option_or wrong.old (find (is_wrong (S.state source.now).objects) (links_in kind bytes.now))) }
{
    if are_met(source, kind, bytes) {
        return None;
    }
    let Ok(object) = Object::read(kind, bytes) else {
        return None;
    };
    for link in links(&object) {
        let Some(kind) = source.kind_of(link.name) else {
            return Some(link);
        };
        if wrong.is_none() && kind != link.kind {
            *wrong = Some(link);
        }
    }
    None
}
