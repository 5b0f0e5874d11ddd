ghost use Rattle.std.specs.Prelude.{◌≡◌, ◌∷◌, [], IfSome, IfNone};
ghost use Rattle.std.specs.List.{flat_map};
ghost use Rattle.git_object.specs.Left.{commits_left, entries_left};
ghost use Rattle.git_object.specs.Links.{entry_links};

use crate::link::Link;
use git_commit::Parents;
use git_name::Kind;
use git_tree::Entries;

/// The links of an object, in order, each found on demand.
#[derive(Debug, Drop)]
pub struct Links<'a> {
    pub(crate) first: Option<Link>,
    pub(crate) parents: Option<Parents<'a>>,
    pub(crate) entries: Option<Entries<'a>>,
}

// The next link of a tree's entries. Gitlinks are skipped.
fn next_of_tree(entries: &mut Entries<'_>) -> Option<Link>
    ensures some { IfSome result (λ link. flat_map entry_links entries.old ≡ link ∷ flat_map entry_links entries.new) }
    ensures none { IfNone result ((flat_map entry_links entries.old ≡ []) × (flat_map entry_links entries.new ≡ [])) }
{
    while let Some(entry) = entries.next() {
        let name = entry.name;
        if let Some(kind) = entry.mode.link_kind() {
            return Some(Link { name, kind });
        }
    }
    None
}

// The next link of the entries, if there are any.
fn next_of_entries(entries: &mut Option<Entries<'_>>) -> Option<Link>
    ensures some { IfSome result (λ link. entries_left entries.old ≡ link ∷ entries_left entries.new) }
    ensures none { IfNone result ((entries_left entries.old ≡ []) × (entries_left entries.new ≡ [])) }
{
    let Some(entries) = entries else {
        return None;
    };
    next_of_tree(entries)
}

// The next link to a parent.
fn next_of_parents(parents: &mut Option<Parents<'_>>) -> Option<Link>
    ensures some { IfSome result (λ link. commits_left parents.old ≡ link ∷ commits_left parents.new) }
    ensures none { IfNone result ((commits_left parents.old ≡ []) × (commits_left parents.new ≡ [])) }
{
    let Some(left) = *parents else {
        return None;
    };
    let mut rest = left;
    let Some(name) = rest.next() else {
        return None;
    };
    *parents = Some(rest);
    Some(Link {
        name,
        kind: Kind::Commit,
    })
}

impl<'a> Iterator for Links<'a> {
    ghost use Rattle.std.specs.Iterator.{YieldsFirst, item_count};
    ghost use Rattle.git_object.specs.Rest.{links_left};

    type Item = Link;

    ghost next_gives = { YieldsFirst links_left };

    ghost remaining = { item_count links_left };

    fn next(&mut self) -> Option<Link> {
        if let Some(link) = self.first {
            self.first = None;
            return Some(link);
        }
        if let Some(link) = next_of_parents(&mut self.parents) {
            return Some(link);
        }
        next_of_entries(&mut self.entries)
    }
}
