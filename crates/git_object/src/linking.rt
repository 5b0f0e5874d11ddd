ghost use Rattle.std.specs.Prelude.{◌≡◌, ◌∷◌, [], map};
ghost use Rattle.std.specs.List.{flat_map};
ghost use Rattle.git_name.specs.declared.kind.Kind.TheVariants as kind;
ghost use Rattle.git_commit.specs.Whole.{commit_of};
ghost use Rattle.git_object.specs.Whole.{tag_of};
ghost use Rattle.git_object.specs.Held.{object_of};
ghost use Rattle.git_object.specs.Rest.{links_left};
ghost use Rattle.git_object.specs.Links.{link_to, commit_link, entry_links, links_of};

use crate::link::Link;
use crate::object::{Form, Object};
use crate::tag::Tag;
use crate::walk::Links;
use git_commit::Commit;
use git_name::Kind;
use git_tree::Entries;

// The links of a blob.
fn no_links<'a>() -> Links<'a>
    ensures { links_left result ≡ [] }
{
    Links {
        first: None,
        parents: None,
        entries: None,
    }
}

// The links of the tree of these entries.
fn links_of_tree<'a>(entries: Entries<'a>) -> Links<'a>
    ensures { links_left result ≡ flat_map entry_links entries.entry }
{
    Links {
        first: None,
        parents: None,
        entries: Some(entries),
    }
}

// The links of the commit.
fn links_of_commit<'a>(commit: &Commit<'a>) -> Links<'a>
    ensures { links_left result ≡ link_to (commit_of commit.now).tree kind.Tree ∷ map commit_link (commit_of commit.now).parents }
{
    Links {
        first: Some(Link {
            name: commit.tree(),
            kind: Kind::Tree,
        }),
        parents: Some(commit.parents()),
        entries: None,
    }
}

// The link of the tag.
fn links_of_tag<'a>(tag: &Tag<'a>) -> Links<'a>
    ensures { links_left result ≡ link_to (tag_of tag.now).object (tag_of tag.now).kind ∷ [] }
{
    Links {
        first: Some(Link {
            name: tag.object(),
            kind: tag.kind(),
        }),
        parents: None,
        entries: None,
    }
}

/// Returns the links of the object: a tree's are its entries except gitlinks, a commit's its tree and then
/// its parents, a tag's its object. It allocates nothing.
pub fn links<'a>(object: &Object<'a>) -> Links<'a>
    ensures { links_left result ≡ links_of (object_of object.now) }
{
    match &object.form {
        Form::Blob(_) => no_links(),
        Form::Tree(entries) => links_of_tree(entries.copy()),
        Form::Commit(commit) => links_of_commit(commit),
        Form::Tag(tag) => links_of_tag(tag),
    }
}
