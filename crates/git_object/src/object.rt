ghost use Rattle.std.specs.Prelude.{◌≡◌, IfOk, IfErr, IsOkAnd};

use crate::fault::TagFault;
use crate::tag::Tag;
use git_commit::{Commit, CommitFault};
use git_name::Kind;
use git_tree::{Entries, TreeFault, entries};
use thiserror::Error;

/// Why bytes are not an object of a kind. Any bytes are a blob.
#[derive(Clone, Copy, Debug, PartialEq, Eq, Error)]
pub enum ObjectFault {
    /// The bytes are not a tree.
    #[error("the bytes are no tree")]
    Tree(TreeFault),
    /// The bytes are not a commit.
    #[error("the bytes are no commit")]
    Commit(CommitFault),
    /// The bytes are not a tag.
    #[error("the bytes are no tag")]
    Tag(TagFault),
}

/// The parts of an object, by its kind.
#[derive(Debug, Drop)]
pub(crate) enum Form<'a> {
    Blob(&'a [u8]),
    Tree(Entries<'a>),
    Commit(Commit<'a>),
    Tag(Tag<'a>),
}

/// An object, borrowed from its bytes, which are always valid for its kind.
#[derive(Debug, Drop)]
pub struct Object<'a> {
    pub(crate) form: Form<'a>,
}

impl<'a> Object<'a> {
    ghost use Rattle.std.specs.Option.{option_map};
    ghost use Rattle.std.specs.Result.{result_ok};
    ghost use Rattle.git_object.specs.Held.{object_of};
    ghost use Rattle.git_object.specs.Object.{ObjectValue, IsObject, IsObjectFault};
    ghost use Rattle.git_object.specs.ObjectIn.{object_in, links_in, links_or_none};

    // Reads the parts of the object, by its kind.
    fn parts_of(kind: Kind, bytes: &'a [u8]) -> Result<Object<'a>, ObjectFault>
        ensures found { IfOk result (λ object. IsObject (object_of object) kind bytes.now) }
        ensures exact { IfErr result (λ why. IsObjectFault why kind bytes.now) }
    {
        match kind {
            Kind::Blob => Ok(Object {
                form: Form::Blob(bytes),
            }),
            Kind::Tree => match entries(bytes) {
                Ok(entries) => Ok(Object {
                    form: Form::Tree(entries),
                }),
                Err(fault) => Err(ObjectFault::Tree(fault)),
            },
            Kind::Commit => match Commit::read(bytes) {
                Ok(commit) => Ok(Object {
                    form: Form::Commit(commit),
                }),
                Err(fault) => Err(ObjectFault::Commit(fault)),
            },
            Kind::Tag => match Tag::read(bytes) {
                Ok(tag) => Ok(Object {
                    form: Form::Tag(tag),
                }),
                Err(fault) => Err(ObjectFault::Tag(fault)),
            },
        }
    }

    /// Reads an object of this kind from its bytes. It allocates nothing.
    pub fn read(kind: Kind, bytes: &'a [u8]) -> Result<Object<'a>, ObjectFault>
        // What is read is an object of these parts.
        ensures found { IfOk result (λ object. IsObject (object_of object) kind bytes.now) }
        // Every object of the kind is read.
        ensures only { (value : ObjectValue) → IsObject value kind bytes.now → IsOkAnd result (λ object. object_of object ≡ value) }
        // The value that models compute, with its links.
        ensures value { option_map object_of (result_ok result) ≡ object_in kind bytes.now }
        ensures links { links_or_none (option_map object_of (result_ok result)) ≡ links_in kind bytes.now }
        // Which fault it is.
        ensures exact { IfErr result (λ why. IsObjectFault why kind bytes.now) }
    {
        Object::parts_of(kind, bytes)
    }
}
