ghost use Rattle.std.specs.Prelude.{◌≡◌, IfOk};
ghost use Rattle.git_object.specs.Held.{object_of};
ghost use Rattle.git_object.specs.Links.{links_of};
ghost use Rattle.fork_sound.specs.Reading.{object_reading};

use git_name::{Kind, Sealed};
use git_object::{Link, Object, links};
use std::alloc::{AllocError, Global};
use std::marker::Model;

/// What is known of an object once it was read: its kind, the length of its content, whether it breaks the grammar of
/// its kind, and, if it does not, its links.
#[derive(Drop)]
pub struct Reading {
    kind: Kind,
    size: u64,
    is_wrong: bool,
    links: Vec<Link>,
}

impl Model for Reading {
    ghost use Rattle.fork_sound.specs.Reading.{ReadingValue};

    ghost Value = { ReadingValue };

    ghost view = { λ a. record { kind = a.kind; size = a.size; wrong = a.is_wrong; links = a.links.items } };
}

impl Reading {
    /// What is known of this object.
    pub fn of(alloc: Global, sealed: &Sealed) -> Result<Reading, AllocError>
        ensures { IfOk result (λ reading. reading ≡ object_reading sealed.now) }
    {
        let kind = sealed.kind();
        let size = sealed.bytes().len() as u64;
        let Ok(object) = Object::read(kind, sealed.bytes()) else {
            return Ok(Reading {
                kind,
                size,
                is_wrong: true,
                links: Vec::new(alloc),
            });
        };
        let links = listed(alloc, &object)?;
        Ok(Reading {
            kind,
            size,
            is_wrong: false,
            links,
        })
    }

    /// The kind of the object.
    pub fn kind(&self) -> Kind
        ensures { result ≡ self.now.kind }
    {
        self.kind
    }

    /// The length of its content.
    pub fn size(&self) -> u64
        ensures { result ≡ self.now.size }
    {
        self.size
    }

    // Whether it breaks the grammar of its kind.
    pub(crate) fn is_wrong(&self) -> bool
        ensures { result ≡ self.now.wrong }
    {
        self.is_wrong
    }

    // Its links, in order.
    pub(crate) fn links(&self) -> &[Link]
        ensures { result.now ≡ self.now.links }
    {
        self.links.as_slice()
    }
}

// The links of an object, in order.
fn listed(alloc: Global, object: &Object<'_>) -> Result<Vec<Link>, AllocError>
    ensures { IfOk result (λ listed. listed.items ≡ links_of (object_of object.now)) }
{
    let mut listed = Vec::new(alloc);
    for link in links(object) {
        listed.push(link)?;
    }
    Ok(listed)
}
