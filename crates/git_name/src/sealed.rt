ghost use Rattle.std.specs.Prelude.{◌≡◌};
ghost use Rattle.git_name.specs.Object.{object_name};

use crate::kind::Kind;
use crate::name::{Name, name_of};
use std::alloc::AllocError;
use std::marker::Model;

/// An object with its name. No value of this type has a wrong name.
#[derive(Debug, Drop)]
pub struct Sealed {
    kind: Kind,
    bytes: Vec<u8>,
    name: Name,
}

impl Model for Sealed {
    ghost use Rattle.std.specs.Prelude.{◌≡◌};
    ghost use Rattle.git_name.specs.Object.{Object, object_name};

    ghost Value = { Object };

    ghost view = { λ a. record { kind = a.kind; bytes = a.bytes.items } };

    ghost invariant = { λ a. a.name ≡ object_name (record { kind = a.kind; bytes = a.bytes.items }) };
}

/// Computes an object's name, and keeps both together. It allocates nothing.
pub fn seal(kind: Kind, bytes: Vec<u8>) -> Sealed
    ensures { result ≡ record { kind = kind; bytes = bytes.items } }
{
    let name = name_of(kind, bytes.as_slice());
    Sealed { kind, bytes, name }
}

/// Like `seal`, for an object whose name is already known. It hashes nothing.
pub fn seal_as(kind: Kind, bytes: Vec<u8>, name: Name) -> Sealed
    requires { name ≡ object_name (record { kind = kind; bytes = bytes.items }) }
    ensures { result ≡ record { kind = kind; bytes = bytes.items } }
{
    Sealed { kind, bytes, name }
}

impl Sealed {
    /// The object's kind.
    pub fn kind(&self) -> Kind
        ensures { result ≡ self.now.kind }
    {
        self.kind
    }

    /// The object's content.
    pub fn bytes(&self) -> &[u8]
        ensures { result.now ≡ self.now.bytes }
    {
        self.bytes.as_slice()
    }

    /// The object's name.
    pub fn name(&self) -> Name
        ensures { result ≡ object_name self.now }
    {
        self.name
    }

    /// The kind and the content.
    pub fn into_parts(self) -> (Kind, Vec<u8>)
        ensures kind { result.0 ≡ self.kind }
        ensures bytes { result.1.items ≡ self.bytes }
    {
        let Sealed { kind, bytes, .. } = self;
        (kind, bytes)
    }
}

impl Clone for Sealed {
    ghost is_clone = { λ x y. y ≡ x };

    fn clone(&self) -> Result<Sealed, AllocError> {
        Ok(Sealed {
            kind: self.kind,
            bytes: self.bytes.clone()?,
            name: self.name,
        })
    }
}
