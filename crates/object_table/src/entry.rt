ghost use Rattle.std.specs.Prelude.{◌≡◌};
ghost use Rattle.object_table.specs.Told.{entry_of};

use git_name::{Kind, Name, Sealed};

/// What a ledger needs to know about an object to stage it.
#[derive(Clone, Copy, Debug)]
pub struct Entry {
    /// The object's name.
    pub name: Name,
    /// Its kind.
    pub kind: Kind,
    /// The length of its content, in bytes.
    pub length: u64,
}

impl Entry {
    /// The entry of an object.
    pub fn of(sealed: &Sealed) -> Entry
        ensures { result ≡ entry_of sealed.now }
    {
        Entry {
            name: sealed.name(),
            kind: sealed.kind(),
            length: sealed.bytes().len() as u64,
        }
    }
}
