ghost use Rattle.std.specs.Prelude.{◌≡◌};
ghost use Rattle.push_stream.specs.Reading.{sent_of};

use git_name::{Kind, Name, Sealed};

/// What is known of an object that was sent: its name, its kind, and the length of its content.
#[derive(Clone, Copy, Debug, PartialEq, Eq)]
pub struct Sent {
    pub name: Name,
    pub kind: Kind,
    pub length: u64,
}

// What is known of an object.
pub(crate) fn sent_of(sealed: &Sealed) -> Sent
    ensures { result ≡ sent_of sealed.now }
{
    Sent {
        name: sealed.name(),
        kind: sealed.kind(),
        length: sealed.bytes().len() as u64,
    }
}
