ghost use Rattle.std.specs.Prelude.{◌≡◌, ◌++◌, ◌∷◌, [], IfOk, decimal, length};
ghost use Rattle.hex.specs.Hex.{encode_lower};
ghost use Rattle.git_name.specs.Kind.{type_word};
ghost use Rattle.git_name.specs.Object.{object_name};
ghost use Rattle.push_stream.specs.Record.{record_of};

use git_name::{Kind, Name, Sealed};
use itoa::Buffer;
use std::alloc::{AllocError, Global};

/// The most bytes of a record besides its content: a name, a word of six letters, twenty digits, two
/// spaces and two line feeds.
pub const BESIDE: usize = 94;

#[tactic(auto, unfolding(crate::specs::Record::record_of))]
/// Appends the record of an object to a text, as `git cat-file --batch` prints it (git-cat-file(1)). The
/// object has this kind and these bytes, and the name is its own. If memory runs out, the text is lost.
pub fn add_record(
    text: Vec<u8>,
    name: Name,
    kind: Kind,
    bytes: &[u8],
) -> Result<Vec<u8>, AllocError>
    ensures spelled { IfOk result (λ longer. longer.items ≡ text.items ++ encode_lower name ++ 32 ∷ type_word kind ++ 32 ∷ decimal (length bytes.now) ++ 10 ∷ bytes.now ++ 10 ∷ []) }
    ensures record { object_name (record { kind = kind; bytes = bytes.now }) ≡ name → IfOk result (λ longer. longer.items ≡ text.items ++ record_of (record { kind = kind; bytes = bytes.now })) }
{
    let mut digits = [0; 64];
    name.write_hex(&mut digits);
    let mut size = Buffer::new();
    let mut text = text;
    text.extend_from_slice(digits.as_slice())?;
    text.push(b' ')?;
    text.extend_from_slice(kind.word())?;
    text.push(b' ')?;
    text.extend_from_slice(size.format(bytes.len()).as_bytes())?;
    text.push(b'\n')?;
    text.extend_from_slice(bytes)?;
    text.push(b'\n')?;
    Ok(text)
}

/// Returns the record of one object.
pub fn write_record(alloc: Global, sealed: &Sealed) -> Result<Vec<u8>, AllocError>
    ensures { IfOk result (λ text. text.items ≡ record_of sealed.now) }
{
    let room = sealed.bytes().len().saturating_add(BESIDE);
    add_record(
        Vec::with_capacity(alloc, room)?,
        sealed.name(),
        sealed.kind(),
        sealed.bytes(),
    )
}
