ghost use Rattle.std.specs.Prelude.{◌≡◌, ◌≢◌, ◌+◌, ◌<◌, ◌≤◌, ◌∷◌, ◌++◌, ℕ, List, IfSome, IfNone, false, length, true};
ghost use Rattle.std.specs.Int.{to_be_bytes, w16, w32};
ghost use Rattle.packed_store.specs.Reading.{CanSay, IsTitle, said_size, title_bytes};

use crate::place::{MAX_FILE, SHORT};
use git_name::Name;

/// The title of a record: its kind, the length of its bytes, and its name. A short title has the kind 128.
#[derive(Clone, Copy, Debug)]
pub(crate) struct Title {
    pub(crate) kind: u8,
    pub(crate) len: u32,
    pub(crate) name: Name,
}

/// The kind of a short title.
pub(crate) const FEW: u8 = 128;

// Whether a short title may begin bytes: no letter does.
fn is_short(bytes: &[u8]) -> bool
    ensures short { result ≡ true → (kind : ℕ) (rest : List ℕ) → kind < 128 → bytes.now ≢ kind ∷ rest }
    ensures long { result ≡ false → (len : ℕ) (rest : List ℕ) → len < SHORT → bytes.now ≢ to_be_bytes w16 (SHORT + len) ++ rest }
{
    let Some(first) = bytes.first() else {
        return false;
    };
    *first >= FEW
}

// The short title at the front of bytes, and what comes after it.
fn short_title_of(bytes: &[u8]) -> Option<(Title, &[u8])>
    ensures title { IfSome result (λ found. IsTitle bytes.now found.0.kind found.0.len found.0.name found.1.now) }
    ensures none { IfNone result ((len : ℕ) (name rest : List ℕ) → length name ≡ 32 → len < SHORT → bytes.now ≢ (to_be_bytes w16 (SHORT + len) ++ name) ++ rest) }
{
    let Some(second) = bytes.split_first_chunk::<2>() else {
        return None;
    };
    let Some(third) = second.1.split_first_chunk::<32>() else {
        return None;
    };
    let word = u16::from_be_bytes(*second.0) as u32;
    let name = Name::new(*third.0);
    let _own = name.as_bytes();
    if word < SHORT {
        return None;
    }
    let len = word - SHORT;
    let kind = FEW;
    Some((Title { kind, len, name }, third.1))
}

// The title at the front of bytes that begins with a letter, and what comes after it. None if its length is that of no file.
fn long_title_of(bytes: &[u8]) -> Option<(Title, &[u8])>
    ensures title { IfSome result (λ found. IsTitle bytes.now found.0.kind found.0.len found.0.name found.1.now) }
    ensures none { IfNone result ((kind len : ℕ) (name rest : List ℕ) → length name ≡ 32 → kind < 128 → len ≤ MAX_FILE → bytes.now ≢ (kind ∷ to_be_bytes w32 len ++ name) ++ rest) }
{
    let Some(first) = bytes.split_first() else {
        return None;
    };
    let Some(second) = first.1.split_first_chunk::<4>() else {
        return None;
    };
    let Some(third) = second.1.split_first_chunk::<32>() else {
        return None;
    };
    let kind = *first.0;
    let len = u32::from_be_bytes(*second.0);
    let name = Name::new(*third.0);
    let _own = name.as_bytes();
    if kind >= FEW {
        return None;
    }
    if len as usize > MAX_FILE {
        return None;
    }
    Some((Title { kind, len, name }, third.1))
}

/// The title at the front of bytes, and what comes after it.
pub(crate) fn title_of(bytes: &[u8]) -> Option<(Title, &[u8])>
    ensures title { IfSome result (λ found. IsTitle bytes.now found.0.kind found.0.len found.0.name found.1.now) }
    ensures none { IfNone result ((kind len : ℕ) (name rest : List ℕ) → length name ≡ 32 → CanSay kind len → bytes.now ≢ title_bytes kind len name ++ rest) }
{
    if is_short(bytes) {
        return short_title_of(bytes);
    }
    long_title_of(bytes)
}

/// How many bytes a record has whose title says this. None if it is of no kind of a record.
pub(crate) fn said_size(title: Title) -> Option<u32>
    requires { title.len ≤ MAX_FILE }
    ensures { result ≡ said_size title.kind title.len }
{
    if title.kind == FEW {
        return Some(34 + title.len);
    }
    if title.kind == b'o' {
        return Some(37 + title.len);
    }
    if title.kind == b'f' {
        return Some(69 + title.len);
    }
    if title.kind == b'r' {
        return Some(69);
    }
    if title.kind == b's' {
        return Some(69);
    }
    if title.kind == b'u' {
        return Some(69);
    }
    None
}
