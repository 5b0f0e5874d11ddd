ghost use Rattle.std.specs.Prelude.{◌≡◌, ◌≢◌, ◌∷◌, [], IfSome, IfNone, List, Some, refl, take, ℕ};
ghost use Rattle.std.specs.Cmp.{partial_equiv_from_equiv};
ghost use Rattle.std.specs.Cmp.Lexicographic.{bytes_decides, nat_list_cmp_total, nat_list_eq_equiv, slice_cmp, texts_po, texts_ties};
ghost use Rattle.std.specs.Hash.{same_Alike};
ghost use Rattle.std.specs.Ordering.{nat_cmp};
ghost use Rattle.hex.specs.Hex.{encode_lower};
ghost use Rattle.git_name.specs.Name.{IsName, name_in};
ghost use Rattle.git_name.specs.Object.{object_name};
ghost use Rattle.git_name.specs.Same.{same_name};

use crate::digits::read_digits;
use crate::kind::Kind;
use crate::order::{order, same};
use itoa::Buffer;
use sha2::{Digest, Sha256};
use std::cmp::Ordering;
use std::hash::{Hash, Hasher};
use std::marker::Model;

/// The name of an object: the 32 bytes of a SHA-256. Names are ordered bytewise, which is the
/// order of their digits.
#[derive(Clone, Copy, Debug)]
pub struct Name {
    bytes: [u8; 32],
}

impl Model for Name {
    ghost use Rattle.std.specs.Prelude.{List, ℕ};
    ghost use Rattle.git_name.specs.Name.{IsName};

    ghost Value = { List ℕ };

    ghost view = { λ a. a.bytes };

    ghost invariant = { λ a. IsName a.bytes };

    ghost inverse = { λ bytes. record { bytes = bytes } };
}

impl Name {
    /// The name with these bytes.
    pub fn new(bytes: [u8; 32]) -> Name
        ensures { result ≡ bytes }
    {
        Name { bytes }
    }

    /// The bytes of the name.
    pub fn as_bytes(&self) -> &[u8; 32]
        ensures bytes { result.now ≡ self.now }
        ensures name { IsName self.now }
    {
        &self.bytes
    }

    /// Parses a name from 64 lower-case hex digits. Upper-case digits are refused.
    pub fn parse_hex(text: &[u8]) -> Option<Name>
        ensures value { result ≡ name_in text.now }
        ensures found { IfSome result (λ name. text.now ≡ encode_lower name) }
        ensures none { IfNone result ((name : List ℕ) → IsName name → text.now ≢ encode_lower name) }
    {
        let Some(bytes) = read_digits(text) else {
            return None;
        };
        Some(Name { bytes })
    }

    /// Writes the name as 64 lower-case hex digits.
    pub fn write_hex(&self, out: &mut [u8; 64])
        ensures { out.new ≡ encode_lower self.now }
    {
        let written = hex::encode_to_slice(self.bytes, out.as_mut_slice());
        prove!(written.is_ok());
    }
}

impl PartialEq for Name {
    ghost eq = { same_name };

    ghost laws = { partial_equiv_from_equiv nat_list_eq_equiv };

    #[inline]
    fn eq(&self, other: &Name) -> bool {
        same(&self.bytes, &other.bytes)
    }
}

impl Eq for Name {
    ghost laws = { nat_list_eq_equiv };
}

/// Only the first eight bytes are hashed: names are hashes themselves, and it is infeasible to find
/// many that begin with the same eight.
impl Hash for Name {
    ghost hash_input = { λ name. take 8 name ∷ [] };

    ghost respects_eq = { (same_Alike (λ name. take 8 name ∷ []) bytes_decides).fed };

    #[inline]
    fn hash<H: Hasher>(&self, state: &mut H) {
        state.write(&self.bytes[..8]);
    }
}

impl PartialOrd for Name {
    ghost partial_cmp = { λ a b. Some (slice_cmp nat_cmp a b) };

    ghost laws = { texts_po };

    #[inline]
    fn partial_cmp(&self, other: &Name) -> Option<Ordering> {
        Some(self.cmp(other))
    }
}

impl Ord for Name {
    ghost cmp = { slice_cmp nat_cmp };

    ghost total = { nat_list_cmp_total };

    ghost matches_partial_cmp = { λ a b. refl };

    ghost matches_eq = { texts_ties };

    #[inline]
    fn cmp(&self, other: &Name) -> Ordering {
        order(&self.bytes, &other.bytes)
    }
}

/// Returns the name of the object with this kind and content (Git's hash-function-transition; FIPS 180-4). It
/// makes one pass over the bytes, without a copy or an allocation.
pub fn name_of(kind: Kind, bytes: &[u8]) -> Name
    ensures { result ≡ object_name (record { kind = kind; bytes = bytes.now }) }
{
    let mut length = Buffer::new();
    let mut hasher = Sha256::new();
    hasher.update(kind.word());
    hasher.update(b" ");
    hasher.update(length.format(bytes.len()));
    hasher.update(b"\0");
    hasher.update(bytes);
    Name::new(hasher.finalize())
}
