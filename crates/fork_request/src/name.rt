ghost use Rattle.std.specs.Prelude.{◌≡◌, IfSome, IfNone, Some, is_some, refl, nat_eq};
ghost use Rattle.std.specs.Cmp.Lexicographic.{slice_cmp, pointwise, nat_list_cmp_total, nat_list_eq_equiv, texts_ties, texts_po};
ghost use Rattle.std.specs.Cmp.{partial_equiv_from_equiv};
ghost use Rattle.std.specs.Ordering.{nat_cmp};
ghost use Rattle.fork_request.specs.Names.{IsPlainName, is_plain_name};

use crate::plain_word::is_plain_word;
use std::cmp::Ordering;
use std::marker::Model;

/// The greatest length of a tenant's name in bytes (own).
pub const MAX_TENANT_NAME: usize = 32;

/// The greatest length of a repository's name in bytes (own).
pub const MAX_REPOSITORY_NAME: usize = 64;

/// A tenant's name, of 1 to 32 bytes.
pub type TenantName = PlainName<MAX_TENANT_NAME>;

/// A repository's name, of 1 to 64 bytes.
pub type RepositoryName = PlainName<MAX_REPOSITORY_NAME>;

/// A name of 1 to `MOST` bytes from `a` to `z`, digits, `-` and `_`. The first is a letter or a digit (own).
/// Names are ordered bytewise.
#[derive(Debug, Drop)]
pub struct PlainName<const MOST: usize> {
    bytes: [u8; MOST],
    len: usize,
}

impl<const MOST: usize> Model for PlainName<MOST> {
    ghost use Rattle.std.specs.Prelude.{◌≤◌, List, ℕ, take};
    ghost use Rattle.std.specs.Coded.{coded_list, coded_ℕ};
    ghost use Rattle.fork_request.specs.Names.{IsPlainName};

    ghost Value = { List ℕ };

    ghost coded = { coded_list coded_ℕ };

    ghost view = { λ a. take a.len a.bytes };

    ghost invariant = { λ a. (a.len ≤ MOST) × IsPlainName MOST (take a.len a.bytes) };
}

impl<const MOST: usize> PlainName<MOST> {
    /// Reads a name from its bytes. It allocates nothing.
    pub fn read(text: &[u8]) -> Option<PlainName<MOST>>
        ensures found { IfSome result (λ name. (name ≡ text.now) × IsPlainName MOST text.now) }
        ensures none { IfNone result (¬ IsPlainName MOST text.now) }
        ensures test { is_some result ≡ is_plain_name MOST text.now }
    {
        if !is_plain_word(text, MOST) {
            return None;
        }
        let mut bytes = [0; MOST];
        bytes[..text.len()].copy_from_slice(text);
        Some(PlainName {
            bytes,
            len: text.len(),
        })
    }

    /// A copy of the name. It allocates nothing.
    pub fn copy(&self) -> PlainName<MOST>
        ensures { result ≡ self.now }
    {
        PlainName {
            bytes: self.bytes,
            len: self.len,
        }
    }

    /// The bytes of the name.
    pub fn as_bytes(&self) -> &[u8]
        ensures bytes { result.now ≡ self.now }
        ensures name { IsPlainName MOST self.now }
    {
        &self.bytes[..self.len]
    }
}

impl<const MOST: usize> PartialEq for PlainName<MOST> {
    ghost eq = { pointwise nat_eq };

    ghost laws = { partial_equiv_from_equiv nat_list_eq_equiv };

    fn eq(&self, other: &PlainName<MOST>) -> bool {
        self.as_bytes() == other.as_bytes()
    }
}

impl<const MOST: usize> Eq for PlainName<MOST> {
    ghost laws = { nat_list_eq_equiv };
}

impl<const MOST: usize> PartialOrd for PlainName<MOST> {
    ghost partial_cmp = { λ a b. Some (slice_cmp nat_cmp a b) };

    ghost laws = { texts_po };

    fn partial_cmp(&self, other: &PlainName<MOST>) -> Option<Ordering> {
        Some(self.cmp(other))
    }
}

impl<const MOST: usize> Ord for PlainName<MOST> {
    ghost cmp = { slice_cmp nat_cmp };

    ghost total = { nat_list_cmp_total };

    ghost matches_partial_cmp = { λ a b. refl };

    ghost matches_eq = { texts_ties };

    fn cmp(&self, other: &PlainName<MOST>) -> Ordering {
        self.as_bytes().cmp(other.as_bytes())
    }
}
