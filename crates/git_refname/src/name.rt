ghost use Rattle.std.specs.Prelude.{◌≡◌, ◌≤◌, Some, OnOk, IfOk, IfErr, length, refl, nat_eq};
ghost use Rattle.std.specs.Cmp.Lexicographic.{slice_cmp, pointwise, nat_list_cmp_total, nat_list_eq_equiv, texts_ties, texts_po};
ghost use Rattle.std.specs.Cmp.{partial_equiv_from_equiv};
ghost use Rattle.std.specs.Ordering.{nat_cmp};
ghost use Rattle.git_refname.specs.declared.name.TheConstants.{MAX_REF_NAME};
ghost use Rattle.git_refname.specs.Rule.{IsRefName, least_broken_rule};

use crate::check::check;
use crate::rule::Rule;
use std::alloc::AllocError;
use std::cmp::Ordering;
use std::marker::Model;

/// The greatest length of a reference's name, in bytes (own).
pub const MAX_REF_NAME: usize = 255;

/// The name of a reference, which breaks no rule. It is stored in place and allocates nothing. Names
/// are ordered bytewise.
#[derive(Debug, Drop)]
pub struct RefName {
    bytes: [u8; MAX_REF_NAME],
    len: usize,
}

impl Model for RefName {
    ghost use Rattle.std.specs.Prelude.{◌≤◌, List, ℕ, take};
    ghost use Rattle.std.specs.Coded.{coded_list, coded_ℕ};
    ghost use Rattle.git_refname.specs.declared.name.TheConstants.{MAX_REF_NAME};
    ghost use Rattle.git_refname.specs.Rule.{IsRefName};

    ghost Value = { List ℕ };

    ghost coded = { coded_list coded_ℕ };

    ghost view = { λ a. take a.len a.bytes };

    ghost invariant = { λ a. (a.len ≤ MAX_REF_NAME) × IsRefName (take a.len a.bytes) };
}

impl RefName {
    /// Checks whether the text is a name, and returns the first rule that it breaks if not. It allocates
    /// nothing and reads the text once.
    pub fn check(text: &[u8]) -> Result<(), Rule>
        ensures ok { OnOk result (IsRefName text.now) }
        ensures broken { IfErr result (λ rule. least_broken_rule text.now ≡ Some rule) }
    {
        check(text)
    }

    /// Reads a name from its bytes. It allocates nothing.
    pub fn read(text: &[u8]) -> Result<RefName, Rule>
        ensures found { IfOk result (λ name. (name ≡ text.now) × IsRefName text.now) }
        ensures broken { IfErr result (λ rule. least_broken_rule text.now ≡ Some rule) }
    {
        check(text)?;
        let mut bytes = [0; MAX_REF_NAME];
        bytes[..text.len()].copy_from_slice(text);
        Ok(RefName {
            bytes,
            len: text.len(),
        })
    }

    /// A copy of the name. It allocates nothing.
    pub fn copy(&self) -> RefName
        ensures { result ≡ self.now }
    {
        RefName {
            bytes: self.bytes,
            len: self.len,
        }
    }

    /// The bytes of the name.
    pub fn as_bytes(&self) -> &[u8]
        ensures bytes { result.now ≡ self.now }
        ensures name { IsRefName self.now }
        ensures short { length self.now ≤ MAX_REF_NAME }
    {
        &self.bytes[..self.len]
    }
}

impl Clone for RefName {
    ghost is_clone = { λ x y. y ≡ x };

    fn clone(&self) -> Result<RefName, AllocError> {
        Ok(self.copy())
    }
}

impl PartialEq for RefName {
    ghost eq = { pointwise nat_eq };

    ghost laws = { partial_equiv_from_equiv nat_list_eq_equiv };

    fn eq(&self, other: &RefName) -> bool {
        self.as_bytes() == other.as_bytes()
    }
}

impl Eq for RefName {
    ghost laws = { nat_list_eq_equiv };
}

impl PartialOrd for RefName {
    ghost partial_cmp = { λ a b. Some (slice_cmp nat_cmp a b) };

    ghost laws = { texts_po };

    fn partial_cmp(&self, other: &RefName) -> Option<Ordering> {
        Some(self.cmp(other))
    }
}

impl Ord for RefName {
    ghost cmp = { slice_cmp nat_cmp };

    ghost total = { nat_list_cmp_total };

    ghost matches_partial_cmp = { λ a b. refl };

    ghost matches_eq = { texts_ties };

    fn cmp(&self, other: &RefName) -> Ordering {
        self.as_bytes().cmp(other.as_bytes())
    }
}
