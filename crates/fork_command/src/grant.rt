ghost use Rattle.std.specs.Prelude.{◌≡◌, ◌≢◌, ◌≤◌, IfSome, IfNone};

use fork_request::{MAX_LIMIT, TenantName};
use git_name::{decimal, split_once};

/// A tenant to add, and its limit in bytes of use. No value of this type has a limit above the
/// greatest.
#[derive(Debug, Drop, PartialEq, Eq)]
pub struct Grant {
    pub tenant: TenantName,
    pub limit: u64,
    pub ghost fits: { limit ≤ 1099511627776 },
}

impl Grant {
    ghost use Rattle.fork_command.specs.declared.grant.Grant.{Grant};
    ghost use Rattle.fork_command.specs.Grant.{IsGrant, grant_word};

    /// Reads a word TENANT=LIMIT. It allocates nothing.
    pub fn read(word: &[u8]) -> Option<Grant>
        ensures found { IfSome result (λ grant. IsGrant grant × (word.now ≡ grant_word grant)) }
        ensures none { IfNone result ((grant : Grant) → IsGrant grant → word.now ≢ grant_word grant) }
    {
        let Some((name, digits)) = split_once(word, b'=') else {
            return None;
        };
        let Some(tenant) = TenantName::read(name) else {
            return None;
        };
        let Some(limit) = decimal(digits) else {
            return None;
        };
        if limit > MAX_LIMIT {
            return None;
        }
        Some(Grant { tenant, limit })
    }
}
