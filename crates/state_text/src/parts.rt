ghost use Rattle.std.specs.Prelude.{◌≡◌, ◌≢◌, ◌≤◌, ◌++◌, ℕ, List, IfSome, IfNone, codes};
ghost use Rattle.std.specs.Fmt.{decimal as spelled};
ghost use Rattle.hex.specs.Hex.{encode_lower};
ghost use Rattle.git_name.specs.Name.{IsName};
ghost use Rattle.git_refname.specs.Rule.{IsRefName};
ghost use Rattle.fork_request.specs.Names.{IsRepositoryName, IsTenantName};
ghost use Rattle.fork_request.specs.declared.tenant_limit.TheConstants.{MAX_LIMIT};
ghost use Rattle.git_reftx.specs.Repository.{IsBranch};
ghost use Rattle.state_text.specs.Adding.{fresh};
ghost use Rattle.state_text.specs.Offer.{offer_words};

use crate::tenant_state::TenantState;
use fork_request::{RepositoryName, TenantName};
use git_name::{Name, decimal, split_once};
use git_refname::RefName;
use git_reftx::Branch;
use std::alloc::Global;

// What follows this prefix of a text.
pub(crate) fn behind<'a>(text: &'a [u8], front: &[u8]) -> Option<&'a [u8]>
    ensures found { IfSome result (λ rest. text.entry.now ≡ front.now ++ rest.now) }
    ensures none { IfNone result ((rest : List ℕ) → text.entry.now ≢ front.now ++ rest) }
{
    if !text.starts_with(front) {
        return None;
    }
    Some(&text[front.len()..])
}

// The tenant that a tenant's line gives. It has nothing yet.
pub(crate) fn tenant_of(alloc: Global, rest: &[u8]) -> Option<TenantState>
    ensures found { IfSome result (λ tenant. (tenant ≡ fresh tenant.name tenant.limit) × (rest.now ≡ tenant.name ++ codes " " ++ spelled tenant.limit)) }
    ensures none { IfNone result ((name : List ℕ) (limit : ℕ) → IsTenantName name → limit ≤ MAX_LIMIT → rest.now ≢ name ++ codes " " ++ spelled limit) }
{
    let Some((word, digits)) = split_once(rest, b' ') else {
        return None;
    };
    let Some(name) = TenantName::read(word) else {
        return None;
    };
    let Some(limit) = decimal(digits) else {
        return None;
    };
    let Some(tenant) = TenantState::new(alloc, name, limit) else {
        return None;
    };
    Some(tenant)
}

// The reference of a reference's line, if this prefix precedes its name.
pub(crate) fn reference_of(rest: &[u8], prefix: &[u8]) -> Option<(RefName, Name)>
    ensures found { IfSome result (λ found. rest.now ≡ encode_lower found.1 ++ codes " " ++ prefix.now ++ found.0) }
    ensures none { IfNone result ((name target : List ℕ) → IsRefName name → IsName target → rest.now ≢ encode_lower target ++ codes " " ++ prefix.now ++ name) }
{
    let Some((digits, full)) = split_once(rest, b' ') else {
        return None;
    };
    let Some(target) = Name::parse_hex(digits) else {
        return None;
    };
    let Some(short) = behind(full, prefix) else {
        return None;
    };
    match RefName::read(short) {
        Ok(name) => Some((name, target)),
        Err(_) => None,
    }
}

// The branch of a HEAD's line, if this prefix precedes its name.
pub(crate) fn head_of(rest: &[u8], prefix: &[u8]) -> Option<Branch>
    ensures found { IfSome result (λ head. (rest.now ≡ prefix.now ++ head) × IsBranch head) }
    ensures none { IfNone result ((head : List ℕ) → IsBranch head → rest.now ≢ prefix.now ++ head) }
{
    let Some(short) = behind(rest, prefix) else {
        return None;
    };
    Branch::read(short)
}

// The receiver and the repository's name of an offer's line.
pub(crate) fn offer_of(rest: &[u8]) -> Option<(TenantName, RepositoryName)>
    ensures found { IfSome result (λ found. rest.now ≡ offer_words found.0 found.1) }
    ensures none { IfNone result ((receiver name : List ℕ) → IsTenantName receiver → IsRepositoryName name → rest.now ≢ offer_words receiver name) }
{
    let Some((word, behind)) = split_once(rest, b' ') else {
        return None;
    };
    let Some(receiver) = TenantName::read(word) else {
        return None;
    };
    let Some(name) = RepositoryName::read(behind) else {
        return None;
    };
    Some((receiver, name))
}
