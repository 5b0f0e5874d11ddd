ghost use Rattle.std.specs.Prelude.{◌≡◌, false, true, IfOk, IfErr};
ghost use Rattle.state_text.specs.States.{IsStates};
ghost use Rattle.state_text.specs.Taking.{Adds, AwaitsHead, AddsHead, AddsOffer, AddsReference, AddsRepository, AddsSeen, AddsTenant, HasJustBegun, Refuses, RefusesLine, SaysHead, awaits_head};

use crate::last::{close_last, open_last, put_back};
use crate::line_fault::LineFault;
use crate::offer::Offer;
use crate::parts::{behind, head_of, offer_of, reference_of, tenant_of};
use crate::states::States;
use crate::version::Version;
use fork_request::RepositoryName;
use git_name::Name;
use git_refname::expand;
use git_reftx::Repository;
use std::alloc::Global;

// Takes a line, given without its LF, and returns whether the next line must give a HEAD.
pub(crate) fn take_line(
    alloc: Global,
    version: Version,
    states: &mut States,
    awaits: bool,
    line: &[u8],
) -> Result<bool, LineFault>
    requires { AwaitsHead version (record { states = states.old; awaits = awaits }) }
    ensures ok { IfOk result (λ more. Adds version (record { states = states.old; awaits = awaits }) line.now (record { states = states.new; awaits = more })) }
    ensures sound { IfOk result (λ more. IsStates states.new) }
    ensures wrong { IfErr result (RefusesLine version (record { states = states.old; awaits = awaits }) line.now) }
{
    if awaits {
        return take_awaited(alloc, states, line);
    }
    if let Some(rest) = behind(line, b"tenant ") {
        return take_tenant(alloc, states, rest);
    }
    if let Some(rest) = behind(line, b"repo ") {
        return take_repository(alloc, version, states, rest);
    }
    if let Some(rest) = behind(line, b"ref ") {
        return take_reference(alloc, states, rest);
    }
    if let Some(rest) = behind(line, b"see ") {
        return take_seen(states, rest);
    }
    if let Some(rest) = behind(line, b"offer ") {
        return take_offer(alloc, version, states, rest);
    }
    Err(LineFault::Wrong)
}

// Takes the line that must give a HEAD.
fn take_awaited(alloc: Global, states: &mut States, line: &[u8]) -> Result<bool, LineFault>
    requires { HasJustBegun states.old }
    ensures ok { IfOk result (λ more. (more ≡ false) × SaysHead states.old line.now states.new) }
    ensures sound { IfOk result (λ more. IsStates states.new) }
    ensures wrong { IfErr result (Refuses SaysHead states.old line.now) }
{
    let Some(rest) = behind(line, b"head ") else {
        return Err(LineFault::Wrong);
    };
    take_head(alloc, states, rest)
}

// Takes the rest of a tenant's line.
fn take_tenant(alloc: Global, states: &mut States, rest: &[u8]) -> Result<bool, LineFault>
    ensures ok { IfOk result (λ more. (more ≡ false) × AddsTenant states.old rest.now states.new) }
    ensures sound { IfOk result (λ more. IsStates states.new) }
    ensures wrong { IfErr result (Refuses AddsTenant states.old rest.now) }
{
    let Some(tenant) = tenant_of(alloc, rest) else {
        return Err(LineFault::Wrong);
    };
    // Called for its clause: the tenant is valid.
    let _name = tenant.name();
    states.push(tenant)?;
    Ok(false)
}

// Takes the rest of a repository's line.
fn take_repository(
    alloc: Global,
    version: Version,
    states: &mut States,
    rest: &[u8],
) -> Result<bool, LineFault>
    ensures ok { IfOk result (λ more. (more ≡ awaits_head version) × AddsRepository states.old rest.now states.new) }
    ensures sound { IfOk result (λ more. IsStates states.new) }
    ensures wrong { IfErr result (Refuses AddsRepository states.old rest.now) }
{
    let Some(mut tenant) = states.pop() else {
        return Err(LineFault::Wrong);
    };
    if tenant.seen().len() > 0 {
        return Err(LineFault::Wrong);
    }
    if tenant.offers().len() > 0 {
        return Err(LineFault::Wrong);
    }
    let Some(name) = RepositoryName::read(rest) else {
        return Err(LineFault::Wrong);
    };
    tenant.add_repository(name, Repository::new(alloc))?;
    put_back(states, tenant, version.is_with_heads())
}

// Takes the rest of the line of a HEAD.
fn take_head(alloc: Global, states: &mut States, rest: &[u8]) -> Result<bool, LineFault>
    requires { HasJustBegun states.old }
    ensures ok { IfOk result (λ more. (more ≡ false) × AddsHead states.old rest.now states.new) }
    ensures sound { IfOk result (λ more. IsStates states.new) }
    ensures wrong { IfErr result (Refuses AddsHead states.old rest.now) }
{
    let Some((tenant, place, mut repository)) = open_last(states) else {
        return Err(LineFault::Wrong);
    };
    let Ok(prefix) = expand(alloc, tenant.name().as_bytes(), place.name().as_bytes()) else {
        return Err(LineFault::Memory);
    };
    let Some(head) = head_of(rest, prefix.as_slice()) else {
        return Err(LineFault::Wrong);
    };
    repository.set_head(head);
    close_last(states, tenant, place, repository)
}

// Takes the rest of a reference's line.
fn take_reference(alloc: Global, states: &mut States, rest: &[u8]) -> Result<bool, LineFault>
    ensures ok { IfOk result (λ more. (more ≡ false) × AddsReference states.old rest.now states.new) }
    ensures sound { IfOk result (λ more. IsStates states.new) }
    ensures wrong { IfErr result (Refuses AddsReference states.old rest.now) }
{
    let Some((tenant, place, mut repository)) = open_last(states) else {
        return Err(LineFault::Wrong);
    };
    let Ok(prefix) = expand(alloc, tenant.name().as_bytes(), place.name().as_bytes()) else {
        return Err(LineFault::Memory);
    };
    let Some((name, target)) = reference_of(rest, prefix.as_slice()) else {
        return Err(LineFault::Wrong);
    };
    // Called for its clause: the target is a name.
    let _target = target.as_bytes();
    repository.push(name, target)?;
    // Called for its clause: the references are valid with this one.
    let _references = repository.references();
    close_last(states, tenant, place, repository)
}

// Takes the rest of the line of an object that is seen.
fn take_seen(states: &mut States, rest: &[u8]) -> Result<bool, LineFault>
    ensures ok { IfOk result (λ more. (more ≡ false) × AddsSeen states.old rest.now states.new) }
    ensures sound { IfOk result (λ more. IsStates states.new) }
    ensures wrong { IfErr result (Refuses AddsSeen states.old rest.now) }
{
    let Some(mut tenant) = states.pop() else {
        return Err(LineFault::Wrong);
    };
    if tenant.offers().len() > 0 {
        return Err(LineFault::Wrong);
    }
    let Some(name) = Name::parse_hex(rest) else {
        return Err(LineFault::Wrong);
    };
    // Called for its clause: it is a name.
    let _name = name.as_bytes();
    tenant.add_seen(name)?;
    put_back(states, tenant, false)
}

// Takes the rest of an offer's line.
fn take_offer(
    alloc: Global,
    version: Version,
    states: &mut States,
    rest: &[u8],
) -> Result<bool, LineFault>
    ensures ok { IfOk result (λ more. (more ≡ true) × AddsOffer version states.old rest.now states.new) }
    ensures sound { IfOk result (λ more. IsStates states.new) }
    ensures wrong { IfErr result (Refuses (AddsOffer version) states.old rest.now) }
{
    if !version.is_with_heads() {
        return Err(LineFault::Wrong);
    }
    let Some(mut tenant) = states.pop() else {
        return Err(LineFault::Wrong);
    };
    let Some((receiver, name)) = offer_of(rest) else {
        return Err(LineFault::Wrong);
    };
    // Called for its clause: they are names.
    let _receiver = receiver.as_bytes();
    let _name = name.as_bytes();
    tenant.add_offer(Offer::new(receiver, name, Repository::new(alloc)))?;
    put_back(states, tenant, true)
}
