ghost use Rattle.std.specs.Prelude.{◌≡◌, ◌++◌, OnOk, IfOk, codes, map};
ghost use Rattle.std.specs.FinMap.{entries};
ghost use Rattle.std.specs.Io.KnownBytes.{Appends};
ghost use Rattle.std.specs.List.{flat_map};
ghost use Rattle.hex.specs.Hex.{encode_lower};
ghost use Rattle.git_refname.specs.Namespace.{expanded};
ghost use Rattle.git_name.specs.Text.{ended};
ghost use Rattle.sha2.specs.Sha256.{sha256};
ghost use Rattle.state_text.specs.Text.{IsStateText2, inner_lines, offer_line, offer_lines, repository_line, repository_lines, seen_line, state_text, tenant_line, tenant_lines};
ghost use Rattle.state_text.specs.Writing.{Puts};
ghost use Rattle.state_text.specs.declared.version.Version.TheVariants.{Two};

use crate::offer::Offer;
use crate::states::States;
use crate::tenant_state::TenantState;
use crate::waiting::{Spelled, Waiting};
use devices::Sink;
use fork_request::{RepositoryName, TenantName};
use git_name::Name;
use git_refname::expand;
use git_reftx::{Refs, Repository};
use itoa::Buffer;
use std::alloc::{AllocError, Global};
use std::io;

// Writes the digits of a name.
fn put_name(out: &mut Vec<u8>, name: &Name) -> Result<(), AllocError>
    ensures { OnOk result (out.new.items ≡ out.old.items ++ encode_lower name.now) }
{
    let mut digits = [0; 64];
    name.write_hex(&mut digits);
    out.extend_from_slice(&digits)?;
    Ok(())
}

// Writes the line of a tenant.
fn put_tenant_line(out: &mut Vec<u8>, name: &TenantName, limit: u64) -> Result<(), AllocError>
    ensures { OnOk result (out.new.items ≡ out.old.items ++ ended (tenant_line name.now limit)) }
{
    let mut digits = Buffer::new();
    out.extend_from_slice(b"tenant ")?;
    out.extend_from_slice(name.as_bytes())?;
    out.extend_from_slice(b" ")?;
    out.extend_from_slice(digits.format(limit).as_bytes())?;
    out.extend_from_slice(b"\n")?;
    Ok(())
}

// Writes the line of a reference, given its expanded namespace.
fn put_reference(
    out: &mut Vec<u8>,
    prefix: &[u8],
    name: &[u8],
    target: &Name,
) -> Result<(), AllocError>
    ensures { OnOk result (out.new.items ≡ out.old.items ++ ended (codes "ref " ++ encode_lower target.now ++ codes " " ++ prefix.now ++ name.now)) }
{
    out.extend_from_slice(b"ref ")?;
    put_name(out, target)?;
    out.extend_from_slice(b" ")?;
    out.extend_from_slice(prefix)?;
    out.extend_from_slice(name)?;
    out.extend_from_slice(b"\n")?;
    Ok(())
}

// Writes the line of a HEAD, given its expanded namespace.
fn put_head(out: &mut Vec<u8>, prefix: &[u8], head: &[u8]) -> Result<(), AllocError>
    ensures { OnOk result (out.new.items ≡ out.old.items ++ ended (codes "head " ++ prefix.now ++ head.now)) }
{
    out.extend_from_slice(b"head ")?;
    out.extend_from_slice(prefix)?;
    out.extend_from_slice(head)?;
    out.extend_from_slice(b"\n")?;
    Ok(())
}

// Writes the first line of a repository.
fn put_repository_line(out: &mut Vec<u8>, name: &RepositoryName) -> Result<(), AllocError>
    ensures { OnOk result (out.new.items ≡ out.old.items ++ ended (repository_line name.now)) }
{
    out.extend_from_slice(b"repo ")?;
    out.extend_from_slice(name.as_bytes())?;
    out.extend_from_slice(b"\n")?;
    Ok(())
}

// Writes the line of an object that is seen.
fn put_seen_line(out: &mut Vec<u8>, name: &Name) -> Result<(), AllocError>
    ensures { OnOk result (out.new.items ≡ out.old.items ++ ended (seen_line name.now)) }
{
    out.extend_from_slice(b"see ")?;
    put_name(out, name)?;
    out.extend_from_slice(b"\n")?;
    Ok(())
}

// Writes the first line of an offer.
fn put_offer_line(
    out: &mut Vec<u8>,
    receiver: &TenantName,
    name: &RepositoryName,
) -> Result<(), AllocError>
    ensures { OnOk result (out.new.items ≡ out.old.items ++ ended (offer_line receiver.now name.now)) }
{
    out.extend_from_slice(b"offer ")?;
    out.extend_from_slice(receiver.as_bytes())?;
    out.extend_from_slice(b" ")?;
    out.extend_from_slice(name.as_bytes())?;
    out.extend_from_slice(b"\n")?;
    Ok(())
}

// Writes a line for each reference.
fn put_references<W: Sink>(
    writer: &mut W,
    waiting: &mut Waiting,
    prefix: &[u8],
    references: &Refs,
) -> io::Result<()>
    ensures puts { OnOk result (Puts (W.contents writer.old) (W.contents writer.new) waiting.old waiting.new (flat_map ended (map (λ reference. codes "ref " ++ encode_lower reference.1 ++ codes " " ++ prefix.now ++ reference.0) (entries references.now)))) }
    ensures rest { W.rest writer.new ≡ W.rest writer.old }
{
    for (name, target) in references.iter() {
        put_reference(&mut waiting.lines, prefix, name, target)?;
        waiting.settle(writer)?;
    }
    Ok(())
}

// Writes the lines of a repository's HEAD and references.
fn put_inner<W: Sink>(
    alloc: Global,
    writer: &mut W,
    waiting: &mut Waiting,
    tenant: &TenantName,
    name: &RepositoryName,
    repository: &Repository,
) -> io::Result<()>
    ensures puts { OnOk result (Puts (W.contents writer.old) (W.contents writer.new) waiting.old waiting.new (flat_map ended (inner_lines Two tenant.now name.now repository.now))) }
    ensures rest { W.rest writer.new ≡ W.rest writer.old }
{
    let prefix = expand(alloc, tenant.as_bytes(), name.as_bytes())?;
    let head = repository.head().name().as_bytes();
    put_head(&mut waiting.lines, prefix.as_slice(), head)?;
    waiting.settle(writer)?;
    put_references(writer, waiting, prefix.as_slice(), repository.references())
}

// Writes the lines of a repository.
fn put_repository<W: Sink>(
    alloc: Global,
    writer: &mut W,
    waiting: &mut Waiting,
    tenant: &TenantName,
    name: &RepositoryName,
    repository: &Repository,
) -> io::Result<()>
    ensures puts { OnOk result (Puts (W.contents writer.old) (W.contents writer.new) waiting.old waiting.new (flat_map ended (repository_lines Two tenant.now (name.now, repository.now)))) }
    ensures rest { W.rest writer.new ≡ W.rest writer.old }
{
    put_repository_line(&mut waiting.lines, name)?;
    put_inner(alloc, writer, waiting, tenant, name, repository)
}

// Writes the lines of each repository.
fn put_repositories<W: Sink>(
    alloc: Global,
    writer: &mut W,
    waiting: &mut Waiting,
    tenant: &TenantName,
    repositories: &[(RepositoryName, Repository)],
) -> io::Result<()>
    ensures puts { OnOk result (Puts (W.contents writer.old) (W.contents writer.new) waiting.old waiting.new (flat_map ended (flat_map (repository_lines Two tenant.now) repositories.now))) }
    ensures rest { W.rest writer.new ≡ W.rest writer.old }
{
    for (name, repository) in repositories {
        put_repository(alloc, writer, waiting, tenant, name, repository)?;
    }
    Ok(())
}

// Writes a line for each name.
fn put_seen<W: Sink>(writer: &mut W, waiting: &mut Waiting, names: &[Name]) -> io::Result<()>
    ensures puts { OnOk result (Puts (W.contents writer.old) (W.contents writer.new) waiting.old waiting.new (flat_map ended (map seen_line names.now))) }
    ensures rest { W.rest writer.new ≡ W.rest writer.old }
{
    for name in names {
        put_seen_line(&mut waiting.lines, name)?;
        waiting.settle(writer)?;
    }
    Ok(())
}

// Writes the lines of an offer.
fn put_offer<W: Sink>(
    alloc: Global,
    writer: &mut W,
    waiting: &mut Waiting,
    tenant: &TenantName,
    offer: &Offer,
) -> io::Result<()>
    ensures puts { OnOk result (Puts (W.contents writer.old) (W.contents writer.new) waiting.old waiting.new (flat_map ended (offer_lines Two tenant.now offer.now))) }
    ensures rest { W.rest writer.new ≡ W.rest writer.old }
{
    put_offer_line(&mut waiting.lines, offer.receiver(), offer.name())?;
    put_inner(
        alloc,
        writer,
        waiting,
        tenant,
        offer.name(),
        offer.repository(),
    )
}

// Writes the lines of each offer.
fn put_offers<W: Sink>(
    alloc: Global,
    writer: &mut W,
    waiting: &mut Waiting,
    tenant: &TenantName,
    offers: &[Offer],
) -> io::Result<()>
    ensures puts { OnOk result (Puts (W.contents writer.old) (W.contents writer.new) waiting.old waiting.new (flat_map ended (flat_map (offer_lines Two tenant.now) offers.now))) }
    ensures rest { W.rest writer.new ≡ W.rest writer.old }
{
    for offer in offers {
        put_offer(alloc, writer, waiting, tenant, offer)?;
    }
    Ok(())
}

// Writes the lines of a tenant.
fn put_tenant<W: Sink>(
    alloc: Global,
    writer: &mut W,
    waiting: &mut Waiting,
    tenant: &TenantState,
) -> io::Result<()>
    ensures puts { OnOk result (Puts (W.contents writer.old) (W.contents writer.new) waiting.old waiting.new (flat_map ended (tenant_lines Two tenant.now))) }
    ensures rest { W.rest writer.new ≡ W.rest writer.old }
{
    put_tenant_line(&mut waiting.lines, tenant.name(), tenant.limit())?;
    put_repositories(alloc, writer, waiting, tenant.name(), tenant.repositories())?;
    put_seen(writer, waiting, tenant.seen())?;
    put_offers(alloc, writer, waiting, tenant.name(), tenant.offers())
}

// Writes the lines of each tenant.
fn put_tenants<W: Sink>(
    alloc: Global,
    writer: &mut W,
    waiting: &mut Waiting,
    tenants: &[TenantState],
) -> io::Result<()>
    ensures puts { OnOk result (Puts (W.contents writer.old) (W.contents writer.new) waiting.old waiting.new (flat_map ended (flat_map (tenant_lines Two) tenants.now))) }
    ensures rest { W.rest writer.new ≡ W.rest writer.old }
{
    for tenant in tenants {
        put_tenant(alloc, writer, waiting, tenant)?;
    }
    Ok(())
}

/// Writes the text of the states in version 2, in pieces of some 64 KiB and in time linear in its length. After an `Err`
/// a front of it may be written.
pub fn write<W: Sink>(alloc: Global, states: &States, writer: &mut W) -> io::Result<Spelled>
    ensures text { OnOk result (Appends (W.contents writer.old) (W.contents writer.new) (state_text Two states.now)) }
    ensures rest { W.rest writer.new ≡ W.rest writer.old }
    ensures name { IfOk result (λ spelled. spelled.name ≡ sha256 (state_text Two states.now)) }
    ensures told { IsStateText2 states.now (state_text Two states.now) }
{
    let tenants = states.as_slice();
    let mut waiting = Waiting::new(alloc)?;
    waiting.lines.extend_from_slice(b"forkhost state 2\n")?;
    put_tenants(alloc, writer, &mut waiting, tenants)?;
    waiting.lines.extend_from_slice(b"end\n")?;
    waiting.end(writer)
}
