ghost use Rattle.std.specs.Prelude.{◌≡◌, ◌++◌, OnOk, codes};
ghost use Rattle.hex.specs.Hex.{encode_lower};

use crate::byte_string::ByteString;
use crate::name::{RepositoryName, TenantName};
use git_name::Name;
use git_refname::RefName;
use std::alloc::AllocError;

/// Why a request was refused, and what the refusal is about. A refused request changes no view, except
/// that a refused `part-end` discards the upload.
#[derive(Debug, Drop)]
pub enum Refusal {
    /// Not a request.
    BadRequest,
    /// The host has no tenant of this name.
    UnknownTenant,
    /// The word is not a repository's name.
    BadName(ByteString),
    /// The tenant has this repository already.
    RepositoryExists(RepositoryName),
    /// The tenant has no such repository.
    NoRepository(RepositoryName),
    /// The repository has no reference of this name.
    NoRef(ByteString),
    /// The word breaks a rule of reference names.
    BadRef(ByteString),
    /// The reference is in two commands.
    RepeatedRef(RefName),
    /// The reference is not as a command requires.
    Stale(RefName),
    /// Afterwards another reference would be below this one.
    RefConflict(RefName),
    /// The object is not a commit, but must be one.
    NotACommit(Name),
    /// The tenant sees no object of this name.
    Missing(Name),
    /// An object that a sent one links to has another kind than the link requires.
    WrongType(Name),
    /// The name leads to no tree.
    NotATree(Name),
    /// The objects would use more than the tenant's limit.
    OverQuota,
    /// A limit on a number is reached.
    TooMany,
    /// The body breaks its grammar.
    Syntax,
    /// The content of the record of this name hashes to another name.
    WrongName(Name),
    /// The content of the record of this name is not an object of its type.
    BadObject(Name),
    /// The body ends too early.
    Truncated,
    /// The record of this name announces a content longer than an object may be.
    TooLarge(Name),
    /// The upload would be longer than an upload may be.
    StagedTooLong,
    /// There is no open upload.
    NoUpload,
    /// There is an open upload.
    UploadOpen,
    /// This tenant has an offer of this repository already.
    OfferExists(TenantName, RepositoryName),
    /// There is no such offer. The fields are the other tenant and the repository.
    NoOffer(TenantName, RepositoryName),
}

impl Refusal {
    ghost use Rattle.fork_request.specs.Told.{refusal_text};

    /// Appends the refusal's word, and what it is about after a space.
    pub(crate) fn write(&self, text: &mut Vec<u8>) -> Result<(), AllocError>
        ensures { OnOk result (text.new.items ≡ text.old.items ++ refusal_text self.now) }
    {
        match self {
            Refusal::BadRequest => text.extend_from_slice(b"bad-request"),
            Refusal::UnknownTenant => text.extend_from_slice(b"unknown-tenant"),
            Refusal::BadName(word) => write_about(text, b"bad-name ", word.as_bytes()),
            Refusal::RepositoryExists(repository) => {
                write_about(text, b"repository-exists ", repository.as_bytes())
            }
            Refusal::NoRepository(repository) => {
                write_about(text, b"no-repository ", repository.as_bytes())
            }
            Refusal::NoRef(item) => write_about(text, b"no-ref ", item.as_bytes()),
            Refusal::BadRef(word) => write_about(text, b"bad-ref ", word.as_bytes()),
            Refusal::RepeatedRef(reference) => {
                write_about(text, b"repeated-ref ", reference.as_bytes())
            }
            Refusal::Stale(reference) => write_about(text, b"stale ", reference.as_bytes()),
            Refusal::RefConflict(reference) => {
                write_about(text, b"ref-conflict ", reference.as_bytes())
            }
            Refusal::NotACommit(name) => write_name(text, b"not-a-commit ", *name),
            Refusal::Missing(name) => write_name(text, b"missing ", *name),
            Refusal::WrongType(name) => write_name(text, b"wrong-type ", *name),
            Refusal::NotATree(name) => write_name(text, b"not-a-tree ", *name),
            Refusal::OverQuota => text.extend_from_slice(b"over-quota"),
            Refusal::TooMany => text.extend_from_slice(b"too-many"),
            Refusal::Syntax => text.extend_from_slice(b"syntax"),
            Refusal::WrongName(name) => write_name(text, b"wrong-name ", *name),
            Refusal::BadObject(name) => write_name(text, b"bad-object ", *name),
            Refusal::Truncated => text.extend_from_slice(b"truncated"),
            Refusal::TooLarge(name) => write_name(text, b"too-large ", *name),
            Refusal::StagedTooLong => text.extend_from_slice(b"staged-too-long"),
            Refusal::NoUpload => text.extend_from_slice(b"no-upload"),
            Refusal::UploadOpen => text.extend_from_slice(b"upload-open"),
            Refusal::OfferExists(tenant, repository) => {
                write_offer(
                    text,
                    b"offer-exists ",
                    tenant.as_bytes(),
                    repository.as_bytes(),
                )
            }
            Refusal::NoOffer(tenant, repository) => {
                write_offer(text, b"no-offer ", tenant.as_bytes(), repository.as_bytes())
            }
        }
    }
}

fn write_about(text: &mut Vec<u8>, word: &[u8], about: &[u8]) -> Result<(), AllocError>
    ensures { OnOk result (text.new.items ≡ text.old.items ++ (word.now ++ about.now)) }
{
    text.extend_from_slice(word)?;
    text.extend_from_slice(about)
}

fn write_offer(
    text: &mut Vec<u8>,
    word: &[u8],
    tenant: &[u8],
    repository: &[u8],
) -> Result<(), AllocError>
    ensures { OnOk result (text.new.items ≡ text.old.items ++ (word.now ++ tenant.now ++ codes "/" ++ repository.now)) }
{
    write_about(text, word, tenant)?;
    write_about(text, b"/", repository)
}

fn write_name(text: &mut Vec<u8>, word: &[u8], name: Name) -> Result<(), AllocError>
    ensures { OnOk result (text.new.items ≡ text.old.items ++ (word.now ++ encode_lower name)) }
{
    let mut digits = [0; 64];
    name.write_hex(&mut digits);
    write_about(text, word, digits.as_slice())
}
