//! Requests to a host of many tenants, and its replies: the names of tenants and repositories, the
//! payloads of requests, the bytes of replies. Every payload is a request or a bad one, and a reply has
//! one spelling.
#![tactic(auto)]

mod byte_string;
mod harm;
mod host_fault;
mod host_request;
mod laws;
mod name;
mod plain_word;
mod refusal;
mod reply;
mod request;
mod tenant_limit;
mod words;

pub use crate::byte_string::ByteString;
pub use crate::harm::Harm;
pub use crate::host_fault::HostFault;
pub use crate::host_request::{HostRequest, MAX_SWEEP};
pub use crate::laws::{a_host_request_has_one_spelling, a_request_has_one_spelling};
pub use crate::name::{
    MAX_REPOSITORY_NAME, MAX_TENANT_NAME, PlainName, RepositoryName, TenantName,
};
pub use crate::refusal::Refusal;
pub use crate::reply::Reply;
pub use crate::request::{MAX_PAYLOAD, Request};
pub use crate::tenant_limit::MAX_LIMIT;
