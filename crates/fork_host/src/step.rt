use fork_request::{HostRequest, Request, TenantName};

/// A step that a host is given: a tenant's request, or one of the host's own.
#[derive(Clone, Copy, Debug)]
pub enum HostStep<'a> {
    Tenant(&'a TenantName, Request<'a>),
    Host(HostRequest),
}
