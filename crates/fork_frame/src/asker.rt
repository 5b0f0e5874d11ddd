use fork_request::TenantName;

/// Who asks: a tenant, or the host's own side, which a line spells `@host` (own).
#[derive(Debug, Drop, PartialEq, Eq)]
pub enum Asker {
    Tenant(TenantName),
    Host,
}
