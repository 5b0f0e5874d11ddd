use fork_host::Host;
use fork_request::TenantName;
use loose_store::Memory;
use std::alloc::Global;
use std::test::Fail;

/// These words as names of tenants.
pub fn names(alloc: Global, words: &[&str]) -> Result<Vec<TenantName>, Fail> {
    let mut names = Vec::new(alloc);
    for word in words {
        names.push(TenantName::read(word.as_bytes()).ok_or("no name")?)?;
    }
    Ok(names)
}

/// A host in memory with these tenants, which may use 1,000 bytes each. Tests see by the replies whether the tenants
/// were added: each exit that drops a host costs its proof about half a minute.
pub fn host_of(alloc: Global, tenants: &[TenantName]) -> Result<Host<Memory>, Fail> {
    let mut host = Host::new(alloc, Memory::new(alloc))?;
    for name in tenants {
        let _added = host.add_tenant(alloc, name.copy(), 1000);
    }
    Ok(host)
}
