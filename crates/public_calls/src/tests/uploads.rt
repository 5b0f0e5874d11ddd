use super::hosts::{host_of, names};
use fork_host::Host;
use fork_request::{Request, TenantName};
use fork_wire::write_uploads;
use loose_store::Memory;
use std::alloc::Global;
use std::test::Fail;

// Three tenants of a host, and a stranger.
const WORDS: &[&str] = &["alice", "bob", "carol", "dave"];

// Opens uploads for the second and the third of these tenants.
fn open_uploads(alloc: Global, host: &mut Host<Memory>, names: &[TenantName]) -> Result<(), Fail> {
    let [_, bob, carol, _] = names else {
        return Err("four names")?;
    };
    let _ended = host.answer(alloc, carol, Request::Part(b"create refs/heads/"));
    let _begun = host.answer(alloc, bob, Request::Part(b""));
    let _more = host.answer(alloc, carol, Request::Part(b"main"));
    Ok(())
}

// Whether these are the bytes of a tenant's open upload; `None` if none is open.
fn is_open(
    alloc: Global,
    host: &mut Host<Memory>,
    name: &TenantName,
    wanted: Option<&[u8]>,
) -> Result<bool, Fail> {
    let found = host.upload(alloc, name)?;
    match (found, wanted) {
        (Some(bytes), Some(wanted)) => Ok(bytes.as_slice() == wanted),
        (None, None) => Ok(true),
        _ => Ok(false),
    }
}

// Whether a host reports which tenants have open uploads, and their bytes.
fn tells_uploads(
    alloc: Global,
    host: &mut Host<Memory>,
    names: &[TenantName],
) -> Result<bool, Fail> {
    let [alice, bob, carol, dave] = names else {
        return Err("four names")?;
    };
    open_uploads(alloc, host, names)?;
    let open = host.uploading(alloc)?;
    let [first, second] = open.as_slice() else {
        return Ok(false);
    };
    Ok(
        first == bob
            && second == carol
            && is_open(alloc, host, carol, Some(b"create refs/heads/main"))?
            && is_open(alloc, host, bob, Some(b""))?
            && is_open(alloc, host, alice, None)?
            && is_open(alloc, host, dave, None)?,
    )
}

// Whether a host writes open uploads as parts.
fn writes_uploads(
    alloc: Global,
    host: &mut Host<Memory>,
    names: &[TenantName],
) -> Result<bool, Fail> {
    open_uploads(alloc, host, names)?;
    let mut written = Vec::new(alloc);
    let Ok(length) = write_uploads(host, alloc, &mut written) else {
        return Err("not written")?;
    };
    let wanted = b"bob 5\npart\ncarol 27\npart\ncreate refs/heads/main";
    Ok(length == 22 && written.as_slice() == wanted.as_slice())
}

#[test]
fn open_uploads_are_told_by_tenant(rt: HostRuntime) -> Result<(), Fail> {
    let alloc = rt.alloc();
    let names = names(alloc, WORDS)?;
    let there = names.get(..3).ok_or("three names")?;
    let mut host = host_of(alloc, there)?;
    let is_right = tells_uploads(alloc, &mut host, names.as_slice());
    drop(host);
    assert!(rt; is_right?);
    Ok(())
}

#[test]
fn open_uploads_are_written_as_parts(rt: HostRuntime) -> Result<(), Fail> {
    let alloc = rt.alloc();
    let names = names(alloc, WORDS)?;
    let there = names.get(..3).ok_or("three names")?;
    let mut host = host_of(alloc, there)?;
    let is_right = writes_uploads(alloc, &mut host, names.as_slice());
    drop(host);
    assert!(rt; is_right?);
    Ok(())
}
