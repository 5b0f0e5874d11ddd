use super::hosts::{host_of, names};
use fork_host::{Host, HostStep};
use fork_request::{HostRequest, Reply, Request, TenantName};
use loose_store::Memory;
use std::alloc::{AllocError, Global};
use std::test::Fail;

fn asks<'a>(tenant: &'a TenantName, request: Request<'a>) -> HostStep<'a> {
    HostStep::Tenant(tenant, request)
}

// Whether these are the replies, one after another.
fn are(alloc: Global, replies: &[Reply], wanted: &[u8]) -> Result<bool, AllocError> {
    let mut told = Vec::new(alloc);
    for reply in replies {
        told.extend_from_slice(reply.bytes(alloc)?.as_slice())?;
    }
    Ok(told.as_slice() == wanted)
}

// Whether a host that has the first of these tenants, and not the second, answers each step of a run, and one step
// after it.
fn answers_each(
    alloc: Global,
    host: &mut Host<Memory>,
    names: &[TenantName],
) -> Result<bool, Fail> {
    let [alice, carol] = names else {
        return Err("two names")?;
    };
    let steps = [
        asks(alice, Request::Init(b"r")),
        asks(carol, Request::Init(b"r")),
        HostStep::Host(HostRequest::Bad),
        asks(alice, Request::Init(b"r")),
    ];
    let replies = host.run(alloc, &steps)?;
    let wanted = b"ok\nno unknown-tenant\nno bad-request\nno repository-exists r\n";
    let last = [host.step(alloc, asks(alice, Request::Bad))];
    Ok(are(alloc, replies.as_slice(), wanted)? && are(alloc, last.as_slice(), b"no bad-request\n")?)
}

#[test]
fn a_run_answers_each_step(rt: HostRuntime) -> Result<(), Fail> {
    let alloc = rt.alloc();
    let names = names(alloc, &["alice", "carol"])?;
    let there = names.get(..1).ok_or("a name")?;
    let mut host = host_of(alloc, there)?;
    let is_right = answers_each(alloc, &mut host, names.as_slice());
    drop(host);
    assert!(rt; is_right?);
    Ok(())
}
