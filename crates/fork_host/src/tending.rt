// Requests of the host itself: sweep and check its store, count its catalogue, and list its tenants in
// numbers.
ghost use Rattle.std.specs.Prelude.{◌≡◌, ◌⊎◌, ◌≤◌, [], IfOk, length, true};
ghost use Rattle.std.specs.Vec.{vec_capacity, vec_len};
ghost use Rattle.std.specs.FinMap as map;
ghost use Rattle.fork_request.specs.Harms.{harm_lines};
ghost use Rattle.fork_request.specs.Told.{is_host_fault};
ghost use Rattle.fork_ledger.specs.Tenants.{shape_of};
ghost use Rattle.fork_model.specs.Sound.{IsOrderlyWorld};
ghost use Rattle.fork_model.specs.World.{HostSays, World, number_line};
ghost use Rattle.fork_host.specs.Bounds.{IsBounded};
ghost use Rattle.fork_host.specs.Faults.{HostFaults};
ghost use Rattle.fork_host.specs.Shown.{state_of, world_of};
ghost use Rattle.fork_host.specs.Swept.{Tends};

use crate::accounts::Accounts;
use crate::replies::vault_fault;
use fork_ledger::{Harms, Vault};
use fork_request::{ByteString, HostFault, HostRequest, Refusal, Reply};
use itoa::Buffer;
use loose_store::LooseFiles;
use std::alloc::{AllocError, Global};

// The most bytes of a number and its LF.
const MOST: usize = 21;

// Allocates memory for a number and LF. It is allocated before anything is done, so that what was done
// can be reported.
fn room(alloc: Global) -> Result<Vec<u8>, AllocError>
    ensures empty { IfOk result (λ text. text.items ≡ []) }
    ensures len { IfOk result (λ text. vec_len text ≡ 0) }
    ensures capacity { IfOk result (λ text. 21 ≤ vec_capacity text) }
{
    Vec::with_capacity(alloc, MOST)
}

// Reports the number and LF.
fn told_number(text: Vec<u8>, number: u64) -> Reply
    requires empty { text.items ≡ [] }
    requires len { vec_len text ≡ 0 }
    requires capacity { 21 ≤ vec_capacity text }
    ensures { result ≡ Reply.Done (number_line number) }
{
    let mut text = text;
    let mut digits = Buffer::new();
    let Ok(()) = text.extend_from_slice(digits.format(number).as_bytes()) else {
        unreachable!()
    };
    text.push_reserved(b'\n');
    Reply::Done(ByteString::new(text))
}

// Sweeps, with at most this many looks.
fn sweep<S: LooseFiles>(alloc: Global, vault: &mut Vault<S>, most: u64) -> Reply
    ensures says { (world : World) → HostSays world (HostRequest.Sweep most) result ⊎ (is_host_fault result ≡ true) }
    ensures tends { Tends (HostRequest.Sweep most) vault.old result vault.new }
    ensures shape { shape_of vault.new.tenants ≡ shape_of vault.old.tenants }
    ensures faults { HostFaults (HostRequest.Sweep most) result }
    ensures bounds { IsBounded [] vault.old vault.new result }
{
    let Ok(text) = room(alloc) else {
        return Reply::Failed(HostFault::Memory);
    };
    match vault.sweep(alloc, most) {
        Ok(count) => told_number(text, count),
        Err(fault) => Reply::Failed(vault_fault(fault)),
    }
}

// Collects: one whole round of looks.
fn collect<S: LooseFiles>(alloc: Global, vault: &mut Vault<S>) -> Reply
    ensures says { (world : World) → HostSays world HostRequest.Collect result ⊎ (is_host_fault result ≡ true) }
    ensures tends { Tends HostRequest.Collect vault.old result vault.new }
    ensures shape { shape_of vault.new.tenants ≡ shape_of vault.old.tenants }
    ensures faults { HostFaults HostRequest.Collect result }
    ensures bounds { IsBounded [] vault.old vault.new result }
{
    let Ok(text) = room(alloc) else {
        return Reply::Failed(HostFault::Memory);
    };
    match vault.collect(alloc) {
        Ok(left) => told_number(text, left),
        Err(fault) => Reply::Failed(vault_fault(fault)),
    }
}

// Reports how many names are catalogued.
fn census<S: LooseFiles>(alloc: Global, vault: &Vault<S>) -> Reply
    ensures says { (world : World) → HostSays world HostRequest.Census result ⊎ (is_host_fault result ≡ true) }
    ensures tends { Tends HostRequest.Census vault.now result vault.now }
    ensures faults { HostFaults HostRequest.Census result }
    ensures bounds { IsBounded [] vault.now vault.now result }
{
    let Ok(text) = room(alloc) else {
        return Reply::Failed(HostFault::Memory);
    };
    told_number(text, vault.census())
}

// Reports the lines of harms.
fn told_harms(alloc: Global, harms: &Harms) -> Reply
    ensures { (result ≡ Reply.Done (harm_lines (map.entries harms.now))) ⊎ (result ≡ Reply.Failed HostFault.Memory) }
{
    let Ok(text) = harms.lines(alloc) else {
        return Reply::Failed(HostFault::Memory);
    };
    Reply::Done(ByteString::new(text))
}

// Reports what is wrong with the files of objects that tenants hold.
fn fsck<S: LooseFiles>(alloc: Global, vault: &mut Vault<S>) -> Reply
    ensures says { (world : World) → HostSays world HostRequest.Fsck result ⊎ (is_host_fault result ≡ true) }
    ensures tends { Tends HostRequest.Fsck vault.old result vault.new }
    ensures shape { shape_of vault.new.tenants ≡ shape_of vault.old.tenants }
    ensures faults { HostFaults HostRequest.Fsck result }
    ensures bounds { IsBounded [] vault.old vault.new result }
{
    match vault.faulty(alloc) {
        Ok(harms) => told_harms(alloc, &harms),
        Err(fault) => Reply::Failed(vault_fault(fault)),
    }
}

// Reports for each tenant, in numbers, what it has and may have.
fn tell_tenants<S: LooseFiles>(alloc: Global, accounts: &Accounts, vault: &Vault<S>) -> Reply
    requires orderly { IsOrderlyWorld (world_of (state_of accounts.now vault.now)) }
    ensures says { HostSays (world_of (state_of accounts.now vault.now)) HostRequest.Tenants result ⊎ (is_host_fault result ≡ true) }
    ensures tends { Tends HostRequest.Tenants vault.now result vault.now }
    ensures faults { HostFaults HostRequest.Tenants result }
    ensures bounds { IsBounded [] vault.now vault.now result }
{
    let Ok(text) = accounts.figures(alloc, vault) else {
        return Reply::Failed(HostFault::Memory);
    };
    Reply::Done(ByteString::new(text))
}

// Answers a request of the host itself.
pub(crate) fn tend<S: LooseFiles>(
    alloc: Global,
    accounts: &Accounts,
    vault: &mut Vault<S>,
    request: HostRequest,
) -> Reply
    requires orderly { IsOrderlyWorld (world_of (state_of accounts.now vault.old)) }
    ensures says { HostSays (world_of (state_of accounts.now vault.old)) request result ⊎ (is_host_fault result ≡ true) }
    ensures tends { Tends request vault.old result vault.new }
    ensures shape { shape_of vault.new.tenants ≡ shape_of vault.old.tenants }
    ensures faults { HostFaults request result }
    ensures bounds { IsBounded [] vault.old vault.new result }
{
    match request {
        HostRequest::Sweep(most) => sweep(alloc, vault, most),
        HostRequest::Collect => collect(alloc, vault),
        HostRequest::Census => census(alloc, vault),
        HostRequest::Fsck => fsck(alloc, vault),
        HostRequest::Tenants => tell_tenants(alloc, accounts, vault),
        HostRequest::Bad => Reply::Refused(Refusal::BadRequest),
    }
}
