ghost use Rattle.std.specs.Prelude.{◌≡◌, ◌<◌, ◌⊎◌, IfErr, IfOk, OnErr, OnOk, length, true};
ghost use Rattle.fork_program.specs.Serving.{IsConnection, IsLost, IsUnbound, IsVisit};

use crate::fault::Fault;
use crate::keep::Keep;
use crate::open_connections::Table;
use crate::peer::MOST_WAITING;
use crate::socket::of_socket;
use fork_host::Host;
use fork_wire::{Journal, NoJournal, serve_round};
use loose_store::LooseFiles;
use std::alloc::{AllocError, Global};
use std::fs::{File, Files};
use std::net::Net;
use std::os::unix::net::UnixListener;
use std::time::Clock;

// How many bytes are read at once.
const READ: usize = 65536;

// A buffer of `len` bytes.
fn room(alloc: Global, len: usize) -> Result<Vec<u8>, AllocError>
    ensures { IfOk result (λ room. length room.items ≡ len) }
{
    vec![in alloc; 0u8; len]
}

// One round of all connections.
fn visit_all<S: LooseFiles, J: Journal>(
    host: &mut Host<S>,
    alloc: Global,
    journal: &mut J,
    table: &mut Table,
    buffer: &mut [u8],
) -> Result<(), Fault>
    requires { 0 < length buffer.old }
    ensures visited { IsVisit host.old host.new }
    ensures cause { IfErr result (λ fault. J.can_fail × (fault ≡ Fault.NotKept)) }
    ensures whole { OnOk result (J.is_cut journal.new ≡ J.is_cut journal.old) }
    ensures cut { OnErr result (J.is_cut journal.new ≡ true) }
    ensures buffer { length buffer.new ≡ length buffer.old }
{
    match serve_round(host, alloc, journal, table.peers(), buffer, MOST_WAITING) {
        Ok(()) => Ok(()),
        Err(_) => Err(Fault::NotKept),
    }
}

// A table over a listener, and a buffer to read through.
fn begun<H: Net>(
    rt: &H,
    alloc: Global,
    listener: UnixListener,
    most: u32,
    connections: u32,
) -> Result<(Table, Vec<u8>), Fault>
    ensures room { IfOk result (λ begun. length begun.1.items ≡ READ) }
    ensures cause { IfErr result IsUnbound }
{
    let table = match Table::new(rt, alloc, listener, most, connections) {
        Ok(table) => table,
        Err(error) => return Err(of_socket(error)),
    };
    let Ok(buffer) = room(alloc, READ) else {
        return Err(Fault::Memory);
    };
    Ok((table, buffer))
}

// Waits until there is something to do.
fn attended<H: Clock>(rt: &H, alloc: Global, table: &mut Table) -> Result<(), Fault>
    ensures { IfErr result IsUnbound }
{
    match table.attend(rt, alloc) {
        Ok(()) => Ok(()),
        Err(error) => Err(of_socket(error)),
    }
}

// Waits until there is something to do, and then looks whether the folder is still there.
fn attended_kept<H: Files<File = File> + Clock>(
    rt: &H,
    alloc: Global,
    keep: &mut Keep<'_, H>,
    table: &mut Table,
) -> Result<(), Fault>
    ensures { IfErr result (λ fault. IsUnbound fault ⊎ IsLost fault) }
{
    match table.attend(rt, alloc) {
        Ok(()) => keep.check_folder(),
        Err(error) => Err(of_socket(error)),
    }
}

// Tidies the table after a round. Returns whether a connection ended.
fn tidied<H: Clock>(rt: &H, table: &mut Table) -> Result<bool, Fault>
    ensures { IfErr result IsUnbound }
{
    match table.tidy(rt) {
        Ok(ended) => Ok(ended),
        Err(error) => Err(of_socket(error)),
    }
}

// Runs rounds until all connections were served.
fn rounds<H: Clock, S: LooseFiles>(
    rt: &H,
    host: &mut Host<S>,
    alloc: Global,
    table: &mut Table,
    buffer: &mut [u8],
) -> Result<(), Fault>
    requires { 0 < length buffer.old }
    ensures served { IsConnection host.old host.new }
    ensures cause { IfErr result IsUnbound }
{
    for _ in 0..u64::MAX {
        if table.is_done() {
            return Ok(());
        }
        attended(rt, alloc, table)?;
        let _round = visit_all(host, alloc, &mut NoJournal, table, buffer);
        tidied(rt, table)?;
    }
    Ok(())
}

/// Serves this many connections, at most `most` of them at once. Whatever ends a connection ends only that
/// one.
pub fn serve_at_once<H: Net + Clock, S: LooseFiles>(
    rt: &H,
    host: &mut Host<S>,
    alloc: Global,
    listener: UnixListener,
    most: u32,
    connections: u32,
) -> Result<(), Fault>
    ensures served { IsConnection host.old host.new }
    ensures cause { IfErr result IsUnbound }
{
    let (mut table, mut buffer) = begun(rt, alloc, listener, most, connections)?;
    rounds(rt, host, alloc, &mut table, buffer.as_mut_slice())
}

// Runs rounds until all connections were served. The state may be saved after a round.
fn kept_rounds<H: Files<File = File> + AllocGlobal + Clock + Eprint, S: LooseFiles>(
    rt: &H,
    host: &mut Host<S>,
    alloc: Global,
    keep: &mut Keep<'_, H>,
    table: &mut Table,
    buffer: &mut [u8],
) -> Result<(), Fault>
    requires { 0 < length buffer.old }
    ensures served { IsConnection host.old host.new }
    ensures cause { IfErr result (λ fault. IsUnbound fault ⊎ IsLost fault) }
{
    for _ in 0..u64::MAX {
        if table.is_done() {
            return Ok(());
        }
        attended_kept(rt, alloc, keep, table)?;
        keep.look();
        visit_all(host, alloc, &mut keep.journal, table, buffer)?;
        let ended = tidied(rt, table)?;
        keep.settle_after(alloc, host, ended)?;
        keep.look();
    }
    Ok(())
}

/// Like `serve_at_once`, but keeps what the connections do: the state is saved between two rounds if the
/// journal has grown too long, or if a connection ended. If anything could not be kept, nothing more is
/// served.
pub fn serve_kept_at_once<
    H: Files<File = File> + AllocGlobal + Net + Clock + Eprint,
    S: LooseFiles,
>(
    rt: &H,
    host: &mut Host<S>,
    alloc: Global,
    keep: &mut Keep<'_, H>,
    listener: UnixListener,
    most: u32,
    connections: u32,
) -> Result<(), Fault>
    ensures served { IsConnection host.old host.new }
    ensures cause { IfErr result (λ fault. IsUnbound fault ⊎ IsLost fault) }
{
    let (mut table, mut buffer) = begun(rt, alloc, listener, most, connections)?;
    kept_rounds(rt, host, alloc, keep, &mut table, buffer.as_mut_slice())
}
