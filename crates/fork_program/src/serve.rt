ghost use Rattle.std.specs.Prelude.{◌≡◌, ◌⊎◌, IfErr, OnErr, OnOk, is_some, true};
ghost use Rattle.fork_command.specs.declared.hosting.Hosting.{Hosting};
ghost use Rattle.fork_program.specs.Running.{IsHostOf, IsKeptHostOf};
ghost use Rattle.fork_program.specs.Serving.{AreServed, AreSomeServed, IsListened, IsLost, IsUnbound, IsUnlistened};

use crate::at_once::{serve_at_once, serve_kept_at_once};
use crate::fault::Fault;
use crate::hosts::{host_in_folder, host_in_memory};
use crate::keep::Keep;
use crate::objects::Guards;
use crate::one_after_another::{serve_connections, serve_kept_connections};
use crate::reserving::reserved;
use crate::restored::Restored;
use crate::socket::{Listening, listen, show};
use devices::Real;
use fork_command::Hosting;
use fork_host::Host;
use loose_store::LooseFiles;
use std::alloc::Global;
use std::fs;
use std::fs::{File, Files};
use std::net::Net;
use std::random::RandomSource;
use std::time::Clock;

// Serves this many connections, one after another, or up to `at_once` of them at once.
fn serve_all<H: Net + Clock, S: LooseFiles>(
    rt: &H,
    alloc: Global,
    host: &mut Host<S>,
    listening: Listening,
    connections: u32,
    at_once: Option<u32>,
) -> Result<(), Fault>
    ensures ok { OnOk result (AreServed at_once host.old host.new connections) }
    ensures err { OnErr result (AreSomeServed at_once host.old host.new connections) }
    ensures cause { IfErr result IsUnbound }
{
    let (listener, _room) = listening.into_parts();
    match at_once {
        None => serve_connections(rt, host, alloc, &listener, connections),
        Some(most) => serve_at_once(rt, host, alloc, listener, most, connections),
    }
}

// The same, and keeps what they do.
fn serve_all_kept<H: Files<File = File> + AllocGlobal + Net + Clock + Eprint, S: LooseFiles>(
    rt: &H,
    alloc: Global,
    host: &mut Host<S>,
    keep: &mut Keep<'_, H>,
    listening: Listening,
    connections: u32,
    at_once: Option<u32>,
) -> Result<(), Fault>
    ensures ok { OnOk result (AreServed at_once host.old host.new connections) }
    ensures err { OnErr result (AreSomeServed at_once host.old host.new connections) }
    ensures cause { IfErr result (λ fault. IsUnbound fault ⊎ IsLost fault) }
{
    let (listener, _room) = listening.into_parts();
    match at_once {
        None => serve_kept_connections(rt, host, alloc, keep, &listener, connections),
        Some(most) => serve_kept_at_once(rt, host, alloc, keep, listener, most, connections),
    }
}

// Serves this many connections, and then removes the socket.
fn serve_at<H: Files + Net + Clock, S: LooseFiles>(
    rt: &H,
    alloc: Global,
    host: &mut Host<S>,
    listening: Listening,
    socket: &str,
    connections: u32,
    at_once: Option<u32>,
) -> Result<(), Fault>
    ensures ok { OnOk result (AreServed at_once host.old host.new connections) }
    ensures err { OnErr result (AreSomeServed at_once host.old host.new connections) }
    ensures cause { IfErr result IsUnbound }
{
    let served = serve_all(rt, alloc, host, listening, connections, at_once);
    let _removed = fs::remove_file(rt, socket);
    served
}

// Serves this many connections, keeps what they do, and then removes the socket.
fn serve_kept_at<H: Files<File = File> + Net + AllocGlobal + Clock + Eprint, S: LooseFiles>(
    rt: &H,
    alloc: Global,
    host: &mut Host<S>,
    keep: &mut Keep<'_, H>,
    listening: Listening,
    socket: &str,
    connections: u32,
    at_once: Option<u32>,
) -> Result<(), Fault>
    ensures ok { OnOk result (AreServed at_once host.old host.new connections) }
    ensures err { OnErr result (AreSomeServed at_once host.old host.new connections) }
    ensures cause { IfErr result (λ fault. IsUnbound fault ⊎ IsLost fault) }
{
    let served = serve_all_kept(rt, alloc, host, keep, listening, connections, at_once);
    let _removed = fs::remove_file(rt, socket);
    served
}

// Listens at a socket, and serves connections to a host in memory.
fn serve_host<H: Files<File = File> + Net + Clock, S: LooseFiles>(
    rt: &H,
    alloc: Global,
    host: &mut Host<S>,
    socket: &str,
    connections: u32,
    at_once: Option<u32>,
) -> Result<(), Fault>
    ensures ok { (hosting : Hosting) → IsHostOf hosting host.old → OnOk result (IsListened hosting at_once connections) }
    ensures err { (hosting : Hosting) → IsHostOf hosting host.old → IfErr result (IsUnlistened hosting at_once connections) }
{
    let listening = listen(rt, alloc, socket)?;
    show(rt, alloc, socket)?;
    serve_at(rt, alloc, host, listening, socket, connections, at_once)
}

// Serves connections to a host that a folder keeps, at a socket that was bound. The socket is moved to its
// path after the state is saved, unless it stands already. After the last connection it is saved as `Keep::end` says. Each
// request is kept before its reply is sent.
fn keep_connections<
    'x,
    H: Files<File = File> + Net + AllocGlobal + Clock + Eprint,
    S: LooseFiles + Drop,
>(
    rt: &'x H,
    alloc: Global,
    dir: &'x str,
    restored: Restored<S, Real<&'x H>>,
    listening: Listening,
    socket: &str,
    connections: u32,
    at_once: Option<u32>,
    syncs: bool,
    guards: Guards,
) -> Result<(), Fault>
    ensures ok { (hosting : Hosting) → IsKeptHostOf hosting restored.entry → OnOk result (IsListened hosting at_once connections) }
    ensures err { (hosting : Hosting) → IsKeptHostOf hosting restored.entry → IfErr result (IsUnlistened hosting at_once connections) }
{
    let Guards { gate, watch } = guards;
    let reserve = reserved(rt, alloc, dir, gate);
    let begun = Keep::begin(rt, alloc, dir, restored, syncs, reserve, watch)?;
    let (mut host, mut keep) = begun;
    keep.look();
    show(rt, alloc, socket)?;
    let served = serve_kept_at(
        rt,
        alloc,
        &mut host,
        &mut keep,
        listening,
        socket,
        connections,
        at_once,
    );
    keep.look();
    let saved = keep.end(alloc, &mut host, &served);
    keep.look();
    match served {
        Ok(()) => saved,
        Err(fault) => Err(fault),
    }
}

// Listens at a socket, and serves connections to a host that a folder keeps.
fn serve_kept_host<
    'x,
    H: Files<File = File> + Net + AllocGlobal + Clock + Eprint,
    S: LooseFiles + Drop,
>(
    rt: &'x H,
    alloc: Global,
    dir: &'x str,
    restored: Restored<S, Real<&'x H>>,
    socket: &str,
    connections: u32,
    at_once: Option<u32>,
    syncs: bool,
    guards: Guards,
) -> Result<(), Fault>
    ensures ok { (hosting : Hosting) → IsKeptHostOf hosting restored.entry → OnOk result (IsListened hosting at_once connections) }
    ensures err { (hosting : Hosting) → IsKeptHostOf hosting restored.entry → IfErr result (IsUnlistened hosting at_once connections) }
{
    let listening = listen(rt, alloc, socket)?;
    keep_connections(
        rt,
        alloc,
        dir,
        restored,
        listening,
        socket,
        connections,
        at_once,
        syncs,
        guards,
    )
}

// Serves connections to a new host.
fn serve_in_memory<H: Files<File = File> + Net + RandomSource + Clock>(
    rt: &H,
    alloc: Global,
    socket: &str,
    connections: u32,
    at_once: Option<u32>,
    hosting: Hosting<'_>,
) -> Result<(), Fault>
    ensures ok { OnOk result (IsListened hosting.entry at_once connections) }
    ensures err { IfErr result (IsUnlistened hosting.entry at_once connections) }
{
    let mut host = host_in_memory(rt, alloc, hosting)?;
    serve_host(rt, alloc, &mut host, socket, connections, at_once)
}

// Serves connections to the host that a folder keeps.
fn serve_in_folder<'x, H: Files<File = File> + Net + AllocGlobal + RandomSource + Clock + Eprint>(
    rt: &'x H,
    alloc: Global,
    dir: &'x str,
    socket: &str,
    connections: u32,
    at_once: Option<u32>,
    hosting: Hosting<'_>,
) -> Result<(), Fault>
    requires { is_some hosting.dir ≡ true }
    ensures ok { OnOk result (IsListened hosting.entry at_once connections) }
    ensures err { IfErr result (IsUnlistened hosting.entry at_once connections) }
{
    let syncs = hosting.syncs;
    let (restored, guards) = host_in_folder(rt, alloc, dir, hosting)?;
    serve_kept_host(
        rt,
        alloc,
        dir,
        restored,
        socket,
        connections,
        at_once,
        syncs,
        guards,
    )
}

/// Serves this many connections to a socket, each a session of the host with these tenants added: up to
/// `at_once` of them at once, or one after another.
/// If a folder keeps the host, what was served is saved. Open uploads are not saved: they end with the last
/// connection. If the folder could not be written, it keeps all that was answered, including open uploads.
pub fn serve<H: Files<File = File> + Net + AllocGlobal + RandomSource + Clock + Eprint>(
    rt: &H,
    alloc: Global,
    socket: &str,
    connections: u32,
    at_once: Option<u32>,
    hosting: Hosting<'_>,
) -> Result<(), Fault>
    ensures ok { OnOk result (IsListened hosting.entry at_once connections) }
    ensures err { IfErr result (IsUnlistened hosting.entry at_once connections) }
{
    match hosting.dir {
        Some(dir) => serve_in_folder(rt, alloc, dir, socket, connections, at_once, hosting),
        None => serve_in_memory(rt, alloc, socket, connections, at_once, hosting),
    }
}
