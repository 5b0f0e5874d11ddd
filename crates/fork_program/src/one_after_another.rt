ghost use Rattle.std.specs.Prelude.{◌≡◌, ◌⊎◌, OnErr, OnOk, IfErr, true};
ghost use Rattle.fork_program.specs.Serving.{AreSomeVisits, AreVisits, IsConnection, IsLost, IsUnbound, IsVisit};

use crate::accepting::next_stream;
use crate::deadlines::{Frames, Replies, TimedConnection};
use crate::fault::Fault;
use crate::keep::Keep;
use crate::socket::of_socket;
use fork_frame::Ended;
use fork_host::Host;
use fork_wire::{Journal, NoJournal, SessionFault, serve_kept};
use loose_store::LooseFiles;
use std::alloc::Global;
use std::fs::{File, Files};
use std::io::BufWriter;
use std::net::Shutdown;
use std::os::unix::net::{UnixListener, UnixStream};
use std::time::Clock;

// A connection to a host that a folder keeps pauses before a frame if more than this many bytes were taken,
// so that the host's state can be saved.
const PAUSE: u64 = 4096;

// Serves the frames of a peer up to its end, or until it pauses, and returns whether it is to go on. A session
// that could not be kept is reported; any other end concerns the peer alone.
fn visit<H: Clock, S: LooseFiles, J: Journal>(
    host: &mut Host<S>,
    alloc: Global,
    journal: &mut J,
    connection: &TimedConnection<'_, H>,
    reader: &mut Frames<'_, H>,
    writer: &mut BufWriter<Replies<'_, H>>,
) -> Result<bool, Fault>
    ensures visited { IsVisit host.old host.new }
    ensures cause { IfErr result (λ fault. J.can_fail × (fault ≡ Fault.NotKept)) }
    ensures whole { OnOk result (J.is_cut journal.new ≡ J.is_cut journal.old) }
    ensures cut { OnErr result (J.is_cut journal.new ≡ true) }
{
    match serve_kept(host, alloc, journal, reader, writer) {
        Ok(Ended::Clean) => Ok(connection.goes_on()),
        Err(SessionFault::Journal) => Err(Fault::NotKept),
        _ => Ok(false),
    }
}

// Serves one connection, and then ends it.
fn connection<H: Clock, S: LooseFiles>(
    rt: &H,
    host: &mut Host<S>,
    alloc: Global,
    stream: &UnixStream,
)
    ensures { IsVisit host.old host.new }
{
    let connection = TimedConnection::new(rt, stream, u64::MAX);
    let Ok(mut reader) = Frames::new(alloc, &connection) else {
        return;
    };
    let Ok(mut writer) = BufWriter::new(alloc, Replies::new(&connection)) else {
        return;
    };
    let _visited = visit(
        host,
        alloc,
        &mut NoJournal,
        &connection,
        &mut reader,
        &mut writer,
    );
    let _shut = stream.shutdown(Shutdown::Write);
}

// Serves the frames of a peer. The state may be saved each time it pauses.
fn visits<H: Files<File = File> + AllocGlobal + Clock + Eprint, S: LooseFiles>(
    host: &mut Host<S>,
    alloc: Global,
    keep: &mut Keep<'_, H>,
    connection: &TimedConnection<'_, H>,
    reader: &mut Frames<'_, H>,
    writer: &mut BufWriter<Replies<'_, H>>,
) -> Result<(), Fault>
    ensures served { IsConnection host.old host.new }
    ensures cause { IfErr result IsLost }
{
    for _ in 0..u64::MAX {
        keep.look();
        keep.check_folder()?;
        let goes_on = visit(host, alloc, &mut keep.journal, connection, reader, writer)?;
        if !goes_on {
            return Ok(());
        }
        keep.settle_after(alloc, host, false)?;
    }
    Ok(())
}

// The same for one connection, which is then ended.
fn kept_connection<H: Files<File = File> + AllocGlobal + Clock + Eprint, S: LooseFiles>(
    rt: &H,
    host: &mut Host<S>,
    alloc: Global,
    keep: &mut Keep<'_, H>,
    stream: &UnixStream,
) -> Result<(), Fault>
    ensures served { IsConnection host.old host.new }
    ensures cause { IfErr result IsLost }
{
    let connection = TimedConnection::new(rt, stream, PAUSE);
    let Ok(mut reader) = Frames::new(alloc, &connection) else {
        return Ok(());
    };
    let Ok(mut writer) = BufWriter::new(alloc, Replies::new(&connection)) else {
        return Ok(());
    };
    let served = visits(host, alloc, keep, &connection, &mut reader, &mut writer);
    let _shut = stream.shutdown(Shutdown::Write);
    served
}

/// Serves this many connections, one after another. Whatever ends a connection ends only that one.
pub fn serve_connections<H: Clock, S: LooseFiles>(
    rt: &H,
    host: &mut Host<S>,
    alloc: Global,
    listener: &UnixListener,
    connections: u32,
) -> Result<(), Fault>
    ensures ok { OnOk result (AreVisits host.old host.new connections) }
    ensures err { OnErr result (AreSomeVisits host.old host.new connections) }
    ensures cause { IfErr result IsUnbound }
{
    for _ in 0..connections {
        match next_stream(rt, listener) {
            Ok(stream) => {
                connection(rt, host, alloc, &stream);
            }
            Err(error) => return Err(of_socket(error)),
        }
    }
    Ok(())
}

/// Serves this many connections, and keeps what they do: the state is saved after a connection, or during it,
/// if the journal is long. If anything could not be kept, nothing more is served.
pub fn serve_kept_connections<H: Files<File = File> + AllocGlobal + Clock + Eprint, S: LooseFiles>(
    rt: &H,
    host: &mut Host<S>,
    alloc: Global,
    keep: &mut Keep<'_, H>,
    listener: &UnixListener,
    connections: u32,
) -> Result<(), Fault>
    ensures ok { OnOk result (AreVisits host.old host.new connections) }
    ensures err { OnErr result (AreSomeVisits host.old host.new connections) }
    ensures cause { IfErr result (λ fault. IsUnbound fault ⊎ IsLost fault) }
{
    for _ in 0..connections {
        let stream = match next_stream(rt, listener) {
            Ok(stream) => stream,
            Err(error) => return Err(of_socket(error)),
        };
        kept_connection(rt, host, alloc, keep, &stream)?;
        keep.settle(alloc, host)?;
        keep.look();
    }
    Ok(())
}
