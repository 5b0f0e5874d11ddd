ghost use Rattle.std.specs.Prelude.{◌≡◌, IfErr};
ghost use Rattle.fork_program.specs.Serving.{IsUnbound};

use crate::fault::Fault;
use std::alloc::{AllocError, Global};
use std::fs::{DirBuilder, File, Files, Metadata, Permissions};
use std::io::ErrorKind;
use std::net::Net;
use std::os::unix::fs::{DirBuilderExt, FileTypeExt, MetadataExt, PermissionsExt};
use std::os::unix::net::{UnixListener, UnixStream};
use std::{fs, io};

/// A socket that this process alone listens on, while this value lives.
#[derive(Drop)]
pub struct Listening {
    listener: UnixListener,
    // The folder in which the socket was created; its lock keeps other processes away.
    room: File,
}

impl Listening {
    /// The listener that connections are accepted from.
    pub fn listener(&self) -> &UnixListener {
        &self.listener
    }

    /// The listener, and the locked folder, which keeps other processes away while it lives.
    pub fn into_parts(self) -> (UnixListener, File) {
        let Listening { listener, room } = self;
        (listener, room)
    }
}

// Whether there is nothing at the path, or only a socket that nobody listens on.
fn is_free<H: Files + Net>(rt: &H, path: &str) -> io::Result<bool> {
    let there = match fs::symlink_metadata(rt, path) {
        Ok(there) => there,
        Err(error) => {
            if error.kind() == ErrorKind::NotFound {
                return Ok(true);
            }
            return Err(error);
        }
    };
    if !there.file_type().is_socket() {
        return Ok(false);
    }
    match UnixStream::connect(rt, path) {
        Ok(_) => Ok(false),
        Err(error) => {
            if error.kind() == ErrorKind::ConnectionRefused {
                return Ok(true);
            }
            Err(error)
        }
    }
}

// Whether this process's user owns it. If there is no `/proc` to say who that user is, the kernel decides:
// only root may change the mode of a file that another user owns.
fn is_own<H: Files>(rt: &H, there: &Metadata) -> bool {
    match fs::metadata(rt, "/proc/self") {
        Ok(process) => there.uid() == process.uid(),
        Err(_) => true,
    }
}

// Opens the folder of this name, which must exist and belong to this user. No link is followed.
fn own_folder<H: Files<File = File>>(rt: &H, room: &str) -> io::Result<File> {
    let there = fs::symlink_metadata(rt, room)?;
    if !there.is_dir() || !is_own(rt, &there) {
        return Err(io::Error::from(ErrorKind::AddrInUse));
    }
    let folder = File::open(rt, room)?;
    let opened = folder.metadata()?;
    if opened.ino() != there.ino() || opened.dev() != there.dev() {
        return Err(io::Error::from(ErrorKind::AddrInUse));
    }
    Ok(folder)
}

// Removes the socket that a process left in the folder. Anything else is left as it is.
fn clear<H: Files>(rt: &H, inside: &str) -> io::Result<()> {
    let left = match fs::symlink_metadata(rt, inside) {
        Ok(left) => left,
        Err(error) => {
            if error.kind() == ErrorKind::NotFound {
                return Ok(());
            }
            return Err(error);
        }
    };
    if !left.file_type().is_socket() {
        return Err(io::Error::from(ErrorKind::AddrInUse));
    }
    fs::remove_file(rt, inside)
}

// The folder that only this user may enter and only this process uses. It has no socket in it.
fn private_room<H: Files<File = File>>(rt: &H, room: &str, inside: &str) -> io::Result<File> {
    if let Err(error) = DirBuilder::new().mode(0o700).create(rt, room) {
        if error.kind() != ErrorKind::AlreadyExists {
            return Err(error);
        }
    }
    let folder = own_folder(rt, room)?;
    if folder.try_lock().is_err() {
        return Err(io::Error::from(ErrorKind::AddrInUse));
    }
    clear(rt, inside)?;
    folder.set_permissions(Permissions::from_mode(0o700))?;
    Ok(folder)
}

// A socket is created with the mode that the process allows. So it is created where nobody else may enter,
// and gets its own mode before it is moved to its path.
fn bound_at<H: Files + Net>(rt: &H, inside: &str) -> io::Result<UnixListener> {
    let listener = UnixListener::bind(rt, inside)?;
    fs::set_permissions(rt, inside, Permissions::from_mode(0o600))?;
    Ok(listener)
}

// Binds a socket for this path. Only this process uses the folder in which the socket is created.
fn bound_in<H: Files<File = File> + Net>(
    rt: &H,
    room: &str,
    inside: &str,
    path: &str,
) -> io::Result<Listening> {
    let folder = private_room(rt, room, inside)?;
    if !is_free(rt, path)? {
        return Err(io::Error::from(ErrorKind::AddrInUse));
    }
    let listener = bound_at(rt, inside)?;
    Ok(Listening {
        listener,
        room: folder,
    })
}

// Where the socket for a path is created.
fn inside_of(alloc: Global, path: &str) -> Result<String, AllocError> {
    format!(in alloc; "{path}.lock/s")
}

fn bound<H: Files<File = File> + Net>(rt: &H, alloc: Global, path: &str) -> io::Result<Listening> {
    let room = format!(in alloc; "{path}.lock")?;
    let inside = inside_of(alloc, path)?;
    bound_in(rt, room.as_str(), inside.as_str(), path)
}

// Moves the socket to its path, if the path is still free.
fn placed<H: Files + Net>(rt: &H, alloc: Global, path: &str) -> io::Result<()> {
    let inside = inside_of(alloc, path)?;
    if !is_free(rt, path)? {
        return Err(io::Error::from(ErrorKind::AddrInUse));
    }
    fs::rename(rt, inside.as_str(), path)
}

/// The fault that reports an error of a socket.
pub fn of_socket(error: io::Error) -> Fault
    ensures { IsUnbound result }
{
    if error.kind() == ErrorKind::OutOfMemory {
        return Fault::Memory;
    }
    Fault::Socket
}

/// Binds a socket for this path and for this user alone. Nobody can connect before `show` moves it to the
/// path. A socket at the path that nobody listens on will be replaced. Anything else there is left as it is.
pub fn listen<H: Files<File = File> + Net>(
    rt: &H,
    alloc: Global,
    path: &str,
) -> Result<Listening, Fault>
    ensures { IfErr result IsUnbound }
{
    match bound(rt, alloc, path) {
        Ok(listening) => Ok(listening),
        Err(error) => Err(of_socket(error)),
    }
}

/// Moves a socket that was bound for this path to it. From then on, whoever may connect is served.
pub fn show<H: Files<File = File> + Net>(rt: &H, alloc: Global, path: &str) -> Result<(), Fault>
    ensures { IfErr result IsUnbound }
{
    match placed(rt, alloc, path) {
        Ok(()) => Ok(()),
        Err(error) => Err(of_socket(error)),
    }
}
