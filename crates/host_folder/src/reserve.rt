ghost use Rattle.std.specs.Prelude.{◌≡◌, true};
ghost use Rattle.devices.specs.declared.device.DeviceFault.TheVariants.{Room};

use crate::gate::Gate;
use crate::part::{settle, told};
use crate::path::inside;
use devices::{DeviceFault, create_file, found};
use loose_store::FileFault;
use std::alloc::{AllocError, Global};
use std::cell::Cell;
use std::fs::{File, Metadata, OpenFile, OpenOptions};
use std::io::ErrorKind;
use std::os::unix::fs::{FileExt, MetadataExt};
use std::rc::Rc;
use std::rt::Files;
use std::{fs, io};

// The file of the reserve in a host's folder.
const RESERVE: &str = "reserve";

// The same file while it is made for the first time. Not `part`, which soon names the state: a device that lost power may
// have carried out one rename, and not the other one before it.
const BEGUN: &str = "reserve.part";

// The length of a whole reserve: 64 MiB.
const LENGTH: u64 = 67_108_864;

// How many zero bytes are written at once.
const PIECE: usize = 16_384;

// How many pieces are written before the file is cut to its length.
const PIECES: u64 = 4_608;

// The length of all these pieces: 72 MiB. So a reserve that was given back is not made again in the room that it left, but
// only after something else has made room.
const FILLED: u64 = 75_497_472;

// A reserve that was made.
#[derive(Drop)]
struct Made {
    file: File,
    // Shut while the reserve is given back.
    gate: Gate,
    // Whether it was given back, and nobody has asked since.
    is_news: Cell<bool>,
}

/// Room on a host's disk that only the journal and the state may use: the file `reserve`, in a folder that this process
/// has open. It is given back when one of these finds no room. Then the folder takes no objects, until it is made again.
#[derive(Drop)]
pub struct Reserve {
    made: Option<Rc<Made>>,
}

// Writes zeros until the file is whole. A file without blocks would keep no room. Until its end the file has another length
// than a whole one, so a kill leaves none that is taken for one.
fn fill(file: &File) -> io::Result<()> {
    file.set_len(FILLED)?;
    let zeros = [0; PIECE];
    for piece in 0..PIECES {
        file.write_all_at(zeros.as_slice(), piece.saturating_mul(PIECE as u64))?;
    }
    file.set_len(LENGTH)?;
    file.sync_data()
}

// A file of this host alone, if there is one: no link to another file, no pipe and no device.
fn own_file(rt: &impl Files, path: &str) -> io::Result<Option<Metadata>> {
    match found(fs::symlink_metadata(rt, path))? {
        Some(known) if known.is_file() && known.nlink() == 1 => Ok(Some(known)),
        Some(_) => Err(io::Error::from(ErrorKind::InvalidInput)),
        None => Ok(None),
    }
}

// Makes a reserve where none was. A failure leaves no file.
fn made_first<R: Files<File = File>>(
    rt: &R,
    alloc: Global,
    folder: &str,
    path: &str,
) -> io::Result<File> {
    let part = inside(alloc, folder, BEGUN)?;
    own_file(rt, part.as_str())?;
    let file = create_file(rt, part.as_str())?;
    settle(rt, fill(&file), part.as_str(), path)?;
    Ok(file)
}

// Opens a reserve that was made before, and makes it again if it is not whole.
fn opened<R: Files<File = File>>(
    rt: &R,
    alloc: Global,
    folder: &str,
    gate: Gate,
) -> io::Result<Reserve> {
    let path = inside(alloc, folder, RESERVE)?;
    let (file, is_whole) = match own_file(rt, path.as_str())? {
        Some(known) => {
            let file = OpenOptions::new().write(true).open(rt, path.as_str())?;
            (file, known.len() == LENGTH)
        }
        None => (made_first(rt, alloc, folder, path.as_str())?, true),
    };
    let reserve = Reserve::over(alloc, file, gate)?;
    if !is_whole {
        reserve.note_given_back();
        reserve.make_again();
    }
    Ok(reserve)
}

impl Reserve {
    /// No reserve, which nothing can be given back of.
    pub fn none() -> Reserve {
        Reserve { made: None }
    }

    // The reserve in this file, which is whole.
    fn over(alloc: Global, file: File, gate: Gate) -> Result<Reserve, AllocError> {
        let made = Made {
            file,
            gate,
            is_news: Cell::new(false),
        };
        let made = Rc::new(alloc, made)?;
        Ok(Reserve { made: Some(made) })
    }

    /// The reserve in the folder at this path, which has this gate. It is made if it does not exist. One that was given
    /// back is made again, or else stays given back. After an `Err` there is none.
    pub fn open<R: Files<File = File>>(
        rt: &R,
        alloc: Global,
        path: &str,
        gate: Gate,
    ) -> Result<Reserve, FileFault> {
        told(opened(rt, alloc, path, gate))
    }

    /// The same reserve, for another owner.
    pub fn share(&self) -> Result<Reserve, AllocError> {
        match &self.made {
            Some(made) => {
                let made = made.clone()?;
                Ok(Reserve { made: Some(made) })
            }
            None => Ok(Reserve::none()),
        }
    }

    // Notes that the reserve is given back.
    fn note_given_back(&self) {
        if let Some(made) = &self.made {
            made.as_ref().gate.shut(true);
            made.as_ref().is_news.set(true);
        }
    }

    /// Whether it was made and given back, and was not made again.
    pub fn is_given_back(&self) -> bool {
        match &self.made {
            Some(made) => made.as_ref().gate.is_shut(),
            None => false,
        }
    }

    /// Whether it was given back after the last call.
    pub fn has_news(&self) -> bool {
        match &self.made {
            Some(made) => made.as_ref().is_news.replace(false),
            None => false,
        }
    }

    // Gives it back, unless it was given back before. Returns whether there may be room now.
    fn makes_room(&self) -> bool {
        if self.is_given_back() {
            return false;
        }
        let Some(made) = &self.made else {
            return false;
        };
        self.note_given_back();
        made.as_ref().file.set_len(0).is_ok()
    }

    /// Gives it back after a fault of a device for want of room, unless it was given back before. Returns whether there may be
    /// room now.
    pub fn gives_back_for(&self, fault: DeviceFault) -> bool
        ensures { result ≡ true → fault ≡ Room }
    {
        match fault {
            DeviceFault::Room => self.makes_room(),
            _ => false,
        }
    }

    /// Tries to make it again after it was given back, and returns whether it is whole now. It needs 8 MiB more than it
    /// keeps.
    pub fn make_again(&self) -> bool {
        let Some(made) = &self.made else {
            return false;
        };
        let made = made.as_ref();
        if fill(&made.file).is_err() {
            let _emptied = made.file.set_len(0);
            return false;
        }
        made.gate.shut(false);
        made.is_news.set(false);
        true
    }
}
