ghost use Rattle.std.specs.Prelude.{◌≡◌, IfErr};

use crate::fault::Fault;
use crate::keep::Keep;
use crate::pause::is_over;
use host_folder::Watch;
use std::fs::{File, Files};
use std::io;
use std::io::ErrorKind;
use std::time::Clock;

// Whether there was no memory to ask.
fn lacks_memory(error: &io::Error) -> bool {
    error.kind() == ErrorKind::OutOfMemory
}

// Whether a device takes a write. It may if there is no memory to ask.
fn takes_writes(watch: &Watch) -> bool {
    match watch.touch() {
        Ok(()) => true,
        Err(error) => lacks_memory(&error),
    }
}

/// Whether a folder is where it was. It may be if there is no memory to ask.
pub(crate) fn is_in_place<H: Files<File = File>>(rt: &H, watch: &Watch) -> bool {
    match watch.is_there(rt) {
        Ok(is_there) => is_there,
        Err(error) => lacks_memory(&error),
    }
}

// Whether it is, and if `syncs` whether its device takes a write.
fn is_well<H: Files<File = File>>(rt: &H, watch: &Watch, syncs: bool) -> bool {
    is_in_place(rt, watch) && (!syncs || takes_writes(watch))
}

impl<'a, H: Files<File = File>> Keep<'a, H> {
    /// Whether the folder is where it was when it was locked, so that nothing of another one is written over.
    pub(crate) fn is_in_place(&self) -> bool {
        match &self.watch {
            Some(watch) => is_in_place(self.rt, watch),
            None => true,
        }
    }
}

impl<'a, H: Files<File = File> + Clock> Keep<'a, H> {
    /// Looks at most once in a second whether the folder is still where it was, and if the journal syncs, whether its device
    /// takes a write. Requests that come after that are answered until it is looked again.
    pub(crate) fn check_folder(&self) -> Result<(), Fault>
        ensures { IfErr result (λ fault. fault ≡ Fault.NotKept) }
    {
        if !is_over(self.rt, &self.next_look, 1) {
            return Ok(());
        }
        match &self.watch {
            Some(watch) if !is_well(self.rt, watch, self.syncs) => Err(Fault::NotKept),
            _ => Ok(()),
        }
    }
}
