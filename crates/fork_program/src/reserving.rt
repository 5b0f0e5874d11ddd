use crate::keep::Keep;
use crate::pause::is_over;
use host_folder::{Gate, Reserve};
use std::alloc::Global;
use std::fs::{File, Files};
use std::time::Clock;

// At most so many seconds pass between two tries to make a reserve again. Each fills the disk for a moment if it fails.
const LONGEST: u64 = 16;

/// The reserve in the folder of a host that is to be served. If it cannot be made, that is told on standard error.
pub(crate) fn reserved<H: Files<File = File> + Eprint>(
    rt: &H,
    alloc: Global,
    dir: &str,
    gate: Gate,
) -> Reserve {
    let Ok(reserve) = Reserve::open(rt, alloc, dir, gate) else {
        let _told = eprintln!(rt; "forkhost: {dir}/reserve cannot be made");
        return Reserve::none();
    };
    if reserve.has_news() {
        let _told = eprintln!(rt;
            "forkhost: {dir}/reserve cannot be made again, so no objects are stored"
        );
    }
    reserve
}

impl<'a, H: Files<File = File> + Clock + Eprint> Keep<'a, H> {
    // Tries to make the reserve again, and tells if it was.
    fn try_again(&self) {
        if !self.reserve.make_again() {
            self.gap.set(self.gap.get().saturating_mul(2).min(LONGEST));
            return;
        }
        let dir = self.dir;
        let _told = eprintln!(self.rt;
            "forkhost: {dir}/reserve is made again, and objects are stored"
        );
    }

    /// Tells on standard error that the reserve was given back, once. Later tries to make it again, after 1, 2, 4 and more
    /// seconds, and tells if it was.
    pub(crate) fn look(&self) {
        if !self.reserve.is_given_back() {
            return;
        }
        let dir = self.dir;
        if self.reserve.has_news() {
            self.gap.set(1);
            self.due.set(None);
            is_over(self.rt, &self.due, 1);
            let _told = eprintln!(self.rt;
                "forkhost: no room, so {dir}/reserve is given back, and no objects are stored"
            );
        } else if is_over(self.rt, &self.due, self.gap.get()) {
            self.try_again();
        }
    }
}
