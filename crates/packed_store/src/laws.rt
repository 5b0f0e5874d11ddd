ghost use Rattle.std.specs.Prelude.{◌≡◌, ◌++◌, ◌<◌, ◌≤◌, ℕ, List, None};
ghost use Rattle.std.specs.FinMap as map;
ghost use Rattle.devices.specs.Crash.{MayLeave};
ghost use Rattle.devices.specs.Device.{Files, Past, files_of};
ghost use Rattle.loose_store.specs.Files as loose;
ghost use Rattle.packed_store.specs.Entry.{Entry, IsEntry, spelled};
ghost use Rattle.packed_store.specs.Lasting.{AllLast, AreLasting};
ghost use Rattle.packed_store.specs.Opening.{Opens};
ghost use Rattle.packed_store.specs.Place.{segment_path};
ghost use Rattle.packed_store.specs.declared.place.TheConstants.{LAST_SEGMENT};

/// Bytes begin with at most one record.
pub fn one_record()
    ensures { (e f : Entry) (rest other : List ℕ) → IsEntry e → IsEntry f → spelled e ++ rest ≡ spelled f ++ other → e ≡ f }
{}

/// The files of a device are opened as one store at the most.
pub fn one_opening()
    ensures { (files : Files) (one other : loose.Files) → Opens files one → Opens files other → one ≡ other }
{}

/// If power is lost, each segment that lasts is what a read showed before, and none that did not exist is there.
pub fn what_lasts_is_left()
    ensures gone { (past : Past) (first last segment : ℕ) (left : Files) → AreLasting past first last → segment ≤ LAST_SEGMENT → map.get (files_of past) (segment_path segment) ≡ None → MayLeave past.base past.effects left → map.get left (segment_path segment) ≡ None }
    ensures all { (past : Past) (segment : ℕ) (left : Files) → AllLast past → 0 < segment → segment ≤ LAST_SEGMENT → MayLeave past.base past.effects left → map.get left (segment_path segment) ≡ map.get (files_of past) (segment_path segment) }
    ensures there { (past : Past) (first last segment : ℕ) (left : Files) → AreLasting past first last → segment ≤ LAST_SEGMENT → first ≤ segment → segment ≤ last → MayLeave past.base past.effects left → map.get left (segment_path segment) ≡ map.get (files_of past) (segment_path segment) }
{}
