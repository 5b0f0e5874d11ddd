ghost use Rattle.std.specs.Prelude.{◌≡◌, ◌≢◌, [], ◌∷◌, ◌++◌, false, Bool, List, Ok, Result, Some, ℕ};
ghost use Rattle.std.specs.FinMap.{get};
ghost use Rattle.host_folder.specs.Appending.{AllOnlyGrow, IsAppendedTo, IsUnfailed, LeavesFront, OnlyGrows, bytes_at, sure_bytes, sync_has_failed};
ghost use Rattle.devices.specs.Crash.{IsIn, folder_has_failed};
ghost use Rattle.devices.specs.Device.{Added, Does, Effect, Moved, Past, SyncedFile, Wrote, files_of};
ghost use Rattle.devices.specs.Loss.{failed_in, synced_in, touches};
ghost use Rattle.devices.specs.Moments.{Throughout, past_with};
ghost use Rattle.devices.specs.Parts.{IsWritten, placing};
ghost use Rattle.devices.specs.Runs.{Runs};
ghost use Rattle.devices.specs.declared.device.DeviceFault.{DeviceFault};

/// A law, with no code to run: a file that is only appended to and synced is left by a loss of power with a front of its bytes
/// that has all that was synced. It is such a file from when it took its place, or from when its device was opened.
pub fn an_appended_file_keeps_what_was_synced()
    ensures begins { (part path folder text : List ℕ) (old mid new : Past) → IsIn folder path → IsWritten part text old mid → Runs {A = Unit {0}} {E = DeviceFault} (placing part path folder) mid new (Ok tt) → folder_has_failed old.effects folder ≡ false → IsAppendedTo path text new }
    ensures placed { (part path folder text : List ℕ) (old new : Past) → IsIn folder path → IsUnfailed part old → get (files_of old) part ≡ Some text → Runs {A = Unit {0}} {E = DeviceFault} (SyncedFile part ∷ placing part path folder) old new (Ok tt) → folder_has_failed old.effects folder ≡ false → IsAppendedTo path text new }
    ensures opened { (path text : List ℕ) (past : Past) → past.effects ≡ [] → get past.base path ≡ Some text → IsAppendedTo path text past }
    ensures appends { (path least bytes : List ℕ) (old new : Past) (result : Result (Unit {0}) DeviceFault) → IsAppendedTo path least old → Does (Added path bytes) old new result → IsAppendedTo path least new }
    ensures syncs { (path least : List ℕ) (old new : Past) → IsAppendedTo path least old → IsUnfailed path old → Does {A = Unit {0}} {E = DeviceFault} (SyncedFile path) old new (Ok tt) → IsAppendedTo path (bytes_at path old) new }
    ensures beside { (path least : List ℕ) (effect : Effect) (old new : Past) (result : Result (Unit {0}) DeviceFault) → IsAppendedTo path least old → touches effect path ≡ false → Does effect old new result → IsAppendedTo path least new }
    ensures renames { (path least from to : List ℕ) (old new : Past) (result : Result Bool DeviceFault) → IsAppendedTo path least old → touches (Moved from to) path ≡ false → Does (Moved from to) old new result → IsAppendedTo path least new }
    ensures left { (path least : List ℕ) (past : Past) → IsAppendedTo path least past → LeavesFront path least past }
{}

/// A law, with no code to run: while a file is only appended to, and other files are changed, a loss of power leaves at each moment
/// a front that has all that was synced before. A read shows at least the bytes that it showed before.
pub fn an_appended_file_leaves_a_front_at_each_moment()
    ensures all { (path least : List ℕ) (past : Past) (done : List Effect) → IsAppendedTo path least past → AllOnlyGrow path done → IsAppendedTo path least (past_with past done) }
    ensures sure { (path least : List ℕ) (past : Past) (done : List Effect) → IsAppendedTo path least past → IsUnfailed path past → AllOnlyGrow path done → IsAppendedTo path (sure_bytes path least past done) (past_with past done) }
    ensures each { (path least : List ℕ) (effects : List Effect) (old new : Past) (result : Result (Unit {0}) DeviceFault) → IsAppendedTo path least old → AllOnlyGrow path effects → Runs effects old new result → Throughout (IsAppendedTo path least) old new }
    ensures leaves { (path least : List ℕ) (old new : Past) → Throughout (IsAppendedTo path least) old new → Throughout (LeavesFront path least) old new }
    ensures shown { (path least : List ℕ) (past : Past) → IsAppendedTo path least past → get (files_of past) path ≡ Some (bytes_at path past) }
    ensures added { (path least bytes : List ℕ) (old new : Past) → IsAppendedTo path least old → Does {A = Unit {0}} {E = DeviceFault} (Added path bytes) old new (Ok tt) → bytes_at path new ≡ bytes_at path old ++ bytes }
    ensures grown { (path least : List ℕ) (effect : Effect) (old new : Past) (result : Result (Unit {0}) DeviceFault) → IsAppendedTo path least old → OnlyGrows path effect → Does effect old new result → (more : List ℕ) × (bytes_at path new ≡ bytes_at path old ++ more) }
{}

/// A law, with no code to run: no sync of a file has failed when it is written, and none does by another effect.
pub fn a_file_is_unfailed_until_a_sync_of_it_fails()
    ensures written { (path bytes : List ℕ) (old new : Past) → Does {A = Unit {0}} {E = DeviceFault} (Wrote path bytes) old new (Ok tt) → IsUnfailed path new }
    ensures opened { (path : List ℕ) (past : Past) → past.effects ≡ [] → IsUnfailed path past }
    ensures begins { (part path folder text : List ℕ) (old mid new : Past) → IsWritten part text old mid → Runs {A = Unit {0}} {E = DeviceFault} (placing part path folder) mid new (Ok tt) → IsUnfailed path new }
    ensures placed { (part path folder text : List ℕ) (old new : Past) → IsUnfailed part old → get (files_of old) part ≡ Some text → Runs {A = Unit {0}} {E = DeviceFault} (SyncedFile part ∷ placing part path folder) old new (Ok tt) → IsUnfailed path new }
    ensures stays { (path : List ℕ) (effect : Effect) (old new : Past) (result : Result (Unit {0}) DeviceFault) → IsUnfailed path old → OnlyGrows path effect → synced_in effect ≢ Some path → failed_in effect ≢ Some path → Does effect old new result → IsUnfailed path new }
    ensures renames { (path from to : List ℕ) (old new : Past) (result : Result Bool DeviceFault) → IsUnfailed path old → touches (Moved from to) path ≡ false → Does (Moved from to) old new result → IsUnfailed path new }
    ensures all { (path : List ℕ) (past : Past) (done : List Effect) → IsUnfailed path past → AllOnlyGrow path done → sync_has_failed done path ≡ false → IsUnfailed path (past_with past done) }
    ensures syncs { (path : List ℕ) (old new : Past) → IsUnfailed path old → Does {A = Unit {0}} {E = DeviceFault} (SyncedFile path) old new (Ok tt) → IsUnfailed path new }
{}
