ghost use Rattle.std.specs.Prelude.{◌≡◌, ◌≢◌, [], false, List, Ok, Result, Some, ℕ};
ghost use Rattle.std.specs.FinMap as map;
ghost use Rattle.devices.specs.Crash.{IsIn, MayLeave, folder_has_failed};
ghost use Rattle.devices.specs.Device.{Effect, Files, Past, files_after};
ghost use Rattle.devices.specs.Loss.{left_at};
ghost use Rattle.devices.specs.Moments.{Throughout};
ghost use Rattle.devices.specs.Parts.{DropsPart, IsSure, IsWritten, LeavesAs, LeavesAsOr, WritesPart, placing};
ghost use Rattle.devices.specs.Runs.{Runs};
ghost use Rattle.devices.specs.declared.device.DeviceFault.{DeviceFault};
ghost use Rattle.devices.specs.declared.fate.Fate.{Fate};

/// A law, with no code to run: a loss of power with no fates loses nothing. At each path it leaves what a read showed.
pub fn no_fates_lose_nothing()
    ensures { (base : Files) (past : List Effect) (path : List ℕ) → left_at base [] past path ≡ map.get (files_after base past) path }
{}

/// A law, with no code to run: what fates choose is one of what a loss of power may leave, whatever they are.
pub fn what_fates_choose_may_be_left()
    ensures { (base : Files) (fates : List Fate) (past : List Effect) (left : Files) → ((path : List ℕ) → map.get left path ≡ left_at base fates past path) → MayLeave base past left }
{}

/// A law, with no code to run: while a part is written, a loss of power leaves at any other path what it might have left there
/// before, and no sync of a folder fails.
pub fn a_part_leaves_other_files()
    ensures each { (part path : List ℕ) (old new : Past) → part ≢ path → WritesPart part old new → Throughout (LeavesAs old path) old new }
    ensures names { (part folder : List ℕ) (old new : Past) → WritesPart part old new → folder_has_failed new.effects folder ≡ folder_has_failed old.effects folder }
{}

/// A law, with no code to run: when a part is dropped, a loss of power leaves at any other path what it might have left there
/// before, and no sync of a folder fails.
pub fn a_dropped_part_leaves_other_files()
    ensures each { (part path : List ℕ) (old new : Past) → part ≢ path → DropsPart part old new → Throughout (LeavesAs old path) old new }
    ensures names { (part folder : List ℕ) (old new : Past) → DropsPart part old new → folder_has_failed new.effects folder ≡ folder_has_failed old.effects folder }
{}

/// A law, with no code to run: when a part that was written and synced takes the place of a file, a loss of power leaves there
/// what it might have left before the part was written, or the part's text. Once the names in its folder are synced, it leaves
/// the text, unless a sync of this folder failed before.
pub fn a_part_takes_its_place_at_once()
    ensures each { (part path folder text : List ℕ) (old mid new : Past) (result : Result (Unit {0}) DeviceFault) → part ≢ path → IsWritten part text old mid → Runs (placing part path folder) mid new result → Throughout (LeavesAsOr old path text) mid new }
    ensures sure { (part path folder text : List ℕ) (old mid new : Past) → part ≢ path → IsIn folder path → IsWritten part text old mid → Runs {A = Unit {0}} {E = DeviceFault} (placing part path folder) mid new (Ok tt) → folder_has_failed old.effects folder ≡ false → IsSure new path (Some text) }
    ensures names { (part path folder text : List ℕ) (old mid new : Past) → part ≢ path → IsWritten part text old mid → Runs {A = Unit {0}} {E = DeviceFault} (placing part path folder) mid new (Ok tt) → folder_has_failed new.effects folder ≡ folder_has_failed old.effects folder }
{}
