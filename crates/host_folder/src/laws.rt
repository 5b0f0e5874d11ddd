ghost use Rattle.std.specs.Prelude.{◌≡◌, ◌≢◌, ◌⊎◌, ◌++◌, [], false, List, Ok, Option, Result, Some, ℕ};
ghost use Rattle.std.specs.FinMap.{contains_key, get};
ghost use Rattle.devices.specs.Crash.{folder_has_failed};
ghost use Rattle.devices.specs.Device.{Past, files_of};
ghost use Rattle.devices.specs.Moments.{LeavesOnly, Throughout};
ghost use Rattle.devices.specs.Parts.{DropsPart, IsSure, IsWritten, LeavesAs, WritesPart, placing};
ghost use Rattle.devices.specs.Runs.{Runs};
ghost use Rattle.devices.specs.declared.device.DeviceFault.{DeviceFault};
ghost use Rattle.host_folder.specs.Journal.{OnlyClears, journal_file, journal_folder, old_journal_file};
ghost use Rattle.host_folder.specs.State.{IsShown, LeavesState, LeavesStateOr, PlacesPart, SettlesPart, TriesPart, part_file, state_file, syncing};

use devices::{
    a_dropped_part_leaves_other_files, a_part_leaves_other_files, a_part_takes_its_place_at_once,
};

/// A law, with no code to run: if a loss of power is sure to leave a state, it leaves it at each moment while the part of another
/// one is written, and is sure to do so afterwards, whether that failed or not.
pub fn a_part_leaves_the_state()
    ensures each { (before : Option (List ℕ)) (old new : Past) → IsSure old state_file before → WritesPart part_file old new → Throughout (LeavesOnly (λ left. get left state_file ≡ before)) old new }
    ensures sure { (before : Option (List ℕ)) (old new : Past) → IsSure old state_file before → WritesPart part_file old new → IsSure new state_file before }
    ensures names { (old new : Past) → WritesPart part_file old new → folder_has_failed new.effects [] ≡ folder_has_failed old.effects [] }
{
    a_part_leaves_other_files();
}

/// A law, with no code to run: when a state is written and placed, a loss of power leaves the state before it or the new one
/// alone, at each moment of both. After that it is sure to leave the new one, unless a sync of the folder failed before.
pub fn a_state_is_replaced_at_once()
    ensures each { (before : Option (List ℕ)) (text : List ℕ) (old mid new : Past) (result : Result (Unit {0}) DeviceFault) → IsSure old state_file before → IsWritten part_file text old mid → Runs (placing part_file state_file []) mid new result → Throughout (LeavesOnly (λ left. (get left state_file ≡ before) ⊎ (get left state_file ≡ Some text))) old new }
    ensures sure { (text : List ℕ) (old mid new : Past) → IsWritten part_file text old mid → Runs {A = Unit {0}} {E = DeviceFault} (placing part_file state_file []) mid new (Ok tt) → folder_has_failed old.effects [] ≡ false → IsSure new state_file (Some text) }
    ensures names { (text : List ℕ) (old mid new : Past) → IsWritten part_file text old mid → Runs {A = Unit {0}} {E = DeviceFault} (placing part_file state_file []) mid new (Ok tt) → folder_has_failed new.effects [] ≡ folder_has_failed old.effects [] }
{
    a_part_leaves_other_files();
    a_part_takes_its_place_at_once();
}

/// A law, with no code to run: if a loss of power is sure to leave a state, it leaves it at each moment while the part of another
/// one is written and then dropped, too, and is sure to do so afterwards.
pub fn a_tried_part_leaves_the_state()
    ensures each { (before : Option (List ℕ)) (old new : Past) → IsSure old state_file before → TriesPart old new → Throughout (LeavesState before) old new }
    ensures sure { (before : Option (List ℕ)) (old new : Past) → IsSure old state_file before → TriesPart old new → IsSure new state_file before }
    ensures names { (old new : Past) → TriesPart old new → folder_has_failed new.effects [] ≡ folder_has_failed old.effects [] }
    ensures leaves { (old new : Past) → TriesPart old new → LeavesAs old state_file new }
{
    a_part_leaves_other_files();
    a_dropped_part_leaves_other_files();
}

/// A law, with no code to run: when a state is written and then settled, a loss of power leaves the state before it or the new one
/// alone, at each moment, whatever failed. It is sure to leave the new one if that was placed, unless a sync of the folder failed
/// before, and the one before if the part was only dropped.
pub fn a_settled_part_leaves_one_state()
    ensures each { (before : Option (List ℕ)) (text : List ℕ) (old mid new : Past) → IsSure old state_file before → IsWritten part_file text old mid → SettlesPart mid new → Throughout (LeavesStateOr before text) old new }
    ensures placed { (text : List ℕ) (old mid new : Past) → IsWritten part_file text old mid → PlacesPart mid new → folder_has_failed old.effects [] ≡ false → IsSure new state_file (Some text) }
    ensures stays { (before : Option (List ℕ)) (text : List ℕ) (old mid new : Past) → IsSure old state_file before → IsWritten part_file text old mid → DropsPart part_file mid new → IsSure new state_file before }
    ensures dropped { (text : List ℕ) (old mid new : Past) → IsWritten part_file text old mid → DropsPart part_file mid new → LeavesAs old state_file new }
    ensures names { (text : List ℕ) (old mid new : Past) → IsWritten part_file text old mid → SettlesPart mid new → folder_has_failed new.effects [] ≡ false → folder_has_failed old.effects [] ≡ false }
{
    a_part_leaves_other_files();
    a_dropped_part_leaves_other_files();
    a_part_takes_its_place_at_once();
}

/// A law, with no code to run: syncs of the state and of its folder leave at each moment what was left before, whether they fail or
/// not. Once both are done, a state that a read shows is sure, unless a sync of it or of the folder failed before.
pub fn a_synced_state_is_sure()
    ensures leaves { (old new : Past) (result : Result (Unit {0}) DeviceFault) → Runs syncing old new result → LeavesAs old state_file new }
    ensures each { (before : Option (List ℕ)) (old new : Past) (result : Result (Unit {0}) DeviceFault) → IsSure old state_file before → Runs syncing old new result → Throughout (LeavesState before) old new }
    ensures shown { (text : List ℕ) (old new : Past) → IsShown text old → Runs {A = Unit {0}} {E = DeviceFault} syncing old new (Ok tt) → IsSure new state_file (Some text) }
    ensures names { (old new : Past) (result : Result (Unit {0}) DeviceFault) → Runs syncing old new result → folder_has_failed new.effects [] ≡ false → folder_has_failed old.effects [] ≡ false }
{}

/// A law, with no code to run: while the folder of journals is cleared, a loss of power leaves the journal that stays, and each
/// file outside the folder, as it might have left them before. No sync of a folder fails.
pub fn clearing_leaves_other_files()
    ensures journal { (name : List ℕ) (old new : Past) → OnlyClears name old new → Throughout (LeavesAs old (journal_file name)) old new }
    ensures old { (name : List ℕ) (old new : Past) → contains_key (files_of old) (journal_file name) ≡ false → OnlyClears name old new → Throughout (LeavesAs old (old_journal_file name)) old new }
    ensures others { (name path : List ℕ) (old new : Past) → ((called : List ℕ) → path ≢ journal_folder ++ called) → OnlyClears name old new → Throughout (LeavesAs old path) old new }
    ensures names { (name folder : List ℕ) (old new : Past) → OnlyClears name old new → folder_has_failed new.effects folder ≡ folder_has_failed old.effects folder }
{}
