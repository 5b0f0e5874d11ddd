ghost use Rattle.std.specs.Prelude.{◌≡◌, true, false, List, ℕ};
ghost use Rattle.devices.specs.Crash.{MayLeave};
ghost use Rattle.devices.specs.Device.{Past};
ghost use Rattle.git_name.specs.Name.{IsName};
ghost use Rattle.loose_store.specs.Files.{Files};
ghost use Rattle.folder_store.specs.Calls.{Call, CallsAll, CallsSparing, IsTold, LeaveAll, Standing};
ghost use Rattle.folder_store.specs.Lasting.{IsPlaceSafe, IsSafe, IsUnfailed, LastsAs};
ghost use Rattle.folder_store.specs.Lives.{Lives};
ghost use Rattle.devices.specs.Moments.{LeavesOnly, Throughout};
ghost use Rattle.folder_store.specs.Swept.{is_whole, opened};

/// A law, with no code to run: if power is lost, an opening of whatever is left shows a whole file of each name that is safe.
pub fn what_lasts_is_left()
    ensures { (past : Past) (name : List ℕ) (left : Files) → IsName name → IsSafe past name → MayLeave past.base past.effects left → is_whole name (opened left name) ≡ true }
{}

/// A law, with no code to run: a file that `sync` made safe is there if power is lost at any moment of any calls that neither
/// put nor remove it, unless a sync failed.
pub fn what_was_synced_lasts()
    ensures { (calls : List Call) (old new : Standing) (name : List ℕ) → IsName name → CallsAll calls old new → new.has_failed ≡ false → LeaveAll calls name → IsPlaceSafe name old.past → Throughout (LeavesOnly (λ left. is_whole name (opened left name) ≡ true)) old.past new.past }
{}

/// A law, with no code to run: a file that lasts goes on lasting at each moment, unless a sync fails, a file is written over it, or
/// removals are made final while it is removed. So a removed file comes back, and one that is put again is not lost.
pub fn what_lasts_goes_on()
    ensures { (calls : List Call) (old new : Standing) (name : List ℕ) → IsName name → CallsSparing name calls old new → new.has_failed ≡ false → IsTold old → IsUnfailed old.past → LastsAs old.past new.past name }
{}

/// A law, with no code to run: a whole file that an opening shows is shown after any number of lives, each of which ends when
/// power is lost, at any moment, also of its opening; unless a sync fails, a file is written over it, or its removal is made
/// final.
pub fn what_is_there_survives()
    ensures { (lives : List (List Call)) (name : List ℕ) (files left : Files) → IsName name → Lives name lives files left → is_whole name (opened files name) ≡ true → is_whole name (opened left name) ≡ true }
{}
