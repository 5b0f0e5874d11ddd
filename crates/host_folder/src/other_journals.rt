// Looks for journals of other states, over the device of a host's folder.
ghost use Rattle.std.specs.Prelude.{◌≡◌, ◌≢◌, ◌≤◌, List, ℕ, None, Some, IfNone, IfOk, IfSome, IsTrue, false, true, length};
ghost use Rattle.std.specs.FinMap as map;
ghost use Rattle.devices.specs.Device.{files_of};
ghost use Rattle.git_name.specs.Name.{IsName};
ghost use Rattle.host_folder.specs.Journal.{first_line, journal_file};
ghost use Rattle.host_folder.specs.OtherJournals.{BeginsWith, HasMore, HasNoOther, HasOther, IsLeftOver, IsNoOther, IsOldPassed, IsPassed, IsThere, MayCount, OldCounts, Stands};

use crate::journal_file::{journal_path, old_journal_path};
use crate::journal_line::{LINE, name_called, read_line};
use crate::part::told;
use devices::{Device, FileReader};
use git_name::Name;
use loose_store::FileFault;
use std::alloc::Global;
use std::io;

// The journal of the state in the folder.
#[derive(Drop)]
enum Standing {
    // There is none.
    Absent,
    // It has version 1, which does not name the state before it.
    Old,
    // It was begun when the state in the folder had this name.
    After(Name),
}

// The name in the first line of the journal of this name, if the journal exists.
fn before_of<D: Device>(device: &D, alloc: Global, name: Name) -> io::Result<Option<Name>>
    ensures none { IsTrue (D.honest device.now) → IfOk result (λ before. IfNone before (map.get (files_of (D.past device.now)) (journal_file name) ≡ None)) }
    ensures begins { IsTrue (D.honest device.now) → IfOk result (λ before. IfSome before (λ standing. BeginsWith (files_of (D.past device.now)) (journal_file name) (first_line standing))) }
    ensures name { IfOk result (λ before. IfSome before IsName) }
{
    let path = journal_path(alloc, name)?;
    let Some(_len) = device.len(path.as_str())? else {
        return Ok(None);
    };
    let mut reader = FileReader::new(alloc, device, path.as_str());
    let before = read_line(&mut reader)?;
    Ok(Some(before))
}

fn standing_in<D: Device>(device: &D, alloc: Global, name: Name) -> io::Result<Standing>
    ensures { IsTrue (D.honest device.now) → IfOk result (Stands (files_of (D.past device.now)) name) }
{
    if let Some(before) = before_of(device, alloc, name)? {
        return Ok(Standing::After(before));
    }
    let old = old_journal_path(alloc, name)?;
    match device.len(old.as_str())? {
        Some(_len) => Ok(Standing::Old),
        None => Ok(Standing::Absent),
    }
}

// Whether the journal `other` was begun when the state in the folder had this name.
fn is_begun_after<D: Device>(device: &D, alloc: Global, other: Name, name: Name) -> bool
    ensures { IsTrue (D.honest device.now) → result ≡ true → IsThere (files_of (D.past device.now)) (journal_file other) → BeginsWith (files_of (D.past device.now)) (journal_file other) (first_line name) }
{
    match before_of(device, alloc, other) {
        Ok(Some(before)) => before == name,
        Ok(None) => true,
        Err(_) => false,
    }
}

// Whether a save that was killed may have left the journal `other` beside the one of this name, as the journal of the
// state that was replaced or of the state that was to replace it.
fn is_left_over<D: Device>(
    device: &D,
    alloc: Global,
    other: Name,
    name: Name,
    standing: &Standing,
) -> bool
    ensures apart { IsTrue (D.honest device.now) → Stands (files_of (D.past device.now)) name standing.now → IsName other → result ≡ false → BeginsWith (files_of (D.past device.now)) (journal_file name) (first_line other) → ⊥ }
    ensures left { IsTrue (D.honest device.now) → Stands (files_of (D.past device.now)) name standing.now → IsThere (files_of (D.past device.now)) (journal_file other) → result ≡ true → IsLeftOver (files_of (D.past device.now)) other name }
{
    match standing {
        Standing::Absent => false,
        Standing::Old => is_begun_after(device, alloc, other, name),
        Standing::After(before) => {
            if *before == other {
                return true;
            }
            is_begun_after(device, alloc, other, name)
        }
    }
}

// Whether the file at this path has more bytes than so many.
fn has_more<D: Device>(device: &D, path: &str, len: u64) -> io::Result<bool>
    ensures more { IsTrue (D.honest device.now) → IfOk result (λ more. more ≡ true → HasMore (files_of (D.past device.now)) path.now len) }
    ensures few { IsTrue (D.honest device.now) → IfOk result (λ more. more ≡ false → (text : List ℕ) → map.get (files_of (D.past device.now)) path.now ≡ Some text → length text ≤ len) }
{
    match device.len(path)? {
        Some(known) => Ok(known > len),
        None => Ok(false),
    }
}

// Whether the journal `other` is not the one of this name, has more than its first line and is not left over.
fn counts<D: Device>(
    device: &D,
    alloc: Global,
    other: Name,
    name: Name,
    standing: &Standing,
) -> io::Result<bool>
    ensures some { IsTrue (D.honest device.now) → Stands (files_of (D.past device.now)) name standing.now → IsName other → IfOk result (λ any. any ≡ true → (other ≢ name) × MayCount (files_of (D.past device.now)) other name) }
    ensures none { IsTrue (D.honest device.now) → Stands (files_of (D.past device.now)) name standing.now → IfOk result (λ any. any ≡ false → other ≢ name → IsPassed (files_of (D.past device.now)) other name) }
{
    let path = journal_path(alloc, other)?;
    if other == name {
        return Ok(false);
    }
    if !has_more(device, path.as_str(), LINE as u64)? {
        return Ok(false);
    }
    Ok(!is_left_over(device, alloc, other, name, standing))
}

// The same of the journal `other` of version 1. It counts if it is not empty, and there is no journal of this name.
fn old_counts<D: Device>(
    device: &D,
    alloc: Global,
    other: Name,
    name: Name,
    standing: &Standing,
) -> io::Result<bool>
    ensures some { IsTrue (D.honest device.now) → Stands (files_of (D.past device.now)) name standing.now → IfOk result (λ any. any ≡ true → (other ≢ name) × OldCounts (files_of (D.past device.now)) other name) }
    ensures none { IsTrue (D.honest device.now) → Stands (files_of (D.past device.now)) name standing.now → IfOk result (λ any. any ≡ false → other ≢ name → IsOldPassed (files_of (D.past device.now)) other name) }
{
    let path = old_journal_path(alloc, other)?;
    if other == name {
        return Ok(false);
    }
    if !has_more(device, path.as_str(), 0)? {
        return Ok(false);
    }
    Ok(matches!(standing, Standing::Absent))
}

// Whether a file called so is a journal of another state that counts.
fn is_other<D: Device>(
    device: &D,
    alloc: Global,
    called: &[u8],
    name: Name,
    standing: &Standing,
) -> io::Result<bool>
    ensures some { IsTrue (D.honest device.now) → Stands (files_of (D.past device.now)) name standing.now → IfOk result (λ any. any ≡ true → HasOther (files_of (D.past device.now)) name) }
    ensures none { IsTrue (D.honest device.now) → Stands (files_of (D.past device.now)) name standing.now → IfOk result (λ any. any ≡ false → IsNoOther (files_of (D.past device.now)) name called.now) }
{
    if let Some(other) = name_called(called) {
        return counts(device, alloc, other, name, standing);
    }
    let Some(other) = Name::parse_hex(called) else {
        return Ok(false);
    };
    old_counts(device, alloc, other, name, standing)
}

fn other_in<D: Device>(device: &D, alloc: Global, name: Name) -> io::Result<bool>
    ensures some { IsTrue (D.honest device.now) → IfOk result (λ any. any ≡ true → HasOther (files_of (D.past device.now)) name) }
    ensures none { IsTrue (D.honest device.now) → IfOk result (λ any. any ≡ false → HasNoOther (files_of (D.past device.now)) name) }
{
    let standing = standing_in(device, alloc, name)?;
    for called in device.list(alloc, "journal/")? {
        if is_other(device, alloc, called.as_slice(), name, &standing)? {
            return Ok(true);
        }
    }
    Ok(false)
}

/// Whether another state's journal with any frames is beside the journal of this name. One that a killed save left does
/// not count. One of version 1 counts only if there is no journal of this name.
pub fn has_other_journal<D: Device>(
    device: &D,
    alloc: Global,
    name: Name,
) -> Result<bool, FileFault>
    ensures some { IsTrue (D.honest device.now) → IfOk result (λ any. any ≡ true → HasOther (files_of (D.past device.now)) name) }
    ensures none { IsTrue (D.honest device.now) → IfOk result (λ any. any ≡ false → HasNoOther (files_of (D.past device.now)) name) }
{
    told(other_in(device, alloc, name))
}
