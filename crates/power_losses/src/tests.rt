use devices::{Fate, Memory};
use folder_store::Folder;
use git_name::{Hashing, Kind, Name, name_of};
use loose_store::{FileFault, LooseFiles};
use packed_store::Segments;
use std::alloc::{AllocError, Global};
use std::test::Fail;

// A call of a store. An object is a bit, and what it has is that byte.
#[derive(Clone, Copy)]
enum Call {
    Put(u8),
    Remove(u8),
    Sync,
    SyncAhead,
    Forget,
}

const FIRST: u8 = 1;

const SECOND: u8 = 2;

const THIRD: u8 = 4;

// Objects that are put, swept and put again, with a sync before each state that a host would save.
const CALLS: [Call; 15] = [
    Call::Put(FIRST),
    Call::Put(SECOND),
    Call::Sync,
    Call::Forget,
    Call::Remove(FIRST),
    Call::Put(THIRD),
    Call::Sync,
    Call::Forget,
    Call::Put(FIRST),
    Call::Remove(SECOND),
    Call::Put(SECOND),
    Call::SyncAhead,
    Call::Sync,
    Call::Forget,
    Call::Remove(THIRD),
];

// What is known of the objects, by their bits: which were put at any time, which are noted for the next sync, which were
// swept, and which must be there whatever is lost.
#[derive(Clone, Copy)]
struct Known {
    put: u8,
    noted: u8,
    swept: u8,
    sure: u8,
}

fn name(object: u8) -> Name {
    name_of(Kind::Blob, &[object])
}

// The bytes of an object's file.
fn file(object: u8) -> [u8; 8] {
    [b'b', b'l', b'o', b'b', b' ', b'1', 0, object]
}

// Whether a store has the whole file of an object.
fn has<S: LooseFiles>(alloc: Global, store: &mut S, object: u8) -> bool {
    match store.get(alloc, name(object)) {
        Ok(Some(found)) => found.as_slice() == file(object).as_slice(),
        _ => false,
    }
}

// Puts an object, or relies on the file that is there, as the vault does.
fn put<S: LooseFiles>(alloc: Global, store: &mut S, object: u8) -> Result<(), FileFault> {
    if has(alloc, store, object) {
        store.rely_on(name(object))?;
        return Ok(());
    }
    store.put(alloc, name(object), file(object).as_slice())
}

fn carry_out<S: LooseFiles>(alloc: Global, store: &mut S, call: Call) -> Result<(), FileFault> {
    match call {
        Call::Put(object) => put(alloc, store, object),
        Call::Remove(object) => store.remove(alloc, name(object)),
        Call::Sync => store.sync(alloc),
        Call::SyncAhead => store.sync_ahead(alloc),
        Call::Forget => store.forget_removed(alloc),
    }
}

// What is known after a call that succeeded, or not.
fn known_after(known: Known, call: Call, is_done: bool) -> Known {
    let mut known = known;
    match call {
        Call::Put(object) => {
            known.put |= object;
            if is_done {
                known.noted |= object;
            }
        }
        Call::Remove(object) => {
            known.noted &= !object;
            known.swept |= object;
        }
        Call::Sync => {
            if is_done {
                known.sure |= known.noted;
                known.swept &= !known.noted;
            }
        }
        Call::SyncAhead => {}
        Call::Forget => {
            known.sure &= !known.swept;
            if is_done {
                known.swept = 0;
            }
        }
    }
    known
}

// Carries out calls, and says what is known after them. If it is to end at the first that fails, it does.
fn known_of<S: LooseFiles>(
    alloc: Global,
    store: &mut S,
    calls: &[Call],
    ends_at_fault: bool,
) -> Known {
    let mut known = Known {
        put: 0,
        noted: 0,
        swept: 0,
        sure: 0,
    };
    for call in calls {
        let is_done = carry_out(alloc, store, *call).is_ok();
        known = known_after(known, *call, is_done);
        if ends_at_fault && !is_done {
            return known;
        }
    }
    known
}

// Whether a store has what must be there of an object, and nothing that nobody put.
fn is_right<S: LooseFiles>(alloc: Global, store: &mut S, known: Known, object: u8) -> bool {
    if known.sure & object != 0 {
        return has(alloc, store, object);
    }
    match store.get(alloc, name(object)) {
        Ok(Some(_)) => known.put & object != 0,
        Ok(None) => true,
        Err(_) => false,
    }
}

fn are_right<S: LooseFiles>(alloc: Global, store: &mut S, known: Known) -> bool {
    is_right(alloc, store, known, FIRST)
        && is_right(alloc, store, known, SECOND)
        && is_right(alloc, store, known, THIRD)
}

// Whether a folder over this device has what it must have.
fn folder_is_right(alloc: Global, hashing: Hashing, device: &mut Memory, known: Known) -> bool {
    match Folder::over(device, alloc, hashing) {
        Ok(folder) => {
            let mut folder = folder;
            are_right(alloc, &mut folder, known)
        }
        Err(_) => false,
    }
}

fn segments_are_right(alloc: Global, hashing: Hashing, device: &mut Memory, known: Known) -> bool {
    match Segments::over(device, alloc, hashing) {
        Ok(store) => {
            let mut store = store;
            are_right(alloc, &mut store, known)
        }
        Err(_) => false,
    }
}

fn store_is_right(
    alloc: Global,
    hashing: Hashing,
    device: &mut Memory,
    known: Known,
    is_packed: bool,
) -> bool {
    if is_packed {
        return segments_are_right(alloc, hashing, device, known);
    }
    folder_is_right(alloc, hashing, device, known)
}

const NOTHING: Known = Known {
    put: 0,
    noted: 0,
    swept: 0,
    sure: 0,
};

fn known_of_folder(
    alloc: Global,
    hashing: Hashing,
    device: &mut Memory,
    calls: &[Call],
    ends_at_fault: bool,
) -> Known {
    match Folder::over(device, alloc, hashing) {
        Ok(folder) => {
            let mut folder = folder;
            known_of(alloc, &mut folder, calls, ends_at_fault)
        }
        Err(_) => NOTHING,
    }
}

fn known_of_segments(
    alloc: Global,
    hashing: Hashing,
    device: &mut Memory,
    calls: &[Call],
    ends_at_fault: bool,
) -> Known {
    match Segments::over(device, alloc, hashing) {
        Ok(store) => {
            let mut store = store;
            known_of(alloc, &mut store, calls, ends_at_fault)
        }
        Err(_) => NOTHING,
    }
}

fn known_of_store(
    alloc: Global,
    hashing: Hashing,
    device: &mut Memory,
    calls: &[Call],
    ends_at_fault: bool,
    is_packed: bool,
) -> Known {
    if is_packed {
        return known_of_segments(alloc, hashing, device, calls, ends_at_fault);
    }
    known_of_folder(alloc, hashing, device, calls, ends_at_fault)
}

// So many bytes stay, by these bits: none, all, or some.
fn kept_bytes(bits: u64) -> usize {
    match bits & 3 {
        0 => 0,
        1 => usize::MAX,
        _ => (bits >> 2 & 127) as usize,
    }
}

// A fate, by these bits. In four it keeps so many changes of names.
fn fate(bits: u64, kept: u64) -> Fate {
    Fate {
        is_kept: bits & 3 < kept,
        bytes: kept_bytes(bits >> 2),
        others: (bits >> 11 & bits >> 14 & 7) as usize,
        other: (bits >> 17 & 255) as u8,
    }
}

// Fates, from those that lose each change of names to those that keep each.
fn drawn(alloc: Global) -> Result<Vec<Fate>, AllocError> {
    let mut fates = Vec::new(alloc);
    let mut state: u64 = 1;
    for kept in 0..5 {
        for _ in 0..220 {
            state = state
                .wrapping_mul(6364136223846793005)
                .wrapping_add(1442695040888963407);
            fates.push(fate(state >> 33, kept))?;
        }
    }
    Ok(fates)
}

// Whether a store is right after a loss, and after another one that comes when it was opened.
fn survives(
    alloc: Global,
    hashing: Hashing,
    device: &Memory,
    fates: &[Fate],
    known: Known,
    is_packed: bool,
) -> bool {
    let Ok(left) = device.lose_power(fates) else {
        return false;
    };
    let mut left = left;
    if !store_is_right(alloc, hashing, &mut left, known, is_packed) {
        return false;
    }
    let Ok(last) = left.lose_power(fates) else {
        return false;
    };
    let mut last = last;
    store_is_right(alloc, hashing, &mut last, known, is_packed)
}

// Whether a store survives losses, where its device fails after so many calls.
fn survives_at(
    alloc: Global,
    hashing: Hashing,
    fates: &[Fate],
    passing: u64,
    ends_at_fault: bool,
    is_packed: bool,
) -> bool {
    let mut device = Memory::new(alloc);
    device.fail_after(passing);
    let calls = CALLS.as_slice();
    let known = known_of_store(alloc, hashing, &mut device, calls, ends_at_fault, is_packed);
    survives(alloc, hashing, &device, fates, known, is_packed)
}

// After how many calls a device fails so that its store does not survive, if there is such a number. Of two losses at one
// number one ends the calls there.
fn first_loss(
    alloc: Global,
    hashing: Hashing,
    fates: &[Fate],
    opening: u64,
    losses: usize,
    step: usize,
    is_packed: bool,
) -> Option<u64> {
    for place in 0..losses {
        let passing = opening.saturating_add(((place >> 1).wrapping_mul(step) & 127) as u64);
        let fates = &fates[place.wrapping_mul(37) % fates.len().max(1)..];
        let ends = place & 1 == 0;
        if !survives_at(alloc, hashing, fates, passing, ends, is_packed) {
            return Some(passing);
        }
    }
    None
}

#[test]
fn a_folder_survives_losses_of_power(rt: HostRuntime) -> Result<(), Fail> {
    let hashing = Hashing::drawn(&rt)?;
    let fates = drawn(rt.alloc())?;
    let lost = first_loss(rt.alloc(), hashing, fates.as_slice(), 256, 64, 7, false);
    drop(fates);
    assert_eq!(rt; lost, None);
    Ok(())
}

#[test]
fn segments_survive_losses_of_power(rt: HostRuntime) -> Result<(), Fail> {
    let hashing = Hashing::drawn(&rt)?;
    let fates = drawn(rt.alloc())?;
    let lost = first_loss(rt.alloc(), hashing, fates.as_slice(), 0, 256, 3, true);
    drop(fates);
    assert_eq!(rt; lost, None);
    Ok(())
}
