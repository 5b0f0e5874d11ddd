// What no clause says: that calls succeed, what a later opening shows, and what a failing device leaves.
use crate::segments::Segments;
use devices::{Device, Memory};
use git_name::{Hashing, Kind, Name, seal};
use loose_store::{FileFault, LooseFiles};
use std::alloc::Global;
use std::test::Fail;

type Store = Segments<Memory>;

const FIRST: &str = "segments/00000001";

fn one() -> Name {
    Name::new([1; 32])
}

fn two() -> Name {
    Name::new([2; 32])
}

// The file of an object, and its name.
const HELLO: &[u8] = b"blob 6\0hello\n";

fn hello() -> Name {
    git_name::name_of(Kind::Blob, b"hello\n")
}

fn opened(alloc: Global, device: Memory) -> Result<Store, FileFault> {
    Segments::over(device, alloc, Hashing::default())
}

fn reopened(alloc: Global, store: Store) -> Result<Store, FileFault> {
    opened(alloc, store.into_device())
}

// Whether a store has these bytes under a name.
fn shows(alloc: Global, store: &mut Store, name: Name, bytes: &[u8]) -> bool {
    match store.get(alloc, name) {
        Ok(Some(found)) => found.as_slice() == bytes,
        _ => false,
    }
}

// Whether a store has no file of a name.
fn lacks(alloc: Global, store: &mut Store, name: Name) -> bool {
    match store.get(alloc, name) {
        Ok(None) => true,
        _ => false,
    }
}

// How many names a store lists.
fn count(alloc: Global, store: &mut Store) -> usize {
    match store.names(alloc) {
        Ok(names) => names.len(),
        Err(_) => usize::MAX,
    }
}

// Whether files and an object are there until they are removed.
fn keeps(alloc: Global, store: &mut Store) -> Result<bool, FileFault> {
    store.put(alloc, one(), b"some")?;
    store.put(alloc, two(), b"")?;
    store.put(alloc, one(), b"others")?;
    let sealed = seal(Kind::Blob, b"hello\n".to_vec(alloc)?);
    let hello = sealed.name();
    let is_back = store.put_object(alloc, sealed)?.is_some();
    let are_there = shows(alloc, store, one(), b"others")
        && shows(alloc, store, two(), b"")
        && shows(alloc, store, hello, b"blob 6\0hello\n");
    let are_three = count(alloc, store) == 3;
    store.sync(alloc)?;
    store.sync_ahead(alloc)?;
    store.remove(alloc, two())?;
    let is_gone = lacks(alloc, store, two()) && store.has_removed();
    store.forget_removed(alloc)?;
    Ok(is_back && are_there && are_three && is_gone && !store.has_removed())
}

// Whether a store that was opened again has them still.
fn still_keeps(alloc: Global, store: &mut Store) -> bool {
    let hello = git_name::name_of(Kind::Blob, b"hello\n");
    shows(alloc, store, one(), b"others")
        && lacks(alloc, store, two())
        && shows(alloc, store, hello, b"blob 6\0hello\n")
        && count(alloc, store) == 2
}

#[test]
fn files_are_there_until_they_are_removed(rt: HostRuntime) -> Result<(), Fail> {
    let mut store = opened(rt.alloc(), Memory::new(rt.alloc()))?;
    let are_kept = keeps(rt.alloc(), &mut store);
    let mut store = reopened(rt.alloc(), store)?;
    let are_still = still_keeps(rt.alloc(), &mut store);
    drop(store);
    assert!(rt; are_kept?);
    assert!(rt; are_still);
    Ok(())
}

// Puts two files.
fn put_two(alloc: Global, store: &mut Store) -> Result<(), FileFault> {
    store.put(alloc, one(), b"first")?;
    store.put(alloc, two(), b"second")
}

// The bytes of the first segment once two files are put.
fn segment_of_two(alloc: Global) -> Result<Vec<u8>, FileFault> {
    let mut store = opened(alloc, Memory::new(alloc))?;
    let put = put_two(alloc, &mut store);
    let mut device = store.into_device();
    let bytes = device.read(alloc, FIRST, 1000);
    drop(device);
    put?;
    match bytes {
        Ok(Some(bytes)) => Ok(bytes),
        _ => Err(FileFault::Device),
    }
}

// A segment with an object whose title is long, though its file is short.
fn segment_of_long(alloc: Global) -> Result<Vec<u8>, FileFault> {
    let mut bytes = b"o\0\0\0\r".to_vec(alloc)?;
    bytes.extend_from_slice(hello().as_bytes().as_slice())?;
    bytes.extend_from_slice(HELLO)?;
    Ok(bytes)
}

// Whether a segment shows the object.
fn shows_hello(alloc: Global, bytes: &[u8]) -> Result<bool, FileFault> {
    let mut device = Memory::new(alloc);
    let written = device.write(FIRST, bytes);
    let mut store = opened(alloc, device)?;
    let is_there = shows(alloc, &mut store, hello(), HELLO);
    drop(store);
    Ok(written.is_ok() && is_there)
}

#[test]
fn an_object_with_a_long_title_is_read(rt: HostRuntime) -> Result<(), Fail> {
    let bytes = segment_of_long(rt.alloc())?;
    assert_eq!(rt; bytes.len(), 37 + HELLO.len());
    assert!(rt; shows_hello(rt.alloc(), bytes.as_slice())?);
    Ok(())
}

// The bytes of the first segment once the object is put.
fn segment_of_hello(alloc: Global) -> Result<Vec<u8>, FileFault> {
    let mut store = opened(alloc, Memory::new(alloc))?;
    let put = store.put(alloc, hello(), HELLO);
    let mut device = store.into_device();
    let bytes = device.read(alloc, FIRST, 1000);
    drop(device);
    put?;
    match bytes {
        Ok(Some(bytes)) => Ok(bytes),
        _ => Err(FileFault::Device),
    }
}

#[test]
fn a_short_object_has_a_short_title(rt: HostRuntime) -> Result<(), Fail> {
    let bytes = segment_of_hello(rt.alloc())?;
    assert_eq!(rt; bytes.len(), 34 + HELLO.len());
    assert!(rt; shows_hello(rt.alloc(), bytes.as_slice())?);
    Ok(())
}

// How many bytes the record of `first` has: a title, the bytes and a sum.
const FIRST_RECORD: usize = 37 + 5 + 32;

// Whether a segment that ends here shows the files whose records are whole, and the next file goes into a new segment.
fn shows_whole(
    alloc: Global,
    store: &mut Store,
    end: usize,
    all: usize,
) -> Result<bool, FileFault> {
    let has_one = shows(alloc, store, one(), b"first");
    let has_two = shows(alloc, store, two(), b"second");
    store.put(alloc, Name::new([3; 32]), b"third")?;
    Ok(has_one == (end >= FIRST_RECORD) && has_two == (end == all))
}

// Whether what was put behind a cut end is there after another opening, and the end is as it was.
fn shows_next(alloc: Global, store: &mut Store, end: usize, all: usize) -> bool {
    shows(alloc, store, Name::new([3; 32]), b"third")
        && shows(alloc, store, one(), b"first") == (end >= FIRST_RECORD)
        && shows(alloc, store, two(), b"second") == (end == all)
}

// Whether a segment that is cut off here is read as far as it is whole.
fn survives_a_cut(alloc: Global, bytes: &[u8], all: usize) -> Result<bool, FileFault> {
    let mut device = Memory::new(alloc);
    let written = device.write(FIRST, bytes);
    let mut store = opened(alloc, device)?;
    let are_whole = shows_whole(alloc, &mut store, bytes.len(), all);
    let mut store = reopened(alloc, store)?;
    let is_next = shows_next(alloc, &mut store, bytes.len(), all);
    drop(store);
    Ok(written.is_ok() && are_whole? && is_next)
}

#[test]
fn an_end_that_is_cut_off_is_ignored(rt: HostRuntime) -> Result<(), Fail> {
    let bytes = segment_of_two(rt.alloc())?;
    assert_eq!(rt; bytes.len(), FIRST_RECORD + 37 + 6 + 32);
    for end in 0..=bytes.len() {
        assert!(rt; survives_a_cut(rt.alloc(), &bytes[..end], bytes.len())?);
    }
    Ok(())
}

#[test]
fn an_altered_byte_ends_a_segment(rt: HostRuntime) -> Result<(), Fail> {
    let mut bytes = segment_of_two(rt.alloc())?;
    assert_eq!(rt; bytes.len(), FIRST_RECORD + 37 + 6 + 32);
    for at in FIRST_RECORD..bytes.len() {
        bytes[at] ^= 1;
        assert!(rt; survives_a_cut(rt.alloc(), bytes.as_slice(), usize::MAX)?);
        bytes[at] ^= 1;
    }
    Ok(())
}

// Puts a file and removes it.
fn put_and_remove(alloc: Global, store: &mut Store) -> Result<(), FileFault> {
    store.put(alloc, one(), b"first")?;
    store.remove(alloc, one())
}

// Whether a removal was undone, and is still after later ones are made final.
fn is_undone(alloc: Global, store: &mut Store) -> Result<bool, FileFault> {
    let is_there = shows(alloc, store, one(), b"first") && !store.has_removed();
    store.put(alloc, two(), b"second")?;
    store.remove(alloc, two())?;
    store.forget_removed(alloc)?;
    Ok(is_there)
}

#[test]
fn a_removal_that_is_not_final_is_undone(rt: HostRuntime) -> Result<(), Fail> {
    let mut store = opened(rt.alloc(), Memory::new(rt.alloc()))?;
    let removed = put_and_remove(rt.alloc(), &mut store);
    let mut store = reopened(rt.alloc(), store)?;
    let was_undone = is_undone(rt.alloc(), &mut store);
    let mut store = reopened(rt.alloc(), store)?;
    let is_there = shows(rt.alloc(), &mut store, one(), b"first");
    let is_gone = lacks(rt.alloc(), &mut store, two());
    drop(store);
    removed?;
    assert!(rt; was_undone?);
    assert!(rt; is_there && is_gone);
    Ok(())
}

// Whether a put either is there or has failed, in memory and behind an opening.
fn is_told(alloc: Global, store: &mut Store, put: Result<(), FileFault>) -> bool {
    match put {
        Ok(()) => shows(alloc, store, one(), b"first"),
        Err(_) => lacks(alloc, store, one()),
    }
}

// Whether it is so if this call of the device fails, and what is put next is there.
fn survives_a_fault(alloc: Global, passing: u64) -> Result<bool, FileFault> {
    let mut device = Memory::new(alloc);
    device.fail_after(passing);
    let Ok(mut store) = opened(alloc, device) else {
        return Ok(true);
    };
    let put = store.put(alloc, one(), b"first");
    let synced = store.sync(alloc);
    let again = store.put(alloc, two(), b"second");
    let resynced = store.sync(alloc);
    let is_told_now = is_told(alloc, &mut store, put);
    let are_counted = store.failures() == put.is_err() as u64 + again.is_err() as u64;
    let mut store = reopened(alloc, store)?;
    let is_told_then = is_told(alloc, &mut store, put);
    let is_there = again.is_err() || shows(alloc, &mut store, two(), b"second");
    drop(store);
    Ok(
        is_told_now
            && are_counted
            && is_told_then
            && is_there
            && synced.is_err() <= resynced.is_err(),
    )
}

#[test]
fn a_call_that_fails_changes_nothing(rt: HostRuntime) -> Result<(), Fail> {
    // An opening, two calls of a put, three of a sync, one of a put and one of a sync.
    for passing in 0..8 {
        assert!(rt; survives_a_fault(rt.alloc(), passing)?);
    }
    Ok(())
}

// How many files the store of a compaction has at first: six segments of two files each.
const MANY: u8 = 12;

// A segment with so many bytes is full there.
const SHORT: u32 = 200;

fn numbered(number: u8) -> Name {
    Name::new([number; 32])
}

// Opens segments that are full early.
fn opened_short(alloc: Global, device: Memory) -> Result<Store, FileFault> {
    let mut store = opened(alloc, device)?;
    store.set_full(SHORT);
    Ok(store)
}

// Whether every fourth of the files is there, and no other.
fn shows_every_fourth(alloc: Global, store: &mut Store) -> bool {
    let mut is_right = true;
    for number in 0..MANY {
        let name = numbered(number);
        let is_there = shows(alloc, store, name, [number; 40].as_slice());
        is_right = is_right && is_there == (number % 4 == 0);
    }
    is_right
}

// Puts the files.
fn put_many(alloc: Global, store: &mut Store) -> Result<(), FileFault> {
    for number in 0..MANY {
        store.put(alloc, numbered(number), [number; 40].as_slice())?;
    }
    store.sync(alloc)
}

// Removes all but every fourth. Answers whether each removal succeeded.
fn remove_most(alloc: Global, store: &mut Store) -> bool {
    let mut is_done = true;
    for number in 0..MANY {
        if number % 4 != 0 {
            is_done = store.remove(alloc, numbered(number)).is_ok() && is_done;
        }
    }
    is_done
}

// Makes removals final several times. Answers whether each succeeded.
fn forget_often(alloc: Global, store: &mut Store) -> bool {
    let mut is_done = true;
    for _ in 0..12 {
        is_done = store.remove(alloc, one()).is_ok() && is_done;
        is_done = store.forget_removed(alloc).is_ok() && is_done;
    }
    is_done
}

// A device with all files, in segments that are full early.
fn device_of_many(alloc: Global) -> Result<Memory, FileFault> {
    let mut store = opened_short(alloc, Memory::new(alloc))?;
    let put = put_many(alloc, &mut store);
    let device = store.into_device();
    put?;
    Ok(device)
}

// How many segments a device has, and whether the first is one.
fn segments_of(alloc: Global, device: &mut Memory) -> (usize, bool) {
    let count = match device.list(alloc, "segments/") {
        Ok(listing) => listing.len(),
        Err(_) => usize::MAX,
    };
    let is_first = match device.read(alloc, FIRST, 1000) {
        Ok(None) => false,
        _ => true,
    };
    (count, is_first)
}

#[test]
fn segments_that_are_mostly_gone_are_removed(rt: HostRuntime) -> Result<(), Fail> {
    let mut device = device_of_many(rt.alloc())?;
    let before = segments_of(rt.alloc(), &mut device);
    let mut store = opened_short(rt.alloc(), device)?;
    let are_removed = remove_most(rt.alloc(), &mut store);
    let are_final = forget_often(rt.alloc(), &mut store);
    let are_kept = shows_every_fourth(rt.alloc(), &mut store);
    let mut device = store.into_device();
    let behind = segments_of(rt.alloc(), &mut device);
    let mut store = opened_short(rt.alloc(), device)?;
    let are_still = shows_every_fourth(rt.alloc(), &mut store)
        && count(rt.alloc(), &mut store) == 3;
    drop(store);
    assert!(rt; are_removed && are_final && are_kept && are_still);
    assert_eq!(rt; before, (6, true));
    assert!(rt; behind.0 < 4 && !behind.1);
    Ok(())
}

// Whether every fourth file is there.
fn has_every_fourth(alloc: Global, store: &mut Store) -> bool {
    let mut is_right = true;
    for number in 0..MANY {
        if number % 4 == 0 {
            is_right = shows(alloc, store, numbered(number), [number; 40].as_slice()) && is_right;
        }
    }
    is_right
}

// Whether the files that stay are there if this call of the device fails, in memory and behind an opening.
fn loses_nothing(alloc: Global, passing: u64) -> Result<bool, FileFault> {
    let mut device = device_of_many(alloc)?;
    device.fail_after(passing);
    let Ok(mut store) = opened_short(alloc, device) else {
        return Ok(true);
    };
    let are_removed = remove_most(alloc, &mut store);
    let are_final = forget_often(alloc, &mut store);
    // The call that fails may be one of the first look.
    let are_there = has_every_fourth(alloc, &mut store) || has_every_fourth(alloc, &mut store);
    let mut device = store.into_device();
    device.fail_after(u64::MAX);
    let mut store = opened_short(alloc, device)?;
    let are_still = has_every_fourth(alloc, &mut store);
    let are_gone = !are_removed || !are_final || shows_every_fourth(alloc, &mut store);
    drop(store);
    Ok(are_there && are_still && are_gone)
}

#[test]
fn a_compaction_that_fails_loses_nothing(rt: HostRuntime) -> Result<(), Fail> {
    // An opening has 205 calls, and what comes then has 524.
    for passing in 200..740 {
        assert!(rt; loses_nothing(rt.alloc(), passing)?);
    }
    Ok(())
}
