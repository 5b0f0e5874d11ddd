use devices::{Device, DeviceFault, Memory};
use folder_store::Folder;
use git_name::{Hashing, Kind, Name, name_of};
use loose_store::{FileFault, LooseFiles};
use std::alloc::Global;
use std::test::Fail;

fn hello() -> Name {
    name_of(Kind::Blob, b"hello\n")
}

// Whether a read with this bound shows these bytes.
fn shows(alloc: Global, device: &mut Memory, path: &str, most: u64, bytes: &[u8]) -> bool {
    match device.read(alloc, path, most) {
        Ok(Some(found)) => found.as_slice() == bytes,
        _ => false,
    }
}

// Whether a device shows what was written, appended, renamed and removed.
fn keeps(alloc: Global, device: &mut Memory) -> Result<bool, Fail> {
    device.write("part", b"hel")?;
    device.append("part", b"lo")?;
    let was_renamed = device.rename("part", "a/b")?;
    device.write("a/b/c", b"")?;
    device.sync_file("a/b")?;
    device.sync_folder("a/")?;
    let is_shown = shows(alloc, device, "a/b", 5, b"hello") && shows(alloc, device, "a/b", 4, b"");
    let is_gone = device.read(alloc, "part", 5)?.is_none();
    let was_lost = device.rename("part", "b")?;
    let names = device.list(alloc, "a/")?;
    let is_listed = names.len() == 1;
    device.remove("a/b")?;
    let is_removed = device.read(alloc, "a/b", 5)?.is_none();
    Ok(is_shown && was_renamed && is_gone && !was_lost && is_listed && is_removed)
}

// Whether the next call of a device fails, and the one after it does not.
fn fails_once(device: &mut Memory) -> bool {
    device.fail_after(1);
    let is_passed = device.remove("a").is_ok();
    let has_failed = device.sync_folder("") == Err(DeviceFault::Device);
    is_passed && has_failed && device.sync_folder("").is_ok()
}

#[test]
fn a_device_in_memory_keeps_what_was_done(rt: HostRuntime) -> Result<(), Fail> {
    let mut device = Memory::new(rt.alloc());
    let is_kept = keeps(rt.alloc(), &mut device);
    let has_failed = fails_once(&mut device);
    drop(device);
    assert!(rt; is_kept?);
    assert!(rt; has_failed);
    Ok(())
}

// Whether a folder has just this name.
fn has_only(alloc: Global, folder: &mut Folder<Memory>, name: Name) -> bool {
    match folder.names(alloc) {
        Ok(names) => names.as_slice() == [name].as_slice(),
        Err(_) => false,
    }
}

// Whether a file is in a folder until it is removed, although the first write to its device fails.
fn stores(alloc: Global, folder: &mut Folder<Memory>) -> Result<bool, Fail> {
    let is_refused = folder.put(alloc, hello(), b"some") == Err(FileFault::Device);
    folder.put(alloc, hello(), b"some")?;
    folder.sync(alloc)?;
    let is_there = has_only(alloc, folder, hello());
    let read = folder.get(alloc, hello())?.ok_or("no file")?;
    folder.remove(alloc, hello())?;
    let is_gone = folder.get(alloc, hello())?.is_none() && folder.has_removed();
    folder.forget_removed(alloc)?;
    Ok(
        is_refused
            && is_there
            && read.as_slice() == b"some".as_slice()
            && is_gone
            && folder.failures() == 1,
    )
}

#[test]
fn a_folder_over_a_device_keeps_files(rt: HostRuntime) -> Result<(), Fail> {
    let mut device = Memory::new(rt.alloc());
    device.fail_after(259);
    let mut folder = Folder::over(device, rt.alloc(), Hashing::drawn(&rt)?)?;
    let is_kept = stores(rt.alloc(), &mut folder);
    drop(folder);
    assert!(rt; is_kept?);
    Ok(())
}

// Whether no sync succeeds once one failed in a put, of the move of the swept file, and no put of its name either.
fn fails_to_sync(alloc: Global, folder: &mut Folder<Memory>) -> Result<bool, Fail> {
    folder.put(alloc, hello(), b"some")?;
    folder.sync(alloc)?;
    folder.remove(alloc, hello())?;
    let is_refused = folder.put(alloc, hello(), b"more") == Err(FileFault::Device);
    let is_refused_again = folder.put(alloc, hello(), b"more") == Err(FileFault::Device);
    let has_failed = folder.sync(alloc) == Err(FileFault::Device);
    let is_ended = folder.sync(alloc) == Err(FileFault::Device);
    Ok(is_refused && is_refused_again && has_failed && is_ended)
}

#[test]
fn a_failed_sync_of_a_move_fails_each_later_sync(rt: HostRuntime) -> Result<(), Fail> {
    let mut device = Memory::new(rt.alloc());
    device.fail_after(266);
    let mut folder = Folder::over(device, rt.alloc(), Hashing::drawn(&rt)?)?;
    let has_failed = fails_to_sync(rt.alloc(), &mut folder);
    drop(folder);
    assert!(rt; has_failed?);
    Ok(())
}

// Whether a swept file stays, since its removal fails, after which a file of its name is put again, synced and removed.
fn sweeps_twice(alloc: Global, folder: &mut Folder<Memory>) -> Result<bool, FileFault> {
    folder.put(alloc, hello(), b"first")?;
    folder.remove(alloc, hello())?;
    let is_refused = folder.forget_removed(alloc) == Err(FileFault::Device);
    let is_still_told = folder.has_removed();
    folder.put(alloc, hello(), b"second")?;
    folder.sync(alloc)?;
    folder.remove(alloc, hello())?;
    Ok(is_refused && is_still_told)
}

// Whether a folder shows these bytes under the name.
fn has(alloc: Global, folder: &mut Folder<Memory>, bytes: &[u8]) -> bool {
    match folder.get(alloc, hello()) {
        Ok(Some(found)) => found.as_slice() == bytes,
        _ => false,
    }
}

// The last removal may be lost with the power, so that the state names the file that was synced.
#[test]
fn a_synced_file_is_swept_over_an_older_one(rt: HostRuntime) -> Result<(), Fail> {
    let hashing = Hashing::drawn(&rt)?;
    let mut device = Memory::new(rt.alloc());
    device.fail_after(263);
    let mut folder = Folder::over(device, rt.alloc(), hashing)?;
    let is_swept = sweeps_twice(rt.alloc(), &mut folder) == Ok(true);
    let mut folder = Folder::over(folder.into_device(), rt.alloc(), hashing)?;
    let is_back = has(rt.alloc(), &mut folder, b"second");
    drop(folder);
    assert!(rt; is_swept);
    assert!(rt; is_back);
    Ok(())
}
