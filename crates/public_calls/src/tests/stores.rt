use git_name::{Hashing, Kind, Name, name_of, seal};
use loose_store::{Call, Fused, LooseFiles, Memory, StoreFault, file_of, read_checked};
use std::alloc::Global;
use std::test::Fail;

fn hello() -> Name {
    name_of(Kind::Blob, b"hello\n")
}

// Whether a store lends an object that was put but not a file that a test set, and reads the object.
fn keeps(alloc: Global, files: &mut Memory) -> Result<bool, Fail> {
    let sealed = seal(Kind::Blob, b"hello\n".to_vec(alloc)?);
    let file = file_of(alloc, &sealed)?;
    files.set(alloc, hello(), file.as_slice())?;
    let is_set = file.as_slice() == b"blob 6\0hello\n".as_slice() && files.lend(hello()).is_none();
    let is_kept = files.put_object(alloc, sealed)?.is_none();
    let is_lent = match files.lend(hello()) {
        Some((kind, bytes)) => kind == Kind::Blob && bytes == b"hello\n".as_slice(),
        None => false,
    };
    let read = read_checked(alloc, files, hello())?.ok_or("no object")?;
    Ok(is_set && is_kept && is_lent && read.bytes() == b"hello\n".as_slice())
}

// Whether a checked read returns this fault.
fn tells(alloc: Global, fused: &mut Fused<Memory>, fault: StoreFault) -> bool {
    match read_checked(alloc, fused, hello()) {
        Ok(_) => false,
        Err(told) => told == fault,
    }
}

// Whether a store that fails only the second read does so over a damaged file.
fn fails_once(alloc: Global, fused: &mut Fused<Memory>) -> bool {
    let is_put = fused.put(alloc, hello(), b"blob 6\0hellO\n").is_ok();
    let is_listed = match fused.names(alloc) {
        Ok(names) => names.as_slice() == [hello()].as_slice(),
        Err(_) => false,
    };
    let has_failed = tells(alloc, fused, StoreFault::Damaged)
        && tells(alloc, fused, StoreFault::Device)
        && tells(alloc, fused, StoreFault::Damaged);
    let is_removed = fused.remove(alloc, hello()).is_ok();
    is_put && is_listed && has_failed && is_removed && fused.failures() == 1
}

#[test]
fn a_fused_store_fails_when_it_should(rt: HostRuntime) -> Result<(), Fail> {
    let alloc = rt.alloc();
    let mut files = Memory::with_hashing(alloc, Hashing::drawn(&rt)?);
    let is_kept = keeps(alloc, &mut files);
    let mut fused = Fused::new(files, Some(Call::Get), 1, 1);
    let has_failed = fails_once(alloc, &mut fused);
    let files = fused.into_inner();
    let failures = files.failures();
    drop(files);
    assert!(rt; is_kept?);
    assert!(rt; has_failed);
    assert_eq!(rt; failures, 0);
    Ok(())
}
