use super::kept::Kept;
use super::objects::{Names, all_named, filled, items};
use fork_query::{QueryError, cat_file, fetch};
use fork_reach::SourceFault;
use git_reftx::Repository;
use std::alloc::{AllocError, Global};
use std::test::Fail;

// The records of the objects of these letters, ascending by name.
fn records(alloc: Global, kept: &mut Kept, names: &Names, letters: &[u8]) -> Result<Vec<u8>, Fail> {
    let mut listed = all_named(alloc, names, letters)?;
    listed.sort_unstable();
    let mut text = Vec::new(alloc);
    for name in &listed {
        let told = cat_file(alloc, kept, *name).or(Err("cat-file"))?;
        text.extend_from_slice(told.as_slice())?;
    }
    Ok(text)
}

// Whether fetching these items returns the records of these objects, and how many reads that took.
fn fetches(
    alloc: Global,
    kept: &mut Kept,
    text: &[u8],
    letters: &[u8],
) -> Result<(bool, u64), Fail> {
    let names = filled(alloc, kept)?;
    let text = items(alloc, &names, text)?;
    let told = fetch(alloc, kept, &Repository::new(alloc), text.as_slice()).or(Err("fetch"))?;
    let count = kept.reads;
    let wanted = records(alloc, kept, &names, letters)?;
    Ok((told.as_slice() == wanted.as_slice(), count))
}

// Whether a fetch of `l ^f` reports that the store failed.
fn fails(alloc: Global, kept: &mut Kept) -> Result<bool, AllocError> {
    let names = filled(alloc, kept)?;
    let text = items(alloc, &names, b"l ^f")?;
    let answer = fetch(alloc, kept, &Repository::new(alloc), text.as_slice());
    Ok(has_failed(&answer))
}

#[test]
fn each_object_is_read_once_to_be_sent_and_once_for_a_walk(rt: HostRuntime) -> Result<(), Fail> {
    // The items, the objects, and how many reads it takes: no blob is read for a walk.
    const ROWS: &[(&[u8], &[u8], u64)] = &[
        (b"b", b"b", 1),
        (b"t", b"tbe", 5),
        (b"l ^f", b"ltb", 7),
        (b"^f l ^b", b"lt", 6),
        (b"g ^l", b"g", 6),
        (b"^l", b"", 4),
    ];
    let alloc = rt.alloc();
    for (text, letters, reads) in ROWS {
        let mut kept = Kept::new(alloc);
        let told = fetches(alloc, &mut kept, text, letters);
        drop(kept);
        assert_eq!(rt; told?, (true, *reads), "{letters:?}");
    }
    Ok(())
}

// Whether a query failed because of its store.
fn has_failed(answer: &Result<Vec<u8>, QueryError>) -> bool {
    match answer {
        Err(QueryError::Failed(SourceFault::Store)) => true,
        _ => false,
    }
}

#[test]
fn each_read_that_fails_is_told(rt: HostRuntime) -> Result<(), Fail> {
    let alloc = rt.alloc();
    for fails_at in 1..9 {
        let mut kept = Kept::new(alloc);
        kept.fails_at = fails_at;
        let has_failed = fails(alloc, &mut kept);
        drop(kept);
        assert_eq!(rt; has_failed?, fails_at < 8, "{fails_at}");
    }
    Ok(())
}
