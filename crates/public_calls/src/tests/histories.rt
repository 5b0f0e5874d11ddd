use super::kept::Kept;
use super::objects::{Names, absent, all_named, filled, items, named, put_line};
use fork_query::{QueryError, merge_base, rev_list};
use fork_reach::{History, read_history};
use git_name::{Hashing, Name};
use git_reftx::Repository;
use indexmap::IndexSet;
use std::alloc::{AllocError, Global};
use std::test::Fail;

// Whether a history has three commits whose times add up to 40.
fn has_three(history: &History) -> bool {
    let (listed, notes) = history.commits();
    let mut seconds = 0u64;
    for noted in notes {
        seconds = seconds.saturating_add(noted.seconds());
    }
    listed.len() == 3 && seconds == 40
}

// Whether this is the one best common ancestor of two commits.
fn has_best(
    alloc: Global,
    history: &History,
    a: Name,
    b: Name,
    best: Name,
) -> Result<bool, AllocError> {
    let found = history.best_common(alloc, a, b)?;
    Ok(found.len() == 1 && found.contains(&best))
}

// Whether a history of the left commit, a tree and a missing object keeps what it should.
fn keeps_left(alloc: Global, kept: &mut Kept) -> Result<bool, Fail> {
    let names = filled(alloc, kept)?;
    let none = IndexSet::with_hasher(alloc, Hashing::default());
    let (left, first) = (named(&names, b'l'), named(&names, b'f'));
    let roots = [left, named(&names, b't'), absent()];
    let history = read_history(alloc, kept, &roots, &none).or(Err("read_history"))?;
    let has_three = has_three(&history);
    let has_best = has_best(alloc, &history, left, first, first);
    drop(history);
    Ok(has_three && has_best?)
}

#[test]
fn a_history_keeps_parents_and_times(rt: HostRuntime) -> Result<(), Fail> {
    let alloc = rt.alloc();
    let mut kept = Kept::new(alloc);
    let is_right = keeps_left(alloc, &mut kept);
    let count = kept.reads;
    drop(kept);
    assert!(rt; is_right?);
    assert_eq!(rt; count, 2);
    Ok(())
}

// A line for each letter, in the order of the letters, or in ascending order of the names if `by_name` is set.
fn lines(
    alloc: Global,
    names: &Names,
    letters: &[u8],
    by_name: bool,
) -> Result<Vec<u8>, AllocError> {
    let mut listed = all_named(alloc, names, letters)?;
    if by_name {
        listed.sort_unstable();
    }
    let mut text = Vec::new(alloc);
    for name in &listed {
        put_line(&mut text, b"", *name)?;
    }
    Ok(text)
}

fn is_told(answer: &Result<Vec<u8>, QueryError>, text: &[u8]) -> bool {
    match answer {
        Ok(told) => told.as_slice() == text,
        Err(_) => false,
    }
}

// Whether `rev_list` of these items returns these commits.
fn lists(
    alloc: Global,
    kept: &mut Kept,
    text: &[u8],
    letters: &[u8],
    by_name: bool,
) -> Result<bool, AllocError> {
    let names = filled(alloc, kept)?;
    let text = items(alloc, &names, text)?;
    let wanted = lines(alloc, &names, letters, by_name)?;
    let answer = rev_list(alloc, kept, &Repository::new(alloc), text.as_slice());
    Ok(is_told(&answer, wanted.as_slice()))
}

// Whether `merge_base` of two commits returns these.
fn has_bases(
    alloc: Global,
    kept: &mut Kept,
    a: u8,
    b: u8,
    letters: &[u8],
) -> Result<bool, AllocError> {
    let names = filled(alloc, kept)?;
    let a = items(alloc, &names, &[a])?;
    let b = items(alloc, &names, &[b])?;
    let wanted = lines(alloc, &names, letters, true)?;
    let repository = Repository::new(alloc);
    let answer = merge_base(alloc, kept, &repository, a.as_slice(), b.as_slice());
    Ok(is_told(&answer, wanted.as_slice()))
}

#[test]
fn each_commit_is_read_once_to_be_listed(rt: HostRuntime) -> Result<(), Fail> {
    // The items, the commits, whether they are in ascending order of names, and how many objects are read.
    const ROWS: &[(&[u8], &[u8], bool, u64)] = &[
        (b"f", b"f", false, 1),
        (b"m", b"mlrf", false, 4),
        (b"m c ^l ^r", b"mc", true, 5),
        (b"m ^l", b"mr", false, 4),
        (b"^l m", b"mr", false, 4),
        (b"l ^m", b"", false, 4),
        (b"^l", b"", false, 2),
        (b"a r", b"arf", false, 3),
        (b"o", b"lf", false, 4),
        (b"o g o l", b"lf", false, 4),
        (b"g o ^r", b"l", false, 5),
    ];
    let alloc = rt.alloc();
    for (text, letters, by_name, reads) in ROWS {
        let mut kept = Kept::new(alloc);
        let is_right = lists(alloc, &mut kept, text, letters, *by_name);
        let count = kept.reads;
        drop(kept);
        assert!(rt; is_right?, "{letters:?}");
        assert_eq!(rt; count, *reads, "{letters:?}");
    }
    Ok(())
}

#[test]
fn each_commit_is_read_once_for_bases(rt: HostRuntime) -> Result<(), Fail> {
    // Two commits, their merge bases, and how many objects are read.
    const ROWS: &[(u8, u8, &[u8], u64)] = &[
        (b'm', b'c', b"lr", 5),
        (b'l', b'r', b"f", 3),
        (b'm', b'l', b"l", 4),
        (b'l', b'l', b"l", 2),
        (b'a', b'f', b"", 2),
        (b'o', b'g', b"l", 4),
    ];
    let alloc = rt.alloc();
    for (a, b, letters, reads) in ROWS {
        let mut kept = Kept::new(alloc);
        let is_right = has_bases(alloc, &mut kept, *a, *b, letters);
        let count = kept.reads;
        drop(kept);
        assert!(rt; is_right?, "{letters:?}");
        assert_eq!(rt; count, *reads, "{letters:?}");
    }
    Ok(())
}
