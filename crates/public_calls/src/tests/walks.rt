use super::kept::Kept;
use super::objects::{Names, all_named, filled, named};
use fork_reach::{SourceFault, ancestors, reach, reach_between};
use git_name::{Hashing, Name};
use indexmap::IndexSet;
use std::alloc::{AllocError, Global};
use std::test::Fail;

// Where walks begin, what is excluded, what is found, and how many objects are read.
type Row = (&'static [u8], &'static [u8], &'static [u8], u64);

const BY_LINKS: &[Row] = &[
    (b"", b"", b"", 0),
    (b"0", b"", b"", 0),
    (b"b", b"", b"b", 0),
    (b"t", b"", b"tbe", 2),
    (b"f", b"", b"fe", 2),
    (b"l", b"", b"ltbef", 4),
    (b"g", b"", b"gltbef", 5),
    (b"0t0", b"", b"tbe", 2),
    (b"ttbt", b"", b"tbe", 2),
    (b"agf", b"", b"agltbef", 6),
    (b"g", b"l", b"g", 5),
    (b"l", b"f", b"ltb", 4),
    (b"l", b"fb", b"lt", 4),
    (b"lb", b"l", b"", 4),
];

const BY_PARENTS: &[Row] = &[
    (b"", b"", b"", 0),
    (b"0", b"", b"", 0),
    (b"f", b"", b"f", 1),
    (b"l", b"", b"lf", 2),
    (b"fl", b"", b"lf", 2),
    (b"g", b"", b"g", 0),
    (b"t", b"", b"t", 0),
    (b"0lb", b"", b"lfb", 2),
    (b"m", b"", b"mlrf", 4),
];

// Whether these names were found, and nothing else: as many as there are letters.
fn is_found(found: &IndexSet<Name, Hashing>, names: &Names, letters: &[u8]) -> bool {
    if found.len() != letters.len() {
        return false;
    }
    for letter in letters {
        if !found.contains(&named(names, *letter)) {
            return false;
        }
    }
    true
}

// Whether links lead to these objects from the first names and not from the excluded ones, and to nothing else.
fn reaches(
    alloc: Global,
    kept: &mut Kept,
    letters: &[u8],
    excluded: &[u8],
    wanted: &[u8],
) -> Result<bool, Fail> {
    let names = filled(alloc, kept)?;
    let from = all_named(alloc, &names, letters)?;
    let past = all_named(alloc, &names, excluded)?;
    let found = if past.is_empty() {
        reach(alloc, kept, from.as_slice())
    } else {
        reach_between(alloc, kept, from.as_slice(), past.as_slice())
    };
    let found = found.or(Err("reach"))?;
    Ok(is_found(&found, &names, wanted))
}

// Whether a walk along parents finds these objects, and nothing else.
fn descends_to(
    alloc: Global,
    kept: &mut Kept,
    letters: &[u8],
    wanted: &[u8],
) -> Result<bool, Fail> {
    let names = filled(alloc, kept)?;
    let from = all_named(alloc, &names, letters)?;
    let found = ancestors(alloc, kept, from.as_slice()).or(Err("ancestors"))?;
    Ok(is_found(&found, &names, wanted))
}

#[test]
fn links_lead_to_all_that_is_below_and_no_blob_is_read(rt: HostRuntime) -> Result<(), Fail> {
    let alloc = rt.alloc();
    for (letters, excluded, wanted, reads) in BY_LINKS {
        let mut kept = Kept::new(alloc);
        let is_right = reaches(alloc, &mut kept, letters, excluded, wanted);
        let count = kept.reads;
        drop(kept);
        assert!(rt; is_right?, "{letters:?} {excluded:?}");
        assert_eq!(rt; count, *reads, "{letters:?} {excluded:?}");
    }
    Ok(())
}

#[test]
fn parents_lead_to_commits_alone(rt: HostRuntime) -> Result<(), Fail> {
    let alloc = rt.alloc();
    for (letters, _, wanted, reads) in BY_PARENTS {
        let mut kept = Kept::new(alloc);
        let is_right = descends_to(alloc, &mut kept, letters, wanted);
        let count = kept.reads;
        drop(kept);
        assert!(rt; is_right?, "{letters:?}");
        assert_eq!(rt; count, *reads, "{letters:?}");
    }
    Ok(())
}

// The fault of a walk from this root, if there is one.
fn fault_of(alloc: Global, kept: &mut Kept, root: Name) -> Option<SourceFault> {
    match reach(alloc, kept, &[root]) {
        Ok(_) => None,
        Err(fault) => Some(fault),
    }
}

// Whether walks from the inner tag report each read that fails, one after another, and each later walk finds all.
fn fails_and_goes_on(alloc: Global, kept: &mut Kept) -> Result<bool, Fail> {
    let names = filled(alloc, kept)?;
    let root = named(&names, b'g');
    for fails_at in 1..6 {
        kept.reads = 0;
        kept.fails_at = fails_at;
        let fault = fault_of(alloc, kept, root);
        if fault != Some(SourceFault::Store) || kept.failures != fails_at {
            return Ok(false);
        }
        let found = reach(alloc, kept, &[root]).or(Err("reach"))?;
        if !is_found(&found, &names, b"gltbef") {
            return Ok(false);
        }
    }
    Ok(true)
}

// The fault of a walk from one object when another one is lost.
fn fault_of_loss(
    alloc: Global,
    kept: &mut Kept,
    root: u8,
    lost: u8,
) -> Result<Option<SourceFault>, AllocError> {
    let names = filled(alloc, kept)?;
    kept.lost = Some(named(&names, lost));
    Ok(fault_of(alloc, kept, named(&names, root)))
}

#[test]
fn each_read_that_fails_is_told_and_loses_nothing(rt: HostRuntime) -> Result<(), Fail> {
    let alloc = rt.alloc();
    let mut kept = Kept::new(alloc);
    let is_right = fails_and_goes_on(alloc, &mut kept);
    drop(kept);
    assert!(rt; is_right?);
    Ok(())
}

#[test]
fn a_lost_object_is_told_where_it_is_read(rt: HostRuntime) -> Result<(), Fail> {
    // The root, the object that is lost, and whether the walk reads it.
    const ROWS: &[(u8, u8, bool)] = &[
        (b'g', b'g', true),
        (b'g', b'e', true),
        (b'f', b't', false),
        (b't', b'b', false),
        (b't', b'0', false),
    ];
    let alloc = rt.alloc();
    for (root, lost, is_read) in ROWS {
        let wanted = if *is_read {
            Some(SourceFault::Damaged)
        } else {
            None
        };
        let mut kept = Kept::new(alloc);
        let fault = fault_of_loss(alloc, &mut kept, *root, *lost);
        let failures = kept.failures;
        drop(kept);
        assert!(rt; fault? == wanted, "{root} {lost}");
        assert_eq!(rt; failures, 0);
    }
    Ok(())
}
