use super::kept::Kept;
use super::objects::{absent, put_blob, put_tree};
use fork_push::{PushRefusal, Verdict, judge};
use git_name::{Kind, Name, name_of};
use git_reftx::{Change, Command, Demand, RefWord, Refs};
use push_stream::{Brief, StreamFault};
use std::alloc::{AllocError, Global};
use std::test::Fail;

// Both sides use 379 bytes: a blob `b` of one byte, and three trees of one entry. The tree `t` links to the blob, `m`
// to an object that does not exist, and `w` to the blob as a tree.
const USED: u64 = 379;

fn blob() -> Name {
    name_of(Kind::Blob, b"x")
}

// The objects with their letters.
fn filled(alloc: Global, kept: &mut Kept) -> Result<[(u8, Name); 4], AllocError> {
    let blob = put_blob(alloc, kept)?;
    let of_blob = put_tree(alloc, kept, &[(b"100644 a\0", blob)])?;
    let astray = put_tree(alloc, kept, &[(b"100644 a\0", absent())])?;
    let wrong = put_tree(alloc, kept, &[(b"40000 a\0", blob)])?;
    Ok([(b'b', blob), (b't', of_blob), (b'm', astray), (b'w', wrong)])
}

fn named(objects: &[(u8, Name)], wanted: u8) -> Name {
    for (letter, name) in objects {
        if *letter == wanted {
            return *name;
        }
    }
    absent()
}

// A stream with the objects of these letters, and with a command that creates the reference, which points at the blob.
fn sent(
    alloc: Global,
    objects: &[(u8, Name)],
    letters: &[u8],
    reference: &[u8],
) -> Result<Brief, AllocError> {
    let mut names = Vec::new(alloc);
    for letter in letters {
        names.push(named(objects, *letter))?;
    }
    let mut commands = Vec::new(alloc);
    commands.push(Command {
        reference: RefWord::new(reference.to_vec(alloc)?),
        demand: Demand::Absent,
        change: Change::Point(blob()),
    })?;
    Ok(Brief { commands, names })
}

// The verdict on a push of the objects of these letters, and of a reference that points at the blob.
fn judged(
    alloc: Global,
    kept: &mut Kept,
    letters: &[u8],
    reference: &[u8],
    limit: u64,
) -> Result<&'static str, AllocError> {
    let objects = filled(alloc, kept)?;
    let brief = sent(alloc, objects.as_slice(), letters, reference)?;
    let verdict = judge(alloc, kept, &[], &Ok(brief), &Refs::new(alloc), limit);
    Ok(told(&verdict))
}

// A verdict in a word.
fn told(verdict: &Verdict) -> &'static str {
    match verdict {
        Verdict::Accepted(_) => "accepted",
        Verdict::Refused(refusal) => told_refusal(refusal),
        Verdict::Failed(_) => "failed",
    }
}

fn told_refusal(refusal: &PushRefusal) -> &'static str {
    match refusal {
        PushRefusal::Stream(_) => "stream",
        PushRefusal::Missing(_) => "missing",
        PushRefusal::WrongType(_) => "wrong-type",
        PushRefusal::Transaction(_) => "transaction",
        PushRefusal::OverQuota => "over-quota",
    }
}

#[test]
fn the_first_reason_decides_and_no_blob_is_read(rt: HostRuntime) -> Result<(), Fail> {
    // The objects that are sent, the reference, the limit, the verdict, and how many objects are read.
    const ROWS: &[(&[u8], &[u8], u64, &str, u64)] = &[
        (b"", b"refs/tags/a", USED, "accepted", 0),
        (b"b", b"refs/tags/a", USED, "accepted", 0),
        (b"bbb", b"refs/tags/a", USED, "accepted", 0),
        (b"btb", b"refs/tags/a", USED, "accepted", 1),
        (b"0", b"refs/tags/a", USED, "accepted", 1),
        (b"tm", b"refs/tags/a", USED, "missing", 2),
        (b"tw", b"refs/tags/a", USED, "wrong-type", 2),
        (b"bwt", b"refs/tags/a", USED, "wrong-type", 2),
        (b"bmt", b"refs/tags/a", USED, "missing", 1),
        (b"wm", b"refs/tags/a", USED, "missing", 2),
        (b"mw", b"refs/tags/a", USED, "missing", 1),
        (b"t", b"refs/heads/a", USED, "transaction", 1),
        (b"w", b"refs/heads/a", USED, "wrong-type", 1),
        (b"t", b"refs/tags/a", USED - 1, "over-quota", 1),
        (b"t", b"refs/heads/a", 0, "transaction", 1),
        (b"w", b"refs/tags/a", 0, "wrong-type", 1),
    ];
    let alloc = rt.alloc();
    for (letters, reference, limit, wanted, reads) in ROWS {
        let mut kept = Kept::new(alloc);
        let told = judged(alloc, &mut kept, letters, reference, *limit);
        let count = kept.reads;
        drop(kept);
        assert_eq!(rt; told?, *wanted, "{letters:?}");
        assert_eq!(rt; count, *reads, "{letters:?}");
    }
    Ok(())
}

#[test]
fn a_push_fails_where_a_read_does_and_not_for_a_stream_that_is_wrong(
    rt: HostRuntime,
) -> Result<(), Fail> {
    let alloc = rt.alloc();
    let mut kept = Kept::new(alloc);
    kept.fails_at = 1;
    let verdict = judge(
        alloc,
        &mut kept,
        &[],
        &Err(StreamFault::TooMany),
        &Refs::new(alloc),
        USED,
    );
    let of_stream = told(&verdict);
    let of_read = judged(alloc, &mut kept, b"t", b"refs/tags/a", USED);
    drop(kept);
    assert_eq!(rt; of_stream, "stream");
    assert_eq!(rt; of_read?, "failed");
    Ok(())
}
