use git_name::{Kind, Sealed, seal};
use push_stream::{BodyError, OpenUpload, Sent, StreamFault, write_record};
use std::alloc::{AllocError, Global};
use std::test::Fail;

// An empty line, the empty tree, and a commit of it: 279 bytes, with the names that Git 2.39.5 gives them.
const STREAM: &[u8] =
    b"\n6ef19b41225c5369f1c104d45d8d85efa9b057b53b14b4b9b939dd74decc5321 tree 0\n\nebf19fdd8350b77fa7dc28d348756e6e44686800e9a932ed072db05f9b2b538f commit 128\ntree 6ef19b41225c5369f1c104d45d8d85efa9b057b53b14b4b9b939dd74decc5321\nauthor Ada <a@x> 1 +0000\ncommitter Ada <a@x> 1 +0000\n\none\n\n";

// A command line, an empty line, and the records of forty blobs of up to 1,500 bytes.
fn forty(alloc: Global) -> Result<Vec<u8>, AllocError> {
    let mut bytes = b"verify refs/heads/none\n\n".to_vec(alloc)?;
    for number in 0..40u8 {
        let mut content = Vec::new(alloc);
        content.resize(number as usize * 37, number)?;
        let blob = seal(Kind::Blob, content);
        bytes.extend_from_slice(write_record(alloc, &blob)?.as_slice())?;
    }
    Ok(bytes)
}

// How many objects a piece gives, first looked at and then taken; 0 if there is no room for it.
fn fed(alloc: Global, upload: &mut OpenUpload, piece: &[u8]) -> Result<usize, AllocError> {
    if upload.count() > 1_048_576 || piece.len() > 1_048_576 {
        return Ok(0);
    }
    let before = upload.look(alloc, piece)?;
    let again = upload.feed(alloc, piece)?;
    if before.objects.len() != again.objects.len() {
        return Ok(100);
    }
    Ok(again.objects.len())
}

// How many objects a stream gave, and how many names it has at its end.
fn ended(alloc: Global, upload: &OpenUpload, objects: usize) -> Result<(usize, usize), AllocError> {
    match upload.finish(alloc) {
        Ok(brief) => Ok((objects, brief.names.len())),
        Err(_) => Ok((objects, 1000)),
    }
}

// As `ended`, for the stream above in a piece of `first` bytes and then pieces of `size` bytes.
fn cut(alloc: Global, first: usize, size: usize) -> Result<(usize, usize), AllocError> {
    let mut upload = OpenUpload::new(alloc);
    let at = first.min(STREAM.len());
    let mut objects = fed(alloc, &mut upload, &STREAM[..at])?;
    for piece in STREAM[at..].chunks(size.max(1)) {
        objects = objects.saturating_add(fed(alloc, &mut upload, piece)?);
    }
    ended(alloc, &upload, objects)
}

#[test]
fn a_stream_gives_its_objects_once_wherever_it_is_cut(rt: HostRuntime) -> Result<(), Fail> {
    let alloc = rt.alloc();
    for first in 0..280 {
        assert_eq!(rt; cut(alloc, first, 1000)?, (2, 2), "{first}");
    }
    assert_eq!(rt; cut(alloc, 0, 1)?, (2, 2));
    Ok(())
}

// As `ended`, for a stream in pieces of random length, up to 4,096 bytes.
fn chopped(alloc: Global, bytes: &[u8], seed: u32) -> Result<(usize, usize), AllocError> {
    let mut upload = OpenUpload::new(alloc);
    let mut objects = 0usize;
    let mut chance = seed;
    let mut rest = bytes;
    for _ in 0..bytes.len() {
        if rest.is_empty() {
            break;
        }
        chance = chance.wrapping_mul(1_664_525).wrapping_add(1_013_904_223);
        let size = (chance >> 20) as usize + 1;
        let (piece, behind) = rest.split_at(size.min(rest.len()));
        objects = objects.saturating_add(fed(alloc, &mut upload, piece)?);
        rest = behind;
    }
    ended(alloc, &upload, objects)
}

#[test]
fn forty_objects_come_once_each_in_pieces_by_chance(rt: HostRuntime) -> Result<(), Fail> {
    let alloc = rt.alloc();
    let bytes = forty(alloc)?;
    for seed in 0..50 {
        assert_eq!(rt; chopped(alloc, bytes.as_slice(), seed)?, (40, 40), "{seed}");
    }
    Ok(())
}

// Whether an object that was sent has this kind and length.
fn is_sent(sent: &Sent, kind: Kind, length: u64) -> bool {
    sent.kind == kind && sent.length == length
}

#[test]
fn what_was_sent_is_told_of_an_upload(rt: HostRuntime) -> Result<(), Fail> {
    let mut upload = OpenUpload::new(rt.alloc());
    let was_empty = upload.sent().is_empty();
    let objects = fed(rt.alloc(), &mut upload, STREAM);
    let is_told = match upload.sent() {
        [tree, commit] => is_sent(tree, Kind::Tree, 0) && is_sent(commit, Kind::Commit, 128),
        _ => false,
    };
    drop(upload);
    assert_eq!(rt; objects?, 2);
    assert!(rt; was_empty && is_told);
    Ok(())
}

// Adds the records of these objects.
fn add_records(alloc: Global, records: &mut Vec<u8>, objects: &[Sealed]) -> Result<(), AllocError> {
    for sealed in objects {
        records.extend_from_slice(write_record(alloc, sealed)?.as_slice())?;
    }
    Ok(())
}

// Feeds an upload in pieces of `size` bytes, and returns the records of the objects that came; none if the stream broke
// or there was no room.
fn gathered(
    alloc: Global,
    upload: &mut OpenUpload,
    bytes: &[u8],
    size: usize,
) -> Result<Vec<u8>, AllocError> {
    let mut records = Vec::new(alloc);
    for piece in bytes.chunks(size.max(1)) {
        if upload.count() > 1_048_576 || piece.len() > 1_048_576 {
            return Ok(Vec::new(alloc));
        }
        let step = upload.feed(alloc, piece)?;
        add_records(alloc, &mut records, step.objects.as_slice())?;
        if step.is_fault {
            records.clear();
        }
    }
    Ok(records)
}

// The bytes that open an upload again, given the records that came of it.
fn opened(alloc: Global, upload: &OpenUpload, records: &[u8]) -> Result<Vec<u8>, AllocError> {
    let parts = upload.again();
    let mut opened = parts.header.to_vec(alloc)?;
    opened.extend_from_slice(records)?;
    opened.extend_from_slice(parts.tail)?;
    for _ in 0..parts.zeros {
        opened.push(0)?;
    }
    Ok(opened)
}

// As `opened`, for an upload that received these bytes in pieces of `size` bytes.
fn again(alloc: Global, bytes: &[u8], size: usize) -> Result<Vec<u8>, AllocError> {
    let mut upload = OpenUpload::new(alloc);
    let records = gathered(alloc, &mut upload, bytes, size)?;
    opened(alloc, &upload, records.as_slice())
}

#[test]
fn an_upload_is_opened_again_by_the_bytes_that_came(rt: HostRuntime) -> Result<(), Fail> {
    let alloc = rt.alloc();
    let bytes = forty(alloc)?;
    for size in [1, 7, 100, 1000, 100_000] {
        assert_eq!(rt;
            again(alloc, bytes.as_slice(), size)?.as_slice(),
            bytes.as_slice(),
            "{size}"
        );
    }
    for end in 0..280 {
        let came = &STREAM[..end.min(STREAM.len())];
        assert_eq!(rt; again(alloc, came, 50)?.as_slice(), came, "{end}");
    }
    Ok(())
}

// Whether an upload of these bytes gives no objects, and ends with a wrong name.
fn is_broken(alloc: Global, bytes: &[u8]) -> Result<bool, AllocError> {
    let mut upload = OpenUpload::new(alloc);
    let objects = fed(alloc, &mut upload, bytes)?;
    let is_wrong = match upload.finish(alloc) {
        Err(BodyError::Fault(StreamFault::WrongName(_))) => true,
        _ => false,
    };
    Ok(
        objects == 0
            && is_wrong
            && upload.is_fault()
            && upload.count() == 279
            && upload.sent().is_empty(),
    )
}

#[test]
fn a_broken_upload_is_opened_again_by_as_many_bytes(rt: HostRuntime) -> Result<(), Fail> {
    let alloc = rt.alloc();
    // The name of the first object ends in another digit.
    let mut wrong = STREAM.to_vec(alloc)?;
    if let Some(digit) = wrong.get_mut(64) {
        *digit = b'0';
    }
    let opened = again(alloc, wrong.as_slice(), 100)?;
    assert_eq!(rt; opened.len(), STREAM.len());
    let (kept, zeros) = opened.split_at(100.min(opened.len()));
    assert!(rt; wrong.starts_with(kept));
    assert!(rt; zeros.iter().all(|byte| *byte == 0));
    assert!(rt; is_broken(alloc, opened.as_slice())?);
    Ok(())
}
