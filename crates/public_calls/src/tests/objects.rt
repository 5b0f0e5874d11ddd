use super::kept::Kept;
use git_name::{Kind, Name, seal};
use std::alloc::{AllocError, Global};

/// Two commits, left and right, have the first one as their parent. Two others have both of these as parents, in either
/// order. One more commit has neither parents nor children. A tag points at left, and another one at that tag. Left has
/// a tree with a blob, the empty tree and a gitlink; all other commits have the empty tree.
#[derive(Clone, Copy)]
pub struct Names {
    blob: Name,
    tree: Name,
    empty: Name,
    first: Name,
    left: Name,
    right: Name,
    merge: Name,
    cross: Name,
    alone: Name,
    tag: Name,
    outer: Name,
}

/// Adds a line of a word and the digits of a name.
pub fn put_line(out: &mut Vec<u8>, word: &[u8], name: Name) -> Result<(), AllocError> {
    let mut digits = [0; 64];
    name.write_hex(&mut digits);
    out.extend_from_slice(word)?;
    out.extend_from_slice(digits.as_slice())?;
    out.push(b'\n')?;
    Ok(())
}

fn put_commit(
    alloc: Global,
    kept: &mut Kept,
    tree: Name,
    parents: &[Name],
    seconds: &[u8],
) -> Result<Name, AllocError> {
    let mut bytes = Vec::new(alloc);
    put_line(&mut bytes, b"tree ", tree)?;
    for parent in parents {
        put_line(&mut bytes, b"parent ", *parent)?;
    }
    bytes.extend_from_slice(b"author A <a@x> 99 +0000\ncommitter A <a@x> ")?;
    bytes.extend_from_slice(seconds)?;
    bytes.extend_from_slice(b" +0000\n\n")?;
    kept.put(seal(Kind::Commit, bytes))
}

fn put_tag(alloc: Global, kept: &mut Kept, object: Name, rest: &[u8]) -> Result<Name, AllocError> {
    let mut bytes = Vec::new(alloc);
    put_line(&mut bytes, b"object ", object)?;
    bytes.extend_from_slice(rest)?;
    kept.put(seal(Kind::Tag, bytes))
}

/// Puts a tree of these entries, each a mode and a file name as trees spell them, and an object's name.
pub fn put_tree(
    alloc: Global,
    kept: &mut Kept,
    entries: &[(&[u8], Name)],
) -> Result<Name, AllocError> {
    let mut bytes = Vec::new(alloc);
    for (entry, name) in entries {
        bytes.extend_from_slice(entry)?;
        bytes.extend_from_slice(name.as_bytes().as_slice())?;
    }
    kept.put(seal(Kind::Tree, bytes))
}

/// Puts a blob of one byte.
pub fn put_blob(alloc: Global, kept: &mut Kept) -> Result<Name, AllocError> {
    kept.put(seal(Kind::Blob, b"x".to_vec(alloc)?))
}

/// The name of no object.
pub fn absent() -> Name {
    Name::new([0; 32])
}

/// Puts all these objects into `kept`.
pub fn filled(alloc: Global, kept: &mut Kept) -> Result<Names, AllocError> {
    let blob = put_blob(alloc, kept)?;
    let empty = put_tree(alloc, kept, &[])?;
    let entries = [
        (b"100755 a\0".as_slice(), blob),
        (b"40000 b\0".as_slice(), empty),
        (b"160000 c\0".as_slice(), absent()),
    ];
    let tree = put_tree(alloc, kept, entries.as_slice())?;
    let first = put_commit(alloc, kept, empty, &[], b"10")?;
    let left = put_commit(alloc, kept, tree, &[first], b"30")?;
    let right = put_commit(alloc, kept, empty, &[first], b"20")?;
    let merge = put_commit(alloc, kept, empty, &[left, right], b"40")?;
    let cross = put_commit(alloc, kept, empty, &[right, left], b"40")?;
    let alone = put_commit(alloc, kept, empty, &[], b"50")?;
    let inner = put_tag(alloc, kept, left, b"type commit\ntag v\n")?;
    let outer = put_tag(alloc, kept, inner, b"type tag\ntag w\n")?;
    Ok(Names {
        blob,
        tree,
        empty,
        first,
        left,
        right,
        merge,
        cross,
        alone,
        tag: inner,
        outer,
    })
}

/// The name of the object of a letter. Any other letter gives the name of no object.
pub fn named(names: &Names, letter: u8) -> Name {
    match letter {
        b'b' => names.blob,
        b't' => names.tree,
        b'e' => names.empty,
        b'f' => names.first,
        b'l' => names.left,
        b'r' => names.right,
        b'm' => names.merge,
        b'c' => names.cross,
        b'a' => names.alone,
        b'g' => names.tag,
        b'o' => names.outer,
        _ => absent(),
    }
}

/// The names of the objects of these letters.
pub fn all_named(alloc: Global, names: &Names, letters: &[u8]) -> Result<Vec<Name>, AllocError> {
    let mut all = Vec::new(alloc);
    for letter in letters {
        all.push(named(names, *letter))?;
    }
    Ok(all)
}

/// The items of a query, with each letter replaced by its object's digits. `^` and SP stay.
pub fn items(alloc: Global, names: &Names, text: &[u8]) -> Result<Vec<u8>, AllocError> {
    let mut items = Vec::new(alloc);
    for letter in text {
        if *letter == b'^' || *letter == b' ' {
            items.push(*letter)?;
        } else {
            let mut digits = [0; 64];
            named(names, *letter).write_hex(&mut digits);
            items.extend_from_slice(digits.as_slice())?;
        }
    }
    Ok(items)
}
