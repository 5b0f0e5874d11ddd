ghost use Rattle.std.specs.Prelude.{◌≡◌, ◌≤◌, ◌↔◌, IsTrue, IfSome, IfNone, length};
ghost use Rattle.sha2.specs.Sha256.{sha256};
ghost use Rattle.packed_store.specs.Reading.{Begins, Claims, ClaimsNone, HasNoRecord, IsSummed, IsTitle};

use crate::place::{SHORT_TITLE, TITLE};
use crate::title::{FEW, Title, said_size, title_of};
use git_name::Name;
use sha2::{Digest, Sha256};

/// What a record says: it has an object's file, a file of any bytes, the removal of a name, that removals so far are final, or
/// that those which are not are undone.
#[derive(Clone, Copy, Debug, PartialEq, Eq)]
pub(crate) enum Word {
    Object,
    File,
    Removal,
    Settled,
    Undone,
}

/// A record at the front of bytes: how many bytes it has before its own, how many are its own, and how many it has in all.
#[derive(Clone, Copy, Debug)]
pub(crate) struct Record {
    pub(crate) word: Word,
    pub(crate) name: Name,
    pub(crate) title: u32,
    pub(crate) len: u32,
    pub(crate) size: u32,
}

// How many bytes a sum has.
const SUM: usize = 32;

// Whether the bytes are the same.
fn is_same(left: &[u8], right: &[u8]) -> bool
    ensures { IsTrue result ↔ (left.now ≡ right.now) }
{
    left == right
}

/// Whether this is the hash of bytes.
pub(crate) fn is_hash(hash: &[u8], bytes: &[u8]) -> bool
    ensures { IsTrue result ↔ (hash.now ≡ sha256 bytes.now) }
{
    let own = Sha256::digest(bytes);
    is_same(hash, own.as_slice())
}

// Whether the sum of the bytes before this place comes at it.
fn is_summed(bytes: &[u8], end: usize) -> bool
    ensures { IsTrue result ↔ IsSummed end bytes.now }
{
    if bytes.len() < SUM {
        return false;
    }
    if bytes.len() - SUM < end {
        return false;
    }
    let parts = bytes.split_at(end);
    is_hash(&parts.1[..SUM], parts.0)
}

// The record of an object with this title.
fn object_of(bytes: &[u8], title: Title, rest: &[u8]) -> Option<Record>
    requires kind { title.kind ≡ 111 }
    requires title { IsTitle bytes.now title.kind title.len title.name rest.now }
    ensures found { IfSome result (λ one. Begins bytes.now one.word one.name one.title one.len one.size) }
    ensures none { IfNone result (HasNoRecord bytes.now) }
{
    let _bytes = bytes;
    let len = title.len as usize;
    if rest.len() < len {
        return None;
    }
    if !is_hash(title.name.as_bytes().as_slice(), &rest[..len]) {
        return None;
    }
    Some(Record {
        word: Word::Object,
        name: title.name,
        title: TITLE,
        len: title.len,
        size: 37 + title.len,
    })
}

// The record of an object with this short title.
fn short_of(bytes: &[u8], title: Title, rest: &[u8]) -> Option<Record>
    requires kind { title.kind ≡ 128 }
    requires title { IsTitle bytes.now title.kind title.len title.name rest.now }
    ensures found { IfSome result (λ one. Begins bytes.now one.word one.name one.title one.len one.size) }
    ensures none { IfNone result (HasNoRecord bytes.now) }
{
    let _whole = bytes;
    let len = title.len as usize;
    if rest.len() < len {
        return None;
    }
    if !is_hash(title.name.as_bytes().as_slice(), &rest[..len]) {
        return None;
    }
    Some(Record {
        word: Word::Object,
        name: title.name,
        title: SHORT_TITLE,
        len: title.len,
        size: 34 + title.len,
    })
}

// The record of a file with this title.
fn file_of(bytes: &[u8], title: Title, rest: &[u8]) -> Option<Record>
    requires kind { title.kind ≡ 102 }
    requires title { IsTitle bytes.now title.kind title.len title.name rest.now }
    ensures found { IfSome result (λ one. Begins bytes.now one.word one.name one.title one.len one.size) }
    ensures none { IfNone result (HasNoRecord bytes.now) }
{
    let _rest = rest;
    if !is_summed(bytes, 37 + title.len as usize) {
        return None;
    }
    Some(Record {
        word: Word::File,
        name: title.name,
        title: TITLE,
        len: title.len,
        size: 37 + title.len + 32,
    })
}

// The record of a removal with this title.
fn removal_of(bytes: &[u8], title: Title, rest: &[u8]) -> Option<Record>
    requires kind { title.kind ≡ 114 }
    requires title { IsTitle bytes.now title.kind title.len title.name rest.now }
    ensures found { IfSome result (λ one. Begins bytes.now one.word one.name one.title one.len one.size) }
    ensures none { IfNone result (HasNoRecord bytes.now) }
{
    let _rest = rest;
    if title.len != 0 {
        return None;
    }
    if !is_summed(bytes, 37) {
        return None;
    }
    Some(Record {
        word: Word::Removal,
        name: title.name,
        title: TITLE,
        len: 0,
        size: 69,
    })
}

// The record that removals are undone, with this title.
fn undone_of(bytes: &[u8], title: Title, rest: &[u8]) -> Option<Record>
    requires kind { title.kind ≡ 117 }
    requires title { IsTitle bytes.now title.kind title.len title.name rest.now }
    ensures found { IfSome result (λ one. Begins bytes.now one.word one.name one.title one.len one.size) }
    ensures none { IfNone result (HasNoRecord bytes.now) }
{
    let _rest = rest;
    if title.len != 0 {
        return None;
    }
    if !is_same(title.name.as_bytes().as_slice(), [0; 32].as_slice()) {
        return None;
    }
    if !is_summed(bytes, 37) {
        return None;
    }
    Some(Record {
        word: Word::Undone,
        name: title.name,
        title: TITLE,
        len: 0,
        size: 69,
    })
}

// The record that removals are final, with this title.
fn settled_of(bytes: &[u8], title: Title, rest: &[u8]) -> Option<Record>
    requires kind { title.kind ≡ 115 }
    requires title { IsTitle bytes.now title.kind title.len title.name rest.now }
    ensures found { IfSome result (λ one. Begins bytes.now one.word one.name one.title one.len one.size) }
    ensures none { IfNone result (HasNoRecord bytes.now) }
{
    let _rest = rest;
    if title.len != 0 {
        return None;
    }
    if !is_same(title.name.as_bytes().as_slice(), [0; 32].as_slice()) {
        return None;
    }
    if !is_summed(bytes, 37) {
        return None;
    }
    Some(Record {
        word: Word::Settled,
        name: title.name,
        title: TITLE,
        len: 0,
        size: 69,
    })
}

/// How many bytes the record has that the title at the front of bytes begins, if all of them are there, right or wrong.
pub(crate) fn claimed_size(bytes: &[u8]) -> Option<u32>
    ensures within { IfSome result (λ n. n ≤ length bytes.now) }
    ensures found { IfSome result (λ n. Claims bytes.now n) }
    ensures none { IfNone result (ClaimsNone bytes.now) }
{
    let Some((title, _rest)) = title_of(bytes) else {
        return None;
    };
    let Some(size) = said_size(title) else {
        return None;
    };
    if size as usize > bytes.len() {
        return None;
    }
    Some(size)
}

/// The whole record at the front of bytes, if one is there.
pub(crate) fn first_record(bytes: &[u8]) -> Option<Record>
    ensures found { IfSome result (λ one. Begins bytes.now one.word one.name one.title one.len one.size) }
    ensures none { IfNone result (HasNoRecord bytes.now) }
{
    let Some((title, rest)) = title_of(bytes) else {
        return None;
    };
    match title.kind {
        FEW => short_of(bytes, title, rest),
        b'o' => object_of(bytes, title, rest),
        b'f' => file_of(bytes, title, rest),
        b'r' => removal_of(bytes, title, rest),
        b's' => settled_of(bytes, title, rest),
        b'u' => undone_of(bytes, title, rest),
        _ => None,
    }
}
