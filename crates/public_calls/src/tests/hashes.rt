use git_name::{Hashing, Kind, name_of};
use std::hash::BuildHasher;
use std::io;
use std::io::ErrorKind;
use std::random::RandomSource;
use std::test::Fail;

// A source of random bytes that has none.
struct Dry;

impl RandomSource for Dry {
    fn fill_bytes(&self, _bytes: &mut [u8]) -> io::Result<()> {
        Err(io::Error::from(ErrorKind::NotFound))
    }
}

#[test]
fn names_are_hashed_with_what_was_drawn(rt: HostRuntime) -> Result<(), Fail> {
    let name = name_of(Kind::Blob, b"hello\n");
    let known = Hashing::default().hash_one(name);
    assert_eq!(rt; Hashing::default().hash_one(name), known);
    assert!(rt; Hashing::drawn(&Dry).is_err());
    let drawn = Hashing::drawn(&rt)?.hash_one(name);
    assert!(rt; drawn != known);
    assert!(rt; Hashing::drawn(&rt)?.hash_one(name) != drawn);
    Ok(())
}
