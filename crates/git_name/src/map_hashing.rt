ghost use Rattle.std.specs.Prelude.{◌≡◌};
ghost use Rattle.std.specs.Hash.DefaultHasher as sip;

use std::hash::{BuildHasher, DefaultHasher, Hasher};
use std::io;
use std::random::RandomSource;

/// How a process hashes names: by SipHash-1-3, keyed with 16 bytes of the process. Someone who does not know
/// these bytes cannot choose names that collide in a map.
#[derive(Clone, Copy)]
pub struct Hashing {
    start: DefaultHasher,
}

impl Hashing {
    /// Keys the hash with 16 bytes that the system draws.
    pub fn drawn(rt: &impl RandomSource) -> io::Result<Hashing> {
        let mut secret = [0; 16];
        rt.fill_bytes(&mut secret)?;
        let mut start = DefaultHasher::new();
        start.write(&secret);
        Ok(Hashing { start })
    }
}

/// Hashes without a key, and so alike in every process.
impl Default for Hashing {
    ghost is_default = { λ hashing. hashing.start ≡ sip.initial };

    fn default() -> Hashing {
        Hashing {
            start: DefaultHasher::new(),
        }
    }
}

impl BuildHasher for Hashing {
    type Hasher = DefaultHasher;

    ghost build_hasher = { λ hashing. hashing.start };

    fn build_hasher(&self) -> DefaultHasher {
        self.start
    }
}
