// A time for each number. Numbers after the end have 0.
ghost use Rattle.std.specs.Prelude.{◌≡◌, ◌<◌, ℕ, [], OnOk, get_or, set, length};

use std::alloc::{AllocError, Global};
use std::marker::Model;

// For each number, when its commit was made, in seconds since 1970 plus 1, or 0 if it is not a commit.
#[derive(Drop)]
pub(crate) struct Times {
    words: Vec<u64>,
}

impl Model for Times {
    ghost use Rattle.std.specs.Prelude.{List, ℕ};

    ghost Value = { List ℕ };

    ghost view = { λ a. a.words.items };
}

impl Times {
    // An empty list.
    pub(crate) fn new(alloc: Global) -> Times
        ensures { result ≡ [] }
    {
        Times {
            words: Vec::new(alloc),
        }
    }

    // The time of a number.
    pub(crate) fn at(&self, n: u32) -> u64
        ensures { result ≡ get_or self.now n 0 }
    {
        let at = n as usize;
        if at >= self.words.len() {
            return 0;
        }
        self.words[at]
    }

    // Makes the list long enough for a number. No time changes.
    pub(crate) fn reserve(&mut self, n: u32) -> Result<(), AllocError>
        ensures words { (i : ℕ) → get_or self.new i 0 ≡ get_or self.old i 0 }
        ensures ok { OnOk result (n < length self.new) }
    {
        lengthen(&mut self.words, n)
    }

    // Writes the time of a number that is in the list.
    pub(crate) fn put(&mut self, n: u32, word: u64)
        ensures { self.new ≡ set self.old n word }
    {
        let at = n as usize;
        if at >= self.words.len() {
            return;
        }
        self.words[at] = word;
    }
}

// Makes the list long enough for a number.
fn lengthen(words: &mut Vec<u64>, n: u32) -> Result<(), AllocError>
    ensures words { (i : ℕ) → get_or words.new.items i 0 ≡ get_or words.old.items i 0 }
    ensures ok { OnOk result (n < length words.new.items) }
{
    let at = n as usize;
    if at < words.len() {
        return Ok(());
    }
    words.resize(at + 1, 0)
}
