// The generations of 4,096 consecutive numbers.
ghost use Rattle.std.specs.Prelude.{◌≡◌, ◌<◌, ℕ, [], OnOk, OnErr, get_or, nat_eq, if◌then◌else◌};

use crate::lists::{get, lengthen, put};
use std::alloc::{AllocError, Global};
use std::marker::Model;

// A word for each number, or none if no word was written.
#[derive(Drop)]
pub(crate) struct GenerationPage {
    words: Vec<u32>,
}

impl Model for GenerationPage {
    ghost use Rattle.std.specs.Prelude.{List, ℕ};

    ghost Value = { List ℕ };

    ghost view = { λ a. a.words.items };
}

impl GenerationPage {
    // A page without words.
    pub(crate) fn new(alloc: Global) -> GenerationPage
        ensures { result ≡ [] }
    {
        GenerationPage {
            words: Vec::new(alloc),
        }
    }

    // The word of a number.
    pub(crate) fn at(&self, k: u32) -> u32
        ensures { result ≡ get_or self.now k 0 }
    {
        get(&self.words, k, 0)
    }

    // Writes the word of a number.
    pub(crate) fn write(&mut self, k: u32, word: u32) -> Result<(), AllocError>
        requires { k < 4096 }
        ensures ok { OnOk result ((i : ℕ) → get_or self.new i 0 ≡ (if nat_eq i k then word else get_or self.old i 0)) }
        ensures err { OnErr result ((i : ℕ) → get_or self.new i 0 ≡ get_or self.old i 0) }
    {
        lengthen(&mut self.words, 4095, 0)?;
        put(&mut self.words, k, word);
        Ok(())
    }
}
