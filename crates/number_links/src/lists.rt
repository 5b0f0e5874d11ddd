// Lists with a word for each number. Numbers after the end have a default word.
ghost use Rattle.std.specs.Prelude.{◌≡◌, ◌<◌, ◌≤◌, ◌⊎◌, ℕ, All, OnOk, get_or, set, length};

use std::alloc::AllocError;

// The word of a number.
pub(crate) fn get(words: &[u32], n: u32, default: u32) -> u32
    ensures { result ≡ get_or words.now n default }
{
    let at = n as usize;
    if at >= words.len() {
        return default;
    }
    words[at]
}

// Writes the word of a number that is in the list.
pub(crate) fn put(words: &mut Vec<u32>, n: u32, word: u32)
    ensures { words.new.items ≡ set words.old.items n word }
{
    let at = n as usize;
    if at >= words.len() {
        return;
    }
    words[at] = word;
}

// Makes the list long enough for a number. No word changes.
pub(crate) fn lengthen(words: &mut Vec<u32>, n: u32, default: u32) -> Result<(), AllocError>
    ensures words { (i : ℕ) → get_or words.new.items i default ≡ get_or words.old.items i default }
    ensures ok { OnOk result (n < length words.new.items) }
    ensures longer { length words.old.items ≤ length words.new.items }
    ensures few { length words.old.items ≤ 4294967296 → length words.new.items ≤ 4294967296 }
{
    let at = n as usize;
    if at < words.len() {
        return Ok(());
    }
    words.resize(at + 1, default)
}

// The greatest of these numbers.
pub(crate) fn greatest(numbers: &[u32]) -> u32
    ensures { All (λ n. n ≤ result) numbers.now }
{
    let mut most = 0;
    for n in numbers {
        most = larger(most, *n);
    }
    most
}

// The larger of two numbers.
pub(crate) fn larger(a: u32, b: u32) -> u32
    ensures { (a ≤ result) × (b ≤ result) × ((result ≡ a) ⊎ (result ≡ b)) }
{
    if a < b {
        return b;
    }
    a
}
