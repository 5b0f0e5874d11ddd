// The words after a verb. None of them may be empty.
ghost use Rattle.std.specs.Prelude.{◌≡◌, option_map};
ghost use Rattle.std.specs.List.{list_all};
ghost use Rattle.std.specs.Str.{bytes_eq};
ghost use Rattle.git_name.specs.Text.{words_of};
ghost use Rattle.fork_request.specs.Words.{items_in, one_or_two, pair, sole, some_word, three, word_and_items};
ghost use Rattle.fork_request.specs.Words.{is_item as passes};

use git_name::first_word;

// Whether a text is this word.
pub(crate) fn is_word(text: &[u8], word: &[u8]) -> bool
    ensures { result ≡ bytes_eq text.now word.now }
{
    text == word
}

fn some_word(word: &[u8]) -> Option<&[u8]>
    ensures { option_map (λ w. w.now) result ≡ some_word word.now }
{
    if word.is_empty() {
        return None;
    }
    Some(word)
}

// The only word, if there is just one.
pub(crate) fn sole_word(words: &[u8]) -> Option<&[u8]>
    ensures { option_map (λ word. word.now) result ≡ sole (words_of words.now) }
{
    match first_word(words) {
        Some(_) => None,
        None => some_word(words),
    }
}

// The only two words, if there are just two.
pub(crate) fn two_words(words: &[u8]) -> Option<(&[u8], &[u8])>
    ensures { option_map (λ p. (p.0.now, p.1.now)) result ≡ pair (words_of words.now) }
{
    let (first, rest) = first_word(words)?;
    let first = some_word(first)?;
    let second = sole_word(rest)?;
    Some((first, second))
}

// The only three words, if there are just three.
pub(crate) fn three_words(words: &[u8]) -> Option<(&[u8], &[u8], &[u8])>
    ensures { option_map (λ p. (p.0.now, p.1.now, p.2.now)) result ≡ three (words_of words.now) }
{
    let (first, rest) = first_word(words)?;
    let first = some_word(first)?;
    let (second, third) = two_words(rest)?;
    Some((first, second, third))
}

// The only word, or the only two.
pub(crate) fn one_or_two_words(words: &[u8]) -> Option<(&[u8], Option<&[u8]>)>
    ensures { option_map (λ p. (p.0.now, option_map (λ word. word.now) p.1)) result ≡ one_or_two (words_of words.now) }
{
    if let Some(word) = sole_word(words) {
        return Some((word, None));
    }
    let (first, second) = two_words(words)?;
    Some((first, Some(second)))
}

// Whether a word is an item: not empty, and not `^` alone.
fn is_item(word: &[u8]) -> bool
    ensures { result ≡ passes word.now }
{
    if word.is_empty() {
        return false;
    }
    !is_word(word, b"^")
}

// Whether each word is an item.
fn are_items(words: &[u8]) -> bool
    ensures { result ≡ list_all passes (words_of words.now) }
{
    let mut rest = words;
    'items: while let Some((item, others)) = first_word(rest) {
        if !is_item(item) {
            return false;
        }
        rest = others;
    }
    is_item(rest)
}

// The text, if each word of it is an item.
fn some_items(words: &[u8]) -> Option<&[u8]>
    ensures { option_map (λ text. words_of text.now) result ≡ items_in (words_of words.now) }
{
    if !are_items(words) {
        return None;
    }
    Some(words)
}

// The first word, and the items after it, separated by one SP each.
pub(crate) fn word_and_items(words: &[u8]) -> Option<(&[u8], &[u8])>
    ensures { option_map (λ p. (p.0.now, words_of p.1.now)) result ≡ word_and_items (words_of words.now) }
{
    let (word, rest) = first_word(words)?;
    let word = some_word(word)?;
    let items = some_items(rest)?;
    Some((word, items))
}
