ghost use Rattle.std.specs.Prelude.{◌≡◌, ◌≢◌, ◌∷◌, ◌++◌, [], All, IfSome, IfNone, option_map};
ghost use Rattle.git_name.specs.Text.{split_once as parted, words_of};

use memchr::memchr;

/// Splits the text at the first occurrence of the byte: into a line and the rest, or a word and the rest. It
/// allocates nothing.
pub fn split_once(text: &[u8], byte: u8) -> Option<(&[u8], &[u8])>
    ensures value { option_map (λ p. (p.0.now, p.1.now)) result ≡ parted byte text.now }
    ensures whole { IfSome result (λ p. text.now ≡ p.0.now ++ byte ∷ p.1.now) }
    ensures first { IfSome result (λ p. All (λ b. b ≢ byte) p.0.now) }
    ensures none { IfNone result (All (λ b. b ≢ byte) text.now) }
{
    let Some(end) = memchr(byte, text) else {
        return None;
    };
    Some((&text[..end], &text[end + 1..]))
}

/// Splits a line of at least two words into the first word and the text of the others. One SP separates two
/// words. It allocates nothing.
pub fn first_word(line: &[u8]) -> Option<(&[u8], &[u8])>
    ensures more { IfSome result (λ p. words_of line.now ≡ p.0.now ∷ words_of p.1.now) }
    ensures one { IfNone result (words_of line.now ≡ line.now ∷ []) }
{
    split_once(line, b' ')
}
