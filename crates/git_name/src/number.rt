ghost use Rattle.std.specs.Prelude.{◌≡◌, ◌≢◌, ◌<◌, ◌^◌, ◌⊎◌, ◌↔◌, ℕ, IsTrue, IfSome, IfNone, length, slice_index};
ghost use Rattle.std.specs.Fmt.{decimal as spelled};
ghost use Rattle.git_name.specs.Number.{number_in};

use std::str;

// Whether the text begins with a plus sign, or with a zero before other digits.
fn has_needless_start(text: &[u8]) -> bool
    ensures { IsTrue result ↔ ((slice_index text.now 0 ≡ 43) ⊎ ((slice_index text.now 0 ≡ 48) × (1 < length text.now))) }
{
    match text {
        [] => false,
        [first, ..] => *first == b'+' || *first == b'0' && text.len() > 1,
    }
}

/// Parses a decimal number without a sign or leading zeros (own). It allocates nothing.
pub fn decimal(text: &[u8]) -> Option<u64>
    ensures value { result ≡ number_in text.now }
    ensures found { IfSome result (λ n. text.now ≡ spelled n) }
    ensures none { IfNone result ((n : ℕ) → n < 2 ^ 64 → text.now ≢ spelled n) }
{
    if has_needless_start(text) {
        return None;
    }
    let Ok(digits) = str::from_utf8(text) else {
        return None;
    };
    let Ok(number) = digits.parse::<u64>() else {
        return None;
    };
    Some(number)
}
