ghost use Rattle.std.specs.Prelude.{◌≡◌, ◌≢◌, ◌<◌, ◌≤◌, ◌/◌, ◌%◌, ℕ, List, IfSome, IfNone, length, slice_index, true, false};
ghost use Rattle.hex.specs.Hex.{encode_lower, lower_digits};
ghost use Rattle.git_name.specs.Name.{IsName};

/// Reads 32 bytes from 64 lower-case hex digits. Digits are unpredictable, so only the last step branches on
/// whether they are valid.
pub(crate) fn read_digits(text: &[u8]) -> Option<[u8; 32]>
    ensures found { IfSome result (λ bytes. text.now ≡ encode_lower bytes) }
    ensures none { IfNone result ((name : List ℕ) → IsName name → text.now ≢ encode_lower name) }
{
    if text.len() != 64 {
        return None;
    }
    let mut bytes = [0; 32];
    let mut right = true;
    'pairs: for at in 0..32 {
        let high = value(text[2 * at]);
        let low = value(text[2 * at + 1]);
        bytes[at] = high % 16 * 16 + low % 16;
        right = right & (high < 16) & (low < 16);
    }
    if right { Some(bytes) } else { None }
}

// The value of a lower-case hex digit, or 16 for any other byte.
#[inline]
fn value(byte: u8) -> u8
    ensures right { result < 16 → byte ≡ slice_index lower_digits result }
    ensures wrong { 16 ≤ result → (digit : ℕ) → digit < 16 → byte ≢ slice_index lower_digits digit }
{
    match byte {
        b'0'..=b'9' => byte - b'0',
        b'a'..=b'f' => byte - b'a' + 10,
        _ => 16,
    }
}
