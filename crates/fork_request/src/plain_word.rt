// Words of lower-case letters, digits, `-` and `_`.
ghost use Rattle.std.specs.Prelude.{◌↔◌, ◌≡◌, IsTrue, All, true};
ghost use Rattle.fork_request.specs.Names.{IsPlainName, starts_a_name, stands_in_a_name};

// Whether a name may begin with this byte.
fn is_start_byte(byte: u8) -> bool
    ensures { result ≡ starts_a_name byte }
{
    97 <= byte && byte <= 122 || 48 <= byte && byte <= 57
}

// Whether a name may contain this byte.
fn is_name_byte(byte: u8) -> bool
    ensures { result ≡ stands_in_a_name byte }
{
    is_start_byte(byte) || byte == b'-' || byte == b'_'
}

fn are_name_bytes(text: &[u8]) -> bool
    ensures { IsTrue result ↔ All (λ byte. stands_in_a_name byte ≡ true) text.now }
{
    text.iter().all(|byte| is_name_byte(*byte))
}

// Whether these bytes are a name of at most this many bytes.
pub(crate) fn is_plain_word(text: &[u8], most: usize) -> bool
    ensures { IsTrue result ↔ IsPlainName most text.now }
{
    if text.is_empty() || text.len() > most {
        return false;
    }
    is_start_byte(text[0]) && are_name_bytes(text)
}
