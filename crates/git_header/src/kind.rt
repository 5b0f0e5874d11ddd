ghost use Rattle.std.specs.Prelude.{◌≡◌, ◌↔◌, ◌⊎◌, IsTrue};
ghost use Rattle.git_header.specs.Header.{IsOwnWord, kind_at};

/// The parameter of a commit's further headers.
pub const COMMIT: u8 = 0;

/// The parameter of a tag's further headers.
pub const TAG: u8 = 1;

// Whether the key is one of the four words.
fn is_one_of(key: &[u8], a: &[u8], b: &[u8], c: &[u8], d: &[u8]) -> bool
    ensures { IsTrue result ↔ ((key.now ≡ a.now) ⊎ ((key.now ≡ b.now) ⊎ ((key.now ≡ c.now) ⊎ (key.now ≡ d.now)))) }
{
    key == a || key == b || key == c || key == d
}

// Whether the word begins a required line of an object of this kind. Such a word is no key of a further header.
pub(crate) fn is_own_word<const KIND: u8>(key: &[u8]) -> bool
    ensures { IsTrue result ↔ IsOwnWord (kind_at KIND) key.now }
{
    if KIND == TAG {
        return is_one_of(key, b"object", b"type", b"tag", b"tagger");
    }
    is_one_of(key, b"tree", b"parent", b"author", b"committer")
}
