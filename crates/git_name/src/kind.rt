ghost use Rattle.std.specs.Prelude.{◌≡◌, ◌≢◌, IfSome, IfNone};
ghost use Rattle.git_name.specs.declared.kind.Kind.{Kind};
ghost use Rattle.git_name.specs.Kind.{kind_of_word, type_word};

/// The kind of an object (git-cat-file(1)).
#[derive(Clone, Copy, Debug, PartialEq, Eq, PartialOrd, Ord, Hash)]
pub enum Kind {
    Blob,
    Tree,
    Commit,
    Tag,
}

impl Kind {
    /// The word for the kind: `blob`, `tree`, `commit` or `tag`.
    pub fn word(self) -> &'static [u8]
        ensures { result.now ≡ type_word self }
    {
        match self {
            Kind::Blob => b"blob",
            Kind::Tree => b"tree",
            Kind::Commit => b"commit",
            Kind::Tag => b"tag",
        }
    }

    /// The kind that a word names.
    pub fn from_word(word: &[u8]) -> Option<Kind>
        ensures value { result ≡ kind_of_word word.now }
        ensures found { IfSome result (λ kind. word.now ≡ type_word kind) }
        ensures none { IfNone result ((kind : Kind) → word.now ≢ type_word kind) }
    {
        if word == b"blob".as_slice() {
            Some(Kind::Blob)
        } else if word == b"tree".as_slice() {
            Some(Kind::Tree)
        } else if word == b"commit".as_slice() {
            Some(Kind::Commit)
        } else if word == b"tag".as_slice() {
            Some(Kind::Tag)
        } else {
            None
        }
    }
}
