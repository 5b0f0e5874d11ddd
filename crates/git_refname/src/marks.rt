ghost use Rattle.std.specs.Prelude.{◌≡◌, ◌++◌, ◌∷◌, [], List, ℕ};
ghost use Rattle.git_refname.specs.Marks.{is_plain, marks_of};
ghost use Rattle.git_refname.specs.Rule.{is_unprintable, is_pattern};

// The marks in the beginning of a name: all that decides a rule wherever it occurs.
#[derive(Clone, Copy, Debug)]
pub(crate) struct Marks {
    // `/.`
    pub(crate) dot: bool,
    // `.lock/`
    pub(crate) lock: bool,
    // `/`
    pub(crate) slash: bool,
    // `..`
    pub(crate) two_dots: bool,
    // a byte that is not printed
    pub(crate) unprintable: bool,
    // a byte of patterns
    pub(crate) pattern: bool,
    // `//`
    pub(crate) two_slashes: bool,
    // `@{`
    pub(crate) at_brace: bool,
    // a backslash
    pub(crate) backslash: bool,
}

impl Marks {
    // The marks of the empty text.
    pub(crate) fn new() -> Marks
        ensures { result ≡ marks_of [] }
    {
        Marks {
            dot: false,
            lock: false,
            slash: false,
            two_dots: false,
            unprintable: false,
            pattern: false,
            two_slashes: false,
            at_brace: false,
            backslash: false,
        }
    }

    // The marks of `front`, which is longer by this last byte.
    pub(crate) fn with(self, front: &[u8], byte: u8) -> Marks
        ensures { (before : List ℕ) → self ≡ marks_of before → front.now ≡ before ++ byte ∷ [] → result ≡ marks_of front.now }
    {
        if is_plain(byte) {
            return self;
        }
        Marks {
            dot: self.dot | front.ends_with(b"/."),
            lock: self.lock | front.ends_with(b".lock/"),
            slash: self.slash | front.ends_with(b"/"),
            two_dots: self.two_dots | front.ends_with(b".."),
            unprintable: self.unprintable | is_unprintable(byte),
            pattern: self.pattern | is_pattern(byte),
            two_slashes: self.two_slashes | front.ends_with(b"//"),
            at_brace: self.at_brace | front.ends_with(b"@{"),
            backslash: self.backslash | front.ends_with(b"\\"),
        }
    }
}

// Whether no mark ends with the byte.
fn is_plain(byte: u8) -> bool
    ensures { result ≡ is_plain byte }
{
    !(is_unprintable(byte) | is_pattern(byte) | matches!(byte, b'.' | b'/' | b'\\' | b'{'))
}

// A control byte, DEL, SP, `~`, `^` or `:`.
fn is_unprintable(byte: u8) -> bool
    ensures { result ≡ is_unprintable byte }
{
    matches!(byte, 0..=31 | 127 | b' ' | b'~' | b'^' | b':')
}

// `?`, `*` or `[`.
fn is_pattern(byte: u8) -> bool
    ensures { result ≡ is_pattern byte }
{
    matches!(byte, b'?' | b'*' | b'[')
}
