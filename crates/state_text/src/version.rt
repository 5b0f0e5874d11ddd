ghost use Rattle.std.specs.Prelude.{◌≡◌, ◌≢◌, IfSome, IfNone};
ghost use Rattle.state_text.specs.Taking.{awaits_head};
ghost use Rattle.state_text.specs.Text.{version_line};

/// The version of a state text (own).
#[derive(Clone, Copy, Debug, PartialEq, Eq)]
pub enum Version {
    /// Without HEAD and offers: each repository's HEAD names `refs/heads/main`.
    One,
    /// With each repository's HEAD, and with offers.
    Two,
}

impl Version {
    // The version that this first line gives.
    pub(crate) fn of_line(line: &[u8]) -> Option<Version>
        ensures found { IfSome result (λ version. line.now ≡ version_line version) }
        ensures none { IfNone result ((version : Version) → line.now ≢ version_line version) }
    {
        match line {
            b"forkhost state 1" => Some(Version::One),
            b"forkhost state 2" => Some(Version::Two),
            _ => None,
        }
    }

    // Whether a repository's line is followed by its HEAD.
    pub(crate) fn is_with_heads(self) -> bool
        ensures { result ≡ awaits_head self }
    {
        match self {
            Version::One => false,
            Version::Two => true,
        }
    }
}
