ghost use Rattle.std.specs.Prelude.{◌≡◌, ◌≢◌, IfSome, IfNone};
ghost use Rattle.git_tree.specs.declared.mode.Mode.{Mode};
ghost use Rattle.git_tree.specs.Mode.{digits, is_tree, link_kind};

use git_name::Kind;

/// The mode of a tree's entry: what the entry is (git-ls-tree(1)).
#[derive(Clone, Copy, Debug, PartialEq, Eq, PartialOrd, Ord, Hash)]
pub enum Mode {
    /// A tree, `40000`.
    Tree,
    /// A file, `100644`.
    File,
    /// An executable file, `100755`.
    Executable,
    /// A symbolic link, `120000`.
    Link,
    /// A commit of another repository, `160000`.
    Gitlink,
}

impl Mode {
    /// The digits that spell the mode in a tree's bytes.
    pub fn digits(self) -> &'static [u8]
        ensures { result.now ≡ digits self }
    {
        match self {
            Mode::Tree => b"40000",
            Mode::File => b"100644",
            Mode::Executable => b"100755",
            Mode::Link => b"120000",
            Mode::Gitlink => b"160000",
        }
    }

    /// Reads a mode from its digits. A leading zero is refused.
    pub fn from_digits(text: &[u8]) -> Option<Mode>
        ensures found { IfSome result (λ mode. text.now ≡ digits mode) }
        ensures none { IfNone result ((mode : Mode) → text.now ≢ digits mode) }
    {
        match text {
            b"40000" => Some(Mode::Tree),
            b"100644" => Some(Mode::File),
            b"100755" => Some(Mode::Executable),
            b"120000" => Some(Mode::Link),
            b"160000" => Some(Mode::Gitlink),
            _ => None,
        }
    }

    /// Whether the entry is a tree, whose key ends in `/`.
    pub fn is_tree(self) -> bool
        ensures { result ≡ is_tree self }
    {
        match self {
            Mode::Tree => true,
            Mode::File | Mode::Executable | Mode::Link | Mode::Gitlink => false,
        }
    }

    /// The kind of the object that the entry links to. A gitlink links to no object of this repository.
    pub fn link_kind(self) -> Option<Kind>
        ensures { result ≡ link_kind self }
    {
        match self {
            Mode::Tree => Some(Kind::Tree),
            Mode::File | Mode::Executable | Mode::Link => Some(Kind::Blob),
            Mode::Gitlink => None,
        }
    }
}
