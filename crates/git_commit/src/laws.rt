ghost use Rattle.std.specs.Prelude.{◌≡◌, List, ℕ, Some};
ghost use Rattle.git_header.specs.declared.fault.HeaderFault.{HeaderFault};
ghost use Rattle.git_commit.specs.Commit.{CommitValue, IsCommit};
ghost use Rattle.git_commit.specs.CommitIn.{commit_in};
ghost use Rattle.git_commit.specs.Fault.{IsCommitFault};
ghost use Rattle.git_header.specs.Ident.{IdentValue, IsIdent};

/// A law, with no code to run: bytes are at most one commit, and a text is at most one ident.
pub fn one_value()
    ensures commit { (bytes : List ℕ) (v w : CommitValue) → IsCommit v bytes → IsCommit w bytes → v ≡ w }
    ensures ident { (text : List ℕ) (v w : IdentValue) → IsIdent v text → IsIdent w text → v ≡ w }
{}

/// A law, with no code to run: bytes have at most one fault, and a commit has none.
pub fn one_fault()
    ensures one { (bytes : List ℕ) (f g : HeaderFault) → IsCommitFault f bytes → IsCommitFault g bytes → f ≡ g }
    ensures none { (bytes : List ℕ) (v : CommitValue) (f : HeaderFault) → IsCommit v bytes → IsCommitFault f bytes → ⊥ }
{}

/// A law, with no code to run: the tests by which models compute find exactly the commit that bytes are.
pub fn tests_find_the_commit()
    ensures found { (bytes : List ℕ) (commit : CommitValue) → commit_in bytes ≡ Some commit → IsCommit commit bytes }
    ensures only { (bytes : List ℕ) (commit : CommitValue) → IsCommit commit bytes → commit_in bytes ≡ Some commit }
{}
