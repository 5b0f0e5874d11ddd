use git_header::COMMIT;

/// A further header of a commit.
pub type Header<'a> = git_header::Header<'a, COMMIT>;

/// The further headers of a commit, in order, borrowed from its bytes.
pub type Headers<'a> = git_header::Headers<'a, COMMIT>;
