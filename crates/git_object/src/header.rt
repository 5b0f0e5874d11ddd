use git_header::TAG;

/// A further header of a tag.
pub type TagHeader<'a> = git_header::Header<'a, TAG>;

/// The further headers of a tag, in order, borrowed from its bytes.
pub type TagHeaders<'a> = git_header::Headers<'a, TAG>;
