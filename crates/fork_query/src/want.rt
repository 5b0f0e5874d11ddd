// The objects that the items of a request may name.
#[derive(Clone, Copy)]
pub(crate) enum Want {
    // Objects of any kind.
    Object,
    // Commits. Tags are peeled.
    Commit,
}
