use git_name::Sealed;

/// What one more piece adds to an upload: its objects, in the stream's order, and whether the stream is wrong
/// after it. A wrong stream gains no objects.
#[derive(Debug, Drop)]
pub struct Step {
    pub objects: Vec<Sealed>,
    pub is_fault: bool,
}
