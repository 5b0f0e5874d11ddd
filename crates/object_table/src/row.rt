use git_name::Kind;

// What is known about the object of a name: the length of its content in bytes, how many tenants see it or have
// staged it, the name's number, and its kind. If nobody holds the name, kind and length mean nothing.
#[derive(Clone, Copy, Debug)]
pub struct Row {
    pub length: u64,
    pub holders: usize,
    pub number: u32,
    pub kind: Kind,
}
