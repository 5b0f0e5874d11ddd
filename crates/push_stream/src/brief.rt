use git_name::Name;
use git_reftx::Command;

/// What is judged of a whole stream: its commands and the names of its objects. Both are in the
/// stream's order, and a name that is sent twice is listed twice.
#[derive(Debug, Drop)]
pub struct Brief {
    pub commands: Vec<Command>,
    pub names: Vec<Name>,
}
