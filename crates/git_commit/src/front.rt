ghost use Rattle.std.specs.Prelude.{◌≡◌, IfSome};
ghost use Rattle.git_commit.specs.Commit.{CommitValue, IsCommit};
ghost use Rattle.git_commit.specs.Left.{parents_left};

use crate::parents::Parents;
use git_header::take_name;
use git_name::Name;

/// Returns the names in the lines of the tree and the parents at the start of the bytes, for callers that
/// follow links before they check that the bytes are a commit. It allocates nothing.
pub fn first_links(bytes: &[u8]) -> Option<(Name, Parents<'_>)>
    // For a commit they are its tree and its parents.
    ensures tree { IfSome result (λ p. (value : CommitValue) → IsCommit value bytes.now → p.0 ≡ value.tree) }
    ensures parents { IfSome result (λ p. (value : CommitValue) → IsCommit value bytes.now → parents_left p.1 ≡ value.parents) }
{
    let (tree, rest) = match take_name(b"tree ", bytes) {
        Ok(taken) => taken,
        Err(_) => return None,
    };
    let (parents, _) = match Parents::take(rest) {
        Ok(taken) => taken,
        Err(_) => return None,
    };
    Some((tree, parents))
}
