ghost use Rattle.std.specs.Prelude.{◌≡◌, IfSome};
ghost use Rattle.fork_reach.specs.History.{time_in};

use git_commit::Commit;
use git_name::Kind;

/// The time of an object of this kind with these bytes: for a commit, the committer's seconds since 1970 plus 1. It
/// is 0 for any other object, and `None` if it does not fit in 64 bits.
pub fn time_of(kind: Kind, bytes: &[u8]) -> Option<u64>
    ensures { IfSome result (λ time. time ≡ time_in kind bytes.now) }
{
    if !matches!(kind, Kind::Commit) {
        return Some(0);
    }
    let Ok(commit) = Commit::read(bytes) else {
        return Some(0);
    };
    commit.committer().seconds().checked_add(1)
}
