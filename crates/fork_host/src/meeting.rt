use fork_request::TenantName;
use git_reftx::Repository;

// The offers of others that a request depends on.
#[derive(Drop)]
pub(crate) enum Met {
    // Nothing.
    Nothing,
    // A row for each of them.
    Rows(Vec<u8>),
    // The one that it names: the giver, and the repository as it was when the offer was made.
    Offer(TenantName, Repository),
}
