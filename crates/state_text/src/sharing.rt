// What items have in common is in memory once: forks and offers have the references of a repository before them.
ghost use Rattle.std.specs.Prelude.{◌≡◌, ◌<◌, length};

use crate::offer::Offer;
use crate::states::States;
use fork_request::RepositoryName;
use git_reftx::Repository;

// Shares the last item if this line ends it, that is, adds nothing to it.
pub(crate) fn share_before(states: &mut States, line: &[u8])
    ensures { states.new ≡ states.old }
{
    if line.starts_with(b"ref ") {
        return;
    }
    if line.starts_with(b"head ") {
        return;
    }
    states.share_last();
}

// Shares the last repository with one before it.
pub(crate) fn share_repository(repositories: &mut [(RepositoryName, Repository)])
    ensures { repositories.new ≡ repositories.old }
{
    let len = repositories.len();
    if len < 2 {
        return;
    }
    let count = repositories[len - 1].1.references().len();
    let Ok(other) = alike(&repositories[..len - 1], count).copy() else {
        return;
    };
    let _shared = repositories[len - 1].1.share_with(&other);
}

// The last of these repositories with `count` references. If there is none, the last one.
fn alike(repositories: &[(RepositoryName, Repository)], count: usize) -> &Repository
    requires { 0 < length repositories.now }
{
    for (_, repository) in repositories.iter().rev() {
        if repository.references().len() == count {
            return repository;
        }
    }
    &repositories[repositories.len() - 1].1
}

// Shares the last offer with the giver's own repository of that name.
pub(crate) fn share_offer(offers: &mut [Offer], repositories: &[(RepositoryName, Repository)])
    ensures { offers.new ≡ offers.old }
{
    let Some(offer) = offers.last_mut() else {
        return;
    };
    let Some(repository) = repository_named(repositories, offer.name()) else {
        return;
    };
    offer.share_with(repository);
}

// The repository of this name, if there is one.
fn repository_named<'a>(
    repositories: &'a [(RepositoryName, Repository)],
    name: &RepositoryName,
) -> Option<&'a Repository> {
    for (own, repository) in repositories {
        if own == name {
            return Some(repository);
        }
    }
    None
}
