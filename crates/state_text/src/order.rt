// Whether something comes after others that are in order: comparing with the last one suffices.
ghost use Rattle.std.specs.Prelude.{◌↔◌, IsTrue, map};
ghost use Rattle.state_text.specs.Adding.{AreBefore};
ghost use Rattle.state_text.specs.Offer.{words_of_offer};
ghost use Rattle.state_text.specs.States.{Ascend};

use crate::offer::Offer;
use fork_request::RepositoryName;
use git_name::Name;
use git_reftx::Repository;
use std::cmp::Ordering;

// Whether the name comes after those of the repositories.
pub(crate) fn repository_follows(
    repositories: &[(RepositoryName, Repository)],
    name: &RepositoryName,
) -> bool
    requires { Ascend (map (λ repository. repository.0) repositories.now) }
    ensures { IsTrue result ↔ AreBefore (map (λ repository. repository.0) repositories.now) name.now }
{
    let Some(last) = repositories.last() else {
        return true;
    };
    let Ordering::Less = last.0.cmp(name) else {
        return false;
    };
    true
}

// Whether the name comes after the others.
pub(crate) fn name_follows(names: &[Name], name: &Name) -> bool
    requires { Ascend names.now }
    ensures { IsTrue result ↔ AreBefore names.now name.now }
{
    let Some(last) = names.last() else {
        return true;
    };
    let Ordering::Less = last.cmp(name) else {
        return false;
    };
    true
}

// Whether the offer comes after the others.
pub(crate) fn offer_follows(offers: &[Offer], offer: &Offer) -> bool
    requires { Ascend (map words_of_offer offers.now) }
    ensures { IsTrue result ↔ AreBefore (map words_of_offer offers.now) (words_of_offer offer.now) }
{
    let Some(last) = offers.last() else {
        return true;
    };
    last.is_before(offer)
}
