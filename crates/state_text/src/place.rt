ghost use Rattle.std.specs.Prelude.{◌≡◌};
ghost use Rattle.state_text.specs.Place.{place_name};

use fork_request::{RepositoryName, TenantName};

// Where in a tenant's lines a text is: in one of its repositories, or in an offer to this receiver.
#[derive(Drop)]
pub(crate) enum Place {
    Own(RepositoryName),
    Offered(TenantName, RepositoryName),
}

impl Place {
    // The repository's name.
    pub(crate) fn name(&self) -> &RepositoryName
        ensures { result.now ≡ place_name self.now }
    {
        match self {
            Place::Own(name) => name,
            Place::Offered(_, name) => name,
        }
    }
}
