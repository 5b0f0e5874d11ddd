ghost use Rattle.std.specs.Prelude.{◌≡◌};
ghost use Rattle.state_text.specs.Taking.{fault_of, fault_of_offer, fault_of_push};

use crate::fault::{AddError, OfferError};
use git_reftx::PushRefError;

/// Why a line was not taken.
#[derive(Clone, Copy, Debug, PartialEq, Eq)]
pub(crate) enum LineFault {
    Wrong,
    Memory,
}

// An item that cannot be appended makes a wrong line, unless memory ran out.
impl From<AddError> for LineFault {
    ghost from_gives = { λ error fault. fault ≡ fault_of error };

    fn from(error: AddError) -> LineFault {
        match error {
            AddError::Memory => LineFault::Memory,
            _ => LineFault::Wrong,
        }
    }
}

// A reference that cannot be appended makes a wrong line, unless memory ran out.
impl From<PushRefError> for LineFault {
    ghost from_gives = { λ error fault. fault ≡ fault_of_push error };

    fn from(error: PushRefError) -> LineFault {
        match error {
            PushRefError::Memory => LineFault::Memory,
            _ => LineFault::Wrong,
        }
    }
}

// An offer that cannot be appended makes a wrong line, unless memory ran out.
impl From<OfferError> for LineFault {
    ghost from_gives = { λ error fault. fault ≡ fault_of_offer error };

    fn from(error: OfferError) -> LineFault {
        match error {
            OfferError::Memory => LineFault::Memory,
            _ => LineFault::Wrong,
        }
    }
}
