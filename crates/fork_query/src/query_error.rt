ghost use Rattle.std.specs.Prelude.{◌≡◌};
ghost use Rattle.fork_query.specs.declared.query_error.QueryError.TheVariants.{Failed};

use fork_reach::SourceFault;
use fork_request::Refusal;

/// Why a query has no answer.
#[derive(Debug, Drop)]
pub enum QueryError {
    /// The request was refused.
    Refused(Refusal),
    /// The source failed, or memory ran out.
    Failed(SourceFault),
}

impl From<SourceFault> for QueryError {
    ghost from_gives = { λ fault error. error ≡ Failed fault };

    fn from(fault: SourceFault) -> QueryError {
        QueryError::Failed(fault)
    }
}
