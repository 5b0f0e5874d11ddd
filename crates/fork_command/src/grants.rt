ghost use Rattle.std.specs.Prelude.{IfOk, IfErr, map};
ghost use Rattle.fork_command.specs.Grant.{AreGrants, IsBadGrant};

use crate::error::CommandError;
use crate::grant::Grant;
use std::alloc::Global;

/// Reads the words, and reports the first that is not a grant.
pub(crate) fn grants_of<'a>(
    alloc: Global,
    words: &[&'a str],
) -> Result<Vec<Grant>, CommandError<'a>>
    ensures ok { IfOk result (λ grants. AreGrants grants.items (map (λ word. word.now) words.entry.now)) }
    ensures err { IfErr result (IsBadGrant (map (λ word. word.now) words.entry.now)) }
{
    let mut grants = Vec::new(alloc);
    for word in words {
        let Some(grant) = Grant::read(word.as_bytes()) else {
            return Err(CommandError::BadTenant(word));
        };
        let Ok(()) = grants.push(grant) else {
            return Err(CommandError::Memory);
        };
    }
    Ok(grants)
}
