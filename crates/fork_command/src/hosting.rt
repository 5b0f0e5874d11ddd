ghost use Rattle.std.specs.Prelude.{IfOk, IfErr};
ghost use Rattle.clap.specs.Words.{found_of, rows_of};
ghost use Rattle.fork_command.specs.Grant.{AreGrants, IsBadGrant};
ghost use Rattle.fork_command.specs.Command.{IsHosting, tenants_given};

use crate::error::CommandError;
use crate::grant::Grant;
use crate::grants::grants_of;
use clap::ArgMatches;
use std::alloc::Global;

/// What is hosted, and where it is kept.
#[derive(Debug, Drop)]
pub struct Hosting<'a> {
    /// The folder that keeps the host, as written; without one the host is kept only in memory.
    pub dir: Option<&'a str>,
    /// Whether a folder without a host is to keep its objects packed.
    pub packed: bool,
    /// Whether each reply waits until what it reports is synced in the folder.
    pub syncs: bool,
    /// The tenants to add, in the order of the words.
    pub tenants: Vec<Grant>,
}

// The tenants given by the words.
fn tenants_of<'a>(alloc: Global, matches: &ArgMatches<'a>) -> Result<Vec<Grant>, CommandError<'a>>
    ensures ok { IfOk result (λ grants. AreGrants grants.items (tenants_given (rows_of (found_of matches.entry.now)))) }
    ensures err { IfErr result (IsBadGrant (tenants_given (rows_of (found_of matches.entry.now)))) }
{
    match matches.get_strs("tenants") {
        Some(words) => grants_of(alloc, words),
        None => Ok(Vec::new(alloc)),
    }
}

// What the words say about the host.
pub(crate) fn hosting_of<'a>(
    alloc: Global,
    matches: &ArgMatches<'a>,
) -> Result<Hosting<'a>, CommandError<'a>>
    ensures ok { IfOk result (IsHosting (rows_of (found_of matches.entry.now))) }
    ensures err { IfErr result (IsBadGrant (tenants_given (rows_of (found_of matches.entry.now)))) }
{
    let dir = matches.get_str("dir");
    let packed = matches.get_flag("packed");
    let syncs = matches.get_flag("sync");
    let tenants = tenants_of(alloc, matches)?;
    Ok(Hosting {
        dir,
        packed,
        syncs,
        tenants,
    })
}
