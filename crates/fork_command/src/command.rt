ghost use Rattle.std.specs.Prelude.{◌≡◌, ◌≢◌, ◌⊎◌, Bool, IfOk, IfErr, IfSome, IfNone, List, [], Option, Some, codes, is_some, map, option_map, true, unwrap_or};
ghost use Rattle.clap.specs.Words.{HasKind, Kinds, Row, Text, fault_of, first_of, found_of, kind_of, rows_of, subcommand_of, subcommand_rows_of, takes};
ghost use Rattle.git_name.specs.declared.kind.Kind.{Kind};
ghost use Rattle.git_name.specs.Kind.{type_word};
ghost use Rattle.fork_request.specs.Names.{IsTenantName};
ghost use Rattle.fork_command.specs.Grant.{IsBadGrant, IsGrant, grant_word};
ghost use Rattle.fork_command.specs.Table.{table_app};
ghost use Rattle.fork_command.specs.Command.{Asks, AsksOfTenant, HasServeWords, HasTenantWords, IsBadType, IsFaulty, IsCommandMet, IsGrantRefused, IsRefused, IsTenantRefused, tenants_given};

use crate::error::CommandError;
use crate::grant::Grant;
use crate::hosting::{Hosting, hosting_of};
use crate::table::table;
use clap::error::ErrorKind;
use clap::{ArgMatches, Error};
use fork_request::TenantName;
use git_name::Kind;
use std::alloc::Global;

/// What the command line asks for. Paths are as written.
#[derive(Debug, Drop)]
pub enum Command<'a> {
    /// Print the name of the object of this kind that standard input holds.
    HashObject {
        kind: Kind,
    },
    /// Serve frames from standard input to standard output.
    Run {
        hosting: Hosting<'a>,
    },
    /// Serve this many connections to a Unix socket: as many of them at once as is given, or one after another.
    Serve {
        socket: &'a str,
        connections: u32,
        at_once: Option<u32>,
        hosting: Hosting<'a>,
    },
    /// Read all that a folder keeps and report what is wrong with it.
    Check {
        dir: &'a str,
    },
    /// Save what a folder keeps in the newest form.
    Upgrade {
        dir: &'a str,
    },
    /// Add a tenant to a folder.
    AddTenant {
        dir: &'a str,
        grant: Grant,
    },
    /// Change the limit of a tenant in a folder.
    SetLimit {
        dir: &'a str,
        grant: Grant,
    },
    /// Remove a tenant from a folder, with all that it has.
    RemoveTenant {
        dir: &'a str,
        tenant: TenantName,
    },
    /// Give a folder the other layout: segments if `packed`, and else a file for each object.
    Repack {
        dir: &'a str,
        packed: bool,
    },
}

// Why clap refuses the words.
fn refusal<'a>(error: Error) -> CommandError<'a>
    ensures refused { (faults : Kinds) (met : Option (Text × List Row)) → HasKind faults error → IsRefused faults met result }
    ensures faulty { (taken : Bool) (met : Option (Text × List Row)) → (taken ≡ true → kind_of error ≡ ErrorKind.OutOfMemory) → IsFaulty taken met result }
{
    match error.kind() {
        ErrorKind::OutOfMemory => CommandError::Memory,
        ErrorKind::DisplayHelp | ErrorKind::DisplayVersion => CommandError::Help(error),
        _ => CommandError::Usage(error),
    }
}

// The kind of object that this word names; a blob if there is no word.
fn kind_given(word: Option<&str>) -> Option<Kind>
    ensures found { IfSome result (λ kind. unwrap_or (option_map (λ s. s.now) word.entry) (codes "blob") ≡ type_word kind) }
    ensures none { IfNone result ((kind : Kind) → unwrap_or (option_map (λ s. s.now) word.entry) (codes "blob") ≢ type_word kind) }
{
    let Some(word) = word else {
        return Some(Kind::Blob);
    };
    Kind::from_word(word.as_bytes())
}

// What the words given to `serve` ask for.
fn serving<'a>(alloc: Global, matches: &ArgMatches<'a>) -> Result<Command<'a>, CommandError<'a>>
    requires words { HasServeWords (rows_of (found_of matches.now)) }
    ensures ok { IfOk result (Asks (Some (codes "serve", rows_of (found_of matches.entry.now)))) }
    ensures err { IfErr result (IsBadGrant (tenants_given (rows_of (found_of matches.entry.now)))) }
{
    let Some(socket) = matches.get_str("socket") else {
        unreachable!();
    };
    let Some(connections) = matches.get_one::<u32>("connections") else {
        unreachable!();
    };
    let at_once = matches.get_one::<u32>("at-once");
    let hosting = hosting_of(alloc, matches)?;
    Ok(Command::Serve {
        socket,
        connections,
        at_once,
        hosting,
    })
}

// The folder, and the tenant with its limit.
fn granted<'a>(matches: &ArgMatches<'a>) -> Result<(&'a str, Grant), CommandError<'a>>
    requires words { HasTenantWords (rows_of (found_of matches.now)) }
    ensures dir { IfOk result (λ given. first_of (codes "dir") (rows_of (found_of matches.entry.now)) ≡ Some given.0.now) }
    ensures word { IfOk result (λ given. first_of (codes "tenant") (rows_of (found_of matches.entry.now)) ≡ Some (grant_word given.1)) }
    ensures right { IfOk result (λ given. IsGrant given.1) }
    ensures err { IfErr result (IsGrantRefused (rows_of (found_of matches.entry.now))) }
{
    let Some(dir) = matches.get_str("dir") else {
        unreachable!();
    };
    let Some(word) = matches.get_str("tenant") else {
        unreachable!();
    };
    let Some(grant) = Grant::read(word.as_bytes()) else {
        return Err(CommandError::BadTenant(word));
    };
    Ok((dir, grant))
}

// The folder and the tenant.
fn named<'a>(matches: &ArgMatches<'a>) -> Result<(&'a str, TenantName), CommandError<'a>>
    requires words { HasTenantWords (rows_of (found_of matches.now)) }
    ensures dir { IfOk result (λ given. first_of (codes "dir") (rows_of (found_of matches.entry.now)) ≡ Some given.0.now) }
    ensures word { IfOk result (λ given. first_of (codes "tenant") (rows_of (found_of matches.entry.now)) ≡ Some given.1) }
    ensures right { IfOk result (λ given. IsTenantName given.1) }
    ensures err { IfErr result (IsTenantRefused (rows_of (found_of matches.entry.now))) }
{
    let Some(dir) = matches.get_str("dir") else {
        unreachable!();
    };
    let Some(word) = matches.get_str("tenant") else {
        unreachable!();
    };
    let Some(tenant) = TenantName::read(word.as_bytes()) else {
        return Err(CommandError::BadTenant(word));
    };
    Ok((dir, tenant))
}

// What the words given to `repack` ask for.
fn repacking<'a>(matches: &ArgMatches<'a>) -> Command<'a>
    requires dir { is_some (first_of (codes "dir") (rows_of (found_of matches.now))) ≡ true }
    ensures { Asks (Some (codes "repack", rows_of (found_of matches.entry.now))) result }
{
    let Some(dir) = matches.get_str("dir") else {
        unreachable!();
    };
    let packed = matches.get_flag("packed");
    Command::Repack { dir, packed }
}

// What words that clap took ask for, or `None` if TYPE is bad.
fn asked<'a>(
    alloc: Global,
    matches: &ArgMatches<'a>,
) -> Result<Option<Command<'a>>, CommandError<'a>>
    requires met { IsCommandMet (subcommand_rows_of matches.now) }
    ensures some { IfOk result (λ o. IfSome o (Asks (subcommand_rows_of matches.entry.now))) }
    ensures none { IfOk result (λ o. IfNone o (IsBadType (subcommand_rows_of matches.entry.now))) }
    ensures err { IfErr result (IsRefused [] (subcommand_rows_of matches.entry.now)) }
{
    let Some((name, matches)) = matches.subcommand() else {
        unreachable!();
    };
    if name == "hash-object" {
        let Some(kind) = kind_given(matches.get_str("type")) else {
            return Ok(None);
        };
        return Ok(Some(Command::HashObject { kind }));
    }
    if name == "run" {
        let hosting = hosting_of(alloc, matches)?;
        return Ok(Some(Command::Run { hosting }));
    }
    if name == "serve" {
        let command = serving(alloc, matches)?;
        return Ok(Some(command));
    }
    if name == "check" {
        let Some(dir) = matches.get_str("dir") else {
            unreachable!();
        };
        return Ok(Some(Command::Check { dir }));
    }
    if name == "upgrade" {
        let Some(dir) = matches.get_str("dir") else {
            unreachable!();
        };
        return Ok(Some(Command::Upgrade { dir }));
    }
    if name == "add-tenant" {
        let (dir, grant) = granted(matches)?;
        return Ok(Some(Command::AddTenant { dir, grant }));
    }
    if name == "set-limit" {
        let (dir, grant) = granted(matches)?;
        return Ok(Some(Command::SetLimit { dir, grant }));
    }
    if name == "remove-tenant" {
        let (dir, tenant) = named(matches)?;
        return Ok(Some(Command::RemoveTenant { dir, tenant }));
    }
    if name == "repack" {
        return Ok(Some(repacking(matches)));
    }
    unreachable!()
}

// The refusal of a bad TYPE in words that clap took.
fn bad_type<'a>(top: &mut clap::Command<'_>) -> CommandError<'a>
    ensures refused { (met : Option (Text × List Row)) → IsBadType met → IsRefused [] met result }
    ensures faulty { (taken : Bool) (met : Option (Text × List Row)) → IsBadType met → IsFaulty taken met result }
{
    match top.error(ErrorKind::InvalidValue, "TYPE is blob, tree, commit or tag") {
        Ok(error) => CommandError::Usage(error),
        Err(_) => CommandError::Memory,
    }
}

/// Returns what the words ask for. The first word is the program's name. Each word given for a tenant is
/// checked before any command is returned, and after all that `clap` checks.
pub fn command_of<'a>(alloc: Global, words: &'a [&'a str]) -> Result<Command<'a>, CommandError<'a>>
    ensures ok { let texts = map (λ word. word.now) words.entry.now in
        IfOk result (λ command. (fault_of table_app texts ≡ []) × Asks (subcommand_of table_app texts) command) }
    ensures err { let texts = map (λ word. word.now) words.entry.now in
        IfErr result (IsRefused (fault_of table_app texts) (subcommand_of table_app texts)) }
    ensures faulty { let texts = map (λ word. word.now) words.entry.now in
        IfErr result (IsFaulty (takes table_app texts) (subcommand_of table_app texts)) }
{
    let Ok(mut top) = table(alloc) else {
        return Err(CommandError::Memory);
    };
    let matches = match top.try_get_matches_from_mut(words) {
        Ok(matches) => matches,
        Err(error) => return Err(refusal(error)),
    };
    match asked(alloc, &matches)? {
        Some(command) => Ok(command),
        None => Err(bad_type(&mut top)),
    }
}
