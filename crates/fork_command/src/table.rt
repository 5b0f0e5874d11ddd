ghost use Rattle.std.specs.Prelude.{◌≡◌, IfOk, codes, false};
ghost use Rattle.clap.specs.Walk.{rule_of};
ghost use Rattle.clap.specs.Words.{app_of};
ghost use Rattle.clap.specs.declared.builder.command.Command.TheViews.{out-Command};
ghost use Rattle.fork_command.specs.Table.{add_tenant_app, at_once_rule, check_app, connections_rule, flag_rule, folder_app, hash_object_app, listening_app, needed_rule, option_rule, remove_tenant_app, repack_app, run_app, serve_app, serving_app, set_limit_app, table_app, tenant_app, tenants_rule, top_app, upgrade_app, with_hosting, word_rule};

use clap::{Arg, ArgAction, Command, value_parser};
use std::alloc::{AllocError, Global};

// The version of the program.
const VERSION: &str = "0.1.0";

fn hash_object<'a>(alloc: Global) -> Result<Command<'a>, AllocError>
    ensures table { IfOk result (λ c. app_of c ≡ hash_object_app) }
    ensures local { IfOk result (λ c. (out-Command c).has_globals ≡ false) }
{
    let kind = Arg::new(alloc, "type")
        .long("type")
        .value_name("TYPE")
        .help("What standard input holds: blob, tree, commit or tag; blob where none is given")
        .action(ArgAction::Set);
    Command::new(alloc, "hash-object")
        .about("Print the name of the object that standard input holds")
        .arg(kind)
}

fn dir<'a>(alloc: Global) -> Arg<'a>
    ensures rule { rule_of result ≡ option_rule (codes "dir") }
    ensures local { result.global ≡ false }
{
    Arg::new(alloc, "dir")
        .long("dir")
        .value_name("PATH")
        .help("The folder that keeps the host")
        .action(ArgAction::Set)
}

fn packed<'a>(alloc: Global, help: &'a str) -> Arg<'a>
    ensures rule { rule_of result ≡ flag_rule (codes "packed") }
    ensures local { result.global ≡ false }
{
    Arg::new(alloc, "packed")
        .long("packed")
        .help(help)
        .action(ArgAction::SetTrue)
}

fn sync<'a>(alloc: Global) -> Arg<'a>
    ensures rule { rule_of result ≡ flag_rule (codes "sync") }
    ensures local { result.global ≡ false }
{
    Arg::new(alloc, "sync")
        .long("sync")
        .help("Sync each request that changed the host before its reply goes out")
        .action(ArgAction::SetTrue)
}

fn tenants<'a>(alloc: Global) -> Arg<'a>
    ensures rule { rule_of result ≡ tenants_rule }
    ensures local { result.global ≡ false }
{
    Arg::new(alloc, "tenants")
        .value_name("TENANT=LIMIT")
        .help("A tenant to add, and its limit in bytes")
        .action(ArgAction::Append)
}

// A subcommand with the arguments that say what is hosted.
fn hosting<'a>(alloc: Global, command: Command<'a>) -> Result<Command<'a>, AllocError>
    requires local { (out-Command command).has_globals ≡ false }
    ensures table { IfOk result (λ c. app_of c ≡ with_hosting (app_of command.entry)) }
    ensures local { IfOk result (λ c. (out-Command c).has_globals ≡ false) }
{
    command
        .arg(dir(alloc))?
        .arg(packed(alloc, "Keep the objects of a new folder in few files"))?
        .arg(sync(alloc))?
        .arg(tenants(alloc))
}

fn run<'a>(alloc: Global) -> Result<Command<'a>, AllocError>
    ensures table { IfOk result (λ c. app_of c ≡ run_app) }
    ensures local { IfOk result (λ c. (out-Command c).has_globals ≡ false) }
{
    let run = Command::new(alloc, "run").about(
        "Serve request frames from standard input to standard output",
    );
    hosting(alloc, run)
}

fn socket<'a>(alloc: Global) -> Arg<'a>
    ensures rule { rule_of result ≡ needed_rule (codes "socket") }
    ensures local { result.global ≡ false }
{
    Arg::new(alloc, "socket")
        .long("socket")
        .value_name("PATH")
        .help("The Unix socket to listen on")
        .required(true)
        .action(ArgAction::Set)
}

fn connections<'a>(alloc: Global) -> Arg<'a>
    ensures rule { rule_of result ≡ connections_rule }
    ensures local { result.global ≡ false }
{
    Arg::new(alloc, "connections")
        .long("connections")
        .value_name("N")
        .help("How many connections to serve")
        .required(true)
        .action(ArgAction::Set)
        .value_parser(value_parser!(u32).range(1..=1_000_000))
}

fn at_once<'a>(alloc: Global) -> Arg<'a>
    ensures rule { rule_of result ≡ at_once_rule }
    ensures local { result.global ≡ false }
{
    Arg::new(alloc, "at-once")
        .long("at-once")
        .value_name("M")
        .help(
            "How many of them to serve at once, at most 256; one after another where it is not given",
        )
        .action(ArgAction::Set)
        .value_parser(value_parser!(u32).range(1..=256))
}

// `serve` with the arguments that say where, and for how many connections.
fn listening<'a>(alloc: Global) -> Result<Command<'a>, AllocError>
    ensures table { IfOk result (λ c. app_of c ≡ listening_app) }
    ensures local { IfOk result (λ c. (out-Command c).has_globals ≡ false) }
{
    Command::new(alloc, "serve")
        .about("Serve request frames on a Unix socket")
        .arg(socket(alloc))?
        .arg(connections(alloc))?
        .arg(at_once(alloc))
}

fn serve<'a>(alloc: Global) -> Result<Command<'a>, AllocError>
    ensures table { IfOk result (λ c. app_of c ≡ serve_app) }
    ensures local { IfOk result (λ c. (out-Command c).has_globals ≡ false) }
{
    hosting(alloc, listening(alloc)?)
}

// A subcommand that takes a folder.
fn of_folder<'a>(alloc: Global, name: &'a str, about: &'a str) -> Result<Command<'a>, AllocError>
    ensures table { IfOk result (λ c. app_of c ≡ folder_app name.entry.now) }
    ensures local { IfOk result (λ c. (out-Command c).has_globals ≡ false) }
{
    Command::new(alloc, name)
        .about(about)
        .arg(dir(alloc).required(true))
}

// A word given for a tenant.
fn tenant<'a>(alloc: Global, shape: &'a str, help: &'a str) -> Arg<'a>
    ensures rule { rule_of result ≡ word_rule (codes "tenant") }
    ensures local { result.global ≡ false }
{
    Arg::new(alloc, "tenant")
        .value_name(shape)
        .help(help)
        .required(true)
        .action(ArgAction::Set)
}

// A subcommand that takes a folder and one of its tenants.
fn of_tenant<'a>(
    alloc: Global,
    name: &'a str,
    about: &'a str,
    tenant: Arg<'a>,
) -> Result<Command<'a>, AllocError>
    requires rule { rule_of tenant ≡ word_rule (codes "tenant") }
    requires local { tenant.global ≡ false }
    ensures table { IfOk result (λ c. app_of c ≡ tenant_app name.entry.now) }
    ensures local { IfOk result (λ c. (out-Command c).has_globals ≡ false) }
{
    of_folder(alloc, name, about)?.arg(tenant)
}

// The subcommand that gives a folder the other layout.
fn repack<'a>(alloc: Global) -> Result<Command<'a>, AllocError>
    ensures table { IfOk result (λ c. app_of c ≡ repack_app) }
    ensures local { IfOk result (λ c. (out-Command c).has_globals ≡ false) }
{
    of_folder(
        alloc,
        "repack",
        "Keep each object of a folder in a file of its own, or with --packed many in one",
    )?
    .arg(packed(alloc, "Keep the objects in few files"))
}

// The subcommand that reads all that a folder keeps.
fn check<'a>(alloc: Global) -> Result<Command<'a>, AllocError>
    ensures table { IfOk result (λ c. app_of c ≡ check_app) }
    ensures local { IfOk result (λ c. (out-Command c).has_globals ≡ false) }
{
    of_folder(
        alloc,
        "check",
        "Read all that a folder keeps, and tell what is wrong with it",
    )
}

// The subcommand that saves what a folder keeps in the newest form.
fn upgrade<'a>(alloc: Global) -> Result<Command<'a>, AllocError>
    ensures table { IfOk result (λ c. app_of c ≡ upgrade_app) }
    ensures local { IfOk result (λ c. (out-Command c).has_globals ≡ false) }
{
    of_folder(
        alloc,
        "upgrade",
        "Save what a folder keeps in the newest form, and print its version",
    )
}

// The table without subcommands.
fn top<'a>(alloc: Global) -> Command<'a>
    ensures table { app_of result ≡ top_app }
    ensures local { (out-Command result).has_globals ≡ false }
{
    Command::new(alloc, "forkhost")
        .about("The core of a Git host for many tenants")
        .version(VERSION)
        .subcommand_required(true)
        .disable_help_subcommand(true)
}

// The table with the subcommands that serve, and those that read or upgrade a folder.
fn serving<'a>(alloc: Global) -> Result<Command<'a>, AllocError>
    ensures table { IfOk result (λ c. app_of c ≡ serving_app) }
{
    top(alloc)
        .subcommand(hash_object(alloc)?)?
        .subcommand(run(alloc)?)?
        .subcommand(serve(alloc)?)?
        .subcommand(check(alloc)?)?
        .subcommand(upgrade(alloc)?)
}

// The subcommand that adds a tenant.
fn add_tenant<'a>(alloc: Global) -> Result<Command<'a>, AllocError>
    ensures table { IfOk result (λ c. app_of c ≡ add_tenant_app) }
    ensures local { IfOk result (λ c. (out-Command c).has_globals ≡ false) }
{
    of_tenant(
        alloc,
        "add-tenant",
        "Add a tenant to what a folder keeps",
        tenant(alloc, "TENANT=LIMIT", "The tenant, and its limit in bytes"),
    )
}

// The subcommand that gives a tenant another limit.
fn set_limit<'a>(alloc: Global) -> Result<Command<'a>, AllocError>
    ensures table { IfOk result (λ c. app_of c ≡ set_limit_app) }
    ensures local { IfOk result (λ c. (out-Command c).has_globals ≡ false) }
{
    of_tenant(
        alloc,
        "set-limit",
        "Give a tenant of what a folder keeps another limit",
        tenant(alloc, "TENANT=LIMIT", "The tenant, and its limit in bytes"),
    )
}

// The subcommand that takes a tenant out.
fn remove_tenant<'a>(alloc: Global) -> Result<Command<'a>, AllocError>
    ensures table { IfOk result (λ c. app_of c ≡ remove_tenant_app) }
    ensures local { IfOk result (λ c. (out-Command c).has_globals ≡ false) }
{
    of_tenant(
        alloc,
        "remove-tenant",
        "Take a tenant out of what a folder keeps, with all that it has",
        tenant(alloc, "TENANT", "The tenant"),
    )
}

/// What the command line takes.
pub(crate) fn table<'a>(alloc: Global) -> Result<Command<'a>, AllocError>
    ensures table { IfOk result (λ c. app_of c ≡ table_app) }
{
    serving(alloc)?
        .subcommand(add_tenant(alloc)?)?
        .subcommand(set_limit(alloc)?)?
        .subcommand(remove_tenant(alloc)?)?
        .subcommand(repack(alloc)?)
}
