ghost use Rattle.std.specs.Prelude.{◌≡◌, IfSome, map, option_map};
ghost use Rattle.fork_program.specs.Asked.{AskAbout, AskToStart, folder_in, started_in};

use fork_command::{Command, command_of};
use std::alloc::Global;

// The folder of a command.
fn folder_of<'a>(command: Command<'a>) -> Option<&'a str>
    ensures { option_map (λ dir. dir.now) result ≡ folder_in command.entry }
{
    match command {
        Command::HashObject { kind: _ } => None,
        Command::Run { hosting } => hosting.dir,
        Command::Serve {
            socket: _,
            connections: _,
            at_once: _,
            hosting,
        } => hosting.dir,
        Command::Check { dir } => Some(dir),
        Command::Upgrade { dir } => Some(dir),
        Command::AddTenant { dir, grant: _ } => Some(dir),
        Command::SetLimit { dir, grant: _ } => Some(dir),
        Command::RemoveTenant { dir, tenant: _ } => Some(dir),
        Command::Repack { dir, packed: _ } => Some(dir),
    }
}

// The folder of a command that starts a host.
fn start_of<'a>(command: Command<'a>) -> Option<&'a str>
    ensures { option_map (λ dir. dir.now) result ≡ started_in command.entry }
{
    match command {
        Command::Run { hosting } => hosting.dir,
        Command::Serve {
            socket: _,
            connections: _,
            at_once: _,
            hosting,
        } => hosting.dir,
        _ => None,
    }
}

/// The folder of the command that the words ask for.
pub(crate) fn folder_asked<'a>(alloc: Global, words: &'a [&'a str]) -> Option<&'a str>
    ensures { IfSome result (λ dir. AskAbout (map (λ word. word.now) words.entry.now) dir.now) }
{
    match command_of(alloc, words) {
        Ok(command) => folder_of(command),
        Err(_) => None,
    }
}

/// The folder of the command that the words ask for, if it starts a host.
pub(crate) fn start_asked<'a>(alloc: Global, words: &'a [&'a str]) -> Option<&'a str>
    ensures { IfSome result (λ dir. AskToStart (map (λ word. word.now) words.entry.now) dir.now) }
{
    match command_of(alloc, words) {
        Ok(command) => start_of(command),
        Err(_) => None,
    }
}
