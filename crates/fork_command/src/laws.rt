ghost use Rattle.std.specs.Prelude.{◌≡◌, List, [], Option};
ghost use Rattle.clap.specs.Words.{Row, Text};
ghost use Rattle.fork_command.specs.declared.command.Command.{Command};
ghost use Rattle.fork_command.specs.declared.error.CommandError.{CommandError};
ghost use Rattle.fork_command.specs.Command.{Asks, IsRefused};

/// A law, with no code to run: if `clap` finds no fault in the words, and they ask for a command, they are
/// refused only if memory runs out.
pub fn what_is_asked_is_not_refused()
    ensures { (met : Option (Text × List Row)) (command : Command) (error : CommandError)
        → Asks met command → IsRefused [] met error → error ≡ CommandError.Memory }
{}
