ghost use Rattle.std.specs.Prelude.{◌≡◌, Ok, IfOk, IfErr};
ghost use Rattle.git_reftx.specs.Reading.{command_at, commands_of};
ghost use Rattle.git_reftx.specs.Shown.{TellsFault};

use crate::command::Command;
use crate::command_line::read_line;
use crate::fault::{CommandFault, ReadError};
use crate::line::{Line, first_line};
use crate::ref_word::RefWord;
use std::alloc::Global;

/// The most commands of a transaction (own).
pub const MAX_COMMANDS: usize = 256;

/// Reads the commands of a transaction's body, one a line, in order.
pub fn read_commands(alloc: Global, body: &[u8]) -> Result<Vec<Command>, ReadError>
    ensures found { IfOk result (λ commands. commands_of body.now ≡ Ok commands.items) }
    ensures exact { IfErr result (TellsFault (commands_of body.now)) }
{
    let mut commands = Vec::new(alloc);
    let mut rest = body;
    while !rest.is_empty() {
        let (command, behind) = first_command(alloc, rest)?;
        if commands.len() == MAX_COMMANDS {
            return Err(ReadError::Fault(CommandFault::TooMany));
        }
        let Ok(()) = commands.push(command) else {
            return Err(ReadError::Memory);
        };
        rest = behind;
    }
    Ok(commands)
}

#[tactic(auto, unfolding(crate::specs::Reading::command_at))]
/// Reads the command at the start of a text. Returns it and what follows its line.
pub fn first_command(alloc: Global, text: &[u8]) -> Result<(Command, &[u8]), ReadError>
    ensures taken { IfOk result (λ p. command_at text.now ≡ Ok (p.0, p.1.now)) }
    ensures exact { IfErr result (TellsFault (command_at text.now)) }
{
    let (line, behind) = match first_line(text) {
        Line::Whole(line, behind) => (line, behind),
        Line::Unfinished => return Err(ReadError::Fault(CommandFault::Truncated)),
        Line::TooLong => return Err(ReadError::Fault(CommandFault::Syntax)),
    };
    let Some((reference, demand, change)) = read_line(line) else {
        return Err(ReadError::Fault(CommandFault::Syntax));
    };
    let Ok(reference) = reference.to_vec(alloc) else {
        return Err(ReadError::Memory);
    };
    let command = Command {
        reference: RefWord::new(reference),
        demand,
        change,
    };
    Ok((command, behind))
}
