//! From a text to its script.
ghost use Rattle.std.specs.Prelude.{◌≡◌, ◌≤◌, ◌∷◌, ◌++◌, [], length, IfOk};
ghost use Rattle.loom_script.specs.View.{command_of, commands_of};
ghost use Rattle.loom_script.specs.Reading.{with_command, behind_line};
ghost use Rattle.loom_script.specs.ScriptError.{script_limit, TellsPut, TellsScript};

use crate::command::{is_stall, read_command};
use crate::field::is_skipped;
use crate::line::{line_end, line_text};
use crate::script::{Command, Commands, Script};
use loom_tree::name::NoMemory;
use std::alloc::Global;

/// How many commands a script has at most.
const COMMAND_LIMIT: usize = 64;

/// Where a text leaves the rules of scripts.
#[derive(Clone, Copy, Debug, Drop, PartialEq, Eq)]
pub struct ScriptRefusal {
    /// The first line, from 1 to 65,537, that is neither skipped nor a command, or that is the 65th command. For now a command
    /// that waits for a stall is refused like a line that is none.
    pub line: u32,
}

/// Why there is no script.
#[derive(Clone, Copy, Debug, Drop, PartialEq, Eq)]
pub enum ScriptError {
    /// The text is none.
    Refused(ScriptRefusal),
    /// Memory ran out.
    NoMemory,
}

impl From<NoMemory> for ScriptError {
    ghost use Rattle.std.specs.Prelude.{◌≡◌};
    ghost use Rattle.loom_script.specs.declared.parse.ScriptError.TheVariants.{NoMemory};

    ghost from_gives = { λ _ e. e ≡ NoMemory };

    fn from(_error: NoMemory) -> ScriptError {
        ScriptError::NoMemory
    }
}

fn push(commands: &mut Vec<Command>, command: Command) -> Result<(), NoMemory>
    ensures { IfOk result (λ _. commands.new.items ≡ commands.old.items ++ command ∷ []) }
{
    commands.push(command)?;
    Ok(())
}

/// Puts the command of a line of this number behind the others; for now none that waits for a stall.
fn put_command(
    command: Command,
    number: u32,
    commands: &mut Vec<Command>,
) -> Result<(), ScriptError>
    ensures { TellsPut number (with_command (commands_of commands.old.items) (Some (command_of command))) (commands_of commands.new.items) result }
{
    if is_stall(&command.trigger) {
        return Err(ScriptError::Refused(ScriptRefusal { line: number }));
    }
    push(commands, command)?;
    Ok(())
}

/// Puts the command of a line, if it has one, behind those of the lines before it. Fails where the line is refused.
fn put_line(
    alloc: Global,
    line: &[u8],
    number: u32,
    commands: &mut Vec<Command>,
) -> Result<(), ScriptError>
    ensures { TellsPut number (behind_line number line.now (commands_of commands.old.items)) (commands_of commands.new.items) result }
{
    if is_skipped(line) {
        return Ok(());
    }
    if commands.len() >= COMMAND_LIMIT {
        return Err(ScriptError::Refused(ScriptRefusal { line: number }));
    }
    match read_command(alloc, line, number)? {
        Some(command) => put_command(command, number, commands),
        None => Err(ScriptError::Refused(ScriptRefusal { line: number })),
    }
}

/// The script of a text of at most 65,536 bytes. `Refused` comes exactly where it is none, or has a command that waits for a stall, and memory
/// didn't run out: at its first line that is neither skipped nor a command that may stand there. `NoMemory` tells nothing of the text.
pub fn parse_script(alloc: Global, bytes: &[u8]) -> Result<Script, ScriptError>
    requires { length bytes.now ≤ script_limit }
    ensures { TellsScript bytes.now result }
{
    let mut commands = Vec::new(alloc);
    let mut at = 0;
    let mut number: u32 = 1;
    'lines: while at <= bytes.len() {
        let end = line_end(bytes, at);
        put_line(alloc, line_text(bytes, at, end), number, &mut commands)?;
        at = end + 1;
        number += 1;
    }
    Ok(Script {
        commands: Commands(commands),
    })
}
