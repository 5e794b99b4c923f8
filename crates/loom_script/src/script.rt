//! Scripts.

use loom_tree::name::Name;
use std::marker::Model;

/// When a command is due.
#[derive(Clone, Copy, Debug, Drop, PartialEq, Eq)]
pub enum Trigger {
    /// Where threads have made at least so many entries: 0 to 1,000,000.
    At(u32),
    /// Where no thread can go on.
    Stall,
}

/// What a command does. A filter's name has from 1 to 32 letters, digits and `_`, and no digit first.
#[derive(Debug, Drop)]
pub enum Action {
    /// Puts a filter in.
    Install {
        /// The filter's name.
        name: Name,
        /// The filter's text, without blanks at its ends. It may be empty, and needn't be the text of a filter: nothing was asked of it.
        text: Name,
    },
    /// Takes a filter out.
    Remove {
        /// The filter's name.
        name: Name,
    },
}

/// A command of an operator.
#[derive(Debug, Drop)]
pub struct Command {
    /// The line on which it stands, from 1 to 65,537; lines that are skipped count.
    pub line: u32,
    /// When it is due.
    pub trigger: Trigger,
    /// What it does.
    pub action: Action,
}

/// A list of commands. Two of them may be due at the same time, and have the same name.
#[derive(Debug, Drop)]
pub struct Commands(pub Vec<Command>);

impl Model for Commands {
    ghost use Rattle.std.specs.Prelude.{List};
    ghost use Rattle.loom_script.specs.declared.script.Command.{Command};
    ghost use Rattle.loom_script.specs.contracts.script.Command as c;
    ghost use Rattle.std.specs.Coded.{codes};

    ghost Value = { List Command };

    ghost coded = { Prim.hlevel (codes, c.the_row.coded) };

    ghost view = { λ n. n.0.items };
}

/// A script: at most 64 commands.
#[derive(Debug, Drop)]
pub struct Script {
    /// The commands, in the order of the lines.
    pub commands: Commands,
}
