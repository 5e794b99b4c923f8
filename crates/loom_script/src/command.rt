//! The command of a line.
ghost use Rattle.std.specs.Prelude.{◌≡◌, IfOk, IfSome};
ghost use Rattle.loom_script.specs.View.{trigger_of, trigger_if, name_of, action_if, command_if};
ghost use Rattle.loom_script.specs.Stalls.{is_stall};
ghost use Rattle.loom_script.specs.Reading.{trigger_by, action_by, command_by};

use crate::field::{are_blanks, behind_field, first_field};
use crate::script::{Action, Command, Trigger};
use crate::word::{filter_text, is, is_filter_name, moment};
use loom_tree::name::{Name, NoMemory};
use std::alloc::Global;

/// When a command is due, by the first two fields of its line; `None` where they don't say it.
fn read_trigger(when: &[u8], which: &[u8]) -> Option<Trigger>
    ensures { trigger_if result ≡ trigger_by when.now which.now }
{
    if is(when, b"at") {
        match moment(which) {
            Some(entries) => Some(Trigger::At(entries)),
            None => None,
        }
    } else if is(when, b"on") && is(which, b"stall") {
        Some(Trigger::Stall)
    } else {
        None
    }
}

/// What a command does with the filter of this name, by the third field of its line and what is behind the fourth; `None` where they
/// don't say it. An `Err` is want of memory.
fn read_action(
    alloc: Global,
    verb: &[u8],
    name: &[u8],
    rest: &[u8],
) -> Result<Option<Action>, NoMemory>
    ensures action { IfOk result (λ a. action_if a ≡ action_by verb.now rest.now) }
    ensures name { IfOk result (λ a. IfSome a (λ x. name_of x ≡ name.now)) }
{
    if is(verb, b"install") {
        let text = filter_text(rest);
        Ok(Some(Action::Install {
            name: Name::copied(alloc, name)?,
            text: Name::copied(alloc, text)?,
        }))
    } else if is(verb, b"remove") && are_blanks(rest) {
        Ok(Some(Action::Remove {
            name: Name::copied(alloc, name)?,
        }))
    } else {
        Ok(None)
    }
}

/// The command that a line of this number is; `None` where it is none. An `Err` is want of memory.
pub(crate) fn read_command(
    alloc: Global,
    line: &[u8],
    number: u32,
) -> Result<Option<Command>, NoMemory>
    ensures { IfOk result (λ c. command_if c ≡ command_by number line.now) }
{
    let second = behind_field(line);
    let third = behind_field(second);
    let fourth = behind_field(third);
    let name = first_field(fourth);
    if !is_filter_name(name) {
        return Ok(None);
    }
    match read_trigger(first_field(line), first_field(second)) {
        Some(trigger) => match read_action(alloc, first_field(third), name, behind_field(fourth))? {
            Some(action) => Ok(Some(Command {
                line: number,
                trigger,
                action,
            })),
            None => Ok(None),
        },
        None => Ok(None),
    }
}

/// Whether a command waits for a stall.
pub(crate) fn is_stall(trigger: &Trigger) -> bool
    ensures { result ≡ is_stall (trigger_of trigger.now) }
{
    match trigger {
        Trigger::At(_) => false,
        Trigger::Stall => true,
    }
}
