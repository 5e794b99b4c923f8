//! From the commands of a script to those of a run.
ghost use Rattle.std.specs.Prelude.{◌≡◌, ◌<◌, ◌≤◌, false, length, IfOk, None};
ghost use Rattle.loom_command.specs.Script.{at, most_commands};
ghost use Rattle.loom_filter.specs.FilterError.{text_limit};
ghost use Rattle.loom_script.specs.Laws.{text_in, HaveShortTexts};
ghost use Rattle.loom_script.specs.Stalls.{is_stall, HasNoStall};
ghost use Rattle.loom_script.specs.View.{trigger_of, name_of, action_of, command_of, commands_of};
ghost use Rattle.loom_sites.specs.UnsafePlaces.{AreUnsafe};
ghost use Rattle.loom_version.specs.Plans.{compiled_at, plans_in, AreFiltersOf};
ghost use Rattle.loom_world.specs.declared.command.Action.TheVariants as a;
ghost use Rattle.loom_world.specs.Commands.{IsJudgedSoFar, IsActionSoFar, IsCommandSoFar, AreCommandsSoFar};
ghost use Rattle.loom_world.specs.CommandFilters.{IsPutFilter, HasFlagsFor, PutsOnly, HaveFilters};
ghost use Rattle.loom_world.specs.CommandView.{judgement_of, law_action, law_command, law_commands};

use crate::command::{Action, Command, Judged};
use crate::flags::other_places;
use loom_filter::parse::{FilterError, FilterRefusal};
use loom_flow::flow::Flow;
use loom_script::script::{Action as ScriptAction, Command as ScriptCommand, Trigger};
use loom_sites::judge::{FilterInProgram, judge};
use loom_tree::name::{Name, NoMemory};
use loom_version::plans::Plans;
use std::alloc::Global;

/// The number of a refusal: nothing else refuses the filter, but it has a clause that can't be put in yet.
const NOT_BUILT: u8 = 15;

/// The commands of a run, and the filters that they put in.
#[derive(Debug, Drop)]
pub(crate) struct RunCommands {
    pub(crate) commands: Vec<Command>,
    pub(crate) plans: Plans,
}

// What a filter is of which nothing refuses the text: it is put into the plans as that of command `k`, unless it has a clause that isn't built.
fn put_filter(flow: &Flow, plans: &mut Plans, k: u8, x: FilterInProgram) -> Judged
    requires first { 0 < k }
    requires last { k ≤ most_commands }
    requires places { AreUnsafe flow.now.program x.filter.plan x.unsafe_places }
    requires program { x.filter.program ≡ flow.now.program }
    requires plans { AreFiltersOf flow.now.program plans.old }
    requires none { compiled_at plans.old k ≡ None }
    ensures judged { IsPutFilter x.filter.plan (judgement_of (plans_in plans.new k) result) }
    ensures flags { HasFlagsFor flow.now.program (compiled_at plans.new k) (a.Install result) }
    ensures puts { PutsOnly flow.now.program plans.old k plans.new }
{
    match x.filter.first_other() {
        Some(clause) => Judged::Refused(FilterRefusal {
            clause,
            number: NOT_BUILT,
        }),
        None => {
            let flags = other_places(flow, &x.unsafe_places);
            plans.put(k, x.filter);
            Judged::Flags(flags)
        }
    }
}

// What the text of the filter of command `k` is.
fn judged(
    alloc: Global,
    flow: &Flow,
    file: &[u8],
    plans: &mut Plans,
    k: u8,
    text: &[u8],
) -> Result<Judged, NoMemory>
    requires first { 0 < k }
    requires last { k ≤ most_commands }
    requires short { length text.now ≤ text_limit }
    requires plans { AreFiltersOf flow.now.program plans.old }
    requires none { compiled_at plans.old k ≡ None }
    ensures judged { IfOk result (λ x. IsJudgedSoFar flow.now.program file.now text.now (judgement_of (plans_in plans.new k) x)) }
    ensures flags { IfOk result (λ x. HasFlagsFor flow.now.program (compiled_at plans.new k) (a.Install x)) }
    ensures puts { PutsOnly flow.now.program plans.old k plans.new }
{
    match judge(alloc, flow, file, text) {
        Ok(x) => Ok(put_filter(flow, plans, k, x)),
        Err(FilterError::Refused(refusal)) => Ok(Judged::Refused(refusal)),
        Err(FilterError::NoMemory) => Err(NoMemory),
    }
}

// What command `k` does in the program.
fn action_of(
    alloc: Global,
    flow: &Flow,
    file: &[u8],
    plans: &mut Plans,
    k: u8,
    action: &ScriptAction,
) -> Result<Action, NoMemory>
    requires first { 0 < k }
    requires last { k ≤ most_commands }
    requires short { length (text_in (action_of action.now)) ≤ text_limit }
    requires plans { AreFiltersOf flow.now.program plans.old }
    requires none { compiled_at plans.old k ≡ None }
    ensures is { IfOk result (λ a. IsActionSoFar flow.now.program file.now (action_of action.now) (law_action (plans_in plans.new k) a)) }
    ensures flags { IfOk result (λ a. HasFlagsFor flow.now.program (compiled_at plans.new k) a) }
    ensures puts { PutsOnly flow.now.program plans.old k plans.new }
{
    match action {
        ScriptAction::Install { text, .. } => {
            let x = judged(alloc, flow, file, plans, k, text.bytes())?;
            Ok(Action::Install(x))
        }
        ScriptAction::Remove { .. } => Ok(Action::Remove),
    }
}

// Behind how many entries of threads a command is due.
fn moment_of(trigger: &Trigger) -> u32
    requires { is_stall (trigger_of trigger.now) ≡ false }
    ensures { trigger_of trigger.now ≡ at result }
{
    match *trigger {
        Trigger::At(entries) => entries,
        Trigger::Stall => unreachable!(),
    }
}

// The name of a command's filter.
fn name_of(action: &ScriptAction) -> &Name
    ensures { result.now ≡ name_of action.now }
{
    match action {
        ScriptAction::Install { name, .. } => name,
        ScriptAction::Remove { name } => name,
    }
}

// Command `k` of a run, which this command of the script is.
fn command_of(
    alloc: Global,
    flow: &Flow,
    file: &[u8],
    plans: &mut Plans,
    k: u8,
    command: &ScriptCommand,
) -> Result<Command, NoMemory>
    requires first { 0 < k }
    requires last { k ≤ most_commands }
    requires short { length (text_in (action_of command.now.action)) ≤ text_limit }
    requires no_stall { is_stall (trigger_of command.now.trigger) ≡ false }
    requires plans { AreFiltersOf flow.now.program plans.old }
    requires none { compiled_at plans.old k ≡ None }
    ensures is { IfOk result (λ c. IsCommandSoFar flow.now.program file.now (command_of command.now) (law_command (plans_in plans.new k) c)) }
    ensures flags { IfOk result (λ c. HasFlagsFor flow.now.program (compiled_at plans.new k) c.action) }
    ensures puts { PutsOnly flow.now.program plans.old k plans.new }
{
    let action = action_of(alloc, flow, file, plans, k, &command.action)?;
    let name = Name::copied(alloc, name_of(&command.action).bytes())?;
    Ok(Command {
        at: moment_of(&command.trigger),
        name,
        action,
    })
}

/// The commands of a run that a script's commands are in the program, in the file of this name, and the filters that they put in. Each filter's text
/// is judged; for now one that nothing else refuses is refused with number 15 where a clause of it is no exclusion. An `Err` is want of memory.
pub(crate) fn run_commands(
    alloc: Global,
    flow: &Flow,
    file: &[u8],
    script: &[ScriptCommand],
) -> Result<RunCommands, NoMemory>
    requires few { length (commands_of script.now) ≤ most_commands }
    requires short { HaveShortTexts text_limit (commands_of script.now) }
    requires no_stall { HasNoStall (commands_of script.now) }
    ensures are { IfOk result (λ x. AreCommandsSoFar flow.now.program file.now (commands_of script.now) (law_commands (plans_in x.plans) x.commands.items)) }
    ensures filters { IfOk result (λ x. HaveFilters flow.now.program x.plans x.commands.items) }
{
    let mut commands = Vec::new(alloc);
    let mut plans = Plans::make(alloc)?;
    let mut k = 0;
    'all: for command in script {
        k += 1;
        let next = command_of(alloc, flow, file, &mut plans, k, command)?;
        commands.push(next)?;
    }
    Ok(RunCommands { commands, plans })
}
