//! One step of a thread.
ghost use Rattle.std.specs.Prelude.{ℕ, ◌+◌, ◌≡◌, ◌<◌, ◌≤◌, length, slice_get};
ghost use Rattle.loom_lang.specs.Values.{is_zero, negated, inverted};
ghost use Rattle.loom_flow.specs.declared.code.Operand.TheVariants as o;
ghost use Rattle.loom_flow.specs.declared.code.Compute.TheVariants as compute;
ghost use Rattle.loom_flow.specs.declared.code.Control.TheVariants as control;
ghost use Rattle.loom_flow.specs.declared.code.CodeStep.TheVariants as s;
ghost use Rattle.loom_flow.specs.Code.{IsLowered};
ghost use Rattle.loom_flow.specs.Flow.{Flow};
ghost use Rattle.loom_lang.specs.Limits.{param_limit};
ghost use Rattle.loom_flow.specs.Depth.{pops, takes_off};
ghost use Rattle.loom_flow.specs.Laws.{HasLocals};
ghost use Rattle.loom_flow.specs.State.{operand_value, without, given, forward, jumped};
ghost use Rattle.loom_flow.specs.Progress.{goes, of_compute, of_control, of_step, returns};
ghost use Rattle.loom_lang.specs.Trace.{out};
ghost use Rattle.loom_strand.specs.declared.machine.Phase.TheVariants as phase;
ghost use Rattle.loom_strand.specs.declared.step_result.StepResult.TheVariants as t;
ghost use Rattle.loom_strand.specs.Machine.{position, frames_below, HasNext, HasRoomFor, HasCallFor, TakesFewArguments};
ghost use Rattle.loom_strand.specs.StepResult.{StepsTo, Advances};
ghost use Rattle.loom_strand.specs.StrandInvariant.{IsSoundPosition, HasRoom, IsLeaving};

use crate::ask::request;
use crate::machine::{FRAMES_BELOW, Machine, Phase};
use crate::operator::{inverted, operator_value};
use crate::step_result::{DIVISION, FRAMES, Mark, StepResult};
use loom_flow::code::{CodeStep, Compute, Control, Instr, Operand, Target};
use loom_flow::flow::Flow;
use loom_trace::request::Request;
use loom_tree::expression::Op;

// The value of an operator is left, or a division by 0 traps.
fn apply(
    machine: &mut Machine,
    line: u32,
    op: Op,
    a: Operand,
    b: Operand,
    target: Target,
) -> StepResult
    requires phase { machine.old.phase ≡ phase.Before }
    requires before { HasNext machine.old.state }
    requires values { pops a + pops b ≤ length machine.old.state.values }
    requires room { HasRoomFor machine.old (s.Compute (compute.Apply op a b target)) }
    requires locals { HasLocals (s.Compute (compute.Apply op a b target)) }
    ensures { (c : Flow) (place : ℕ) → StepsTo c place machine.old machine.new result (of_compute machine.old.state line (compute.Apply op a b target)) }
{
    match operator_value(op, machine.operand_under(a, b), machine.operand(b)) {
        Some(v) => {
            machine.replace_two(a, b, target, v);
            StepResult::Goes(None)
        }
        None => StepResult::Asks(Request::Trap {
            line,
            reason: DIVISION,
        }),
    }
}

// What an instruction of this line computes.
fn compute(machine: &mut Machine, line: u32, x: Compute) -> StepResult
    requires phase { machine.old.phase ≡ phase.Before }
    requires before { HasNext machine.old.state }
    requires values { takes_off (s.Compute x) ≤ length machine.old.state.values }
    requires room { HasRoomFor machine.old (s.Compute x) }
    requires locals { HasLocals (s.Compute x) }
    ensures { (c : Flow) (place : ℕ) → StepsTo c place machine.old machine.new result (of_compute machine.old.state line x) }
{
    match x {
        Compute::Move(a, d) => {
            machine.replace(a, d, machine.operand(a));
            StepResult::Goes(None)
        }
        Compute::Negate(a, d) => {
            machine.replace(a, d, machine.operand(a).wrapping_neg());
            StepResult::Goes(None)
        }
        Compute::Invert(a, d) => {
            machine.replace(a, d, inverted(machine.operand(a)));
            StepResult::Goes(None)
        }
        Compute::Apply(op, a, b, d) => apply(machine, line, op, a, b, d),
        Compute::Discard => {
            machine.pass(Operand::Top);
            StepResult::Goes(None)
        }
    }
}

// Into a new frame, or a trap where it would be one too many.
fn call(machine: &mut Machine, flow: &Flow, i: &Instr, func: u8, n: u8) -> StepResult
    requires phase { machine.old.phase ≡ phase.Before }
    requires few { n ≤ param_limit }
    requires arguments { n ≤ length machine.old.state.values }
    requires frames { machine.old.most_frames ≡ frames_below }
    requires there { func < length flow.now.entrances }
    ensures { StepsTo flow.now i.now.place machine.old machine.new result (of_control flow.now machine.old.state i.now.line i.now.place (control.Call func n)) }
{
    if machine.waiting() >= FRAMES_BELOW {
        return StepResult::Asks(Request::Trap {
            line: i.line,
            reason: FRAMES,
        });
    }
    let entrance = flow.entrances()[func as usize];
    let args = machine.take_arguments(n);
    machine.enter(entrance, func, args, i.place);
    StepResult::Goes(Some(Mark::Enter(func, entrance.place)))
}

// Where an instruction leads.
fn control(machine: &mut Machine, flow: &Flow, i: &Instr, x: Control) -> StepResult
    requires phase { machine.old.phase ≡ phase.Before }
    requires before { HasNext machine.old.state }
    requires frames { machine.old.most_frames ≡ frames_below }
    requires calls { HasCallFor flow.now x }
    requires values { takes_off (s.Control x) ≤ length machine.old.state.values }
    requires locals { HasLocals (s.Control x) }
    ensures { StepsTo flow.now i.now.place machine.old machine.new result (of_control flow.now machine.old.state i.now.line i.now.place x) }
{
    match x {
        Control::Begin => {
            machine.forward();
            StepResult::Goes(Some(Mark::Begins(i.place)))
        }
        Control::Done => {
            machine.forward();
            StepResult::Goes(Some(Mark::Done(i.line, i.place)))
        }
        Control::Edge(to) => {
            machine.jump(to);
            StepResult::Goes(Some(Mark::Edge(i.place)))
        }
        Control::Jump(to) => {
            machine.jump(to);
            StepResult::Goes(None)
        }
        Control::JumpIfZero(a, to) => {
            machine.branch(a, to);
            StepResult::Goes(None)
        }
        Control::Call(func, n) => call(machine, flow, i, func, n),
        Control::Return(a) => {
            machine.leave(a);
            StepResult::Goes(Some(Mark::Done(i.line, i.place)))
        }
        Control::Out => {
            machine.leave(Operand::Number(0));
            StepResult::Goes(None)
        }
    }
}

// The instruction before which the thread is.
fn step(machine: &mut Machine, flow: &Flow, i: &Instr) -> StepResult
    requires phase { machine.old.phase ≡ phase.Before }
    requires before { HasNext machine.old.state }
    requires values { takes_off i.now.step ≤ length machine.old.state.values }
    requires room { HasRoomFor machine.old i.now.step }
    requires locals { HasLocals i.now.step }
    requires frames { machine.old.most_frames ≡ frames_below }
    requires arguments { TakesFewArguments flow.now i.now.step }
    ensures { StepsTo flow.now i.now.place machine.old machine.new result (of_step flow.now machine.old.state i.now i.now.step) }
{
    match i.step {
        CodeStep::Compute(x) => compute(machine, i.line, x),
        CodeStep::Ask(x) => StepResult::Asks(request(machine, i.line, x)),
        CodeStep::Control(x) => control(machine, flow, i, x),
    }
}

// The end of the newest frame, with its result.
#[tactic(auto, using(crate::proofs::Room::room_below))]
fn leave(machine: &mut Machine, flow: &Flow, v: i64) -> StepResult
    requires leaving { IsLeaving flow.now machine.old.state }
    requires room { HasRoom flow.now machine.old }
    ensures { (place : ℕ) → StepsTo flow.now place machine.old machine.new result (goes (Some (out machine.old.state.func)) (returns flow.now machine.old.state.values v machine.old.state.below)) }
{
    let func = machine.func();
    machine.back(flow.sites(), v);
    StepResult::Goes(Some(Mark::Out(func)))
}

/// One step. The machine stays where it is where the thread asks for something, or is to end.
pub(crate) fn advance(machine: &mut Machine, flow: &Flow) -> StepResult
    requires lowered { IsLowered flow.now }
    requires sound { IsSoundPosition flow.now (position machine.old) }
    requires room { HasRoom flow.now machine.old }
    ensures { Advances flow.now machine.old machine.new result }
{
    match machine.phase() {
        Phase::Before => step(machine, flow, &flow.code()[machine.at()]),
        Phase::Leaves(v) => leave(machine, flow, v),
        Phase::Over => StepResult::Ends,
    }
}
