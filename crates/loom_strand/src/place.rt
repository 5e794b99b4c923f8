//! The places that a thread comes to.
ghost use Rattle.std.specs.Prelude.{ℕ, ◌≡◌, ◌<◌, length, Some};
ghost use Rattle.loom_lang.specs.Places.{place_at};
ghost use Rattle.loom_lang.specs.Places as site;
ghost use Rattle.loom_lang.specs.Trace.{Item};
ghost use Rattle.loom_flow.specs.Code.{IsLowered};
ghost use Rattle.loom_flow.specs.State.{State};
ghost use Rattle.loom_flow.specs.Progress.{of_control, of_step, progress};
ghost use Rattle.loom_strand.specs.Machine.{position, frames_below, HasCallFor, TakesFewArguments};
ghost use Rattle.loom_strand.specs.StepResult.{place_here, place_coming};
ghost use Rattle.loom_strand.specs.InPart.{IsMarkOf, place_behind};
ghost use Rattle.loom_strand.specs.StrandInvariant.{IsSoundPosition, HasRoom};

use crate::machine::{FRAMES_BELOW, Machine, Phase};
use crate::step_result::Mark;
use loom_flow::code::{CodeStep, Control, Instr};
use loom_flow::flow::Flow;

// The entry or back-edge place that is passed where an instruction leads, if one is.
fn place_of_control(machine: &Machine, flow: &Flow, i: &Instr, x: Control) -> Option<u16>
    requires frames { machine.now.most_frames ≡ frames_below }
    requires calls { HasCallFor flow.now x }
    ensures { result ≡ place_coming flow.now i.now.place (of_control flow.now machine.now.state i.now.line i.now.place x) }
{
    match x {
        Control::Begin => None,
        Control::Done => None,
        Control::Edge(_) => Some(i.place),
        Control::Jump(_) => None,
        Control::JumpIfZero(_, _) => None,
        Control::Call(func, _) => {
            if machine.waiting() >= FRAMES_BELOW {
                return None;
            }
            Some(flow.entrances()[func as usize].place)
        }
        Control::Return(_) => None,
        Control::Out => None,
    }
}

// The same of any instruction.
fn place_of_step(machine: &Machine, flow: &Flow, i: &Instr) -> Option<u16>
    requires frames { machine.now.most_frames ≡ frames_below }
    requires calls { TakesFewArguments flow.now i.now.step }
    ensures { result ≡ place_coming flow.now i.now.place (of_step flow.now machine.now.state i.now i.now.step) }
{
    match i.step {
        CodeStep::Compute(_) => None,
        CodeStep::Ask(_) => None,
        CodeStep::Control(x) => place_of_control(machine, flow, i, x),
    }
}

/// The entry or back-edge place that the next step passes, if it passes one.
pub(crate) fn next_place(machine: &Machine, flow: &Flow) -> Option<u16>
    requires lowered { IsLowered flow.now }
    requires sound { IsSoundPosition flow.now (position machine.now) }
    requires room { HasRoom flow.now machine.now }
    ensures { result ≡ place_coming flow.now (place_here flow.now (position machine.now)) (progress flow.now (position machine.now)) }
{
    match machine.phase() {
        Phase::Before => place_of_step(machine, flow, &flow.code()[machine.at()]),
        Phase::Leaves(_) => None,
        Phase::Over => None,
    }
}

// The out place of a function: the one before the entry place of the next function, or the last one.
fn out_place(flow: &Flow, func: u8) -> u16
    requires lowered { IsLowered flow.now }
    requires function { func < length flow.now.program.funcs }
    ensures { place_at flow.now.program result ≡ Some (site.out func) }
{
    let next = func as usize + 1;
    if next < flow.entrances().len() {
        flow.entrances()[next].place - 1
    } else {
        flow.places() - 1
    }
}

/// Where the thread is behind a mark: the in place of a statement, and of a loop that turns back, the entry place or the out place of a frame.
pub(crate) fn place_of(flow: &Flow, mark: Mark) -> u16
    requires lowered { IsLowered flow.now }
    requires mark { (y : State) × ((i : Item) × IsMarkOf flow.now y mark i) }
    ensures { (y : State) (i : Item) → IsMarkOf flow.now y mark i → place_at flow.now.program result ≡ Some (place_behind i site.nowhere) }
{
    match mark {
        Mark::Begins(place) => place,
        Mark::Done(_, place) => place,
        Mark::Edge(place) => place - 1,
        Mark::Enter(_, place) => place,
        Mark::Out(func) => out_place(flow, func),
    }
}
