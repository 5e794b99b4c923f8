//! Marks that a thread passes, and what filters make it do there.
ghost use Rattle.std.specs.Prelude.{◌≡◌, Some};
ghost use Rattle.loom_lang.specs.Places.{place_at};
ghost use Rattle.loom_lang.specs.Places as site;
ghost use Rattle.loom_lang.specs.Trace.{Item};
ghost use Rattle.loom_flow.specs.Code.{IsLowered};
ghost use Rattle.loom_law.specs.OpenStatements.{frame_lines, StandsIn};
ghost use Rattle.loom_law.specs.Walk.{Walk, after_item};
ghost use Rattle.loom_version.specs.Plans.{plans_in};
ghost use Rattle.loom_walk.specs.FilterWalk.{IsAt, KeepsRoom};
ghost use Rattle.loom_strand.specs.InPart.{IsMarkOf, CanPass, place_behind};

use crate::machine::Machine;
use crate::place::place_of;
use crate::step_result::Mark;
use loom_flow::flow::Flow;
use loom_version::plans::Plans;
use loom_walk::filter_walk::FilterWalk;

// The walk is told of a mark that the thread passes.
fn tell_mark(machine: &Machine, walk: &mut FilterWalk, flow: &Flow, plans: &Plans, mark: Mark)
    requires passes { CanPass flow.now plans.now walk.old machine.now.state mark }
    ensures passes { (z : Walk) (i : Item) → IsMarkOf flow.now machine.now.state mark i → StandsIn (frame_lines z.frames) i → IsAt flow.now.program (plans_in plans.now) walk.old z → IsAt flow.now.program (plans_in plans.now) walk.new (after_item flow.now.program (plans_in plans.now) z i) }
    ensures room { KeepsRoom walk.old walk.new }
{
    match mark {
        Mark::Begins(place) => walk.begin_statement(flow, plans, place, machine.locals()),
        Mark::Done(line, _) => walk.complete_statement(plans, line),
        Mark::Edge(place) => walk.pass_edge(flow, place),
        Mark::Enter(_, place) => walk.enter_frame(flow, plans, place, machine.locals()),
        Mark::Out(func) => walk.leave_frame(flow, plans, func),
    }
}

/// The thread passes a mark, and its machine is behind it already. Gives the number of the place where it is then.
pub(crate) fn pass(
    machine: &Machine,
    walk: &mut FilterWalk,
    flow: &Flow,
    plans: &Plans,
    mark: Mark,
) -> u16
    requires lowered { IsLowered flow.now }
    requires passes { CanPass flow.now plans.now walk.old machine.now.state mark }
    ensures passes { (z : Walk) (i : Item) → IsMarkOf flow.now machine.now.state mark i → StandsIn (frame_lines z.frames) i → IsAt flow.now.program (plans_in plans.now) walk.old z → IsAt flow.now.program (plans_in plans.now) walk.new (after_item flow.now.program (plans_in plans.now) z i) }
    ensures place { (i : Item) → IsMarkOf flow.now machine.now.state mark i → place_at flow.now.program result ≡ Some (place_behind i site.nowhere) }
    ensures room { KeepsRoom walk.old walk.new }
{
    tell_mark(machine, walk, flow, plans, mark);
    place_of(flow, mark)
}
