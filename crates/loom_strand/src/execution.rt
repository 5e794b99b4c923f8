//! Private runs.
ghost use Rattle.std.specs.Prelude.{◌≡◌, [], IfSome, IfNone};
ghost use Rattle.loom_flow.specs.Code.{IsLowered};
ghost use Rattle.loom_strand.specs.declared.stage.Birth.{Birth};
ghost use Rattle.loom_strand.specs.declared.stage.Stage.TheVariants as stage;
ghost use Rattle.loom_walk.specs.Owed.{queue};
ghost use Rattle.loom_strand.specs.InPart.{IsSomewhere};
ghost use Rattle.loom_strand.specs.PrivateRun.{IsRunning, IsFreeStep, Stops, MayRun, Runs, EntersFirst};

use crate::machine::Machine;
use crate::pass::pass;
use crate::place::next_place;
use crate::stage::{Birth, Stage};
use crate::step::advance;
use crate::step_result::{Mark, StepResult, Stop};
use loom_flow::flow::Flow;
use loom_trace::places::Places;
use loom_version::plans::Plans;
use loom_walk::filter_walk::FilterWalk;

/// What a thread keeps of its run.
#[derive(Debug, Drop)]
pub(crate) struct Execution {
    /// How far it is.
    pub(crate) stage: Stage,
    /// Its machine.
    pub(crate) machine: Machine,
    /// What filters make it do.
    pub(crate) walk: FilterWalk,
    /// The number of the place at which it stands: with its request; while something is owed, and when its last frame has ended, where it is.
    pub(crate) place: u16,
}

impl Execution {
    // Why the thread stops before its next step, if it does: that would pass a flagged place, or a place before which a newer version is to be taken.
    fn stop_before(&self, flow: &Flow, newer: bool, flags: &Places) -> Option<Stop>
        requires lowered { IsLowered flow.now }
        requires running { IsRunning flow.now self.now.machine }
        requires stage { self.now.stage ≡ stage.Runs }
        requires rests { queue self.now.walk.owed ≡ [] }
        ensures stops { IfSome result (λ x. (b : Birth) → Stops flow.now b flags.now newer self.now x) }
        ensures free { IfNone result (IsFreeStep flow.now flags.now newer self.now.machine) }
    {
        let place = next_place(&self.machine, flow)?;
        if flags.has(place) {
            return Some(Stop::Flagged(place));
        }
        if newer {
            return Some(Stop::Crosses(place));
        }
        None
    }

    // Goes on up to what is to be made where the thread is, to its next request, to a flagged place or to the end of the thread; where a newer
    // version is to be taken, to the next place.
    //
    // What filters cost is decided here. A step without a mark is one of the machine; at a mark the walk is told, which does no more than note it where
    // no filter is active. Flags and versions are tested before entry and back-edge places alone.
    fn run(&mut self, flow: &Flow, plans: &Plans, newer: bool, flags: &Places) -> Stop
        requires lowered { IsLowered flow.now }
        requires running { IsRunning flow.now self.old.machine }
        requires stage { self.old.stage ≡ stage.Runs }
        requires somewhere { (b : Birth) × IsSomewhere flow.now plans.now b self.old }
        ensures { (b : Birth) → Runs flow.now plans.now b flags.now newer self.old self.new result }
    {
        if !self.walk.is_at_rest() {
            return Stop::Owes;
        }
        'run: loop {
            if let Some(stop) = self.stop_before(flow, newer, flags) {
                return stop;
            }
            match advance(&mut self.machine, flow) {
                StepResult::Goes(None) => {}
                StepResult::Goes(Some(mark)) => {
                    self.place = pass(&self.machine, &mut self.walk, flow, plans, mark);
                    if !self.walk.is_at_rest() {
                        return Stop::Owes;
                    }
                }
                StepResult::Asks(request) => return Stop::Asks(request),
                StepResult::Ends => return Stop::Ends,
            }
        }
    }

    // Passes the entry place of the first frame, unless it is flagged, or a newer version is to be taken there: then it tells so.
    fn enter(
        &mut self,
        flow: &Flow,
        plans: &Plans,
        birth: Birth,
        newer: bool,
        flags: &Places,
    ) -> Option<Stop>
        requires lowered { IsLowered flow.now }
        requires may { MayRun flow.now birth self.old }
        requires stage { self.old.stage ≡ stage.Enters }
        requires somewhere { IsSomewhere flow.now plans.now birth self.old }
        ensures stops { IfSome result (λ x. Runs flow.now plans.now birth flags.now newer self.old self.new x) }
        ensures enters { IfNone result (EntersFirst flow.now plans.now birth flags.now newer self.old self.new) }
    {
        let entrance = flow.entrances()[birth.func as usize];
        if flags.has(entrance.place) {
            return Some(Stop::Flagged(entrance.place));
        }
        if newer {
            return Some(Stop::Crosses(entrance.place));
        }
        let mark = Mark::Enter(birth.func, entrance.place);
        self.machine.begin(birth.func, entrance, birth.args);
        self.place = pass(&self.machine, &mut self.walk, flow, plans, mark);
        self.stage = Stage::Runs;
        None
    }

    /// Goes on with a thread that has begun and hasn't ended.
    pub(crate) fn go_on(
        &mut self,
        flow: &Flow,
        plans: &Plans,
        birth: Birth,
        newer: bool,
        flags: &Places,
    ) -> Stop
        requires lowered { IsLowered flow.now }
        requires may { MayRun flow.now birth self.old }
        requires somewhere { IsSomewhere flow.now plans.now birth self.old }
        ensures { Runs flow.now plans.now birth flags.now newer self.old self.new result }
    {
        if let Stage::Enters = self.stage {
            return match self.enter(flow, plans, birth, newer, flags) {
                Some(stop) => stop,
                None => self.run(flow, plans, newer, flags),
            };
        }
        self.run(flow, plans, newer, flags)
    }
}
