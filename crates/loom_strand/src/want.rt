//! What a thread asks for where it stopped.
ghost use Rattle.std.specs.Prelude.{◌≡◌, ◌<◌, ◌⊎◌, ◌&&◌, true, false, [], List, Option, ℕ, length, slice_get, Some};
ghost use Rattle.loom_lang.specs.Places.{line_of_function};
ghost use Rattle.loom_flow.specs.Code.{IsLowered};
ghost use Rattle.loom_trace.specs.Places.{has_place};
ghost use Rattle.loom_trace.specs.declared.request.Request.TheVariants as r;
ghost use Rattle.loom_plan.specs.Compiled.{Compiled};
ghost use Rattle.loom_plan.specs.Sets.{event_numbers};
ghost use Rattle.loom_walk.specs.Owed.{queue, operation_of};
ghost use Rattle.loom_strand.specs.declared.stage.Birth.{Birth};
ghost use Rattle.loom_strand.specs.Life.{asks_cross};
ghost use Rattle.loom_strand.specs.InPart.{IsSomewhere};
ghost use Rattle.loom_strand.specs.StrandInvariant.{operation_request};
ghost use Rattle.loom_strand.specs.PrivateRun.{MayRun, Stops, HasStopped, IsLineAt, IsFirstRequest, ComesOf, StaysBlocked, GoesToHalt, RunsFrom, MayHalt};

use crate::execution::Execution;
use crate::stage::{Birth, Stage, Want};
use crate::step_result::Stop;
use loom_flow::flow::Flow;
use loom_plan::sets::EventSet;
use loom_trace::places::Places;
use loom_trace::request::Request;
use loom_trace::row::EventNumbers;
use loom_version::plans::Plans;
use loom_version::version::Version;
use loom_walk::owed::OwedOperation;

// The numbers of events.
fn numbers_of(events: EventSet) -> EventNumbers
    ensures { result ≡ event_numbers events }
{
    let mut left = events;
    let mut numbers = EventNumbers::none();
    'events: while let Some(n) = left.pop_first() {
        numbers.push(n);
    }
    numbers
}

// The request for an operation that is owed.
fn request_for(line: u32, operation: OwedOperation) -> Request
    ensures { operation_request line (operation_of operation) ≡ Some result }
{
    match operation {
        OwedOperation::Tick(place) => Request::Tick { line, place },
        OwedOperation::Back => Request::Back { line },
        OwedOperation::Wait(k, event) => Request::Wait { line, k, event },
        OwedOperation::Enter(k, clause) => Request::Enter { line, k, clause },
        OwedOperation::At(k, events) => Request::At {
            line,
            k,
            events: numbers_of(events),
        },
        OwedOperation::Past(k, events) => Request::Past {
            line,
            k,
            events: numbers_of(events),
        },
        OwedOperation::Post(k, event) => Request::Post { line, k, event },
        OwedOperation::Leave(k, clause) => Request::Leave { line, k, clause },
    }
}

// The line of a function.
fn line_of(flow: &Flow, func: u8) -> u32
    requires { func < length flow.now.program.funcs }
    ensures line { result ≡ line_of_function (slice_get flow.now.program.funcs func) }
    ensures lowered { IsLowered flow.now }
{
    flow.place_line(flow.entrances()[func as usize].place)
}

impl Execution {
    // To take a newer version, where the thread stands.
    fn cross(&self, flow: &Flow, newest: &Version) -> Request
        requires { self.now.place < length flow.now.sites }
        ensures cross { (line : ℕ) → IsLineAt flow.now.program self.now.place line → result ≡ r.Cross line self.now.place newest.now.number self.now.walk.passed }
        ensures asks { asks_cross result ≡ true }
    {
        Request::Cross {
            line: flow.place_line(self.place),
            place: self.place,
            version: newest.number(),
            passed: self.walk.passed(),
        }
    }

    // What is to be made first where the thread is.
    fn owed_request(&self) -> Request
        requires { queue self.now.walk.owed ≡ [] → ⊥ }
        ensures { IsFirstRequest (queue self.now.walk.owed) result }
    {
        match self.walk.first_owed() {
            Some((line, operation)) => request_for(line, operation),
            None => unreachable!(),
        }
    }

    // The request, or a newer version, which goes before it.
    fn ask(&self, flow: &Flow, request: Request, newer: bool, newest: &Version) -> Request
        requires { self.now.place < length flow.now.sites }
        ensures old { newer ≡ false → result ≡ request }
        ensures cross { newer ≡ true → (line : ℕ) → IsLineAt flow.now.program self.now.place line → result ≡ r.Cross line self.now.place newest.now.number self.now.walk.passed }
        ensures asks { newer ≡ true → asks_cross result ≡ true }
    {
        if newer {
            return self.cross(flow, newest);
        }
        request
    }

    // What comes of a stop. A newer version goes before all else, but for a flagged place.
    fn want(&mut self, flow: &Flow, stop: Stop, func: u8, newer: bool, newest: &Version) -> Want
        requires lowered { IsLowered flow.now }
        requires function { func < length flow.now.program.funcs }
        requires stopped { (b : Birth) × HasStopped flow.now b newer self.old stop }
        ensures comes { (b : Birth) → b.func ≡ func → MayRun flow.now b self.old → (cs : List (Option Compiled)) (flags : List ℕ) → Stops flow.now b flags newer self.old stop → ComesOf flow.now cs b flags newer newest.now self.old self.new result }
        ensures same { self.new ≡ record self.old { place = self.new.place } }
    {
        match stop {
            Stop::Flagged(place) => {
                self.place = place;
                Want::Place(place)
            }
            Stop::Crosses(place) => {
                self.place = place;
                Want::Ask(self.cross(flow, newest))
            }
            Stop::Asks(request) => {
                self.place = flow.code()[self.machine.at()].place;
                Want::Ask(self.ask(flow, request, newer, newest))
            }
            Stop::Ends => {
                let line = line_of(flow, func);
                Want::Ask(self.ask(flow, Request::End { line }, newer, newest))
            }
            Stop::Owes => {
                let request = self.owed_request();
                Want::Ask(self.ask(flow, request, newer, newest))
            }
        }
    }

    // Whether it is blocked at a flagged place.
    fn is_blocked_at(&self, flow: &Flow, flags: &Places) -> bool
        requires lowered { IsLowered flow.now }
        requires place { self.now.place < length flow.now.sites }
        ensures { result ≡ (self.now.walk.is_blocked && has_place flags.now self.now.place) }
    {
        self.walk.is_blocked() && flags.has(self.place)
    }

    // Goes on with a thread that has begun and hasn't ended, unless it is blocked at a flagged place.
    fn live(
        &mut self,
        flow: &Flow,
        plans: &Plans,
        birth: Birth,
        newer: bool,
        newest: &Version,
        flags: &Places,
    ) -> Want
        requires lowered { IsLowered flow.now }
        requires function { birth.func < length flow.now.program.funcs }
        requires may { MayRun flow.now birth self.old }
        requires somewhere { IsSomewhere flow.now plans.now birth self.old }
        requires place { self.old.place < length flow.now.sites }
        ensures { StaysBlocked flags.now self.old self.new result ⊎ GoesToHalt flow.now plans.now birth flags.now newer newest.now self.old self.new result }
    {
        if self.is_blocked_at(flow, flags) {
            return Want::Place(self.place);
        }
        let func = birth.func;
        let stop = self.go_on(flow, plans, birth, newer, flags);
        self.want(flow, stop, func, newer, newest)
    }

    /// Goes on with a thread up to what it asks for next, or to a flagged place.
    pub(crate) fn halt(
        &mut self,
        flow: &Flow,
        plans: &Plans,
        birth: Birth,
        newer: bool,
        newest: &Version,
        flags: &Places,
    ) -> Want
        requires lowered { IsLowered flow.now }
        requires function { birth.func < length flow.now.program.funcs }
        requires may { MayHalt flow.now plans.now birth self.old }
        ensures { RunsFrom self.old.stage flow.now plans.now birth flags.now newer newest.now self.old self.new result }
    {
        match self.stage {
            Stage::Waits => Want::Ask(Request::Begin {
                line: line_of(flow, birth.func),
            }),
            Stage::Enters => self.live(flow, plans, birth, newer, newest, flags),
            Stage::Runs => self.live(flow, plans, birth, newer, newest, flags),
            Stage::Over => Want::Ended,
        }
    }
}
