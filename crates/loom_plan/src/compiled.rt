//! A filter in a program.
ghost use Rattle.std.specs.Prelude.{◌≡◌, ◌<◌, ◌≤◌, ◌==◌, ℕ, ℤ, List, Some, slice_get, length, not, option_map, [], None};
ghost use Rattle.std.specs.List.{filter};
ghost use Rattle.std.specs.Arc.{arc_value};
ghost use Rattle.loom_lang.specs.Places.{Place, places, place_at, line_of_function};
ghost use Rattle.loom_tree.specs.Tree.{functions_of};
ghost use Rattle.loom_flow.specs.State.{named};
ghost use Rattle.loom_law.specs.Filter.{Site, Watch, has, matching, waits, posts, clauses, before_in, is_alone};
ghost use Rattle.loom_law.specs.Paths.{watch_at};
ghost use Rattle.loom_law.specs.Walk.{OpenFrame, Inside, Queue, owed_by, owed_past, owed_leaves, completed, in_frame, all_inside, entered_regions, is_left_with, is_inside_clause};
ghost use Rattle.loom_command.specs.FilterFault.{most_clauses, most_events};
ghost use Rattle.loom_plan.specs.Sets.{event_numbers, clause_numbers, region_numbers};
ghost use Rattle.loom_plan.specs.PlanView.{site_of, counted_of, watches_of, regions_in, plan_of_rows};
ghost use Rattle.loom_plan.specs.PlaceEvents.{site_at, watched, names_at, line_of_site};
ghost use Rattle.loom_plan.specs.PlanParts.{IsSmallPlan, IsFitting, plan_regions, first_other};
ghost use Rattle.loom_plan.specs.ElementNumbers.{numbers_where};
ghost use Rattle.loom_plan.specs.Operations.{HoldsThese, IsInsideThese, queue_before, queue_behind, queue_leaves, insides, is_entered, is_staying};

use crate::operations::{Before, Behind};
use crate::plan::{EventSite, EventWatch, OrderEvent, RegionRow, Rule, WatchRow};
use crate::rules::{
    before_in, clauses_of, entered, enters, first_other, is_unilateral, leaves, staying,
};
use crate::sets::{ClauseSet, EventSet, RegionSet};
use crate::value::matching_in;
use loom_lang::program::Program;
use loom_tree::statement::Func;
use std::marker::Model;
use std::sync::Arc;

/// A filter in a program: its events, clauses and regions by their numbers, each counted from 1 in the order of the text.
#[derive(Debug, Drop)]
pub struct Compiled {
    program: Arc<Program>,
    events: Vec<EventWatch>,
    rules: Vec<Rule>,
    waiting: EventSet,
    posting: EventSet,
    regions: Vec<RegionRow>,
    rows: Vec<WatchRow>,
}

impl Model for Compiled {
    ghost use Rattle.std.specs.Arc.{arc_value};
    ghost use Rattle.loom_plan.specs.Compiled.{Compiled, compiled_code};

    ghost Value = { Compiled };

    ghost coded = { compiled_code };

    ghost use Rattle.loom_plan.specs.PlanView.{plan_of_rows};
    ghost use Rattle.loom_plan.specs.PlanParts.{IsFitting};

    ghost view = { λ c. record { program = arc_value c.program; plan = plan_of_rows c.events.items c.rules.items } };

    ghost invariant = { λ c. IsFitting (arc_value c.program) (plan_of_rows c.events.items c.rules.items) c.waiting c.posting c.regions.items c.rows.items };
}

// The line of a site: that of the statement, or of the `fn` of the function.
fn site_line(program: &Program, site: EventSite) -> u32
    ensures { result ≡ line_of_site program.now (site_of site) }
{
    match site {
        EventSite::Statement(line) => line,
        EventSite::Function(None) => 0,
        EventSite::Function(Some(f)) => function_line(&program.funcs().0, f),
    }
}

fn function_line(funcs: &[Func], f: u8) -> u32
    ensures { result ≡ line_of_function (slice_get (functions_of funcs.now) f) }
{
    match funcs.get(f as usize) {
        None => 0,
        Some(f) => f.line,
    }
}

impl Compiled {
    pub(crate) fn new(
        program: Arc<Program>,
        events: Vec<EventWatch>,
        rules: Vec<Rule>,
        waiting: EventSet,
        posting: EventSet,
        regions: Vec<RegionRow>,
        rows: Vec<WatchRow>,
    ) -> Compiled
        requires { IsFitting (arc_value program) (plan_of_rows events.items rules.items) waiting posting regions.items rows.items }
        ensures { result ≡ record { program = arc_value program; plan = plan_of_rows events.items rules.items } }
    {
        Compiled {
            program,
            events,
            rules,
            waiting,
            posting,
            regions,
            rows,
        }
    }

    /// The program.
    pub fn program(&self) -> &Program
        ensures program { result.now ≡ self.now.program }
        ensures small { IsSmallPlan self.now.plan }
    {
        &self.program
    }

    /// How many events there are: 32 at most.
    pub fn events(&self) -> u8
        ensures is { result ≡ length self.now.plan.watches }
        ensures small { IsSmallPlan self.now.plan }
    {
        self.events.len() as u8
    }

    /// How many clauses there are: 8 at most.
    pub fn clauses(&self) -> u8
        ensures is { result ≡ length self.now.plan.rulings }
        ensures small { IsSmallPlan self.now.plan }
    {
        self.rules.len() as u8
    }

    /// The events, in the order of their numbers.
    pub fn watches(&self) -> &[EventWatch]
        ensures is { watches_of result.now ≡ self.now.plan.watches }
        ensures small { IsSmallPlan self.now.plan }
    {
        &self.events
    }

    /// The regions with the numbers of their clauses, in the order of the text.
    pub fn regions(&self) -> &[RegionRow]
        ensures is { regions_in result.now ≡ plan_regions self.now.plan }
        ensures small { IsSmallPlan self.now.plan }
    {
        &self.regions
    }

    /// The line of an event, from 1 to `events()`: that of its statement, or of the `fn` of its function.
    pub fn event_line(&self, n: u8) -> u32
        requires low { 0 < n }
        requires high { n ≤ length self.now.plan.watches }
        ensures { option_map (λ (w : Watch). line_of_site self.now.program w.site) (watch_at self.now.plan n) ≡ Some result }
    {
        site_line(&self.program, self.events[(n - 1) as usize].site)
    }

    /// The event before this one in an order, and how often it must be complete before this one begins; `None` where the event waits for none.
    pub fn order_before(&self, n: u8) -> Option<OrderEvent>
        ensures { option_map counted_of result ≡ before_in n self.now.plan.rulings }
    {
        before_in(&self.rules, n)
    }

    /// Whether the clause, from 1 to `clauses()`, says that no other thread goes on while one is inside of its region.
    pub fn is_alone(&self, c: u8) -> bool
        requires low { 0 < c }
        requires high { c ≤ length self.now.plan.rulings }
        ensures { result ≡ is_alone self.now.plan c }
    {
        is_unilateral(&self.rules[(c - 1) as usize])
    }

    /// The first clause that is no exclusion: an order, or one under which no other thread goes on.
    pub fn first_other(&self) -> Option<u8>
        ensures { result ≡ first_other 1 self.now.plan.rulings }
    {
        first_other(&self.rules)
    }

    /// The events that begin at a place, below the program's number of places: at the in place of their statement, or the entry place of their
    /// function. A read of one table.
    pub fn watched(&self, place: u16) -> EventSet
        requires { place < length (places self.now.program) }
        ensures { (x : Place) → place_at self.now.program place ≡ Some x → event_numbers result ≡ watched self.now.plan (site_at x) }
    {
        self.rows[place as usize].events
    }

    /// The events that match at a place, below the program's number of places, with these locals of its function. Only the tests of the events that
    /// begin there are evaluated; where none begins, none matches.
    pub fn matching(&self, place: u16, locals: &[i64]) -> EventSet
        requires { place < length (places self.now.program) }
        ensures nothing { (x : Place) → place_at self.now.program place ≡ Some x → site_at x ≡ None → event_numbers result ≡ [] }
        ensures matching { (x : Place) (at : Site) → place_at self.now.program place ≡ Some x → site_at x ≡ Some at → event_numbers result ≡ matching self.now.plan at (named (names_at self.now.program place) locals.now) }
    {
        matching_in(&self.rows[place as usize], locals)
    }

    /// Those of these events that an order puts behind another one.
    pub fn waits(&self, events: EventSet) -> EventSet
        ensures { event_numbers result ≡ filter (waits self.now.plan) (event_numbers events) }
    {
        events.both(self.waiting)
    }

    /// Those of these events that an order puts before another one.
    pub fn posts(&self, events: EventSet) -> EventSet
        ensures { event_numbers result ≡ filter (posts self.now.plan) (event_numbers events) }
    {
        events.both(self.posting)
    }

    /// What a thread owes where these events match: at the beginning of a statement, or of a frame. It holds these clauses of the filter.
    pub fn before(&self, events: EventSet, held: ClauseSet) -> Before
        ensures at { event_numbers result.at ≡ event_numbers events }
        ensures queue { (hs : List (ℕ × ℕ)) (k l : ℕ) (more : Queue) → HoldsThese hs k held → owed_by self.now.plan k hs l (event_numbers events) more ≡ queue_before k l result more }
    {
        if events.is_empty() {
            return Before::nothing();
        }
        Before {
            waits: self.waits(events),
            enters: enters(&self.rules, events, held),
            at: events,
        }
    }

    /// What a thread owes behind a statement that these events began with. It holds these clauses of the filter, and behind the statement it is
    /// still inside regions of those.
    pub fn behind(&self, events: EventSet, held: ClauseSet, inside: ClauseSet) -> Behind
        ensures past { event_numbers result.past ≡ event_numbers events }
        ensures queue { (hs : List (ℕ × ℕ)) (fs : List OpenFrame) (k l : ℕ) (more : Queue) → HoldsThese hs k held → IsInsideThese (all_inside (in_frame (completed k (event_numbers events)) fs)) k inside → owed_past self.now.plan k hs fs l (event_numbers events) more ≡ queue_behind k l result more }
    {
        if events.is_empty() {
            return Behind::nothing();
        }
        Behind {
            past: events,
            posts: self.posts(events),
            leaves: self.leaves(held, inside),
        }
    }

    /// The clauses that a thread leaves that holds those of the filter, and is inside regions of these: behind a frame, where these are the regions of
    /// the frames below; behind a trap, where there are none.
    pub fn leaves(&self, held: ClauseSet, inside: ClauseSet) -> ClauseSet
        ensures { (hs : List (ℕ × ℕ)) (is : List Inside) (k l : ℕ) (more : Queue) → HoldsThese hs k held → IsInsideThese is k inside → owed_leaves hs is k l (clauses self.now.plan) more ≡ queue_leaves k l result more }
    {
        leaves(&self.rules, held, inside)
    }

    /// The regions that are entered with these events.
    pub fn entered(&self, events: EventSet) -> RegionSet
        ensures regions { (k : ℕ) → entered_regions self.now.plan k (event_numbers events) ≡ insides self.now.plan k result }
        ensures numbers { region_numbers result ≡ numbers_where (is_entered (event_numbers events)) 1 (plan_regions self.now.plan) }
    {
        entered(&self.regions, events)
    }

    /// Those of the regions that are not left with these events.
    pub fn staying(&self, regions: RegionSet, events: EventSet) -> RegionSet
        ensures regions { (k : ℕ) → filter (λ (i : Inside). not (is_left_with k (event_numbers events) i)) (insides self.now.plan k regions) ≡ insides self.now.plan k result }
        ensures numbers { region_numbers result ≡ numbers_where (is_staying (has (region_numbers regions)) (event_numbers events)) 1 (plan_regions self.now.plan) }
    {
        staying(&self.regions, regions, events)
    }

    /// The clauses of these regions.
    pub fn clauses_of(&self, regions: RegionSet) -> ClauseSet
        ensures { (k : ℕ) → IsInsideThese (insides self.now.plan k regions) k result }
    {
        clauses_of(&self.regions, regions)
    }
}
