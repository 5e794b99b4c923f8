//! What filters make one thread do.
ghost use Rattle.std.specs.Prelude.{◌≡◌, ◌↔◌, ◌⊎◌, ◌<◌, ◌≤◌, ℕ, [], ◌∷◌, IfOk, IsTrue, length, Some};
ghost use Rattle.std.specs.List.{AllByRecursion};
ghost use Rattle.loom_tree.specs.Tree.{Source};
ghost use Rattle.loom_lang.specs.Places.{place_at};
ghost use Rattle.loom_lang.specs.Places as places;
ghost use Rattle.loom_lang.specs.Trace.{Locals, Cause, Act, begin, trap, made, begins, done, edge, enter, out, frame_limit};
ghost use Rattle.loom_flow.specs.State.{named};
ghost use Rattle.loom_trace.specs.declared.entry.What.{What};
ghost use Rattle.loom_law.specs.Walk.{Operation, enters, at, past, leave, blocked, tick_after, Walk, unborn, after_item, after_operation, crossing, Owes};
ghost use Rattle.loom_law.specs.Walk as walk;
ghost use Rattle.loom_plan.specs.PlaceEvents.{names_at};
ghost use Rattle.loom_plan.specs.Sets.{event_numbers};
ghost use Rattle.loom_version.specs.Plans.{plans_in};
ghost use Rattle.loom_walk.specs.declared.owed.OwedOperation.TheVariants as o;
ghost use Rattle.loom_walk.specs.Owed.{HasOperations, queue, IsFirstOf};
ghost use Rattle.loom_walk.specs.Notes.{IsInnermost};
ghost use Rattle.loom_walk.specs.FilterWalk.{first_walk, IsAt, HasFilters, HasLocalsAt, HasNewBehind, IsInstructionAct, IsOnlyMade, IsFirstOperation, KeepsRoom, NotesOneMore};

use crate::at_place::{add_all_at_statement, add_all_before};
use crate::behind_frame::add_all_leaves;
use crate::behind_statement::add_all_behind;
use crate::clause_rows::ClauseRows;
use crate::event_notes::EventNotes;
use crate::events::{enter_regions, leave_regions, note_events};
use crate::lines::{function_line, place_line};
use crate::new_filters::{count_staying, new_owed};
use crate::owed::{Owed, OwedOperation};
use crate::region_notes::RegionNotes;
use crate::spot::Spot;
use crate::tick::pass;
use loom_flow::flow::Flow;
use loom_plan::sets::EventSet;
use loom_tree::name::NoMemory;
use loom_version::plans::Plans;
use loom_version::version::Version;
use std::alloc::Global;
use std::marker::Model;

/// What filters make one thread do, beside its instructions: what it owes where it is, the clauses that it holds, and what began and was entered in
/// its open frames. It takes all of its memory when it is made.
///
/// It is told of each entry that the thread makes and of each mark that it passes, in their order.
#[derive(Debug, Drop)]
pub struct FilterWalk {
    version: Version,
    clauses: ClauseRows,
    events: EventNotes,
    regions: RegionNotes,
    spot: Spot,
    owed: Owed,
    // entry and back-edge places since the last entry
    passed: u32,
    is_blocked: bool,
    // how many frames are open
    depth: u16,
}

impl Model for FilterWalk {
    ghost use Rattle.loom_walk.specs.FilterWalk.{FilterWalk, KeepsWalk};

    ghost Value = { FilterWalk };

    ghost view = { λ w. record {
      version = w.version;
      clauses = w.clauses;
      events = w.events.notes;
      regions = w.regions.notes;
      spot = w.spot;
      owed = w.owed;
      passed = w.passed;
      is_blocked = w.is_blocked;
      depth = w.depth;
      room = w.events.room;
    } };

    ghost invariant = { λ w. KeepsWalk (record {
      version = w.version;
      clauses = w.clauses;
      events = w.events.notes;
      regions = w.regions.notes;
      spot = w.spot;
      owed = w.owed;
      passed = w.passed;
      is_blocked = w.is_blocked;
      depth = w.depth;
      room = w.events.room;
    }) w.regions.room };
}

// What is to be made first, without its line.
fn first_operation(owed: &Owed) -> Option<OwedOperation>
    requires { AllByRecursion HasOperations owed.now.rows }
    ensures { IsFirstOperation (queue owed.now) result }
{
    match owed.first() {
        None => None,
        Some((_, operation)) => Some(operation),
    }
}

impl FilterWalk {
    /// Of a thread that hasn't begun, with room to note so many events and regions. An `Err` is want of memory.
    pub fn make(alloc: Global, room: u32) -> Result<FilterWalk, NoMemory>
        ensures { IfOk result (λ w. w ≡ first_walk room) }
    {
        let events = EventNotes::make(alloc, room)?;
        let regions = RegionNotes::make(alloc, room)?;
        Ok(FilterWalk {
            version: Version::first(),
            clauses: ClauseRows::none(),
            events,
            regions,
            spot: Spot::Elsewhere,
            owed: Owed::on(0),
            passed: 0,
            is_blocked: false,
            depth: 0,
        })
    }

    /// The thread begins, with this version.
    pub fn begin(&mut self, version: Version)
        requires { self.old ≡ first_walk self.old.room }
        ensures at { (p : Source) (plans : walk.Plans) (l : ℕ) → IsAt p plans self.new (after_item p plans (unborn (version ∷ [])) (made l begin)) }
        ensures room { KeepsRoom self.old self.new }
    {
        self.clauses.go_over(&version);
        self.version = version;
    }

    /// It made an entry that its own instruction asked for, neither its begin nor a trap.
    pub fn act(&mut self)
        ensures at { (p : Source) (plans : walk.Plans) (z : Walk) (l : ℕ) (a : Act) → IsInstructionAct a → IsAt p plans self.old z → IsAt p plans self.new (after_item p plans z (made l a)) }
        ensures room { KeepsRoom self.old self.new }
    {
        self.spot = Spot::Elsewhere;
        self.passed = 0;
        self.is_blocked = false;
    }

    /// It trapped on this line.
    pub fn trap(&mut self, plans: &Plans, line: u32)
        requires filters { (p : Source) × HasFilters p plans.now self.old.version }
        ensures at { (p : Source) (z : Walk) (c : Cause) → IsAt p (plans_in plans.now) self.old z → IsAt p (plans_in plans.now) self.new (after_item p (plans_in plans.now) z (made line (trap c))) }
        ensures room { KeepsRoom self.old self.new }
    {
        self.spot = Spot::Trapped(line);
        self.passed = 0;
        self.is_blocked = false;
        self.depth = 0;
        self.events.clear();
        self.regions.clear();
        self.owed.restart(line);
        add_all_leaves(
            &mut self.owed,
            &self.clauses,
            &self.regions,
            plans,
            self.version.active(),
        );
    }

    /// The statement at this place begins, with these locals.
    pub fn begin_statement(&mut self, flow: &Flow, plans: &Plans, place: u16, locals: &[i64])
        requires frame { 1 ≤ self.old.depth }
        requires place { (l : ℕ) × (place_at flow.now.program place ≡ Some (places.inside l)) }
        requires filters { HasFilters flow.now.program plans.now self.old.version }
        ensures at { (z : Walk) (l : ℕ) → place_at flow.now.program place ≡ Some (places.inside l) → IsAt flow.now.program (plans_in plans.now) self.old z → IsAt flow.now.program (plans_in plans.now) self.new (after_item flow.now.program (plans_in plans.now) z (begins l (named (names_at flow.now.program place) locals.now))) }
        ensures room { KeepsRoom self.old self.new }
    {
        let line = place_line(flow, place);
        self.spot = Spot::Beginning(line, place);
        self.owed.restart(line);
        add_all_at_statement(
            &mut self.owed,
            &self.clauses,
            plans,
            self.version.active(),
            line,
            place,
            locals,
        );
    }

    /// The statement of this line is complete: the innermost one of the top frame.
    pub fn complete_statement(&mut self, plans: &Plans, line: u32)
        requires filters { (p : Source) × HasFilters p plans.now self.old.version }
        ensures at { (p : Source) (z : Walk) → IsInnermost line z.frames → IsAt p (plans_in plans.now) self.old z → IsAt p (plans_in plans.now) self.new (after_item p (plans_in plans.now) z (done line)) }
        ensures room { KeepsRoom self.old self.new }
    {
        self.spot = Spot::Complete(line);
        self.owed.restart(line);
        add_all_behind(
            &mut self.owed,
            &self.clauses,
            &self.events,
            &self.regions,
            plans,
            self.version.active(),
            self.depth,
            line,
        );
        self.events.done(self.depth, line);
    }

    /// The thread passes the back edge at this place. It has passed fewer than 1,000 places since its last entry.
    pub fn pass_edge(&mut self, flow: &Flow, place: u16)
        requires passed { self.old.passed < tick_after }
        requires place { (l : ℕ) × (place_at flow.now.program place ≡ Some (places.back_edge l)) }
        ensures at { (plans : walk.Plans) (z : Walk) (l : ℕ) → place_at flow.now.program place ≡ Some (places.back_edge l) → IsAt flow.now.program plans self.old z → IsAt flow.now.program plans self.new (after_item flow.now.program plans z (edge l)) }
        ensures room { KeepsRoom self.old self.new }
    {
        let line = place_line(flow, place);
        self.spot = Spot::Elsewhere;
        self.owed.restart(line);
        pass(&mut self.passed, &mut self.owed, line, place);
    }

    /// A frame begins at this entry place, with these locals. The thread has passed fewer than 1,000 places since its last entry, and fewer than 256
    /// frames are open.
    pub fn enter_frame(&mut self, flow: &Flow, plans: &Plans, place: u16, locals: &[i64])
        requires frames { self.old.depth < frame_limit }
        requires passed { self.old.passed < tick_after }
        requires place { (f : ℕ) × (place_at flow.now.program place ≡ Some (places.entry f)) }
        requires filters { HasFilters flow.now.program plans.now self.old.version }
        ensures at { (z : Walk) (f : ℕ) → place_at flow.now.program place ≡ Some (places.entry f) → IsAt flow.now.program (plans_in plans.now) self.old z → IsAt flow.now.program (plans_in plans.now) self.new (after_item flow.now.program (plans_in plans.now) z (enter f (named (names_at flow.now.program place) locals.now))) }
        ensures room { KeepsRoom self.old self.new }
    {
        let line = place_line(flow, place);
        self.spot = Spot::Entered(place);
        self.depth += 1;
        self.owed.restart(line);
        add_all_before(
            &mut self.owed,
            &self.clauses,
            plans,
            self.version.active(),
            place,
            locals,
        );
        pass(&mut self.passed, &mut self.owed, line, place);
    }

    /// The top frame, of this function, has ended.
    pub fn leave_frame(&mut self, flow: &Flow, plans: &Plans, func: u8)
        requires frame { 1 ≤ self.old.depth }
        requires filters { (p : Source) × HasFilters p plans.now self.old.version }
        ensures at { (z : Walk) → IsAt flow.now.program (plans_in plans.now) self.old z → IsAt flow.now.program (plans_in plans.now) self.new (after_item flow.now.program (plans_in plans.now) z (out func)) }
        ensures room { KeepsRoom self.old self.new }
    {
        let line = function_line(flow, func);
        self.spot = Spot::Left(func);
        self.events.end_frame(self.depth);
        self.regions.end_frame(self.depth);
        self.depth -= 1;
        self.owed.restart(line);
        add_all_leaves(
            &mut self.owed,
            &self.clauses,
            &self.regions,
            plans,
            self.version.active(),
        );
        self.owed.put_back();
    }

    /// What is to be made first of what is owed here, with its line.
    pub fn first_owed(&self) -> Option<(u32, OwedOperation)>
        ensures { IsFirstOf (queue self.now.owed) result }
    {
        self.owed.first()
    }

    /// That is made.
    pub fn make_owed(&mut self, plans: &Plans)
        requires owes { queue self.old.owed ≡ [] → ⊥ }
        requires events { length self.old.events < self.old.room }
        requires regions { length self.old.regions < self.old.room }
        requires filters { (p : Source) × HasFilters p plans.now self.old.version }
        ensures at { (p : Source) (z : Walk) (l : ℕ) (x : Operation) → Owes z.owed l x → IsAt p (plans_in plans.now) self.old z → IsAt p (plans_in plans.now) self.new (after_operation p (plans_in plans.now) z x) }
        ensures room { NotesOneMore self.old self.new }
    {
        match first_operation(&self.owed) {
            None => {}
            Some(operation) => self.make_first(plans, operation),
        }
    }

    // The first operation that is owed is this one, and is made.
    fn make_first(&mut self, plans: &Plans, operation: OwedOperation)
        requires first { IsFirstOperation (queue self.old.owed) (Some operation) }
        requires events { length self.old.events < self.old.room }
        requires regions { length self.old.regions < self.old.room }
        requires filters { (p : Source) × HasFilters p plans.now self.old.version }
        ensures at { (p : Source) (z : Walk) (l : ℕ) (x : Operation) → Owes z.owed l x → IsAt p (plans_in plans.now) self.old z → IsAt p (plans_in plans.now) self.new (after_operation p (plans_in plans.now) z x) }
        ensures room { NotesOneMore self.old self.new }
    {
        match operation {
            OwedOperation::Tick(_) => self.make_only(),
            OwedOperation::Back => self.make_only(),
            OwedOperation::Wait(_, _) => self.make_only(),
            OwedOperation::Enter(k, clause) => self.make_enter(k, clause),
            OwedOperation::At(k, events) => self.make_at(plans, k, events),
            OwedOperation::Past(k, events) => self.make_past(plans, k, events),
            OwedOperation::Post(_, _) => self.make_only(),
            OwedOperation::Leave(k, clause) => self.make_leave(k, clause),
        }
    }

    // The first operation is made, and changes nothing else.
    fn make_only(&mut self)
        ensures at { (p : Source) (plans : walk.Plans) (z : Walk) (l : ℕ) (x : Operation) → IsOnlyMade x → Owes z.owed l x → IsAt p plans self.old z → IsAt p plans self.new (after_operation p plans z x) }
        ensures room { NotesOneMore self.old self.new }
    {
        self.owed.pop_first();
        self.passed = 0;
        self.is_blocked = false;
    }

    // It is an enter of this clause of filter `k`.
    fn make_enter(&mut self, k: u8, clause: u8)
        requires first { IsFirstOperation (queue self.old.owed) (Some (o.Enter k clause)) }
        ensures at { (p : Source) (plans : walk.Plans) (z : Walk) (l : ℕ) → Owes z.owed l (enters k clause) → IsAt p plans self.old z → IsAt p plans self.new (after_operation p plans z (enters k clause)) }
        ensures room { NotesOneMore self.old self.new }
    {
        self.clauses.enter(k, clause);
        self.owed.pop_first();
        self.passed = 0;
        self.is_blocked = false;
    }

    // It is a leave of this clause.
    fn make_leave(&mut self, k: u8, clause: u8)
        ensures at { (p : Source) (plans : walk.Plans) (z : Walk) (l : ℕ) → Owes z.owed l (leave k clause) → IsAt p plans self.old z → IsAt p plans self.new (after_operation p plans z (leave k clause)) }
        ensures room { NotesOneMore self.old self.new }
    {
        self.clauses.leave(k, clause);
        self.owed.pop_first();
        self.passed = 0;
        self.is_blocked = false;
    }

    // These events of filter `k` begin.
    fn make_at(&mut self, plans: &Plans, k: u8, events: EventSet)
        requires first { IsFirstOperation (queue self.old.owed) (Some (o.At k events)) }
        requires events { length self.old.events < self.old.room }
        requires regions { length self.old.regions < self.old.room }
        requires filters { (p : Source) × HasFilters p plans.now self.old.version }
        ensures at { (p : Source) (z : Walk) (l : ℕ) → Owes z.owed l (at k (event_numbers events)) → IsAt p (plans_in plans.now) self.old z → IsAt p (plans_in plans.now) self.new (after_operation p (plans_in plans.now) z (at k (event_numbers events))) }
        ensures room { NotesOneMore self.old self.new }
    {
        note_events(&mut self.events, self.spot, self.depth, k, events);
        enter_regions(&mut self.regions, plans, k, self.depth, events);
        self.owed.pop_first();
        self.passed = 0;
        self.is_blocked = false;
    }

    // They are complete.
    fn make_past(&mut self, plans: &Plans, k: u8, events: EventSet)
        requires first { IsFirstOperation (queue self.old.owed) (Some (o.Past k events)) }
        requires filters { (p : Source) × HasFilters p plans.now self.old.version }
        ensures at { (p : Source) (z : Walk) (l : ℕ) → Owes z.owed l (past k (event_numbers events)) → IsAt p (plans_in plans.now) self.old z → IsAt p (plans_in plans.now) self.new (after_operation p (plans_in plans.now) z (past k (event_numbers events))) }
        ensures room { NotesOneMore self.old self.new }
    {
        leave_regions(&mut self.regions, plans, k, self.depth, events);
        self.owed.pop_first();
        self.passed = 0;
        self.is_blocked = false;
    }

    /// What it asks for is disabled, and its last entry says so.
    pub fn block(&mut self)
        ensures at { (p : Source) (plans : walk.Plans) (z : Walk) (what : What) → IsAt p plans self.old z → IsAt p plans self.new (after_operation p plans z (blocked what)) }
        ensures room { KeepsRoom self.old self.new }
    {
        self.passed = 0;
        self.is_blocked = true;
    }

    /// The thread goes over to a newer version, in which new filters stand behind those that stay. Where something is owed at the beginning of a
    /// statement or a frame, the locals are those of the top frame.
    pub fn cross(&mut self, plans: &Plans, version: Version, locals: &[i64])
        requires at { (p : Source) × (z : Walk) × (IsAt p (plans_in plans.now) self.old z × HasFilters p plans.now version) }
        requires behind { HasNewBehind self.old.version.active version.active }
        ensures at { (p : Source) (z : Walk) → HasFilters p plans.now version → (z.owed ≡ []) ⊎ HasLocalsAt p self.old.spot locals.now z.spot → IsAt p (plans_in plans.now) self.old z → IsAt p (plans_in plans.now) self.new (crossing p (plans_in plans.now) z (version ∷ [])) }
        ensures room { KeepsRoom self.old self.new }
    {
        let staying = count_staying(self.version.active(), &version);
        self.clauses.go_over(&version);
        let more = new_owed(
            &self.owed,
            &self.clauses,
            self.spot,
            plans,
            &version.active()[staying..],
            locals,
        );
        self.owed.keep_filters(&version);
        self.owed.append(more);
        self.regions.go_over(&version);
        self.version = version;
        self.passed = 0;
        self.is_blocked = false;
    }

    /// The version that the thread has.
    pub fn version(&self) -> &Version
        ensures { result.now ≡ self.now.version }
    {
        &self.version
    }

    /// How many entry and back-edge places it has passed since its last entry.
    pub fn passed(&self) -> u32
        ensures { result ≡ self.now.passed }
    {
        self.passed
    }

    /// Whether its last entry is `Blocked`.
    pub fn is_blocked(&self) -> bool
        ensures { result ≡ self.now.is_blocked }
    {
        self.is_blocked
    }

    /// Where it is.
    pub fn spot(&self) -> Spot
        ensures { result ≡ self.now.spot }
    {
        self.spot
    }

    /// Whether nothing is owed here.
    pub fn is_at_rest(&self) -> bool
        ensures { IsTrue result ↔ (queue self.now.owed ≡ []) }
    {
        self.owed.is_nothing()
    }
}
