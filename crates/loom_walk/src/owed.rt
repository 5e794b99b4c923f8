//! What a thread owes where it is, before it goes on.
ghost use Rattle.std.specs.Prelude.{◌≡◌, ◌↔◌, ◌<◌, ◌≤◌, ◌+◌, ℕ, false, IsTrue, [], ◌++◌, length, Some, None};
ghost use Rattle.std.specs.List.{AllByRecursion};
ghost use Rattle.loom_law.specs.Lawful.{filter_limit};
ghost use Rattle.loom_law.specs.Walk.{without_first, with_back, still_owed};
ghost use Rattle.loom_plan.specs.Operations.{queue_before, queue_behind, queue_leaves};
ghost use Rattle.loom_walk.specs.Owed.{row_of, row_queue, rows_queue, back_queue, tick_queue, queue, has_operations, HasOperations, with_row, rows_of, filters_owed, IsOrHasMore, IsFirstOf, TakesBefore, TakesBehind, TakesOperation};

use arrayvec::ArrayVec;
use loom_plan::operations::{Before, Behind};
use loom_plan::sets::{ClauseSet, EventSet};
use loom_version::limits::FILTER_LIMIT;
use loom_version::version::Version;
use std::marker::Model;

/// What a filter makes the thread do: before a statement or a frame, behind a statement, behind a frame or a trap.
#[derive(Clone, Copy, Debug, Drop)]
pub struct OwedRow {
    /// The number of the filter.
    pub filter: u8,
    /// At a beginning.
    pub before: Before,
    /// Behind a statement, a frame or a trap.
    pub behind: Behind,
}

impl Default for OwedRow {
    fn default() -> OwedRow {
        OwedRow {
            filter: 0,
            before: Before::nothing(),
            behind: Behind::nothing(),
        }
    }
}

/// A tick.
#[derive(Clone, Copy, Debug, Drop)]
pub struct OwedTick {
    /// Its line.
    pub line: u32,
    /// The number of the place.
    pub place: u16,
}

/// What is to be made next. Filters are told by their numbers, events and clauses by theirs in the filter.
#[derive(Clone, Copy, Debug, Drop)]
pub enum OwedOperation {
    /// A tick at the place of this number.
    Tick(u16),
    /// `Back`.
    Back,
    /// A wait: the filter and the event.
    Wait(u8, u8),
    /// An enter: the filter and the clause.
    Enter(u8, u8),
    /// An `At`: the filter and the events.
    At(u8, EventSet),
    /// A `Past`: the filter and the events.
    Past(u8, EventSet),
    /// A post: the filter and the event.
    Post(u8, u8),
    /// A leave: the filter and the clause.
    Leave(u8, u8),
}

/// What a thread owes where it is. It takes no memory.
#[derive(Debug, Drop)]
pub(crate) struct Owed {
    line: u32,
    tick: Option<OwedTick>,
    back: bool,
    // the last filter's first
    rows: ArrayVec<OwedRow, FILTER_LIMIT>,
}

impl Model for Owed {
    ghost use Rattle.loom_walk.specs.Owed.{Owed};

    ghost Value = { Owed };

    ghost view = { λ s. record { line = s.line; tick = s.tick; back = s.back; rows = s.rows.items } };
}

// Takes the first operation out of what a filter makes a thread do at a beginning.
fn pop_before(k: u8, before: &mut Before) -> Option<OwedOperation>
    ensures { TakesBefore k before.old before.new result }
{
    match before.waits.pop_first() {
        Some(n) => Some(OwedOperation::Wait(k, n)),
        None => match before.enters.pop_first() {
            Some(n) => Some(OwedOperation::Enter(k, n)),
            None => {
                let at = before.at;
                if at.is_empty() {
                    return None;
                }
                before.at = EventSet::none();
                Some(OwedOperation::At(k, at))
            }
        },
    }
}

// The same behind a statement, a frame or a trap.
fn pop_behind(k: u8, behind: &mut Behind) -> Option<OwedOperation>
    ensures { TakesBehind k behind.old behind.new result }
{
    let past = behind.past;
    if !past.is_empty() {
        behind.past = EventSet::none();
        return Some(OwedOperation::Past(k, past));
    }
    match behind.posts.pop_first() {
        Some(n) => Some(OwedOperation::Post(k, n)),
        None => match behind.leaves.pop_first() {
            Some(n) => Some(OwedOperation::Leave(k, n)),
            None => None,
        },
    }
}

// Takes the first operation out of a row, if there is one.
fn pop_row(row: &mut OwedRow) -> Option<OwedOperation>
    ensures taken { TakesOperation row.old row.new result }
    ensures filter { row.new.filter ≡ row.old.filter }
{
    let k = row.filter;
    match pop_before(k, &mut row.before) {
        Some(x) => Some(x),
        None => pop_behind(k, &mut row.behind),
    }
}

// Whether a row has something.
fn has_operations(row: &OwedRow) -> bool
    ensures { result ≡ has_operations row.now }
{
    let mut rest = *row;
    match pop_row(&mut rest) {
        Some(_) => true,
        None => false,
    }
}

// What is to be made first of what rows make a thread do on a line. Each of them has something.
fn first_in(line: u32, rows: &[OwedRow]) -> Option<(u32, OwedOperation)>
    requires { AllByRecursion HasOperations rows.now }
    ensures { IsFirstOf (rows_queue line rows.now []) result }
{
    match rows.last() {
        Some(last) => {
            let mut rest = *last;
            match pop_row(&mut rest) {
                Some(x) => Some((line, x)),
                None => None,
            }
        }
        None => None,
    }
}

// The same with `Back` before it, if it is owed.
fn first_behind(line: u32, back: bool, rows: &[OwedRow]) -> Option<(u32, OwedOperation)>
    requires { AllByRecursion HasOperations rows.now }
    ensures { IsFirstOf (back_queue back line (rows_queue line rows.now [])) result }
{
    if back {
        return Some((line, OwedOperation::Back));
    }
    first_in(line, rows)
}

// Whether neither `Back` nor what rows make a thread do is owed. Each of them has something.
fn is_nothing(back: bool, rows: &[OwedRow]) -> bool
    requires { AllByRecursion HasOperations rows.now }
    ensures { (l : ℕ) → IsTrue result ↔ (back_queue back l (rows_queue l rows.now []) ≡ []) }
{
    if back {
        return false;
    }
    rows.is_empty()
}

// Puts a row behind the others, if it has something.
fn put_row(rows: &mut ArrayVec<OwedRow, FILTER_LIMIT>, row: OwedRow)
    requires { length rows.old.items < filter_limit }
    ensures { rows.new.items ≡ with_row rows.old.items row }
{
    if !has_operations(&row) {
        return;
    }
    rows.push(row);
}

// Takes the first operation out of rows that each have something.
fn pop_in(rows: &mut ArrayVec<OwedRow, FILTER_LIMIT>)
    requires { AllByRecursion HasOperations rows.old.items }
    ensures queue { (l : ℕ) → rows_queue l rows.new.items [] ≡ without_first (rows_queue l rows.old.items []) }
    ensures rows { AllByRecursion HasOperations rows.new.items }
    ensures filters { (k : ℕ) × IsOrHasMore (filters_owed rows.new.items) k (filters_owed rows.old.items) }
{
    let _ = rows.len();
    match rows.pop() {
        Some(row) => {
            let mut rest = row;
            let _ = pop_row(&mut rest);
            put_row(rows, rest);
        }
        None => {}
    }
}

impl Owed {
    /// Nothing yet, on this line.
    pub(crate) fn on(line: u32) -> Owed
        ensures { result ≡ record { line = line; tick = None; back = false; rows = [] } }
    {
        Owed {
            line,
            tick: None,
            back: false,
            rows: ArrayVec::new(),
        }
    }

    /// Nothing is owed yet, on this line.
    pub(crate) fn restart(&mut self, line: u32)
        ensures { self.new ≡ record { line = line; tick = None; back = false; rows = [] } }
    {
        self.line = line;
        self.tick = None;
        self.back = false;
        self.rows.clear();
    }

    /// The line of the filters' operations.
    pub(crate) fn line(&self) -> u32
        ensures { result ≡ self.now.line }
    {
        self.line
    }

    /// Whether nothing is owed.
    pub(crate) fn is_nothing(&self) -> bool
        requires { AllByRecursion HasOperations self.now.rows }
        ensures { IsTrue result ↔ (queue self.now ≡ []) }
    {
        match self.tick {
            Some(_) => false,
            None => is_nothing(self.back, self.rows.as_slice()),
        }
    }

    /// A tick goes before all else.
    pub(crate) fn put_tick(&mut self, line: u32, place: u16)
        ensures { self.new ≡ record self.old { tick = Some (record { line = line; place = place }) } }
    {
        self.tick = Some(OwedTick { line, place });
    }

    /// `Back` goes before the rows, if there are any.
    pub(crate) fn put_back(&mut self)
        requires { AllByRecursion HasOperations self.old.rows }
        ensures same { self.new ≡ record self.old { back = self.new.back } }
        ensures queue { queue self.new ≡ tick_queue self.old.tick (with_back self.old.line (rows_queue self.old.line self.old.rows [])) }
    {
        self.back = !self.rows.is_empty();
    }

    /// Puts what a filter makes the thread do before what the others have that were put so far; nothing, where it makes it do nothing.
    pub(crate) fn put(&mut self, filter: u8, before: Before, behind: Behind)
        requires { length self.old.rows < filter_limit }
        ensures put { self.new ≡ record self.old { rows = with_row self.old.rows (row_of filter before behind) } }
        ensures queue { (l : ℕ) → rows_queue l self.new.rows [] ≡ row_queue l (row_of filter before behind) (rows_queue l self.old.rows []) }
        ensures rows { AllByRecursion HasOperations self.old.rows → AllByRecursion HasOperations self.new.rows }
        ensures filters { IsOrHasMore (filters_owed self.old.rows) filter (filters_owed self.new.rows) }
    {
        let row = OwedRow {
            filter,
            before,
            behind,
        };
        put_row(&mut self.rows, row);
    }

    /// The same at a beginning.
    pub(crate) fn put_before(&mut self, filter: u8, before: Before)
        requires { length self.old.rows < filter_limit }
        ensures same { self.new ≡ record self.old { rows = self.new.rows } }
        ensures queue { (l : ℕ) → rows_queue l self.new.rows [] ≡ queue_before filter l before (rows_queue l self.old.rows []) }
        ensures rows { AllByRecursion HasOperations self.old.rows → AllByRecursion HasOperations self.new.rows }
        ensures filters { IsOrHasMore (filters_owed self.old.rows) filter (filters_owed self.new.rows) }
    {
        self.put(filter, before, Behind::nothing());
    }

    /// The same behind a statement.
    pub(crate) fn put_behind(&mut self, filter: u8, behind: Behind)
        requires { length self.old.rows < filter_limit }
        ensures same { self.new ≡ record self.old { rows = self.new.rows } }
        ensures queue { (l : ℕ) → rows_queue l self.new.rows [] ≡ queue_behind filter l behind (rows_queue l self.old.rows []) }
        ensures rows { AllByRecursion HasOperations self.old.rows → AllByRecursion HasOperations self.new.rows }
        ensures filters { IsOrHasMore (filters_owed self.old.rows) filter (filters_owed self.new.rows) }
    {
        self.put(filter, Before::nothing(), behind);
    }

    /// The same behind a frame or a trap, where the thread leaves these clauses.
    pub(crate) fn put_leaves(&mut self, filter: u8, leaves: ClauseSet)
        requires { length self.old.rows < filter_limit }
        ensures same { self.new ≡ record self.old { rows = self.new.rows } }
        ensures queue { (l : ℕ) → rows_queue l self.new.rows [] ≡ queue_leaves filter l leaves (rows_queue l self.old.rows []) }
        ensures rows { AllByRecursion HasOperations self.old.rows → AllByRecursion HasOperations self.new.rows }
        ensures filters { IsOrHasMore (filters_owed self.old.rows) filter (filters_owed self.new.rows) }
    {
        let behind = Behind {
            past: EventSet::none(),
            posts: EventSet::none(),
            leaves,
        };
        self.put(filter, Before::nothing(), behind);
    }

    /// What is to be made first, with its line.
    pub(crate) fn first(&self) -> Option<(u32, OwedOperation)>
        requires { AllByRecursion HasOperations self.now.rows }
        ensures { IsFirstOf (queue self.now) result }
    {
        match self.tick {
            Some(tick) => Some((tick.line, OwedOperation::Tick(tick.place))),
            None => first_behind(self.line, self.back, self.rows.as_slice()),
        }
    }

    /// Takes that out.
    pub(crate) fn pop_first(&mut self)
        requires { AllByRecursion HasOperations self.old.rows }
        ensures queue { queue self.new ≡ without_first (queue self.old) }
        ensures rows { AllByRecursion HasOperations self.new.rows }
        ensures filters { (k : ℕ) × IsOrHasMore (filters_owed self.new.rows) k (filters_owed self.old.rows) }
        ensures line { self.new.line ≡ self.old.line }
    {
        match self.tick {
            Some(_) => self.tick = None,
            None => {
                if self.back {
                    self.back = false;
                    return;
                }
                pop_in(&mut self.rows);
            }
        }
    }

    /// Leaves out what is of no filter of the version: also `Back`, where nothing is left behind it.
    pub(crate) fn keep_filters(&mut self, version: &Version)
        requires { AllByRecursion HasOperations self.old.rows }
        ensures queue { queue self.new ≡ still_owed version.now.active (queue self.old) }
        ensures rows { AllByRecursion HasOperations self.new.rows }
        ensures same { self.new ≡ record self.old { back = self.new.back; rows = rows_of version.now.active self.old.rows } }
    {
        self.rows.retain(|row| version.has(row.filter));
        if self.rows.is_empty() {
            self.back = false;
            return;
        }
    }

    /// Puts what new filters make the thread do behind all that is owed: `more` has it, on the same line.
    pub(crate) fn append(&mut self, more: Owed)
        requires tick { more.tick ≡ None }
        requires back { more.back ≡ false }
        requires line { more.line ≡ self.old.line }
        requires room { length self.old.rows + length more.rows ≤ filter_limit }
        ensures same { self.new ≡ record self.old { rows = more.rows ++ self.old.rows } }
        ensures queue { queue self.new ≡ queue self.old ++ queue more }
    {
        let Owed {
            line: _,
            tick: _,
            back: _,
            mut rows,
        } = more;
        let _ = rows.try_extend_from_slice(self.rows.as_slice());
        self.rows = rows;
    }
}
