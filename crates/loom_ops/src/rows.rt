//! Installed filters, holders of clauses and posts, row by row.
ghost use Rattle.std.specs.Prelude.{◌≡◌, ◌<◌, ◌≤◌, ℕ, map, length, option_map, Some};
ghost use Rattle.loom_command.specs.FilterFault.{most_clauses, most_events};
ghost use Rattle.loom_law.specs.Filter.{is_some, is_unilateral};
ghost use Rattle.loom_plan.specs.PlanView.{counted_of};
ghost use Rattle.loom_ops.specs.Ops.{most_posts, flag_of, is_yes, befores_in, before_of, order_before, posts_of, posts_at, table_with, tables_with, has_filter, has_lock, has_alone};
ghost use Rattle.loom_ops.specs.Rows.{befores_of, filters_of_rows, holders_of_rows, table_of, tables_of, table_index, first_holder, first_owner, is_other};
ghost use Rattle.loom_ops.specs.Answer.{AnswersWait, is_short};

use crate::answer::OpAnswer;
use arrayvec::ArrayVec;
use loom_plan::compiled::Compiled;
use loom_plan::plan::OrderEvent;

/// How many filters may be installed.
pub(crate) const MOST_FILTERS: usize = 16;

/// How many clauses a filter has at most.
pub(crate) const MOST_CLAUSES: usize = 8;

/// How many events a filter has at most.
pub(crate) const MOST_EVENTS: usize = 32;

/// How many clauses there are at most.
pub(crate) const MOST_HOLDERS: usize = 128;

/// An installed filter.
#[derive(Debug, Default, Drop)]
pub(crate) struct FilterRow {
    /// The number of the command that installed it.
    pub(crate) number: u8,
    /// Of each clause, whether it is `r <> *`.
    pub(crate) alone: ArrayVec<bool, MOST_CLAUSES>,
    /// Of each event, the one before it in its order, with its count.
    pub(crate) befores: ArrayVec<Option<OrderEvent>, MOST_EVENTS>,
}

/// A clause that a thread holds.
#[derive(Clone, Copy, Debug, Default, Drop)]
pub(crate) struct HolderRow {
    /// The number of the filter.
    pub(crate) filter: u8,
    /// The clause, from 1.
    pub(crate) clause: u8,
    /// The thread.
    pub(crate) thread: u8,
}

/// How often each event of a filter was posted since it was installed.
#[derive(Clone, Copy, Debug, Default, Drop)]
pub(crate) struct PostRow {
    /// The number of the filter.
    pub(crate) number: u8,
    /// Of each event.
    pub(crate) counts: [u32; MOST_EVENTS],
}

/// Of each clause of a filter, whether it is `r <> *`.
pub(crate) fn alone_flags(c: &Compiled) -> ArrayVec<bool, MOST_CLAUSES>
    ensures is { result.items ≡ map is_unilateral c.now.plan.rulings }
    ensures few { length result.items ≤ most_clauses }
{
    let count = c.clauses();
    let mut flags = ArrayVec::new();
    let mut n = 0;
    'clauses: while n < count {
        n += 1;
        flags.push(c.is_alone(n));
    }
    flags
}

fn flag_at(flags: &[bool], clause: u8) -> bool
    ensures { result ≡ is_yes (flag_of flags.now clause) }
{
    clause > 0 && clause as usize <= flags.len() && flags[clause as usize - 1]
}

fn has_flag(flags: &[bool], clause: u8) -> bool
    ensures { result ≡ is_some (flag_of flags.now clause) }
{
    clause > 0 && clause as usize <= flags.len()
}

/// Whether the filter of this number is there.
pub(crate) fn has_filter(filters: &[FilterRow], k: u8) -> bool
    ensures { result ≡ has_filter (filters_of_rows filters.now) k }
{
    'scan: for row in filters {
        if row.number == k {
            return true;
        }
    }
    false
}

/// Whether it is there and has the clause.
pub(crate) fn has_lock(filters: &[FilterRow], k: u8, clause: u8) -> bool
    ensures { result ≡ has_lock (filters_of_rows filters.now) k clause }
{
    'scan: for row in filters {
        if row.number == k && has_flag(row.alone.as_slice(), clause) {
            return true;
        }
    }
    false
}

/// Whether it is there and the clause is `r <> *`.
pub(crate) fn has_alone(filters: &[FilterRow], k: u8, clause: u8) -> bool
    ensures { result ≡ has_alone (filters_of_rows filters.now) k clause }
{
    'scan: for row in filters {
        if row.number == k && flag_at(row.alone.as_slice(), clause) {
            return true;
        }
    }
    false
}

/// The thread that holds the clause.
pub(crate) fn holder_in(holders: &[HolderRow], k: u8, clause: u8) -> Option<u8>
    ensures { result ≡ first_holder (holders_of_rows holders.now) k clause }
{
    'scan: for row in holders {
        if row.filter == k && row.clause == clause {
            return Some(row.thread);
        }
    }
    None
}

/// Whether another thread than `t` holds the clause.
pub(crate) fn has_other_holder(holders: &[HolderRow], t: u8, k: u8, clause: u8) -> bool
    ensures { result ≡ is_other t (first_holder (holders_of_rows holders.now) k clause) }
{
    match holder_in(holders, k, clause) {
        None => false,
        Some(by) => by != t,
    }
}

/// The thread that holds a clause that is `r <> *`.
pub(crate) fn owner_in(filters: &[FilterRow], holders: &[HolderRow]) -> Option<u8>
    ensures { result ≡ first_owner (filters_of_rows filters.now) (holders_of_rows holders.now) }
{
    'scan: for row in holders {
        if has_alone(filters, row.filter, row.clause) {
            return Some(row.thread);
        }
    }
    None
}

/// Of each event of a filter, the one before it in its order, with its count.
pub(crate) fn events_before(c: &Compiled) -> ArrayVec<Option<OrderEvent>, MOST_EVENTS>
    ensures { befores_of result.items ≡ befores_in c.now.plan }
{
    let count = c.events();
    let mut befores = ArrayVec::new();
    let mut n = 0;
    'events: while n < count {
        n += 1;
        befores.push(c.order_before(n));
    }
    befores
}

fn before_of(befores: &[Option<OrderEvent>], event: u8) -> Option<OrderEvent>
    ensures { option_map counted_of result ≡ before_of (befores_of befores.now) event }
{
    if event > 0 && event as usize <= befores.len() {
        befores[event as usize - 1]
    } else {
        None
    }
}

/// The event of filter `k` before this one in its order, with its count.
pub(crate) fn order_before(filters: &[FilterRow], k: u8, event: u8) -> Option<OrderEvent>
    ensures { option_map counted_of result ≡ order_before (filters_of_rows filters.now) k event }
{
    'scan: for row in filters {
        if row.number == k {
            return before_of(row.befores.as_slice(), event);
        }
    }
    None
}

fn posts_of(counts: &[u32], event: u8) -> u32
    ensures { result ≡ posts_of counts.now event }
{
    if event > 0 && event as usize <= counts.len() {
        counts[event as usize - 1]
    } else {
        0
    }
}

/// How often an event of filter `k` was posted.
pub(crate) fn posts_at(rows: &[PostRow], k: u8, event: u8) -> u32
    ensures { result ≡ posts_at (tables_of rows.now) k event }
{
    'scan: for row in rows {
        if row.number == k {
            return posts_of(&row.counts, event);
        }
    }
    0
}

/// The answer to a wait behind this event of filter `k`.
pub(crate) fn wait_answer(before: Option<OrderEvent>, rows: &[PostRow], k: u8) -> OpAnswer
    ensures { AnswersWait (option_map counted_of before) (posts_at (tables_of rows.now) k) result }
{
    match before {
        None => OpAnswer::Granted,
        Some(a) => count_answer(a, posts_at(rows, k, a.event)),
    }
}

fn count_answer(a: OrderEvent, posts: u32) -> OpAnswer
    ensures { (posted : ℕ → ℕ) → posts ≡ posted a.event → AnswersWait (option_map counted_of (Some a)) posted result }
{
    if posts < a.count {
        OpAnswer::Short {
            event: a.event,
            posts,
        }
    } else {
        OpAnswer::Granted
    }
}

/// Whether the event before was posted too seldom.
pub(crate) fn is_short(answer: OpAnswer) -> bool
    ensures { result ≡ is_short answer }
{
    match answer {
        OpAnswer::Granted => false,
        OpAnswer::Held { .. } => false,
        OpAnswer::Short { .. } => true,
    }
}

// The position of the first row of filter `k`, or how many rows there are.
fn table_index(rows: &[PostRow], k: u8) -> usize
    ensures { result ≡ table_index (tables_of rows.now) k }
{
    let mut i = 0;
    'scan: for row in rows {
        if row.number == k {
            return i;
        }
        i += 1;
    }
    i
}

fn table_with(row: PostRow, event: u8) -> PostRow
    requires low { 0 < event }
    requires high { event ≤ most_events }
    requires few { posts_of row.counts event < most_posts }
    ensures { table_of result ≡ table_with (table_of row) event }
{
    let at = event as usize - 1;
    let mut counts = row.counts;
    counts[at] += 1;
    PostRow {
        number: row.number,
        counts,
    }
}

/// An event of filter `k` was posted once more.
pub(crate) fn raise(rows: &mut [PostRow], k: u8, event: u8)
    requires low { 0 < event }
    requires high { event ≤ most_events }
    requires few { posts_at (tables_of rows.old) k event < most_posts }
    ensures { tables_of rows.new ≡ tables_with (tables_of rows.old) k event }
{
    let i = table_index(rows, k);
    if i >= rows.len() {
        return;
    }
    rows[i] = table_with(rows[i], event);
}
