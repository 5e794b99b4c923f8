//! The clauses that a thread holds.
ghost use Rattle.std.specs.Prelude.{◌≡◌, ◌==◌, ◌<◌, ◌≤◌, ◌&&◌, ℕ, true, [], List, ◌∷◌, not, length};
ghost use Rattle.loom_law.specs.Filter.{has};
ghost use Rattle.loom_law.specs.Lawful.{filter_limit};
ghost use Rattle.loom_law.specs.Walk.{without_clause};
ghost use Rattle.loom_plan.specs.Numbers.{most_numbers};
ghost use Rattle.loom_plan.specs.Sets.{clause_numbers};
ghost use Rattle.loom_plan.specs.Operations.{HoldsThese};
ghost use Rattle.loom_walk.specs.ClauseRows.{filters_of, clauses_at, AreHoldings, holdings_of, row_index, with_clauses, AreRowsFor};

use arrayvec::ArrayVec;
use loom_plan::sets::ClauseSet;
use loom_version::limits::FILTER_LIMIT;
use loom_version::version::Version;
use std::marker::Model;

/// The clauses of a filter that a thread holds.
#[derive(Clone, Copy, Debug, Drop)]
pub struct ClauseRow {
    /// The number of the filter.
    pub filter: u8,
    /// The clauses.
    pub clauses: ClauseSet,
}

impl Default for ClauseRow {
    fn default() -> ClauseRow {
        ClauseRow {
            filter: 0,
            clauses: ClauseSet::none(),
        }
    }
}

/// A row for each filter of the thread's version, in their order. It takes no memory.
#[derive(Debug, Drop)]
pub(crate) struct ClauseRows {
    rows: ArrayVec<ClauseRow, FILTER_LIMIT>,
}

impl Model for ClauseRows {
    ghost use Rattle.std.specs.Prelude.{List};
    ghost use Rattle.loom_walk.specs.declared.clause_rows.ClauseRow.{ClauseRow};

    ghost Value = { List ClauseRow };

    ghost view = { λ s. s.rows.items };
}

// The clauses in the first row of filter `k`, if it has one.
fn clauses_in(rows: &[ClauseRow], k: u8) -> ClauseSet
    ensures { clause_numbers result ≡ clauses_at rows.now k }
{
    'scan: for row in rows {
        if row.filter == k {
            return row.clauses;
        }
    }
    ClauseSet::none()
}

// The position of the first row of filter `k`, or how many rows there are.
fn row_index(rows: &[ClauseRow], k: u8) -> usize
    ensures { result ≡ row_index rows.now k }
{
    let mut i = 0;
    'scan: for row in rows {
        if row.filter == k {
            return i;
        }
        i += 1;
    }
    i
}

// The first row of filter `k` has these clauses.
fn set_clauses(rows: &mut [ClauseRow], k: u8, clauses: ClauseSet)
    ensures { rows.new ≡ with_clauses rows.old k clauses }
{
    let i = row_index(rows, k);
    if i >= rows.len() {
        return;
    }
    rows[i] = ClauseRow { filter: k, clauses };
}

// All of these clauses but one.
fn without(clauses: ClauseSet, clause: u8) -> ClauseSet
    ensures { (c : ℕ) → has (clause_numbers result) c ≡ (has (clause_numbers clauses) c && not (c == clause)) }
{
    let mut rest = clauses;
    let mut left = ClauseSet::none();
    'numbers: while let Some(n) = rest.pop_first() {
        left.put_if(n, n != clause);
    }
    left
}

// A row for each of these filters, with the clauses that it has in the old rows.
fn rows_for(old: &[ClauseRow], filters: &[u8]) -> ArrayVec<ClauseRow, FILTER_LIMIT>
    requires { length filters.now ≤ filter_limit }
    ensures { AreRowsFor old.now filters.now result.items }
{
    let mut rows = ArrayVec::new();
    'each: for k in filters {
        rows.push(ClauseRow {
            filter: *k,
            clauses: clauses_in(old, *k),
        });
    }
    rows
}

impl ClauseRows {
    /// No filter.
    pub(crate) fn none() -> ClauseRows
        ensures { result ≡ [] }
    {
        ClauseRows {
            rows: ArrayVec::new(),
        }
    }

    /// The clauses of filter `k`: none, where it has no row.
    pub(crate) fn of(&self, k: u8) -> ClauseSet
        ensures of { clause_numbers result ≡ clauses_at self.now k }
        ensures holds { (hs : List (ℕ × ℕ)) → AreHoldings self.now hs → HoldsThese hs k result }
    {
        clauses_in(self.rows.as_slice(), k)
    }

    /// The thread enters a clause, from 1 to 32, of a filter that has a row.
    pub(crate) fn enter(&mut self, k: u8, clause: u8)
        requires there { has (filters_of self.old) k ≡ true }
        requires low { 0 < clause }
        requires high { clause ≤ most_numbers }
        ensures filters { filters_of self.new ≡ filters_of self.old }
        ensures holdings { (hs : List (ℕ × ℕ)) → AreHoldings self.old hs → AreHoldings self.new ((k, clause) ∷ hs) }
    {
        let mut clauses = clauses_in(self.rows.as_slice(), k);
        clauses.put(clause);
        set_clauses(self.rows.as_mut_slice(), k, clauses);
    }

    /// It leaves a clause.
    pub(crate) fn leave(&mut self, k: u8, clause: u8)
        ensures filters { filters_of self.new ≡ filters_of self.old }
        ensures holdings { (hs : List (ℕ × ℕ)) → AreHoldings self.old hs → AreHoldings self.new (without_clause k clause hs) }
    {
        let clauses = clauses_in(self.rows.as_slice(), k);
        set_clauses(self.rows.as_mut_slice(), k, without(clauses, clause));
    }

    /// It goes over to a version: what it holds by filters that the version hasn't is forgotten.
    pub(crate) fn go_over(&mut self, version: &Version)
        ensures filters { filters_of self.new ≡ version.now.active }
        ensures holdings { (hs : List (ℕ × ℕ)) → AreHoldings self.old hs → AreHoldings self.new (holdings_of version.now.active hs) }
    {
        let rows = rows_for(self.rows.as_slice(), version.active());
        self.rows = rows;
    }
}
