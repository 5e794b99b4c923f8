//! What the new filters of a version make a thread do where it is.
ghost use Rattle.std.specs.Prelude.{◌≡◌, ◌≤◌, ℕ, true, false, [], List, length, Some, None};
ghost use Rattle.std.specs.List.{AllByRecursion, filter};
ghost use Rattle.loom_tree.specs.Tree.{Source};
ghost use Rattle.loom_law.specs.Filter.{has};
ghost use Rattle.loom_law.specs.Lawful.{filter_limit};
ghost use Rattle.loom_law.specs.Walk.{holds, owed_fresh};
ghost use Rattle.loom_law.specs.Walk as walk;
ghost use Rattle.loom_version.specs.Plans.{plans_in};
ghost use Rattle.loom_walk.specs.Owed.{HasOperations, rows_queue, queue};
ghost use Rattle.loom_walk.specs.ClauseRows.{AreHoldings};
ghost use Rattle.loom_walk.specs.Growth.{GrowsByAll, AreThere, HasPlace};
ghost use Rattle.loom_walk.specs.FilterWalk.{IsSpot, IsOwedLine, HasLocalsAt, begin_place};

use crate::at_place::add_all_before;
use crate::clause_rows::ClauseRows;
use crate::owed::Owed;
use crate::spot::{Spot, begin_place};
use loom_version::plans::Plans;
use loom_version::version::Version;

/// How many of these filters the version has.
pub(crate) fn count_staying(ks: &[u8], version: &Version) -> usize
    ensures { result ≡ length (filter (has version.now.active) ks.now) }
{
    let mut count = 0;
    let mut n = ks.len();
    'down: while n > 0 {
        n -= 1;
        if version.has(ks[n]) {
            count += 1;
        }
    }
    count
}

/// What these filters make a thread do where it is, of which it holds nothing: nothing, where nothing is owed, since the thread has gone on.
pub(crate) fn new_owed(
    owed: &Owed,
    clauses: &ClauseRows,
    spot: Spot,
    plans: &Plans,
    ks: &[u8],
    locals: &[i64],
) -> Owed
    requires rows { AllByRecursion HasOperations owed.now.rows }
    requires few { length ks.now ≤ filter_limit }
    requires there { (k place : ℕ) → has ks.now k ≡ true → begin_place spot ≡ Some place → HasPlace plans.now k place }
    ensures grows { GrowsByAll ks.now (record { line = owed.now.line; tick = None; back = false; rows = [] }) result }
    ensures nothing { queue owed.now ≡ [] → result.rows ≡ [] }
    ensures queue { (p : Source) (at : walk.Spot) (hs : List (ℕ × ℕ)) → (queue owed.now ≡ [] → ⊥) → AreThere p plans.now ks.now → IsSpot p spot at → HasLocalsAt p spot locals.now at → IsOwedLine p spot owed.now.line → AreHoldings clauses.now hs → ((k c : ℕ) → has ks.now k ≡ true → holds hs k c ≡ false) → rows_queue owed.now.line result.rows [] ≡ owed_fresh p (plans_in plans.now) at ks.now }
{
    let mut new = Owed::on(owed.line());
    if owed.is_nothing() {
        return new;
    }
    match begin_place(spot) {
        None => new,
        Some(place) => {
            add_all_before(&mut new, clauses, plans, ks, place, locals);
            new
        }
    }
}
