//! What filters make a thread do at a place, before it goes on.
ghost use Rattle.std.specs.Prelude.{◌≡◌, ◌<◌, ◌≤◌, ℕ, true, [], List, length, Some};
ghost use Rattle.loom_tree.specs.Tree.{Source};
ghost use Rattle.loom_lang.specs.Places.{Place, inside, places, place_at};
ghost use Rattle.loom_flow.specs.State.{named};
ghost use Rattle.loom_law.specs.Filter.{Site, statement, has, matching};
ghost use Rattle.loom_law.specs.Lawful.{filter_limit};
ghost use Rattle.loom_law.specs.Walk.{owed_by, owed_at};
ghost use Rattle.loom_plan.specs.PlaceEvents.{names_at, site_at};
ghost use Rattle.loom_version.specs.Plans.{plans_in};
ghost use Rattle.loom_walk.specs.Owed.{rows_queue};
ghost use Rattle.loom_walk.specs.ClauseRows.{AreHoldings};
ghost use Rattle.loom_walk.specs.Growth.{GrowsBy, GrowsByAll, IsThere, AreThere, HasPlace};

use crate::clause_rows::ClauseRows;
use crate::owed::Owed;
use loom_version::plans::Plans;

// What filter `k` makes the thread do is owed before the rest.
fn add_before(
    owed: &mut Owed,
    clauses: &ClauseRows,
    plans: &Plans,
    k: u8,
    place: u16,
    locals: &[i64],
)
    requires there { HasPlace plans.now k place }
    requires room { length owed.old.rows < filter_limit }
    ensures grows { GrowsBy k owed.old owed.new }
    ensures queue { (p : Source) (x : Place) (at : Site) (hs : List (ℕ × ℕ)) (l : ℕ) → IsThere p plans.now k → place_at p place ≡ Some x → site_at x ≡ Some at → AreHoldings clauses.now hs → rows_queue l owed.new.rows [] ≡ owed_by (plans_in plans.now k) k hs l (matching (plans_in plans.now k) at (named (names_at p place) locals.now)) (rows_queue l owed.old.rows []) }
{
    match plans.get(k) {
        None => {}
        Some(c) => {
            let events = c.matching(place, locals);
            if !events.is_empty() {
                owed.put_before(k, c.before(events, clauses.of(k)));
            }
        }
    }
}

/// What these filters make the thread do there is owed, in their order.
pub(crate) fn add_all_before(
    owed: &mut Owed,
    clauses: &ClauseRows,
    plans: &Plans,
    ks: &[u8],
    place: u16,
    locals: &[i64],
)
    requires nothing { owed.old.rows ≡ [] }
    requires few { length ks.now ≤ filter_limit }
    requires there { (k : ℕ) → has ks.now k ≡ true → HasPlace plans.now k place }
    ensures grows { GrowsByAll ks.now owed.old owed.new }
    ensures queue { (p : Source) (x : Place) (at : Site) (hs : List (ℕ × ℕ)) (l : ℕ) → AreThere p plans.now ks.now → place_at p place ≡ Some x → site_at x ≡ Some at → AreHoldings clauses.now hs → rows_queue l owed.new.rows [] ≡ owed_at (plans_in plans.now) hs l at (named (names_at p place) locals.now) ks.now }
{
    let mut n = ks.len();
    'down: while n > 0 {
        n -= 1;
        add_before(owed, clauses, plans, ks[n], place, locals);
    }
}

/// The same at the beginning of a statement of this line, which costs a read of one table where no filter has an event on the line.
pub(crate) fn add_all_at_statement(
    owed: &mut Owed,
    clauses: &ClauseRows,
    plans: &Plans,
    ks: &[u8],
    line: u32,
    place: u16,
    locals: &[i64],
)
    requires nothing { owed.old.rows ≡ [] }
    requires few { length ks.now ≤ filter_limit }
    requires there { (k : ℕ) → has ks.now k ≡ true → HasPlace plans.now k place }
    ensures grows { GrowsByAll ks.now owed.old owed.new }
    ensures queue { (p : Source) (hs : List (ℕ × ℕ)) (l : ℕ) → AreThere p plans.now ks.now → place_at p place ≡ Some (inside line) → AreHoldings clauses.now hs → rows_queue l owed.new.rows [] ≡ owed_at (plans_in plans.now) hs l (statement line) (named (names_at p place) locals.now) ks.now }
{
    if !plans.may_watch(line) {
        return;
    }
    add_all_before(owed, clauses, plans, ks, place, locals);
}
