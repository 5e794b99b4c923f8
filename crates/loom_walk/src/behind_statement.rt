//! What filters make a thread do behind a statement.
ghost use Rattle.std.specs.Prelude.{◌≡◌, ◌<◌, ◌≤◌, ℕ, true, [], List, length};
ghost use Rattle.loom_tree.specs.Tree.{Source};
ghost use Rattle.loom_law.specs.Filter.{has};
ghost use Rattle.loom_law.specs.Lawful.{filter_limit};
ghost use Rattle.loom_law.specs.Walk.{OpenFrame, begun_with, events_of_filter, owed_past, owed_behind};
ghost use Rattle.loom_version.specs.Plans.{plans_in};
ghost use Rattle.loom_walk.specs.Owed.{rows_queue};
ghost use Rattle.loom_walk.specs.ClauseRows.{AreHoldings};
ghost use Rattle.loom_walk.specs.Notes.{AreEventNotes, AreRegionNotes, HaveDepths, IsInnermost};
ghost use Rattle.loom_walk.specs.Growth.{GrowsBy, GrowsByAll, IsThere, AreThere};

use crate::clause_rows::ClauseRows;
use crate::event_notes::EventNotes;
use crate::owed::Owed;
use crate::region_notes::RegionNotes;
use loom_version::plans::Plans;

// What filter `k` makes the thread do behind the statement of a line, the innermost one of the frame of this depth, is owed before the rest.
fn add_behind(
    owed: &mut Owed,
    clauses: &ClauseRows,
    events: &EventNotes,
    regions: &RegionNotes,
    plans: &Plans,
    k: u8,
    depth: u16,
    line: u32,
)
    requires there { (p : Source) × IsThere p plans.now k }
    requires room { length owed.old.rows < filter_limit }
    requires depths { HaveDepths 1 depth regions.now.notes }
    ensures grows { GrowsBy k owed.old owed.new }
    ensures queue { (fs : List OpenFrame) (hs : List (ℕ × ℕ)) (l : ℕ) → AreEventNotes events.now.notes fs → AreRegionNotes (plans_in plans.now) regions.now.notes fs → length fs ≡ depth → IsInnermost line fs → AreHoldings clauses.now hs → rows_queue l owed.new.rows [] ≡ owed_past (plans_in plans.now k) k hs fs l (events_of_filter k (begun_with fs)) (rows_queue l owed.old.rows []) }
{
    let began = events.of_statement(depth, line, k);
    if !began.is_empty() {
        match plans.get(k) {
            None => {}
            Some(c) => {
                let inside = regions.inside_behind(c, k, depth, began);
                owed.put_behind(k, c.behind(began, clauses.of(k), inside));
            }
        }
    }
}

/// What these filters make the thread do there is owed, in their order. Where no event began with the statement, one note is read.
pub(crate) fn add_all_behind(
    owed: &mut Owed,
    clauses: &ClauseRows,
    events: &EventNotes,
    regions: &RegionNotes,
    plans: &Plans,
    ks: &[u8],
    depth: u16,
    line: u32,
)
    requires nothing { owed.old.rows ≡ [] }
    requires few { length ks.now ≤ filter_limit }
    requires there { (p : Source) × AreThere p plans.now ks.now }
    requires depths { HaveDepths 1 depth regions.now.notes }
    ensures grows { GrowsByAll ks.now owed.old owed.new }
    ensures queue { (fs : List OpenFrame) (hs : List (ℕ × ℕ)) (l : ℕ) → AreEventNotes events.now.notes fs → AreRegionNotes (plans_in plans.now) regions.now.notes fs → length fs ≡ depth → IsInnermost line fs → AreHoldings clauses.now hs → rows_queue l owed.new.rows [] ≡ owed_behind (plans_in plans.now) hs fs l (begun_with fs) ks.now }
{
    if !events.has_statement(depth, line) {
        return;
    }
    let mut n = ks.len();
    'down: while n > 0 {
        n -= 1;
        add_behind(owed, clauses, events, regions, plans, ks[n], depth, line);
    }
}
