//! What filters make a thread do behind a frame, and behind a trap.
ghost use Rattle.std.specs.Prelude.{◌≡◌, ◌<◌, ◌≤◌, ℕ, true, [], List, length};
ghost use Rattle.loom_tree.specs.Tree.{Source};
ghost use Rattle.loom_law.specs.Filter.{has, clauses};
ghost use Rattle.loom_law.specs.Lawful.{filter_limit};
ghost use Rattle.loom_law.specs.Walk.{OpenFrame, all_inside, owed_leaves, all_leaves};
ghost use Rattle.loom_version.specs.Plans.{plans_in};
ghost use Rattle.loom_walk.specs.Owed.{rows_queue};
ghost use Rattle.loom_walk.specs.ClauseRows.{AreHoldings};
ghost use Rattle.loom_walk.specs.Notes.{AreRegionNotes, HaveDepths};
ghost use Rattle.loom_walk.specs.Growth.{GrowsBy, GrowsByAll, IsThere, AreThere};

use crate::clause_rows::ClauseRows;
use crate::owed::Owed;
use crate::region_notes::RegionNotes;
use loom_version::plans::Plans;

// The leaves of filter `k` are owed before the rest: of the clauses that the thread holds, and whose regions it is inside no more.
fn add_leaves(owed: &mut Owed, held: &ClauseRows, regions: &RegionNotes, plans: &Plans, k: u8)
    requires there { (p : Source) × IsThere p plans.now k }
    requires room { length owed.old.rows < filter_limit }
    ensures grows { GrowsBy k owed.old owed.new }
    ensures queue { (fs : List OpenFrame) (hs : List (ℕ × ℕ)) (l : ℕ) → AreRegionNotes (plans_in plans.now) regions.now.notes fs → HaveDepths 1 (length fs) regions.now.notes → AreHoldings held.now hs → rows_queue l owed.new.rows [] ≡ owed_leaves hs (all_inside fs) k l (clauses (plans_in plans.now k)) (rows_queue l owed.old.rows []) }
{
    let own = held.of(k);
    if !own.is_empty() {
        match plans.get(k) {
            None => {}
            Some(c) => {
                let inside = regions.inside(c, k);
                owed.put_leaves(k, c.leaves(own, inside));
            }
        }
    }
}

/// The leaves of these filters are owed, in their order.
pub(crate) fn add_all_leaves(
    owed: &mut Owed,
    held: &ClauseRows,
    regions: &RegionNotes,
    plans: &Plans,
    ks: &[u8],
)
    requires nothing { owed.old.rows ≡ [] }
    requires few { length ks.now ≤ filter_limit }
    requires there { (p : Source) × AreThere p plans.now ks.now }
    ensures grows { GrowsByAll ks.now owed.old owed.new }
    ensures queue { (fs : List OpenFrame) (hs : List (ℕ × ℕ)) (l : ℕ) → AreRegionNotes (plans_in plans.now) regions.now.notes fs → HaveDepths 1 (length fs) regions.now.notes → AreHoldings held.now hs → rows_queue l owed.new.rows [] ≡ all_leaves (plans_in plans.now) hs (all_inside fs) l ks.now }
{
    let mut n = ks.len();
    'down: while n > 0 {
        n -= 1;
        add_leaves(owed, held, regions, plans, ks[n]);
    }
}
