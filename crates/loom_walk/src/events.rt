//! What begins and is complete with events of a filter.
ghost use Rattle.std.specs.Prelude.{◌≡◌, ◌<◌, ◌≤◌, ◌++◌, ℕ, suc, true, List, length};
ghost use Rattle.loom_tree.specs.Tree.{Source};
ghost use Rattle.loom_law.specs.Filter.{has};
ghost use Rattle.loom_law.specs.Walk.{OpenFrame, in_frame, completed, entered_regions, noted_at};
ghost use Rattle.loom_law.specs.Walk as walk;
ghost use Rattle.loom_plan.specs.Sets.{event_numbers};
ghost use Rattle.loom_version.specs.Plans.{plans_in};
ghost use Rattle.loom_walk.specs.Notes.{AreEventNotes, AreRegionNotes, HaveDepths, AreOfFilters};
ghost use Rattle.loom_walk.specs.Growth.{IsThere};
ghost use Rattle.loom_walk.specs.FilterWalk.{IsSpot, IsOnTop};

use crate::event_notes::{EventNote, EventNotes};
use crate::region_notes::RegionNotes;
use crate::spot::{Spot, beginning_line};
use loom_plan::sets::EventSet;
use loom_version::plans::Plans;

/// Events of filter `k` that begin with a statement are noted with it.
pub(crate) fn note_events(notes: &mut EventNotes, spot: Spot, depth: u16, k: u8, events: EventSet)
    requires { length notes.old.notes < notes.old.room }
    ensures notes { (p : Source) (fs : List OpenFrame) (at : walk.Spot) → IsSpot p spot at → IsOnTop at fs → AreEventNotes notes.old.notes fs → length fs ≡ depth → AreEventNotes notes.new.notes (in_frame (noted_at at k (event_numbers events)) fs) }
    ensures few { length notes.new.notes ≤ suc (length notes.old.notes) }
    ensures room { notes.new.room ≡ notes.old.room }
{
    match beginning_line(spot) {
        None => {}
        Some(line) => notes.push(EventNote {
            depth,
            line,
            filter: k,
            events,
        }),
    }
}

/// The regions of filter `k` that are entered with these events are entered, in the top frame.
pub(crate) fn enter_regions(
    regions: &mut RegionNotes,
    plans: &Plans,
    k: u8,
    depth: u16,
    events: EventSet,
)
    requires there { (p : Source) × IsThere p plans.now k }
    requires room { length regions.old.notes < regions.old.room }
    ensures notes { (fs : List OpenFrame) → AreRegionNotes (plans_in plans.now) regions.old.notes fs → length fs ≡ depth → AreRegionNotes (plans_in plans.now) regions.new.notes (in_frame (λ (x : OpenFrame). record x { inside = entered_regions (plans_in plans.now k) k (event_numbers events) ++ x.inside }) fs) }
    ensures depths { HaveDepths 1 depth regions.old.notes → HaveDepths 1 depth regions.new.notes }
    ensures filters { (ks : List ℕ) → has ks k ≡ true → AreOfFilters ks regions.old.notes → AreOfFilters ks regions.new.notes }
    ensures few { length regions.new.notes ≤ suc (length regions.old.notes) }
    ensures room { regions.new.room ≡ regions.old.room }
{
    match plans.get(k) {
        None => {}
        Some(c) => regions.enter(c, k, depth, events),
    }
}

/// Those that are left with these events are left, in the top frame.
pub(crate) fn leave_regions(
    regions: &mut RegionNotes,
    plans: &Plans,
    k: u8,
    depth: u16,
    events: EventSet,
)
    requires there { (p : Source) × IsThere p plans.now k }
    requires depths { HaveDepths 1 depth regions.old.notes }
    ensures notes { (fs : List OpenFrame) → AreRegionNotes (plans_in plans.now) regions.old.notes fs → length fs ≡ depth → AreRegionNotes (plans_in plans.now) regions.new.notes (in_frame (completed k (event_numbers events)) fs) }
    ensures depths { HaveDepths 1 depth regions.new.notes }
    ensures filters { (ks : List ℕ) → AreOfFilters ks regions.old.notes → AreOfFilters ks regions.new.notes }
    ensures few { length regions.new.notes ≤ length regions.old.notes }
    ensures room { regions.new.room ≡ regions.old.room }
{
    match plans.get(k) {
        None => {}
        Some(c) => regions.complete(c, k, depth, events),
    }
}
