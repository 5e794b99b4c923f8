//! Ticks.
ghost use Rattle.std.specs.Prelude.{◌≡◌, ◌==◌, ◌<◌, suc, ◌∷◌, None, if◌then◌else◌};
ghost use Rattle.loom_law.specs.Walk.{tick, tick_after};
ghost use Rattle.loom_walk.specs.Owed.{queue};

use crate::owed::Owed;

// How many entry and back-edge places are passed before a tick.
const TICK_AFTER: u32 = 1000;

/// Counts a place, of this line. At the thousandth one a tick is owed, before all else.
pub(crate) fn pass(passed: &mut u32, owed: &mut Owed, line: u32, place: u16)
    requires few { passed.old < tick_after }
    requires none { owed.old.tick ≡ None }
    ensures passed { passed.new ≡ suc passed.old }
    ensures same { owed.new ≡ record owed.old { tick = owed.new.tick } }
    ensures queue { queue owed.new ≡ (if suc passed.old == tick_after then (line, tick place) ∷ queue owed.old else queue owed.old) }
{
    *passed += 1;
    if *passed == TICK_AFTER {
        owed.put_tick(line, place);
    }
}
