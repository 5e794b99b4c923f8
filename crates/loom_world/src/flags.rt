//! The places that are flagged while a command is asked.
ghost use Rattle.std.specs.Prelude.{◌≡◌, ◌<◌, ◌≤◌, length};
ghost use Rattle.loom_lang.specs.Places.{places};
ghost use Rattle.loom_trace.specs.Limits.{place_limit};
ghost use Rattle.loom_world.specs.Flags.{AreOtherPlaces, AreAllPlaces};

use loom_flow::flow::Flow;
use loom_trace::places::Places;

/// Each place of the program but these, and place 0.
pub(crate) fn other_places(flow: &Flow, unsafe_places: &Places) -> Places
    ensures { AreOtherPlaces flow.now.program unsafe_places.now result }
{
    // there are no more than there may be
    let _ = flow.code();
    let mut others = Places::none();
    'places: for p in 0..flow.places() {
        if p == 0 || !unsafe_places.has(p) {
            others.put(p);
        }
    }
    others
}

/// Each place of the program.
pub(crate) fn all_places(flow: &Flow) -> Places
    ensures { AreAllPlaces flow.now.program result }
{
    // there are no more than there may be
    let _ = flow.code();
    let mut all = Places::none();
    'places: for p in 0..flow.places() {
        all.put(p);
    }
    all
}
