//! Laws of what is watched.
ghost use Rattle.loom_plan.specs.Laws.{HasNamesAtPlaces};

/// The names at a place are those of the locals of a function in which it lies.
#[tactic(auto, using(crate::proofs::PlaceNames::names_at_places))]
pub fn names_are_of_a_function()
    ensures { HasNamesAtPlaces }
{}
