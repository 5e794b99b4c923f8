//! Laws of journals, stated as the contracts of functions that do nothing.
ghost use Rattle.loom_world.specs.Laws.{HasFewEntries};

/// A lawful journal has at most as many entries as threads may make, two for each command, and `Finish`.
pub fn few_entries()
    ensures { HasFewEntries }
{}
