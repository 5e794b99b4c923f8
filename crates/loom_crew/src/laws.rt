//! Laws of drivers, stated as the contracts of functions that do nothing.
ghost use Rattle.loom_crew.specs.Round.{HasProgress};

/// Two rounds of a run that isn't finished make an entry: of a thread, or of control.
pub fn progress()
    ensures { HasProgress }
{}
