//! What the rule of a gate says, stated as the contracts of functions that do nothing.
ghost use Rattle.loom_gate.specs.Laws.{InsideHasVersion, FoundIsAt, RaisedKeepsOut, StaysOut, ToldIsStep, WaitsWhereFound, SwitchMeetsNobody};

/// While a pass is inside, the version is the one that it read.
pub fn version_of_a_pass_inside()
    ensures { InsideHasVersion }
{}

/// A pass that the key found at a raised place stands there or tries from there.
pub fn place_of_a_pass_that_was_found()
    ensures { FoundIsAt }
{}

/// A pass at a raised place stays there, whatever step it makes, so it enters only after the flags are
/// lowered.
pub fn pass_at_a_raised_place()
    ensures { RaisedKeepsOut }
{}

/// What the table tells of a pass's check, its read, a poll and its leaving is a step of the machine.
pub fn told_is_a_step()
    ensures { ToldIsStep }
{}

/// A pass that the key found at a raised place is there after any further steps of all threads, as long as the
/// place is up. So none of its steps reads a version before that flag is lowered.
pub fn pass_out_until_lowered()
    ensures { StaysOut }
{}

/// A pass that entered with no version since a switch stands where it was found then, or its try there has not
/// yet read a version.
pub fn pass_waiting_since_a_switch()
    ensures { WaitsWhereFound }
{}

/// Where each thread was found at a raised place, nobody is inside.
pub fn nobody_inside_at_a_switch()
    ensures { SwitchMeetsNobody }
{}
