//! Laws of full parts and of lawful journals, each the contract of a function that does nothing. Their statements stand in `specs/Laws.antt`.
ghost use Rattle.loom_law.specs.InsideRegions.{HasRegionPlaces};
ghost use Rattle.loom_law.specs.OpenStatements.{HasNestedStatements, HasFewFrames, HasTopEnds};
ghost use Rattle.loom_law.specs.OneRegion.{HasOneRegion, IsAlwaysInOneRegion, HasOneRegionUnderScript};
ghost use Rattle.loom_law.specs.Promises.{AlwaysPromises};
ghost use Rattle.loom_law.specs.Laws.{HasHeldRegions, HasOnePart, HasOneMove, HasOneMade, HasBalance, IsAlwaysBalanced, HasNewInstalls, HasExclusion, IsAlwaysObeyed, HasNewest, HasOwedActive, HasOwedInstalled, HasHeldLeaves, HasRightLeaves, HasFronts, HasEmptyEnds, HasBeginning, HasEventTurns, HasOperationTurns, HasControlTurns, HasSoundPlaces, IsOutsideWhereFlagged, HasOneNumber, HasOneJudgement, HasOneCommandList};

/// At each point of its full part a thread holds each clause whose regions it is inside.
pub fn held_regions()
    ensures { HasHeldRegions }
{}

/// A thread has at most one full part: two parts whose last steps tell an entry are the same, step by step.
pub fn one_part()
    ensures { HasOnePart }
{}

/// The steps that a thread made before its last entry are determined by its entries. So "which places did it pass" has one answer.
pub fn one_move()
    ensures { HasOneMove }
{}

/// All parts of a thread have the same steps up to its last entry, and behind it marks alone, of which there may be more or fewer.
pub fn one_made()
    ensures { HasOneMade }
{}

/// What a thread holds of an installed filter, by its own part, is what the `Enter`, `Leave` and `Removed` entries of the journal say.
pub fn balance()
    ensures { HasBalance }
{}

/// Locks balance in each lawful journal: operations name installed filters, a clause is left by its holder alone, `Cross` takes the newest version, and a
/// thread that ends holds nothing.
pub fn always_balanced()
    ensures { IsAlwaysBalanced }
{}

/// An install begins anew: nobody holds a clause of its filter, and none of its events was posted or complete before.
pub fn new_installs()
    ensures { HasNewInstalls }
{}

/// At each front of a lawful journal at most one thread is inside the regions of a clause of an installed filter.
pub fn exclusion()
    ensures { HasExclusion }
{}

/// Filters are obeyed from their install to their removal: at each entry of a lawful journal at most one thread is inside the regions of a clause, and
/// where the region excludes everything no other thread makes the entry.
pub fn always_obeyed()
    ensures { IsAlwaysObeyed }
{}

/// A thread that has begun, and for which nothing is listed behind its last entry, has the newest version.
pub fn newest()
    ensures { HasNewest }
{}

/// What a thread owes first is of a filter of its version.
pub fn owed_active()
    ensures { HasOwedActive }
{}

/// What a thread owes first is of an installed filter, unless a new version is listed for it.
pub fn owed_installed()
    ensures { HasOwedInstalled }
{}

/// A thread that owes a `Leave` holds the clause by its own part.
pub fn held_leaves()
    ensures { HasHeldLeaves }
{}

/// A thread that owes a `Leave` holds the clause by the journal too, unless a new version is listed for it.
pub fn right_leaves()
    ensures { HasRightLeaves }
{}

/// What stands before an entry of a lawful journal is a lawful journal.
pub fn fronts()
    ensures { HasFronts }
{}

/// Where the last step of a thread's part is `End`, the thread holds no clause before it.
pub fn empty_ends()
    ensures { HasEmptyEnds }
{}

/// The journal with no entry is lawful, and tells no event.
pub fn beginning()
    ensures { HasBeginning }
{}

/// A lawful and unfinished journal with one more event of a thread is lawful, where the thread's part goes on with it and the store allows it.
pub fn event_turns()
    ensures { HasEventTurns }
{}

/// So it is with one more operation of a thread, a tick, a `Blocked` and a `Cross` among them.
pub fn operation_turns()
    ensures { HasOperationTurns }
{}

/// So it is with one more control entry that may follow.
pub fn control_turns()
    ensures { HasControlTurns }
{}

/// The unsafe places of a filter are sound: a thread that comes to a safe place, while the filter isn't active, is inside none of its regions, and no
/// event of it is under way.
pub fn sound_places()
    ensures { HasSoundPlaces }
{}

/// So the filter of an install sees nothing of a thread that stands at a flagged place.
pub fn outside_where_flagged()
    ensures { IsOutsideWhereFlagged }
{}

/// A place has one number.
pub fn one_number()
    ensures { HasOneNumber }
{}

/// What a filter's text is for a program is determined: it is refused with one number and in one clause, or it is one plan, or neither.
pub fn one_judgement()
    ensures { HasOneJudgement }
{}

/// The bytes of a script are at most one list of commands for a program and the word that names its file.
pub fn one_command_list()
    ensures { HasOneCommandList }
{}

/// Each lawful journal keeps what is promised to an operator: it is a run of the program, filters are obeyed, nobody is inside at an
/// installation, locks balance, and what is refused changes nothing.
pub fn always_promises()
    ensures { AlwaysPromises }
{}

/// No thread is ever inside two regions of one clause, and it is inside a region in a single one of its open frames, where no path refuses the filter and
/// it comes in at safe places. Other filters may be active beside it.
pub fn one_region()
    ensures { HasOneRegion }
{}

/// In each lawful journal a filter comes in where that is safe. So it has no front where a thread, anywhere in its full part, is inside two regions of one
/// clause, for each filter that no path refuses.
pub fn always_in_one_region()
    ensures { IsAlwaysInOneRegion }
{}

/// Where the commands are those of a script, so it is with each filter: one that its paths refuse isn't installed.
pub fn one_region_under_script()
    ensures { HasOneRegionUnderScript }
{}

/// The places that are unsafe by a filter's regions are those inside them, and of functions that calls inside them reach, where 'inside' is what the
/// refusals of regions that are entered again or nest mean by it.
pub fn region_places()
    ensures { HasRegionPlaces }
{}

/// Open statements nest along each trace of a program that keeps the rules: a statement begins in a frame in which none of its line is open, what is
/// complete or comes to its back edge is the innermost one, on a line of its own, and a frame ends where one is open.
pub fn nested_statements()
    ensures { HasNestedStatements }
{}

/// No more frames are open than the limit.
pub fn few_frames()
    ensures { HasFewFrames }
{}

/// The frame that ends is the top one.
pub fn top_ends()
    ensures { HasTopEnds }
{}
