//! Laws of stores, stated as the contracts of functions that do nothing.
ghost use Rattle.loom_store.specs.Laws.{HasOneAnswer, HasExactWaits, HasExactTraps, HasDeeds, HasReplays, CanAllWait, HasLastingWaits, CanAlwaysAnswer};

/// A request has at most one answer: the cases of an answer exclude each other.
pub fn one_answer()
    ensures { HasOneAnswer }
{}

/// Where a request is disabled it is answered so.
pub fn exact_waits()
    ensures { HasExactWaits }
{}

/// Where the store has the cause of a trap that may stand in a request's place, it is answered by this trap.
pub fn exact_traps()
    ensures { HasExactTraps }
{}

/// An answer has at most one deed: the store allows it, and is then the one behind it. Without a deed it stays as it was.
pub fn deeds()
    ensures { HasDeeds }
{}

/// Behind an answer the replay of the events so far is the replay of these and of what was answered, and each event is allowed.
pub fn replays()
    ensures { HasReplays }
{}

/// What is disabled is what a thread can wait for.
pub fn all_wait()
    ensures { CanAllWait }
{}

/// What a thread can wait for it still can behind any events.
pub fn lasting_waits()
    ensures { HasLastingWaits }
{}

/// The store of a run can answer each request with numbers of the program.
pub fn always_answers()
    ensures { CanAlwaysAnswer }
{}
