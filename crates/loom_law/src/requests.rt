//! Laws that lead from what a thread asks for to a turn, stated as the contracts of functions that do nothing.
ghost use Rattle.loom_law.specs.TurnLaws.{HasAnswers, HasAnswerTurns, HasMakingTurns, HasBlocks, HasSameRequest, HasOneRequest, HasNoSplit, HasOneOperation};

/// From a thread's request and the answer that the store allows to the premises of a turn.
pub fn answers()
    ensures { HasAnswers }
{}

/// With the answer to a thread's request a lawful journal is lawful.
pub fn answer_turns()
    ensures { HasAnswerTurns }
{}

/// With the operation that a thread asks to make a lawful journal is lawful.
pub fn making_turns()
    ensures { HasMakingTurns }
{}

/// A thread that asks for what can be disabled may be told as blocked there, but not twice.
pub fn blocks()
    ensures { HasBlocks }
{}

/// Behind `Blocked` a thread asks for the same as before.
pub fn same_request()
    ensures { HasSameRequest }
{}

/// Two acts for which a thread asks are answered the same.
pub fn one_request()
    ensures { HasOneRequest }
{}

/// A thread that asks for an act owes no operation.
pub fn no_split()
    ensures { HasNoSplit }
{}

/// A thread owes one operation at a time.
pub fn one_operation()
    ensures { HasOneOperation }
{}
