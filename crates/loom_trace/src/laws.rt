//! What the text of a journal tells, stated as the contracts of functions that do nothing.
ghost use Rattle.loom_trace.specs.Laws.{LineTellsEntry, TextTellsJournal};

/// A line is that of one entry at most.
pub fn one_entry_of_a_line()
    ensures { LineTellsEntry }
{}

/// A text is that of one list of entries at most.
pub fn one_journal_of_a_text()
    ensures { TextTellsJournal }
{}
