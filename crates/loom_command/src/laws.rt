//! Laws of texts, stated as the contracts of functions that do nothing.
ghost use Rattle.loom_command.specs.Laws.{HasOneScript, HasOneRefusedLine, HasNoRefusedScript, HasOneForm, HasOneFilter, HasOneFault, HasNoFaultyFilter};

/// The same bytes are at most one script.
pub fn one_script()
    ensures { HasOneScript }
{}

/// A script is refused at one line at most.
pub fn one_refused_line()
    ensures { HasOneRefusedLine }
{}

/// What is refused at a line is no script.
pub fn no_refused_script()
    ensures { HasNoRefusedScript }
{}

/// The same bytes are the text of a filter in at most one way: which clauses, steps, numbers and tests stand in them, byte by byte, is determined.
pub fn one_form()
    ensures { HasOneForm }
{}

/// The same bytes are the text of at most one filter.
pub fn one_filter()
    ensures { HasOneFilter }
{}

/// A text is refused with at most one number, in one clause.
pub fn one_fault()
    ensures { HasOneFault }
{}

/// A text that is refused is no filter's.
pub fn no_faulty_filter()
    ensures { HasNoFaultyFilter }
{}
