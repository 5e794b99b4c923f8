//! Reasons in words.

use loom_lang::refusal::{Reason, Which};

fn excess_text(which: Which) -> &'static str {
    match which {
        Which::Functions => "there are more than 64 functions",
        Which::Params => "the function has more than 4 parameters",
        Which::Locals => "the function has more than 32 locals",
        Which::Names => "there are more than 64 words, arrays, mutexes and semaphores",
        Which::Cells => "the words and arrays have more than 1024 cells",
        Which::Statements => "there are more than 4096 statements",
    }
}

/// Why a file is no program.
pub fn reason_text(reason: Reason) -> &'static str {
    match reason {
        Reason::Syntax =>
            "the grammar allows nothing like this here; something may be missing, here or before it; or a number, an expression or a nesting is beyond its limit (docs/LANGUAGE.md, Limits)",
        Reason::SecondOnLine => "a second statement begins on the line",
        Reason::UnknownName => "a name isn't known, or isn't of the kind that has to stand here",
        Reason::NameTwice => "a name is declared a second time",
        Reason::WrongCount => {
            "a call has more or fewer arguments than its function parameters, or main has parameters"
        }
        Reason::NoMain => "there is no function main",
        Reason::TooMany(which) => excess_text(which),
    }
}

/// Why a filter, or a command of a script, is refused with that number.
pub fn number_text(number: u32) -> &'static str {
    match number {
        1 => "the text isn't written like a filter",
        2 => "an event is of another file than the program's",
        3 => "no statement begins on the line of an event",
        4 =>
            "a test names something that isn't a local of the function in which its line stands, or, for a whole function, isn't a parameter",
        5 =>
            "a count stands where none has a meaning, at the last event of an order or in a region",
        6 => "the events of a region stand in different functions",
        7 =>
            "calls made inside a region reach the function in which it lies, so that it could be entered once more before it is left",
        8 =>
            "a region can be entered inside another one of the clause, on a path or in a function that is called there",
        9 => "an order has the same event twice, with the same test",
        10 => "there is no such function",
        11 => "a filter of that name is in already",
        12 => "no filter of that name is in",
        13 => "there are more than 8 clauses, or more than 32 events",
        14 => "as many filters are in as there may be",
        15 => "nothing else refuses the filter, but none can be put in yet",
        _ => "docs/FILTERS.md has the reasons",
    }
}
