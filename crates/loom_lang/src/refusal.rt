//! Why bytes are no program.

/// What there is too much of.
#[derive(Clone, Copy, Debug, Drop, PartialEq, Eq)]
pub enum Which {
    /// More than 64 functions.
    Functions,
    /// More than 4 parameters of a function.
    Params,
    /// More than 32 locals of a function, its parameters among them.
    Locals,
    /// More than 64 words, arrays, mutexes and semaphores.
    Names,
    /// More than 1,024 cells, a plain word counting one.
    Cells,
    /// More than 4,096 statements.
    Statements,
}

/// Why bytes are no program.
#[derive(Clone, Copy, Debug, Drop, PartialEq, Eq)]
pub enum Reason {
    /// They leave the grammar.
    Syntax,
    /// A second statement begins on a line.
    SecondOnLine,
    /// A name isn't known in its role.
    UnknownName,
    /// A name is declared a second time.
    NameTwice,
    /// A call or spawn has another number of arguments than the function has parameters, or `main` has parameters.
    WrongCount,
    /// There is no function `main`.
    NoMain,
    /// A limit is passed.
    TooMany(Which),
}

/// The refusal of bytes: its line, from 1, and its reason.
#[derive(Clone, Copy, Debug, Drop, PartialEq, Eq)]
pub struct LangRefusal {
    /// Its line, from 1.
    pub line: u32,
    /// Its reason.
    pub reason: Reason,
}
