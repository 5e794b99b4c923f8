//! How much a program may have of what it declares.

/// The most functions.
pub(crate) const FUNCTION_LIMIT: usize = 64;

/// The most parameters of a function.
pub(crate) const PARAM_LIMIT: usize = 4;

/// The most locals of a function, its parameters among them.
pub const LOCAL_LIMIT: usize = 32;

/// The most words, arrays, mutexes and semaphores.
pub(crate) const NAME_LIMIT: usize = 64;

/// The most cells, a plain word counting one.
pub const CELL_LIMIT: u32 = 1024;

/// The most statements.
pub(crate) const STATEMENT_LIMIT: usize = 4096;

/// The most bytes of the text of a program.
pub const FILE_LIMIT: usize = 65536;
