//! How a call of the top ends.

/// How a call ended.
#[derive(Clone, Copy, Debug, Drop, PartialEq, Eq)]
pub enum Status {
    /// All threads have ended, and the text of the run's journal was written; or what `show` asks for was written.
    Done,
    /// The words are no invocation.
    Usage,
    /// The program's file is no program.
    Refused,
    /// The script's file is no script.
    NoScript,
    /// The file of the program or of the script could not be read.
    ReadFault,
    /// The text could not be written.
    WriteFault,
    /// Memory ran out before the run began, or before what is shown was made.
    NoMemory,
    /// Each thread that lives waits for what none will do, and the text of the run's journal was written.
    Stuck,
    /// The run has as many thread entries as it may have, and the text of its journal was written.
    Limit,
    /// The file of the program or of the script has more bytes than it may have.
    TooLong,
}
