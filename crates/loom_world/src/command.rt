//! The commands of a run.

use loom_filter::parse::FilterRefusal;
use loom_trace::places::Places;
use loom_tree::name::Name;

/// What the text of a filter is.
#[derive(Debug, Drop)]
pub(crate) enum Judged {
    /// It is refused.
    Refused(FilterRefusal),
    /// It is a filter; these places are flagged while it is to be put in.
    Flags(Places),
}

/// What a command does.
#[derive(Debug, Drop)]
pub(crate) enum Action {
    /// Puts a filter in.
    Install(Judged),
    /// Takes a filter out.
    Remove,
}

/// A command of a run.
#[derive(Debug, Drop)]
pub(crate) struct Command {
    /// How many entries of threads stand at least where it is due.
    pub(crate) at: u32,
    /// The name of the filter.
    pub(crate) name: Name,
    /// What it does.
    pub(crate) action: Action,
}
