//! What a thread is answered.

use loom_trace::entry::What;

/// The answer to a request.
#[derive(Clone, Copy, Debug, Drop, PartialEq, Eq)]
pub enum Answer {
    /// The request is granted. A read gives the word's value, a spawn says which thread is new; any other request gives 0.
    Granted(i64),
    /// The thread waits until this can be granted.
    Disabled(What),
    /// A trap of this reason stands in the request's place: 3, 4, 5 or 7.
    Trapped(u8),
}
