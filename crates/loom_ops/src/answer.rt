//! What a thread is answered.

/// The answer to a thread that wants to enter a clause, or waits for an event of an order.
#[derive(Clone, Copy, Debug, Drop, PartialEq, Eq)]
pub enum OpAnswer {
    /// It holds the clause now, or its wait is over.
    Granted,
    /// Another thread holds it.
    Held {
        /// The clause.
        clause: u8,
        /// The thread that holds it.
        by: u8,
    },
    /// The event before was posted too seldom.
    Short {
        /// The event before.
        event: u8,
        /// How often it was posted since its filter was installed.
        posts: u32,
    },
}
