//! Calls of threads that enter and leave clauses, post events and wait for them, row by row.

/// A call. A thread stands before the filter, and the clause behind it.
#[derive(Clone, Copy, Debug, Drop, PartialEq, Eq)]
pub enum Call {
    /// Installs the filter under this number.
    Install(u8),
    /// Removes it.
    Remove(u8),
    /// A thread wants to enter a clause.
    Enter(u8, u8, u8),
    /// A thread leaves a clause.
    Leave(u8, u8, u8),
    /// Whether it is disabled that the thread enters the clause.
    Waits(u8, u8, u8),
    /// An event of the filter is posted.
    Post(u8, u8),
    /// A wait for an event of the filter.
    Wait(u8, u8),
    /// Whether it is disabled that the thread waits for an event of the filter.
    Lacks(u8, u8, u8),
}

/// What a call told.
#[derive(Clone, Copy, Debug, Drop, PartialEq, Eq)]
pub enum Told {
    /// It may not be called.
    Not,
    /// It is done.
    Done,
    /// The clause, and the thread that holds it.
    Held(u8, u8),
    /// The event before, and how often it was posted.
    Short(u8, u32),
    /// Whether it is so.
    Is(bool),
}

/// A call, what it told, and the owner behind it.
pub type Row = (Call, Told, Option<u8>);

/// The program of the tests.
pub const PROGRAM: &str =
    "shared x;\nfn add() {\nx = x + 1;\n}\nfn main() {\nlet a = spawn add();\nx = x + 1;\njoin a;\nprint x;\n}\n";

/// Clause 1 excludes itself, clause 2 everything.
pub const FILTER: &str = "{p.lm:3; p.lm:3} <> {p.lm:7; p.lm:7}; add() <> *";

/// Threads 1 and 2, and filters 5 and 9.
pub const ROWS: [Row; 26] = [
    (Call::Enter(1, 5, 1), Told::Not, None),
    (Call::Install(5), Told::Done, None),
    (Call::Install(5), Told::Not, None),
    // An exclusive clause: one thread, once.
    (Call::Enter(1, 5, 1), Told::Done, None),
    (Call::Enter(1, 5, 1), Told::Not, None),
    (Call::Waits(1, 5, 1), Told::Is(false), None),
    (Call::Waits(2, 5, 1), Told::Is(true), None),
    (Call::Enter(2, 5, 1), Told::Held(1, 1), None),
    (Call::Leave(2, 5, 1), Told::Not, None),
    // A clause that excludes everything.
    (Call::Enter(2, 5, 2), Told::Done, Some(2)),
    (Call::Waits(1, 5, 2), Told::Is(true), Some(2)),
    (Call::Enter(1, 5, 2), Told::Not, Some(2)),
    (Call::Leave(1, 5, 1), Told::Done, Some(2)),
    (Call::Enter(2, 5, 1), Told::Done, Some(2)),
    (Call::Leave(2, 5, 2), Told::Done, None),
    (Call::Enter(1, 5, 1), Told::Held(1, 2), None),
    // The same clause of another filter, and clauses that there aren't.
    (Call::Install(9), Told::Done, None),
    (Call::Enter(1, 9, 1), Told::Done, None),
    (Call::Enter(1, 9, 0), Told::Not, None),
    (Call::Enter(1, 9, 3), Told::Not, None),
    // Behind a removal the filter's clauses are free, and no others.
    (Call::Remove(5), Told::Done, None),
    (Call::Waits(1, 5, 1), Told::Is(false), None),
    (Call::Install(5), Told::Done, None),
    (Call::Enter(1, 5, 1), Told::Done, None),
    (Call::Enter(2, 5, 1), Told::Held(1, 1), None),
    (Call::Enter(2, 9, 1), Told::Held(1, 1), None),
];

/// Events 1 to 3 are of one order, 4 and 5 of another one.
pub const ORDERS: &str = "p.lm:6{2} > p.lm:3 > p.lm:8; p.lm:7 > p.lm:9";

/// Filters 5 and 9, both with these orders.
pub const ORDER_ROWS: [Row; 29] = [
    (Call::Install(5), Told::Done, None),
    // The first event of an order waits for nothing.
    (Call::Wait(5, 1), Told::Done, None),
    (Call::Wait(5, 4), Told::Done, None),
    // Two posts are enough, and one isn't.
    (Call::Wait(5, 2), Told::Short(1, 0), None),
    (Call::Lacks(1, 5, 2), Told::Is(true), None),
    (Call::Post(5, 1), Told::Done, None),
    (Call::Wait(5, 2), Told::Short(1, 1), None),
    (Call::Post(5, 1), Told::Done, None),
    (Call::Wait(5, 2), Told::Done, None),
    // Nothing is used up.
    (Call::Wait(5, 2), Told::Done, None),
    (Call::Lacks(2, 5, 2), Told::Is(false), None),
    (Call::Post(5, 1), Told::Done, None),
    (Call::Wait(5, 2), Told::Done, None),
    // Each event waits for the one before it, in its own order.
    (Call::Wait(5, 3), Told::Short(2, 0), None),
    (Call::Post(5, 2), Told::Done, None),
    (Call::Wait(5, 3), Told::Done, None),
    (Call::Wait(5, 5), Told::Short(4, 0), None),
    // The same event of another filter, and events that there aren't.
    (Call::Install(9), Told::Done, None),
    (Call::Wait(9, 2), Told::Short(1, 0), None),
    (Call::Post(9, 1), Told::Done, None),
    (Call::Wait(9, 2), Told::Short(1, 1), None),
    (Call::Post(9, 0), Told::Not, None),
    (Call::Post(9, 33), Told::Not, None),
    // Behind an installation the counts begin anew, and only those of its filter.
    (Call::Remove(5), Told::Done, None),
    (Call::Install(5), Told::Done, None),
    (Call::Wait(5, 2), Told::Short(1, 0), None),
    (Call::Wait(9, 2), Told::Short(1, 1), None),
    (Call::Post(9, 1), Told::Done, None),
    (Call::Wait(9, 2), Told::Done, None),
];
