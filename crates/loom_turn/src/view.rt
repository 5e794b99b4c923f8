//! What a seat knows of the lock. No value of these types is made.

/// How far a seat is with its turn. A ticket is counted from 0 and never wraps, though the lock's words do.
pub enum SeatStage {
    /// It has no ticket.
    Idle,
    /// It has drawn this ticket.
    Waits(u64),
    /// Its ticket is served: it has the turn.
    AtTurn(u64),
}

/// What a seat knows.
pub struct SeatView<L> {
    /// Its share of the 256 parts that a lock's seats have in all. A seat with a ticket has one at least.
    pub parts: u64,
    /// How far it is with its turn.
    pub stage: SeatStage,
    /// The label of the lock's value. None once the seat is joined to another.
    pub label: Option<L>,
}
