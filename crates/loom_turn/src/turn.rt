//! The lock, its seats, and the rule of its table.
ghost use Rattle.std.specs.Prelude.{◌≡◌};

use crate::view::SeatView;
use atomic_table::{Join, Play, Split, Table, TableRule};
use std::alloc::Global;
use std::snapshot::Snapshot;

/// A value with a label, which is plain data.
pub trait Fits {
    /// What the label is.
    type Label;

    /// The label of a value.
    ghost label: { Self → Self.Label };
}

// The rule of the lock's table: two words, which count tickets drawn and tickets served, and one slot for the value.
pub(crate) struct Tickets;

impl<T: Fits> TableRule<Option<T>, SeatView<T::Label>, Snapshot<T>> for Tickets {
    ghost use Rattle.loom_turn.specs.Lock.{seat_view};
    ghost use Rattle.loom_turn.specs.TicketRule.{TicketRule};
    ghost use Rattle.std.specs.Prelude.{Some};
    ghost use Rattle.loom_turn.specs.declared.view.SeatStage.TheVariants.{Idle};

    ghost holds = { λ k. TicketRule T.label (T.label k.value) };

    ghost first = { λ k. seat_view 256 Idle (Some (T.label k.value)) };
}

// A ticket is drawn.
pub(crate) struct Draw;

impl<T: Fits> Play<Option<T>, SeatView<T::Label>> for Draw {
    ghost use Rattle.loom_turn.specs.Steps.{Draws};

    ghost then = { Draws };
}

// The word of served tickets is loaded. Where it is the seat's ticket, the slot goes out.
pub(crate) struct Load;

impl<T: Fits> Play<Option<T>, SeatView<T::Label>> for Load {
    ghost use Rattle.loom_turn.specs.Steps.{Loads};

    ghost then = { Loads T.label };
}

// The slot comes back, and the next ticket is served.
pub(crate) struct Serve;

impl<T: Fits> Play<Option<T>, SeatView<T::Label>> for Serve {
    ghost use Rattle.loom_turn.specs.Steps.{Serves};

    ghost then = { Serves };
}

// Seats are split and joined by their parts.
pub(crate) struct Parts;

impl<L> Split<SeatView<L>> for Parts {
    ghost use Rattle.std.specs.Prelude.{◌-◌};
    ghost use Rattle.loom_turn.specs.Lock.{seat_view};
    ghost use Rattle.loom_turn.specs.declared.view.SeatStage.TheVariants.{Idle};

    ghost left = { λ v. seat_view (v.parts - 1) Idle v.label };

    ghost right = { λ v. seat_view 1 Idle v.label };
}

impl<L> Join<SeatView<L>> for Parts {
    ghost use Rattle.std.specs.Prelude.{◌+◌};
    ghost use Rattle.loom_turn.specs.Lock.{seat_view, blank};
    ghost use Rattle.loom_turn.specs.declared.view.SeatStage.TheVariants.{Idle};

    ghost both = { λ v w. seat_view (v.parts + w.parts) Idle v.label };

    ghost spent = { blank };
}

/// A seat of a lock. It has no bytes.
pub type Seat<T> = atomic_table::Seat<Option<T>, SeatView<<T as Fits>::Label>>;

/// The seats of a lock, seat `i` at index `i - 1`.
pub struct Seats<T: Fits>(pub Vec<Seat<T>>);

/// A lock round a value, which one seat at a time can take.
pub struct Turn<T: Fits> {
    pub(crate) table: Table<Option<T>, SeatView<T::Label>, Snapshot<T>, Tickets, Global>,
    ghost sized: { (table.shared.table_id.words ≡ 2) × (table.shared.table_id.slots ≡ 1) },
}
