//! What is done with a lock: it is made, its turn is taken and given, and it is closed.
ghost use Rattle.std.specs.Prelude.{◌≡◌, ◌<◌, IfOk, IfErr, length, Some};
ghost use Rattle.loom_turn.specs.Seat.{label_of, IsSeatOf, AreSeatsOf, IsIdle, HasTurn, IsSameSeat};

use crate::turn::{Draw, Fits, Load, Parts, Seat, Seats, Serve, Turn};
use atomic_table::{Refused, Table};
use std::alloc::Global;
use std::snapshot::Snapshot;
use std::sync::Wait;

impl<T: Fits> Turn<T> {
    /// A lock round `value`, with so many seats: 1 to 255.
    ///
    /// Where memory runs out the value comes back.
    pub fn make(alloc: Global, value: T, seats: u8) -> Result<(Turn<T>, Seats<T>), T>
        requires { 0 < seats }
        ensures count { IfOk result (λ r. length r.1.0.items ≡ seats) }
        ensures seats { IfOk result (λ r. AreSeatsOf T.label r.0 r.1.0.items) }
        ensures label { IfOk result (λ r. label_of T.label r.0 ≡ T.label value) }
        ensures err { IfErr result (λ v. v ≡ value) }
    {
        let Ok(mut list) = Vec::with_capacity(alloc, usize::from(seats)) else {
            return Err(value);
        };
        let Ok(mut slots) = Vec::with_capacity(alloc, 1) else {
            return Err(value);
        };
        let about = Snapshot::of(&value);
        slots.push_reserved(Some(value));
        match Table::new(alloc, &[0, 0], slots, &about) {
            Ok((table, mut first)) => {
                'split: for _ in 1..seats {
                    list.push_reserved(table.shared.split_seat::<Parts>(&mut first));
                }
                list.push_reserved(first);
                Ok((Turn { table }, Seats(list)))
            }
            Err(Refused { mut slots }) => match slots.pop() {
                Some(Some(value)) => {
                    slots.destroy_empty();
                    Err(value)
                }
                _ => unreachable!(),
            },
        }
    }

    /// Ends the lock, with all of its seats. None of them has the turn.
    ///
    /// The value has the label of the one that the lock was made with.
    pub fn close(self, seats: Seats<T>) -> T
        requires { AreSeatsOf T.label self seats.0.items }
        ensures { T.label result ≡ label_of T.label self }
    {
        let Turn { table } = self;
        let Seats(mut rest) = seats;
        let Some(mut all) = rest.pop() else {
            unreachable!()
        };
        'join: while let Some(seat) = rest.pop() {
            table.shared.join_seat::<Parts>(&mut all, seat);
        }
        let mut closed = table.close_with(all);
        let value = closed.take(0);
        closed.free();
        match value {
            Some(value) => value,
            None => unreachable!(),
        }
    }

    /// Draws a ticket for the seat, waits until it is served, and takes the value.
    ///
    /// The value's label is that of the seat. If it returns, the seat has the turn.
    pub fn take<R: Wait>(&self, rt: &R, seat: &mut Seat<T>) -> T
        requires seat { IsSeatOf T.label self.now seat.old }
        requires idle { IsIdle seat.old }
        ensures label { seat.old.me.0.label ≡ Some (T.label result) }
        ensures turn { HasTurn seat.new }
        ensures same { IsSameSeat seat.old seat.new }
    {
        let ticket = self.table.shared.fetch_add::<Draw>(seat, 0, 1);
        for _ in rt.forever() {
            let found = self.table.shared.load::<Load>(seat, 1);
            if found == ticket {
                break;
            }
        }
        match self.table.shared.exchange(seat, 0, None) {
            Some(value) => value,
            None => unreachable!(),
        }
    }

    /// Gives a value back, with the label that the seat carries, and the turn to the next ticket.
    pub fn give(&self, seat: &mut Seat<T>, value: T)
        requires seat { IsSeatOf T.label self.now seat.old }
        requires turn { HasTurn seat.old }
        requires label { seat.old.me.0.label ≡ Some (T.label value) }
        ensures idle { IsIdle seat.new }
        ensures same { IsSameSeat seat.old seat.new }
    {
        match self.table.shared.exchange(seat, 0, Some(value)) {
            Some(_) => unreachable!(),
            None => {}
        }
        self.table.shared.fetch_add::<Serve>(seat, 1, 1);
    }
}
