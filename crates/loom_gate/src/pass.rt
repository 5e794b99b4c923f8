//! The pass of one thread.
ghost use Rattle.std.specs.Prelude.{◌≡◌, ◌+◌, ◌<◌, ◌≤◌, ◌/◌, length, vec_capacity};
ghost use Rattle.loom_gate.specs.View.{with_row, switch_limit, row_limit};
ghost use Rattle.loom_gate.specs.GateMachine.{Amid};
ghost use Rattle.loom_gate.specs.Seats.{threads_of, places_of, flag_index, view_of_pass, thread_of_pass, place_of_pass, rows_of_pass, IsPassOf, IsStanding, IsInside, IsInsideAt, FoundBit};
ghost use Rattle.loom_gate.specs.Calls.{HasEntered, rows_after};

use crate::gate::Gate;
use crate::log::PassRow;
use crate::steps::{Check, Leave, MARK, Poll, Read, Try};
use crate::view::View;
use atomic_table::Seat;

/// What an entering answers.
#[derive(Clone, Copy, Debug, Drop)]
pub enum Entered {
    /// The pass is inside, with this version.
    Inside(u32),
    /// The pass stands as before, at this place: its own load found the place's flag up.
    Flagged(u16),
}

/// What a thread goes through a gate with. It is inside or stands at a place, at 0 to begin with.
#[derive(Drop)]
pub struct Pass {
    pub(crate) seat: Seat<u8, View>,
    pub(crate) thread: u8,
    /// Where it stands, or entered from.
    pub(crate) place: u16,
    /// One more than the newest version that it entered with, or 0.
    pub(crate) fresh: u32,
    pub(crate) rows: Vec<PassRow>,
}

// The index of the word of flags that has the bit of a place.
fn index_of(gate: &Gate, place: u16) -> usize
    requires { place < places_of gate.now }
    ensures index { result ≡ flag_index gate.now place }
    ensures words { place / 64 < gate.now.flags }
{
    usize::from(gate.threads) + 1 + usize::from(place / 64)
}

impl Pass {
    /// Enters, from the place where the pass stands. It is inside exactly where its own load found the
    /// flag of that place down.
    pub fn enter(&mut self, gate: &Gate) -> Entered
        requires gate { IsPassOf gate.now self.old }
        requires stands { IsStanding self.old }
        ensures gate { IsPassOf gate.now self.new }
        ensures same { (thread_of_pass self.new ≡ thread_of_pass self.old) × (place_of_pass self.new ≡ place_of_pass self.old) }
        ensures answer { HasEntered (flag_index gate.now (place_of_pass self.old)) (place_of_pass self.old) result self.new }
        ensures once { (view_of_pass self.new).checks ≡ (view_of_pass self.old).checks + 1 }
        ensures rows { rows_of_pass self.new ≡ rows_after (thread_of_pass self.old) (place_of_pass self.old) result (rows_of_pass self.old) }
    {
        let shared = &gate.table.shared;
        let own = usize::from(self.thread);
        shared.store::<Try>(&mut self.seat, own, MARK);
        let word = shared.load::<Check>(&mut self.seat, index_of(gate, self.place));
        if (word >> (self.place % 64)) % 2 == 1 {
            shared.store::<Leave>(&mut self.seat, own, u64::from(self.place));
            Entered::Flagged(self.place)
        } else {
            let version = shared.load::<Read>(&mut self.seat, 0) as u32;
            self.note(version);
            Entered::Inside(version)
        }
    }

    // Notes an entering with a version, where it is the first.
    fn note(&mut self, version: u32)
        requires room { (length self.old.rows.items ≤ self.old.fresh) × (self.old.fresh ≤ version + 1) × (version ≤ switch_limit) × (row_limit ≤ vec_capacity self.old.rows) }
        ensures rows { self.new.rows.items ≡ with_row self.old.fresh self.old.thread version self.old.place self.old.rows.items }
        ensures fresh { self.new.fresh ≡ version + 1 }
        ensures same { (self.new.seat ≡ self.old.seat) × (self.new.thread ≡ self.old.thread) × (self.new.place ≡ self.old.place) }
        ensures room { (length self.new.rows.items ≤ row_limit) × (row_limit ≤ vec_capacity self.new.rows) }
    {
        if self.fresh != version + 1 {
            self.rows.push_reserved(PassRow {
                thread: self.thread,
                version,
                place: self.place,
            });
            self.fresh = version + 1;
        }
    }

    /// Whether the flag of a place, one of the gate's, was up when this call loaded it. The pass is
    /// inside.
    pub fn poll(&mut self, gate: &Gate, place: u16) -> bool
        requires gate { IsPassOf gate.now self.old }
        requires inside { IsInside self.old }
        requires place { place < places_of gate.now }
        ensures gate { IsPassOf gate.now self.new }
        ensures same { (thread_of_pass self.new ≡ thread_of_pass self.old) × (place_of_pass self.new ≡ place_of_pass self.old) × (rows_of_pass self.new ≡ rows_of_pass self.old) × ((view_of_pass self.new).stage ≡ (view_of_pass self.old).stage) }
        ensures found { FoundBit (flag_index gate.now place) place result self.new }
        ensures once { (view_of_pass self.new).checks ≡ (view_of_pass self.old).checks + 1 }
        ensures version { (v : _) → IsInsideAt v self.old → Amid (thread_of_pass self.old) (view_of_pass self.old) (λ a. a.key.version ≡ v) }
    {
        let word = gate
            .table
            .shared
            .load::<Poll>(&mut self.seat, index_of(gate, place));
        (word >> (place % 64)) % 2 == 1
    }

    /// Leaves, and stands at a place, one of the gate's. The pass is inside before.
    pub fn leave(&mut self, gate: &Gate, place: u16)
        requires gate { IsPassOf gate.now self.old }
        requires inside { IsInside self.old }
        requires place { place < places_of gate.now }
        ensures gate { IsPassOf gate.now self.new }
        ensures same { (thread_of_pass self.new ≡ thread_of_pass self.old) × (rows_of_pass self.new ≡ rows_of_pass self.old) }
        ensures stands { IsStanding self.new × (place_of_pass self.new ≡ place) }
        ensures version { (v : _) → IsInsideAt v self.old → Amid (thread_of_pass self.old) (view_of_pass self.old) (λ a. a.key.version ≡ v) }
    {
        gate.table
            .shared
            .store::<Leave>(&mut self.seat, usize::from(self.thread), u64::from(place));
        self.place = place;
    }
}
