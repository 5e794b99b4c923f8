//! The key of a gate.
ghost use Rattle.std.specs.Prelude.{◌≡◌, ℕ, ◌+◌, ◌<◌, ◌≤◌, ◌++◌, true, false, length, replicate, slice_index, slice_index_or, slice_set};
ghost use Rattle.loom_trace.specs.Places.{has_place};
ghost use Rattle.loom_gate.specs.declared.view.Look.TheVariants.{Unknown};
ghost use Rattle.loom_gate.specs.View.{flag_words, switch_rows};
ghost use Rattle.loom_gate.specs.GateMachine.{IsThread, AllStood, AmidKey, NobodyInside};
ghost use Rattle.loom_gate.specs.Seats.{threads_of, places_of, view_of_key, version_of, switches_left, has_flags_up, rows_of_key, IsKeyOf};
ghost use Rattle.loom_gate.specs.Calls.{IsPlaceBelow, look_told};

use crate::gate::Gate;
use crate::log::SwitchRow;
use crate::steps::{Flag, LookAt, MARK, Switch};
use crate::view::View;
use atomic_table::Seat;
use loom_trace::places::Places;

/// What a look answers.
#[derive(Clone, Copy, Debug, Drop)]
pub enum Looked {
    /// The thread tries or is inside.
    Inside,
    /// The thread stands at this place, which is one of the gate's.
    Stands(u16),
}

/// What the flags are raised, the threads looked at and the versions switched with.
#[derive(Drop)]
pub struct Key {
    pub(crate) seat: Seat<u8, View>,
    pub(crate) version: u32,
    /// How many switches are left.
    pub(crate) left: u16,
    /// Whether the flags are up.
    pub(crate) up: bool,
    /// The place found at the latest look at each thread, by its number. Index 0 is of no thread.
    pub(crate) places: Vec<u16>,
    pub(crate) rows: Vec<SwitchRow>,
}

impl Key {
    /// Raises the flags of these places, each one of the gate's, by one step for each word of flags.
    /// None is up before.
    pub fn raise(&mut self, gate: &Gate, flags: &Places)
        requires gate { IsKeyOf gate.now self.old }
        requires down { has_flags_up self.old ≡ false }
        requires places { (p : ℕ) → has_place flags.now p ≡ true → p < places_of gate.now }
        ensures gate { IsKeyOf gate.now self.new }
        ensures up { (has_flags_up self.new ≡ true) × ((p : ℕ) → has_place (view_of_key self.new).up p ≡ has_place flags.now p) }
        ensures steps { length (view_of_key self.new).ever ≡ length (view_of_key self.old).ever + flag_words (places_of gate.now) }
        ensures forgotten { (view_of_key self.new).looks ≡ replicate (threads_of gate.now + 1) Unknown }
        ensures same { (version_of self.new ≡ version_of self.old) × (switches_left self.new ≡ switches_left self.old) × (rows_of_key self.new ≡ rows_of_key self.old) }
    {
        self.store(gate, flags.words());
        self.up = true;
    }

    /// Clears the flags, by one step for each word of them, and forgets the looks.
    pub fn lower(&mut self, gate: &Gate)
        requires gate { IsKeyOf gate.now self.old }
        requires up { has_flags_up self.old ≡ true }
        ensures gate { IsKeyOf gate.now self.new }
        ensures down { (has_flags_up self.new ≡ false) × ((p : ℕ) → has_place (view_of_key self.new).up p ≡ false) }
        ensures steps { length (view_of_key self.new).ever ≡ length (view_of_key self.old).ever + flag_words (places_of gate.now) }
        ensures forgotten { (view_of_key self.new).looks ≡ replicate (threads_of gate.now + 1) Unknown }
        ensures same { (version_of self.new ≡ version_of self.old) × (switches_left self.new ≡ switches_left self.old) × (rows_of_key self.new ≡ rows_of_key self.old) }
    {
        let none = Places::none();
        self.store(gate, none.words());
        self.up = false;
    }

    // Stores each word of flags.
    fn store(&mut self, gate: &Gate, words: &[u64])
        requires gate { IsKeyOf gate.now self.old }
        requires words { length words.now ≡ 131 }
        ensures gate { IsKeyOf gate.now self.new }
        ensures up { (w : ℕ) → w < flag_words (places_of gate.now) → slice_index_or (view_of_key self.new).up w 0 ≡ slice_index_or words.now w 0 }
        ensures steps { length (view_of_key self.new).ever ≡ length (view_of_key self.old).ever + flag_words (places_of gate.now) }
        ensures forgotten { (view_of_key self.new).looks ≡ replicate (threads_of gate.now + 1) Unknown }
        ensures same { (version_of self.new ≡ version_of self.old) × (switches_left self.new ≡ switches_left self.old) × (rows_of_key self.new ≡ rows_of_key self.old) }
    {
        let first = usize::from(gate.threads) + 1;
        'words: for w in 0..gate.flags {
            gate.table
                .shared
                .store::<Flag>(&mut self.seat, first + w, words[w]);
        }
    }

    /// Where a thread was when this call loaded its word. Threads are 1 to the gate's number of them.
    pub fn look(&mut self, gate: &Gate, t: u8) -> Looked
        requires gate { IsKeyOf gate.now self.old }
        requires thread { IsThread (threads_of gate.now) t }
        ensures gate { IsKeyOf gate.now self.new }
        ensures once { (view_of_key self.new).count ≡ (view_of_key self.old).count + 1 }
        ensures found { (view_of_key self.new).looks ≡ slice_set (view_of_key self.old).looks t (look_told result) }
        ensures place { IsPlaceBelow (places_of gate.now) result }
        ensures flags { (view_of_key self.new).up ≡ (view_of_key self.old).up }
        ensures same { (has_flags_up self.new ≡ has_flags_up self.old) × (version_of self.new ≡ version_of self.old) × (switches_left self.new ≡ switches_left self.old) × (rows_of_key self.new ≡ rows_of_key self.old) }
    {
        let thread = usize::from(t);
        let word = gate.table.shared.load::<LookAt>(&mut self.seat, thread);
        if word == MARK {
            Looked::Inside
        } else {
            let place = word as u16;
            self.places[thread] = place;
            Looked::Stands(place)
        }
    }

    /// Makes the next version, where each thread was found standing at a raised place since the raise.
    pub fn switch(&mut self, gate: &Gate)
        requires gate { IsKeyOf gate.now self.old }
        requires stood { AllStood (threads_of gate.now) (view_of_key self.old) }
        requires left { 0 < switches_left self.old }
        ensures gate { IsKeyOf gate.now self.new }
        ensures nobody { AmidKey (view_of_key self.old) NobodyInside }
        ensures version { (version_of self.new ≡ version_of self.old + 1) × (switches_left self.new + 1 ≡ switches_left self.old) }
        ensures rows { rows_of_key self.new ≡ rows_of_key self.old ++ switch_rows (version_of self.old + 1) (view_of_key self.old).looks (threads_of gate.now) }
        ensures same { (has_flags_up self.new ≡ has_flags_up self.old) × ((view_of_key self.new).up ≡ (view_of_key self.old).up) × ((view_of_key self.new).looks ≡ (view_of_key self.old).looks) }
    {
        let version = self.version + 1;
        gate.table
            .shared
            .store::<Switch>(&mut self.seat, 0, u64::from(version));
        'threads: for t in 0..gate.threads {
            let thread = t + 1;
            self.rows.push_reserved(SwitchRow {
                version,
                thread,
                place: self.places[usize::from(thread)],
            });
        }
        self.version = version;
        self.left -= 1;
    }
}
