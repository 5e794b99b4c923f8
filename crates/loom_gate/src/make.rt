//! A gate is made.
ghost use Rattle.std.specs.Prelude.{◌≡◌, ℕ, ◌+◌, ◌*◌, ◌<◌, ◌≤◌, [], IfOk, false, length, replicate, vec_capacity, All};
ghost use Rattle.loom_trace.specs.Limits.{thread_limit, place_limit};
ghost use Rattle.loom_trace.specs.Places.{has_place};
ghost use Rattle.loom_gate.specs.declared.view.View.TheVariants.{Key};
ghost use Rattle.loom_gate.specs.View.{flag_words, switch_limit};
ghost use Rattle.loom_gate.specs.Seats.{threads_of, places_of, view_of_pass, view_of_key, version_of, switches_left, has_flags_up, rows_of_key, place_of_pass, rows_of_pass, IsKeyOf, IsStanding, ArePassesOf};

use crate::gate::Gate;
use crate::key::Key;
use crate::pass::Pass;
use crate::steps::{Cut, Size};
use atomic_table::Table;
use loom_tree::name::NoMemory;
use std::alloc::Global;

// How many rows a pass may come to have.
const ROWS: usize = 129;

/// The passes of a gate: that of thread `t` is at index `t - 1`.
#[derive(Drop)]
pub struct Passes(pub Vec<Pass>);

impl Gate {
    /// A gate for so many threads (from 1 to 8), places below `places` (from 1 to 8,321), and so many
    /// switches (128 at most), with its key and its passes. It takes all memory here. An `Err` is
    /// want of memory.
    pub fn make(
        alloc: Global,
        threads: u8,
        places: u16,
        switches: u16,
    ) -> Result<(Gate, Key, Passes), NoMemory>
        requires { (0 < threads) × (threads ≤ thread_limit) × (0 < places) × (places ≤ place_limit) × (switches ≤ switch_limit) }
        ensures size { IfOk result (λ r. (threads_of r.0 ≡ threads) × (places_of r.0 ≡ places)) }
        ensures key { IfOk result (λ r. IsKeyOf r.0 r.1) }
        ensures first { IfOk result (λ r. (version_of r.1 ≡ 0) × (switches_left r.1 ≡ switches) × (rows_of_key r.1 ≡ []) × (has_flags_up r.1 ≡ false) × ((p : ℕ) → has_place (view_of_key r.1).up p ≡ false)) }
        ensures passes { IfOk result (λ r. ArePassesOf r.0 r.2.0.items) }
        ensures stand { IfOk result (λ r. All (λ p. IsStanding p × (place_of_pass p ≡ 0) × (rows_of_pass p ≡ [])) r.2.0.items) }
    {
        let n = usize::from(threads);
        let flags = (usize::from(places) + 63) / 64;
        let mut passes = Vec::with_capacity(alloc, n)?;
        let rows = Vec::with_capacity(alloc, n * ROWS)?;
        let ends = Vec::with_capacity(alloc, n)?;
        let switch_rows = Vec::with_capacity(alloc, usize::from(switches) * n)?;
        let seen = Vec::from_elem(alloc, 0u16, n + 1)?;
        let words = Vec::from_elem(alloc, 0u64, n + 1 + flags)?;
        let (table, mut seat) = Table::of_words(
            alloc,
            words.as_slice(),
            &Size {
                threads: u64::from(threads),
                places: u64::from(places),
            },
        )?;
        'threads: for t in 0..threads {
            let rows = Vec::with_capacity(alloc, ROWS)?;
            passes.push_reserved(Pass {
                seat: table.shared.split_seat::<Cut>(&mut seat),
                thread: t + 1,
                place: 0,
                fresh: 0,
                rows,
            });
        }
        let gate = Gate {
            table,
            threads,
            flags,
            rows,
            ends,
        };
        let key = Key {
            seat,
            version: 0,
            left: switches,
            up: false,
            places: seen,
            rows: switch_rows,
        };
        Ok((gate, key, Passes(passes)))
    }
}
