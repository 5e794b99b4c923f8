//! The gate's table.
ghost use Rattle.std.specs.Prelude.{◌≡◌, ◌+◌, ◌*◌, ◌<◌, ◌≤◌, [], vec_capacity};
ghost use Rattle.loom_trace.specs.Limits.{thread_limit, place_limit};
ghost use Rattle.loom_gate.specs.View.{flag_words, row_limit};

use crate::log::PassRow;
use crate::steps::{GateRule, Size};
use crate::view::View;
use atomic_table::Table;
use std::alloc::Global;

/// A gate, through which each of its threads goes with a pass of its own.
#[derive(Drop)]
pub struct Gate {
    pub(crate) table: Table<u8, View, Size, GateRule, Global>,
    pub(crate) threads: u8,
    /// How many words of flags there are.
    pub(crate) flags: usize,
    /// Room for the record.
    pub(crate) rows: Vec<PassRow>,
    pub(crate) ends: Vec<u16>,
    ghost sized: { (table.shared.table_id.words ≡ (table.shared.key.threads + 1) + flag_words table.shared.key.places) × (table.shared.table_id.slots ≡ 0) × (threads ≡ table.shared.key.threads) × (flags ≡ flag_words table.shared.key.places) },
    ghost small: { (0 < threads) × (threads ≤ thread_limit) × (0 < table.shared.key.places) × (table.shared.key.places ≤ place_limit) },
    ghost room: { (rows.items ≡ []) × (ends.items ≡ []) × (threads * row_limit ≤ vec_capacity rows) × (threads ≤ vec_capacity ends) },
}
