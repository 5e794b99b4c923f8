//! Sets of places.
ghost use Rattle.std.specs.Prelude.{◌≡◌, ℕ, ◌<◌, ◌==◌, length, true, false, if◌then◌else◌};
ghost use Rattle.loom_trace.specs.Limits.{place_limit};
ghost use Rattle.loom_trace.specs.Places.{has_place, word_count};

use crate::limits::PLACE_LIMIT;
use std::marker::Model;

// How many words hold a bit for each place.
const WORDS: usize = (PLACE_LIMIT as usize + 63) / 64;

/// A set of places, each below 8,321 (`PLACE_LIMIT`). It takes no memory.
#[derive(Debug, Drop)]
pub struct Places {
    words: [u64; WORDS],
}

impl Model for Places {
    ghost use Rattle.std.specs.Prelude.{◌≡◌, ℕ, List, length};
    ghost use Rattle.loom_trace.specs.Places.{word_count};

    ghost Value = { List ℕ };

    ghost view = { λ s. s.words };

    ghost invariant = { λ s. length s.words ≡ word_count };
}

impl Places {
    /// The empty set.
    pub fn none() -> Places
        ensures { (p : ℕ) → has_place result p ≡ false }
    {
        Places { words: [0; WORDS] }
    }

    /// Adds place `p`.
    pub fn put(&mut self, p: u16)
        requires { p < place_limit }
        ensures { (q : ℕ) → has_place self.new q ≡ (if q == p then true else has_place self.old q) }
    {
        self.words[usize::from(p / 64)] |= 1u64 << (p % 64);
    }

    /// Whether `p` is in the set.
    pub fn has(&self, p: u16) -> bool
        requires { p < place_limit }
        ensures { result ≡ has_place self.now p }
    {
        (self.words[usize::from(p / 64)] >> (p % 64)) % 2 == 1
    }

    /// The set as bits: place `64 * i + j` is bit `j` of word `i`.
    pub fn words(&self) -> &[u64]
        ensures words { result.now ≡ self.now }
        ensures all { length result.now ≡ word_count }
    {
        &self.words
    }
}
