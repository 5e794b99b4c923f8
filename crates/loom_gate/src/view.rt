//! What the seats of a gate know. No value of these types is made.
//!
//! A guest of the gate has a view of its own beside these.

use crate::log::{PassRow, SwitchRow};
use std::collections::LinkedList;

/// Where a pass is. The number is a place, and of `Inside` the version.
pub enum Stage {
    /// It stands at the place.
    Stands(u64),
    /// The inside mark was stored, from this place.
    Tries(u64),
    /// The flag of the place was found down.
    Clear(u64),
    /// It is inside, with the version.
    Inside(u64),
}

/// What a pass knows.
pub struct PassView {
    /// Where the pass is.
    pub stage: Stage,
    /// How many times it stored the inside mark.
    pub tries: u64,
    /// How many words of flags it loaded.
    pub checks: u64,
    /// The index in the table of the word of flags that it loaded last, and what that word was.
    pub latest: Option<(u64, u64)>,
    /// One more than the newest version that it entered with, or 0.
    pub fresh: u64,
    /// Its first entering with each version, in their order.
    pub rows: LinkedList<PassRow>,
}

/// What a look found.
pub enum Look {
    /// There was no look since the flags were stored last.
    Unknown,
    /// The thread was inside, or about to be.
    SawInside,
    /// The thread stood at the place.
    SawPlace(u64),
}

/// What the key knows.
pub struct KeyView {
    /// The words of flags.
    pub up: LinkedList<u64>,
    /// The latest look at each thread, by its number. Index 0 is of no thread.
    pub looks: LinkedList<Look>,
    /// How many looks were made.
    pub count: u64,
    /// The newest version, from 0.
    pub version: u64,
    /// The words of flags stored so far, each with its number.
    pub ever: LinkedList<(u64, u64)>,
    /// The number of threads.
    pub threads: u64,
    /// The number of places.
    pub places: u64,
    /// How many passes were made.
    pub born: u64,
    /// The places looked at, of each switch.
    pub switches: LinkedList<SwitchRow>,
    /// What the passes knew that were joined, by thread.
    pub finals: LinkedList<PassView>,
}

/// What a seat knows.
pub enum View {
    /// The pass of a thread.
    Pass(u64, PassView),
    /// The key.
    Key(KeyView),
    /// A seat that was joined.
    Nobody,
}
