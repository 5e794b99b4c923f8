//! Journals.
ghost use Rattle.std.specs.Prelude.{◌≡◌, ◌+◌, ◌-◌, ◌<◌, ◌≤◌, [], ◌∷◌, ◌++◌, IfOk, length, slice_get, Some};
ghost use Rattle.loom_trace.specs.Limits.{entry_limit, control_limit};

use crate::entry::Entry;
use crate::limits::CONTROL_LIMIT;
use crate::short_entry::{ShortEntry, full_entry, short_of};
use loom_tree::name::NoMemory;
use std::alloc::Global;
use std::marker::Model;

/// A list of entries, with room for more that was taken when it was made. An entry takes 24 bytes, and 56 bytes more where it has arguments or more than 16 events.
#[derive(Debug, Drop)]
pub struct Journal {
    shorts: Vec<ShortEntry>,
    // the entries that don't fit into 24 bytes
    longs: Vec<Entry>,
}

impl Model for Journal {
    ghost use Rattle.std.specs.Prelude.{◌-◌, map, vec_len, vec_capacity};
    ghost use Rattle.loom_trace.specs.Journal.{Contents};
    ghost use Rattle.loom_trace.specs.ShortEntries.{full_entry, HaveRoom};

    ghost Value = { Contents };

    ghost view = { λ j. record { entries = map (full_entry j.longs.items) j.shorts.items; room = vec_capacity j.shorts - vec_len j.shorts } };

    ghost invariant = { λ j. HaveRoom j.shorts.items j.longs.items (vec_capacity j.shorts - vec_len j.shorts) (vec_capacity j.longs - vec_len j.longs) };
}

impl Journal {
    /// An empty journal, for a run that is allowed `limit` entries, 1,000,000 at most
    /// (`ENTRY_LIMIT`), with room for control entries besides. It takes all of its memory here. An
    /// `Err` is want of memory.
    pub fn make(alloc: Global, limit: u32) -> Result<Journal, NoMemory>
        requires { limit ≤ entry_limit }
        ensures empty { IfOk result (λ j. j.entries ≡ []) }
        ensures room { IfOk result (λ j. j.room ≡ limit + control_limit) }
    {
        let room = (limit + CONTROL_LIMIT) as usize;
        let shorts = Vec::with_capacity(alloc, room)?;
        let longs = Vec::with_capacity(alloc, room)?;
        Ok(Journal { shorts, longs })
    }

    /// Appends an entry.
    pub fn push(&mut self, e: Entry)
        requires { 0 < self.old.room }
        ensures appended { self.new.entries ≡ self.old.entries ++ e ∷ [] }
        ensures room { self.new.room + 1 ≡ self.old.room }
    {
        match short_of(&e) {
            Some(short) => self.shorts.push_reserved(short),
            None => {
                let index = self.longs.len() as u32;
                self.longs.push_reserved(e);
                self.shorts.push_reserved(ShortEntry::Long(index));
            }
        }
    }

    /// How many entries there are.
    pub fn len(&self) -> u32
        ensures len { result ≡ length self.now.entries }
        ensures most { result + self.now.room ≤ entry_limit + control_limit }
    {
        self.shorts.len() as u32
    }

    /// The entry that has `i` entries before it.
    #[inline(always)]
    pub fn get(&self, i: u32) -> Entry
        requires { i < length self.now.entries }
        ensures { slice_get self.now.entries i ≡ Some result }
    {
        let short = &self.shorts[i as usize];
        full_entry(short, &self.longs)
    }
}
