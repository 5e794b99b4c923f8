//! A shelf that watches what it is asked.
ghost use Rattle.std.specs.Prelude.{◌≡◌, ◌≤◌, ◌+◌, IfOk, length};
ghost use Rattle.loom_io.specs.Shelf.{Untold};

use loom_io::shelf::{LARGEST_LIMIT, Shelf, ShelfError};
use loom_tree::name::Name;
use std::alloc::Global;

/// A shelf that gives one text for each name, and counts what it is asked.
#[derive(Drop)]
pub struct Watch {
    pub text: &'static [u8],
    /// How many reads there were of `p.lm` with the limit 65,536.
    pub right: u32,
    /// How many other reads there were.
    pub other: u32,
}

impl Shelf for Watch {
    ghost faults = { λ _ _. 0 };

    ghost told = { λ _ _. Untold };

    fn read(&mut self, alloc: Global, name: &str, limit: usize) -> Result<Name, ShelfError> {
        if name == "p.lm" && limit == 65_536 {
            self.right = self.right.saturating_add(1);
        } else {
            self.other = self.other.saturating_add(1);
        }
        let end = self.text.len().min(limit + 1);
        Ok(Name::copied(alloc, &self.text[..end])?)
    }
}
