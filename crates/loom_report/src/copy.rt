//! A shelf that keeps what it gave.
ghost use Rattle.std.specs.Prelude.{◌≡◌, ◌≤◌, ◌+◌, IfOk, length};

use loom_io::shelf::{LARGEST_LIMIT, Shelf, ShelfError};
use loom_tree::name::Name;
use std::alloc::Global;

/// Another shelf, with a copy of what its last read gave. Where memory for the copy is wanting there is none.
#[derive(Drop)]
pub struct CopyShelf<F> {
    pub shelf: F,
    pub copy: Option<Name>,
    /// How many reads there were.
    pub reads: usize,
}

impl<F: Shelf> Shelf for CopyShelf<F> {
    ghost faults = { λ s name. F.faults s.shelf name };

    ghost told = { λ s name. F.told s.shelf name };

    fn read(&mut self, alloc: Global, name: &str, limit: usize) -> Result<Name, ShelfError> {
        self.reads = self.reads.saturating_add(1);
        let answer = self.shelf.read(alloc, name, limit);
        if let Ok(bytes) = &answer {
            self.copy = Name::copied(alloc, bytes.bytes()).ok();
        }
        answer
    }
}
