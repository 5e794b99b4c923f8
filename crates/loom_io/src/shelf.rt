//! Where files come from.
ghost use Rattle.std.specs.Prelude.{◌≡◌, ◌≤◌, ◌+◌, ℕ, List, length, IfOk, IfErr};
ghost use Rattle.loom_io.specs.FaultCount.{Rose};
ghost use Rattle.loom_io.specs.Shelf.{FileState, Missing, IsRead};

use loom_tree::name::{Name, NoMemory};
use std::alloc::Global;

/// Why a read gave no bytes.
#[derive(Clone, Copy, Debug, Drop, PartialEq, Eq)]
pub enum ShelfError {
    /// The shelf had a fault, as a missing file.
    Failed,
    /// Memory ran out.
    NoMemory,
}

impl From<NoMemory> for ShelfError {
    ghost use Rattle.std.specs.Prelude.{◌≡◌};
    ghost use Rattle.loom_io.specs.declared.shelf.ShelfError.TheVariants as error;

    ghost from_gives = { λ _ e. e ≡ error.NoMemory };

    fn from(_error: NoMemory) -> ShelfError {
        ShelfError::NoMemory
    }
}

/// The largest limit of a read, in bytes.
pub const LARGEST_LIMIT: usize = 67_108_864;

/// Files by name.
pub trait Shelf {
    /// How many faults there were at a name, up to 18446744073709551615.
    ghost faults: { Self → List ℕ → ℕ };

    /// What the shelf tells of the file of a name: nothing, that there is none, or its bytes.
    ghost told: { Self → List ℕ → FileState };

    /// The bytes of the file of that name. Where there are more than `limit`, which is at most
    /// 67,108,864, one more than these is read, so that the caller sees it. `Failed` comes at a
    /// missing file, and only where the count of the name's faults rose in this call. `NoMemory`
    /// may come at any call but at a name that the shelf tells to be missing.
    fn read(&mut self, alloc: Global, name: &str, limit: usize) -> Result<Name, ShelfError>
        requires { limit ≤ LARGEST_LIMIT }
        ensures kept { (n : List ℕ) → told self.new n ≡ told self.old n }
        ensures later { (n : List ℕ) → faults self.old n ≤ faults self.new n }
        ensures short { IfOk result (λ bytes. length bytes ≤ limit + 1) }
        ensures whole { IfOk result (λ bytes. IsRead (told self.old name.now) limit bytes) }
        ensures missing { told self.old name.now ≡ Missing → result ≡ Err ShelfError.Failed }
        ensures failed { IfErr result (λ e. e ≡ ShelfError.Failed → Rose (faults self.old name.now) (faults self.new name.now)) };
}
