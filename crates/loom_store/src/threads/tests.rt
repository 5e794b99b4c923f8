//! How far a thread is.
ghost use Rattle.std.specs.Prelude.{ℕ, suc, ◌≡◌, slice_get, Some, true, false};
ghost use Rattle.loom_event.specs.Replay.{ThreadState};

use super::Threads;

/// Whether thread `t` lives, and has begun or not.
pub(crate) fn is_at(threads: &Threads, t: u8, begun: bool) -> bool
    ensures { result ≡ true → (i : ℕ) × (x : ThreadState) × (t ≡ suc i) × (slice_get threads.now.spawned i ≡ Some x) × (x.ended ≡ false) × (x.begun ≡ begun) }
{
    if t == 0 || t as usize > threads.items.len() {
        return false;
    }
    let thread = &threads.items[t as usize - 1];
    thread.begun == begun && !thread.ended
}
