//! The threads of a run.
ghost use Rattle.std.specs.Prelude.{◌≡◌, ◌≤◌, ◌<◌, ◌-◌, [], ◌∷◌, length, slice_get, slice_set, IfOk, IfSome, IfNone, Some, None, true};
ghost use Rattle.loom_trace.specs.Limits.{thread_limit};
ghost use Rattle.loom_event.specs.Replay.{ThreadState};
ghost use Rattle.loom_store.specs.Threads.{state_of, first_threads};
ghost use Rattle.loom_store.specs.Parts.{Spawns, Joins, IsIndex};

use crate::answer::Answer;
use loom_trace::entry::What;
use loom_trace::row::Args;
use loom_tree::name::NoMemory;
use std::alloc::Global;
use std::marker::Model;

#[cfg(test)]
pub(crate) mod tests;

// Why a join is a trap: the value names no thread.
const NOT_SPAWNED: u8 = 4;

// Why a spawn is a trap: there are as many threads as there may be.
const TOO_MANY: u8 = 5;

/// A thread: its function with its arguments, and how far it is.
#[derive(Clone, Copy, Debug, Drop)]
pub struct Thread {
    /// The number of its function, from 0.
    pub func: u8,
    /// Its arguments: 4 at most.
    pub args: Args,
    /// Whether it has begun.
    pub begun: bool,
    /// Whether it has ended.
    pub ended: bool,
}

/// The threads that were spawned, with room for as many as there may be.
#[derive(Debug, Drop)]
pub(crate) struct Threads {
    // thread t is the t-th
    items: Vec<Thread>,
    // how many there may be
    most: u8,
}

impl Model for Threads {
    ghost use Rattle.std.specs.Prelude.{◌≤◌, ◌≡◌, map, vec_len, vec_capacity};
    ghost use Rattle.loom_trace.specs.Limits.{thread_limit};
    ghost use Rattle.loom_store.specs.Threads.{Threads, state_of};

    ghost Value = { Threads };

    ghost view = { λ s. record { spawned = map state_of s.items.items; most = s.most } };

    ghost invariant = { λ s. (vec_len s.items ≤ s.most) × ((vec_capacity s.items ≡ s.most) × (s.most ≤ thread_limit)) };
}

// The position of the thread that a value names, among so many.
fn index_of(value: i64, count: usize) -> Option<usize>
    requires { count ≤ thread_limit }
    ensures { IsIndex value count result }
{
    if value < 1 || value > count as i64 {
        return None;
    }
    Some(value as usize - 1)
}

impl Threads {
    /// Thread 1, which is to run this function, with room for as many threads as there may be. Where there may be none it isn't spawned either.
    /// An `Err` is want of memory.
    pub(crate) fn make(alloc: Global, main: u8, most: u8) -> Result<Threads, NoMemory>
        requires { most ≤ thread_limit }
        ensures { IfOk result (λ s. s ≡ first_threads main most) }
    {
        let mut items = Vec::with_capacity(alloc, most as usize)?;
        if most == 0 {
            return Ok(Threads { items, most });
        }
        items.push_reserved(Thread {
            func: main,
            args: Args::none(),
            begun: false,
            ended: false,
        });
        Ok(Threads { items, most })
    }

    /// Thread `t` begins.
    pub(crate) fn begin(&mut self, t: u8)
        requires first { 0 < t }
        requires spawned { t ≤ length self.old.spawned }
        ensures { (x : ThreadState) → slice_get self.old.spawned (t - 1) ≡ Some x → self.new ≡ record self.old { spawned = slice_set self.old.spawned (t - 1) (record x { begun = true }) } }
    {
        self.items[t as usize - 1].begun = true;
    }

    /// Thread `t` ends.
    pub(crate) fn end(&mut self, t: u8)
        requires first { 0 < t }
        requires spawned { t ≤ length self.old.spawned }
        ensures { (x : ThreadState) → slice_get self.old.spawned (t - 1) ≡ Some x → self.new ≡ record self.old { spawned = slice_set self.old.spawned (t - 1) (record x { ended = true }) } }
    {
        self.items[t as usize - 1].ended = true;
    }

    /// Another thread, if there is room for it.
    pub(crate) fn spawn(&mut self, func: u8, args: Args) -> Answer
        ensures { Spawns self.old func args result self.new }
    {
        let count = self.items.len();
        if count == self.most as usize {
            return Answer::Trapped(TOO_MANY);
        }
        self.items.push_reserved(Thread {
            func,
            args,
            begun: false,
            ended: false,
        });
        Answer::Granted(count as i64 + 1)
    }

    /// Thread `t`, if it was spawned.
    #[tactic(auto, using(crate::proofs::ThreadList::spawned_at, crate::proofs::ThreadList::spawned_past))]
    pub(crate) fn get(&self, t: u8) -> Option<Thread>
        requires first { 0 < t }
        ensures some { IfSome result (λ x. slice_get self.now.spawned (t - 1) ≡ Some (state_of x)) }
        ensures none { IfNone result (slice_get self.now.spawned (t - 1) ≡ None) }
    {
        let i = t as usize - 1;
        if i < self.items.len() {
            Some(self.items[i])
        } else {
            None
        }
    }

    /// Whether thread `t` has ended.
    pub(crate) fn has_ended(&self, t: u8) -> bool
        requires first { 0 < t }
        requires spawned { t ≤ length self.now.spawned }
        ensures { (x : ThreadState) → slice_get self.now.spawned (t - 1) ≡ Some x → result ≡ x.ended }
    {
        self.items[t as usize - 1].ended
    }

    /// The end of the thread that a value names.
    pub(crate) fn join(&self, value: i64) -> Answer
        ensures { Joins self.now.spawned value result }
    {
        let Some(i) = index_of(value, self.items.len()) else {
            return Answer::Trapped(NOT_SPAWNED);
        };
        if self.items[i].ended {
            Answer::Granted(0)
        } else {
            Answer::Disabled(What::Join(i as u8 + 1))
        }
    }
}
