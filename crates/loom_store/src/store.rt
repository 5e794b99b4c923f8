//! The store of a run.
ghost use Rattle.std.specs.Prelude.{◌≡◌, ◌<◌, ◌≤◌, true, false, IfOk, IfSome, IfNone, Some, None};
ghost use Rattle.loom_trace.specs.Limits.{thread_limit};
ghost use Rattle.loom_event.specs.Replay.{start, thread_at, IsDisabled};
ghost use Rattle.loom_store.specs.Threads.{state_of};
ghost use Rattle.loom_store.specs.Answer.{MayAsk, CanAnswer, CanWait, Answers};

use crate::acts::{down, lock, read, unlock, up, write};
use crate::answer::Answer;
use crate::start::{first_counts, first_holders, first_words};
use crate::threads::{Thread, Threads};
use loom_lang::numbers::main_number;
use loom_lang::program::Program;
use loom_trace::entry::What;
use loom_trace::request::Request;
use loom_tree::name::NoMemory;
use std::alloc::Global;
use std::marker::Model;

#[cfg(test)]
mod tests;

/// The words, mutexes, semaphores and threads of a run.
#[derive(Debug, Drop)]
pub struct Store {
    words: Vec<i64>,
    // who holds each mutex
    holders: Vec<Option<u8>>,
    semas: Vec<u32>,
    threads: Threads,
}

impl Model for Store {
    ghost use Rattle.loom_event.specs.Replay.{Store};
    ghost use Rattle.loom_store.specs.Parts.{AreCounts};

    ghost Value = { Store };

    ghost view = { λ s. record { words = s.words.items; holders = s.holders.items; semas = s.semas.items; spawned = s.threads.spawned; most = s.threads.most } };

    ghost invariant = { λ s. AreCounts s.semas.items };
}

impl Store {
    /// The store before the run: thread 1 is spawned, with `main`. There may be `threads` threads, this one among them, from 0 to 8; with 0
    /// none is spawned. It takes all of its memory here. An `Err` is want of memory.
    pub fn make(alloc: Global, p: &Program, threads: u8) -> Result<Store, NoMemory>
        requires threads { threads ≤ thread_limit }
        ensures { IfOk result (λ s. s ≡ start p.now threads) }
    {
        let words = first_words(alloc, p.words().0.as_slice())?;
        let holders = first_holders(alloc, p.mutexes().0.as_slice())?;
        let semas = first_counts(alloc, p.semas().0.as_slice())?;
        let threads = Threads::make(alloc, main_number(p), threads)?;
        Ok(Store {
            words,
            holders,
            semas,
            threads,
        })
    }

    /// Answers what thread `t` asks for: an act, or a tick. Where it is granted it is done; else the store stays as it was. It takes constant time and no
    /// memory.
    pub fn ask(&mut self, t: u8, r: &Request) -> Answer
        requires thread { MayAsk self.old t r.now }
        requires numbers { CanAnswer self.old r.now }
        ensures { Answers self.old t r.now result self.new }
    {
        match *r {
            Request::Begin { .. } => {
                self.threads.begin(t);
                Answer::Granted(0)
            }
            Request::End { .. } => {
                self.threads.end(t);
                Answer::Granted(0)
            }
            Request::Trap { .. } => Answer::Granted(0),
            Request::Read { word, .. } => read(&self.words, word),
            Request::Write { word, value, .. } => {
                write(&mut self.words, word, value);
                Answer::Granted(0)
            }
            Request::Lock { m, .. } => lock(&mut self.holders, m, t),
            Request::Unlock { m, .. } => unlock(&mut self.holders, m, t),
            Request::Down { s, .. } => down(&mut self.semas, s),
            Request::Up { s, .. } => up(&mut self.semas, s),
            Request::Spawn { func, args, .. } => self.threads.spawn(func, args),
            Request::Join { value, .. } => self.threads.join(value),
            Request::Print { .. } => Answer::Granted(0),
            Request::Tick { .. } => Answer::Granted(0),
            Request::At { .. } => unreachable!(),
            Request::Past { .. } => unreachable!(),
            Request::Back { .. } => unreachable!(),
            Request::Enter { .. } => unreachable!(),
            Request::Leave { .. } => unreachable!(),
            Request::Post { .. } => unreachable!(),
            Request::Wait { .. } => unreachable!(),
            Request::Cross { .. } => unreachable!(),
        }
    }

    /// Thread `t`, if it was spawned. It takes no memory.
    pub fn thread(&self, t: u8) -> Option<Thread>
        requires first { 0 < t }
        ensures some { IfSome result (λ x. thread_at self.now t ≡ Some (state_of x)) }
        ensures none { IfNone result (thread_at self.now t ≡ None) }
    {
        self.threads.get(t)
    }

    /// Whether it is disabled that thread `_t` locks a mutex, takes a semaphore down or joins a thread. Who asks is of no account: a thread
    /// can't lock its own mutex again either. It takes no memory.
    pub fn is_disabled(&self, _t: u8, w: What) -> bool
        requires can { CanWait self.now w }
        ensures disabled { result ≡ true → IsDisabled self.now w }
        ensures enabled { result ≡ false → IsDisabled self.now w → ⊥ }
    {
        match w {
            What::Lock(m) => self.holders[m as usize].is_some(),
            What::Down(s) => self.semas[s as usize] == 0,
            What::Join(t) => !self.threads.has_ended(t),
            What::Enter(_, _) => unreachable!(),
            What::Wait(_, _) => unreachable!(),
        }
    }
}
