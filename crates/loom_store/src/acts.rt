//! What an act does to words, mutexes and semaphores.
ghost use Rattle.std.specs.Prelude.{◌≡◌, ◌<◌, length, slice_set};
ghost use Rattle.loom_store.specs.Parts.{Reads, Locks, Unlocks, Downs, Ups, AreCounts};

use crate::answer::Answer;
use loom_syntax::item::SEMA_LIMIT;
use loom_trace::entry::What;

// Why an unlock is a trap: the thread doesn't hold the mutex.
const NOT_HELD: u8 = 3;

// Why an up is a trap: the semaphore would pass its limit.
const OVERFLOW: u8 = 7;

/// The value of a word.
pub(crate) fn read(words: &[i64], word: u32) -> Answer
    requires { word < length words.now }
    ensures { Reads words.now word result }
{
    Answer::Granted(words[word as usize])
}

/// A word gets a value.
pub(crate) fn write(words: &mut [i64], word: u32, value: i64)
    requires { word < length words.old }
    ensures { words.new ≡ slice_set words.old word value }
{
    words[word as usize] = value;
}

/// Thread `t` locks mutex `m`, if nobody holds it.
pub(crate) fn lock(holders: &mut [Option<u8>], m: u8, t: u8) -> Answer
    requires { m < length holders.old }
    ensures { Locks holders.old m t result holders.new }
{
    match holders[m as usize] {
        Some(_) => Answer::Disabled(What::Lock(m)),
        None => {
            holders[m as usize] = Some(t);
            Answer::Granted(0)
        }
    }
}

/// Thread `t` unlocks mutex `m`, if it holds it.
pub(crate) fn unlock(holders: &mut [Option<u8>], m: u8, t: u8) -> Answer
    requires { m < length holders.old }
    ensures { Unlocks holders.old m t result holders.new }
{
    if holders[m as usize] != Some(t) {
        return Answer::Trapped(NOT_HELD);
    }
    holders[m as usize] = None;
    Answer::Granted(0)
}

/// Takes semaphore `s` down, if it isn't at 0.
#[tactic(auto, using(crate::proofs::Counts::count_at, crate::proofs::Counts::counts_set))]
pub(crate) fn down(semas: &mut [u32], s: u8) -> Answer
    requires inside { s < length semas.old }
    requires counts { AreCounts semas.old }
    ensures downs { Downs semas.old s result semas.new }
    ensures counts { AreCounts semas.new }
{
    let count = semas[s as usize];
    if count == 0 {
        return Answer::Disabled(What::Down(s));
    }
    semas[s as usize] = count - 1;
    Answer::Granted(0)
}

/// Puts semaphore `s` up, if it isn't at the greatest value.
#[tactic(auto, using(crate::proofs::Counts::count_at, crate::proofs::Counts::counts_set))]
pub(crate) fn up(semas: &mut [u32], s: u8) -> Answer
    requires inside { s < length semas.old }
    requires counts { AreCounts semas.old }
    ensures ups { Ups semas.old s result semas.new }
    ensures counts { AreCounts semas.new }
{
    let count = semas[s as usize];
    if u64::from(count) == SEMA_LIMIT {
        return Answer::Trapped(OVERFLOW);
    }
    semas[s as usize] = count + 1;
    Answer::Granted(0)
}
