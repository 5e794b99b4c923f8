//! The turn of control: it makes the control entry that stands next.
ghost use Rattle.std.specs.Prelude.{ℕ, ◌≡◌, ◌<◌, ◌≤◌, length, IfSome, IfNone, Some, None, true, false};
ghost use Rattle.loom_event.specs.Replay.{AllEnded};
ghost use Rattle.loom_law.specs.Control.{Control, have_one_name};
ghost use Rattle.loom_law.specs.Lawful.{filter_limit, Ends, EndsSo, Lives, IsBlocked, IsDue, run_is_over, is_installed, is_name_used, refusal};
ghost use Rattle.loom_ops.specs.Ops.{has_filter, with_filter};
ghost use Rattle.loom_plan.specs.Compiled.{Compiled};
ghost use Rattle.loom_trace.specs.declared.entry.Ending.{Ending as Kind};
ghost use Rattle.loom_trace.specs.Limits.{thread_limit};
ghost use Rattle.loom_world.specs.declared.choice.Choice.TheVariants as choice;
ghost use Rattle.loom_world.specs.declared.choice.Turned.TheVariants as turned;
ghost use Rattle.loom_version.specs.Plans.{compiled_at, plans_in};
ghost use Rattle.loom_world.specs.Answers.{AreFound, IsFoundStalled};
ghost use Rattle.loom_world.specs.Book.{IsOfSameRun, HasLawfulJournal, setting, front};
ghost use Rattle.loom_world.specs.BookInvariant.{AreNoWaits};
ghost use Rattle.loom_world.specs.Idle.{HasFinish, CanGoOn};
ghost use Rattle.loom_world.specs.Refusals.{number_and_clause};
ghost use Rattle.loom_world.specs.Turned.{Turns};

use crate::book::{Book, THREADS};
use crate::choice::{Turned, Why};
use crate::found::Stall;
use loom_filter::parse::FilterRefusal;
use loom_flow::flow::Flow;
use loom_ops::ops::Ops;
use loom_trace::entry::{Ending, Entry, What};
use loom_trace::row::PlaceRow;
use loom_version::plans::Plans;

// No thread is blocked: with a newer version each asks anew.
fn forget(waits: &mut Vec<Option<What>>)
    requires { length waits.old.items ≡ thread_limit }
    ensures { AreNoWaits waits.new.items }
{
    'threads: for t in 0..THREADS {
        waits[t as usize] = None;
    }
}

// Puts the filter of command `k` into the locks.
fn put_in(ops: &mut Ops, plans: &Plans, k: u8)
    requires there { (x : Compiled) × (compiled_at plans.now k ≡ Some x) }
    requires new { has_filter ops.old.filters k ≡ false }
    requires room { length ops.old.filters < filter_limit }
    ensures { ops.new ≡ with_filter ops.old k (plans_in plans.now k) }
{
    match plans.get(k) {
        Some(filter) => ops.install(k, filter),
        None => unreachable!(),
    }
}

impl Book {
    // Whether each thread that was spawned has ended.
    fn have_ended(&self) -> bool
        ensures ended { result ≡ true → AllEnded self.now.store }
        ensures live { result ≡ false → (t : ℕ) × Lives self.now.store t }
    {
        'threads: for t in 1..=THREADS {
            if let Some(thread) = self.store.thread(t) {
                if !thread.ended {
                    return false;
                }
            }
        }
        true
    }

    // Whether thread `t` lives and isn't blocked.
    fn can_go_on(&self, t: u8) -> bool
        requires first { 1 ≤ t }
        requires last { t ≤ thread_limit }
        ensures yes { result ≡ true → CanGoOn self.now t }
        ensures no { result ≡ false → Lives self.now.store t → IsBlocked (setting self.now) (front self.now) t }
    {
        match self.store.thread(t) {
            Some(thread) => !thread.ended && !self.is_blocked(t),
            None => false,
        }
    }

    // Whether no thread can go on.
    fn is_stuck(&self) -> bool
        ensures stuck { result ≡ true → (t : ℕ) → Lives self.now.store t → IsBlocked (setting self.now) (front self.now) t }
        ensures goes_on { result ≡ false → (t : ℕ) × CanGoOn self.now t }
    {
        // there are no more threads
        let _ = &self.store;
        'threads: for t in 1..=THREADS {
            if self.can_go_on(t) {
                return false;
            }
        }
        true
    }

    // How the run ends here, if it does.
    fn ending(&self) -> Option<Ending>
        ensures some { IfSome result (λ k. Ends (setting self.now) (front self.now) k) }
        ensures none { IfNone result ((k : Kind) → Ends (setting self.now) (front self.now) k → ⊥) }
    {
        if self.entry_count == self.limit {
            Some(Ending::Limit)
        } else if self.is_due() {
            None
        } else if self.have_ended() {
            Some(Ending::Done)
        } else if self.is_stuck() {
            Some(Ending::Stuck)
        } else {
            None
        }
    }

    // Refuses the command that is asked.
    fn refuse(&mut self, k: u8, told: FilterRefusal)
        requires unfinished { HasFinish self.old → ⊥ }
        requires asked { Control.asked (front self.old).control ≡ Some k }
        requires why { refusal (setting self.old) (front self.old).control k ≡ Some (number_and_clause told) }
        ensures run { IsOfSameRun self.old self.new }
        ensures turns { Turns self.old choice.Control self.new turned.Moved }
        ensures store { self.new.store ≡ self.old.store }
        ensures stands { self.new.stands ≡ self.old.stands }
        ensures lawful { HasLawfulJournal self.new }
    {
        self.journal.push(Entry::Refused {
            k,
            number: told.number,
            clause: told.clause,
        });
        self.asked = None;
    }

    // Says that the command that is asked has no other answer: no thread makes an entry any more.
    fn cut(&mut self, k: u8)
        requires unfinished { HasFinish self.old → ⊥ }
        requires asked { Control.asked (front self.old).control ≡ Some k }
        requires over { run_is_over (setting self.old) (front self.old) ≡ true }
        ensures run { IsOfSameRun self.old self.new }
        ensures turns { Turns self.old choice.Control self.new turned.Moved }
        ensures store { self.new.store ≡ self.old.store }
        ensures stands { self.new.stands ≡ self.old.stands }
        ensures lawful { HasLawfulJournal self.new }
    {
        self.journal.push(Entry::Cut { k });
        self.asked = None;
        self.closing = true;
    }

    // Puts the filter of command `k` in, while the threads stand at these places.
    fn install(&mut self, k: u8, places: PlaceRow)
        requires unfinished { HasFinish self.old → ⊥ }
        requires asked { Control.asked (front self.old).control ≡ Some k }
        requires not_refused { refusal (setting self.old) (front self.old).control k ≡ None }
        requires goes_on { run_is_over (setting self.old) (front self.old) ≡ false }
        requires unused { is_name_used (setting self.old) (front self.old).control k ≡ false }
        requires found { AreFound self.old k places }
        ensures run { IsOfSameRun self.old self.new }
        ensures turns { Turns self.old choice.Control self.new turned.Moved }
        ensures store { self.new.store ≡ self.old.store }
        ensures stands { self.new.stands ≡ self.old.stands }
        ensures lawful { HasLawfulJournal self.new }
    {
        // no more filters are installed than may be
        let _ = self.ops.is_full();
        put_in(&mut self.ops, &self.plans, k);
        self.version = self.version.with(k);
        self.journal.push(Entry::Installed {
            k,
            version: self.version.number(),
            places,
        });
        self.asked = None;
        forget(&mut self.waits);
    }

    // Takes the filter of command `j` out, as command `k` says, while the threads stand at these places.
    fn take_out(&mut self, k: u8, j: u8, places: PlaceRow)
        requires unfinished { HasFinish self.old → ⊥ }
        requires asked { Control.asked (front self.old).control ≡ Some k }
        requires not_refused { refusal (setting self.old) (front self.old).control k ≡ None }
        requires goes_on { run_is_over (setting self.old) (front self.old) ≡ false }
        requires installed { is_installed (front self.old).control j ≡ true }
        requires name { have_one_name self.old.commands j k ≡ true }
        requires found { AreFound self.old k places }
        ensures run { IsOfSameRun self.old self.new }
        ensures turns { Turns self.old choice.Control self.new turned.Moved }
        ensures store { self.new.store ≡ self.old.store }
        ensures stands { self.new.stands ≡ self.old.stands }
        ensures lawful { HasLawfulJournal self.new }
    {
        // who holds a clause is one thread
        let _ = self.ops.owner();
        self.ops.remove(j);
        self.version = self.version.without(j);
        self.journal.push(Entry::Removed {
            k,
            version: self.version.number(),
            places,
        });
        self.asked = None;
        forget(&mut self.waits);
    }

    // Makes the version that the command asks for, while the threads stand at these places. By the refusals an install has a new name, and a removal
    // that of a filter.
    fn switch(&mut self, k: u8, places: PlaceRow)
        requires unfinished { HasFinish self.old → ⊥ }
        requires asked { Control.asked (front self.old).control ≡ Some k }
        requires not_refused { refusal (setting self.old) (front self.old).control k ≡ None }
        requires goes_on { run_is_over (setting self.old) (front self.old) ≡ false }
        requires found { AreFound self.old k places }
        ensures run { IsOfSameRun self.old self.new }
        ensures turns { Turns self.old choice.Control self.new turned.Moved }
        ensures store { self.new.store ≡ self.old.store }
        ensures stands { self.new.stands ≡ self.old.stands }
        ensures lawful { HasLawfulJournal self.new }
    {
        match self.named(k) {
            Some(j) => self.take_out(k, j, places),
            None => self.install(k, places),
        }
    }

    // Says for which thread the command can't be done.
    fn give_up(&mut self, k: u8, stall: Stall)
        requires unfinished { HasFinish self.old → ⊥ }
        requires asked { Control.asked (front self.old).control ≡ Some k }
        requires not_refused { refusal (setting self.old) (front self.old).control k ≡ None }
        requires goes_on { run_is_over (setting self.old) (front self.old) ≡ false }
        requires stalled { IsFoundStalled self.old k stall.thread stall.line }
        ensures run { IsOfSameRun self.old self.new }
        ensures turns { Turns self.old choice.Control self.new turned.Moved }
        ensures store { self.new.store ≡ self.old.store }
        ensures stands { self.new.stands ≡ self.old.stands }
        ensures lawful { HasLawfulJournal self.new }
    {
        self.journal.push(Entry::Stalled {
            k,
            thread: stall.thread,
            line: stall.line,
        });
        self.asked = None;
    }

    // The answer of the command that is asked, and isn't refused, if it has one now.
    fn done(&mut self, flow: &Flow, k: u8) -> Turned
        requires program { flow.now.program ≡ self.old.program }
        requires unfinished { HasFinish self.old → ⊥ }
        requires asked { Control.asked (front self.old).control ≡ Some k }
        requires not_refused { refusal (setting self.old) (front self.old).control k ≡ None }
        ensures run { IsOfSameRun self.old self.new }
        ensures turns { Turns self.old choice.Control self.new result }
        ensures store { self.new.store ≡ self.old.store }
        ensures stands { self.new.stands ≡ self.old.stands }
        ensures lawful { HasLawfulJournal self.new }
    {
        if self.entry_count == self.limit {
            self.cut(k);
            return Turned::Moved;
        }
        if let Some(places) = self.found_row(k) {
            self.switch(k, places);
            return Turned::Moved;
        }
        match self.stall(flow, k) {
            Some(stall) => {
                self.give_up(k, stall);
                Turned::Moved
            }
            None => Turned::Idle(Why::Nothing),
        }
    }

    // The answer of the command that is asked, if it has one now.
    fn reply(&mut self, flow: &Flow, k: u8) -> Turned
        requires program { flow.now.program ≡ self.old.program }
        requires unfinished { HasFinish self.old → ⊥ }
        requires asked { Control.asked (front self.old).control ≡ Some k }
        ensures run { IsOfSameRun self.old self.new }
        ensures turns { Turns self.old choice.Control self.new result }
        ensures store { self.new.store ≡ self.old.store }
        ensures stands { self.new.stands ≡ self.old.stands }
        ensures lawful { HasLawfulJournal self.new }
    {
        match self.refusal(k) {
            Some(refusal) => {
                self.refuse(k, refusal);
                Turned::Moved
            }
            None => self.done(flow, k),
        }
    }

    // Asks the next command.
    fn ask(&mut self)
        requires unfinished { HasFinish self.old → ⊥ }
        requires due { IsDue (setting self.old) (front self.old) }
        ensures run { IsOfSameRun self.old self.new }
        ensures turns { Turns self.old choice.Control self.new turned.Moved }
        ensures store { self.new.store ≡ self.old.store }
        ensures stands { self.new.stands ≡ self.old.stands }
        ensures lawful { HasLawfulJournal self.new }
    {
        self.journal.push(Entry::Asked { k: self.next });
        self.asked = Some(self.next);
        self.next += 1;
    }

    // Says that the next command isn't reached.
    fn leave_out(&mut self)
        requires unfinished { HasFinish self.old → ⊥ }
        requires asked { Control.asked (front self.old).control ≡ None }
        requires left { Control.next (front self.old).control ≤ length self.old.commands }
        requires ends { EndsSo (setting self.old) (front self.old) }
        ensures run { IsOfSameRun self.old self.new }
        ensures turns { Turns self.old choice.Control self.new turned.Moved }
        ensures store { self.new.store ≡ self.old.store }
        ensures stands { self.new.stands ≡ self.old.stands }
        ensures lawful { HasLawfulJournal self.new }
    {
        self.journal.push(Entry::Unreached { k: self.next });
        self.closing = true;
        self.next += 1;
    }

    // Finishes the journal, where no command is left.
    fn finish(&mut self, kind: Ending)
        requires unfinished { HasFinish self.old → ⊥ }
        requires asked { Control.asked (front self.old).control ≡ None }
        requires last { length self.old.commands < Control.next (front self.old).control }
        requires ends { Ends (setting self.old) (front self.old) kind }
        ensures run { IsOfSameRun self.old self.new }
        ensures turns { Turns self.old choice.Control self.new turned.Moved }
        ensures store { self.new.store ≡ self.old.store }
        ensures stands { self.new.stands ≡ self.old.stands }
        ensures lawful { HasLawfulJournal self.new }
    {
        self.journal.push(Entry::Finish { kind });
        self.finished = true;
    }

    // Makes the control entry that stands where the run ends and no command is asked.
    fn end(&mut self, kind: Ending)
        requires unfinished { HasFinish self.old → ⊥ }
        requires asked { Control.asked (front self.old).control ≡ None }
        requires ends { Ends (setting self.old) (front self.old) kind }
        ensures run { IsOfSameRun self.old self.new }
        ensures turns { Turns self.old choice.Control self.new turned.Moved }
        ensures store { self.new.store ≡ self.old.store }
        ensures stands { self.new.stands ≡ self.old.stands }
        ensures lawful { HasLawfulJournal self.new }
    {
        if self.next as usize > self.commands.len() {
            self.finish(kind);
        } else {
            self.leave_out();
        }
    }

    // Where no command is asked: asks the next one, if it is due, and else makes the control entry that stands where the run ends, if it does.
    fn ask_or_end(&mut self) -> Turned
        requires unfinished { HasFinish self.old → ⊥ }
        requires asked { Control.asked (front self.old).control ≡ None }
        ensures run { IsOfSameRun self.old self.new }
        ensures turns { Turns self.old choice.Control self.new result }
        ensures store { self.new.store ≡ self.old.store }
        ensures stands { self.new.stands ≡ self.old.stands }
        ensures lawful { HasLawfulJournal self.new }
    {
        // the journal is lawful
        let _ = &self.journal;
        if self.is_due() {
            self.ask();
            return Turned::Moved;
        }
        match self.ending() {
            Some(kind) => {
                self.end(kind);
                Turned::Moved
            }
            None => Turned::Idle(Why::Nothing),
        }
    }

    /// The turn of control: it makes the control entry that stands next, if there is one. The command that is asked gets its answer, if it has one by
    /// where threads were found; else one that is due is asked; else, where the run ends, the next command isn't reached, and behind the last one
    /// the journal is finished. It takes no memory.
    pub(crate) fn control(&mut self, flow: &Flow) -> Turned
        requires { flow.now.program ≡ self.old.program }
        ensures run { IsOfSameRun self.old self.new }
        ensures turns { Turns self.old choice.Control self.new result }
        ensures store { self.new.store ≡ self.old.store }
        ensures stands { self.new.stands ≡ self.old.stands }
        ensures lawful { HasLawfulJournal self.new }
    {
        if self.is_finished() {
            return Turned::Idle(Why::Nothing);
        }
        match self.asked {
            Some(k) => self.reply(flow, k),
            None => self.ask_or_end(),
        }
    }
}
