//! The book of a run: its commands, its journal, the store that the journal's events leave, and the locks of its filters.
ghost use Rattle.std.specs.Prelude.{ℕ, ◌≡◌, ◌<◌, ◌≤◌, length, IfOk, IfErr, IfSome, IfNone, Some, None, true, false};
ghost use Rattle.std.specs.List.{AllByRecursion};
ghost use Rattle.std.specs.Arc.{arc_value};
ghost use Rattle.loom_command.specs.Script.{at, most_commands};
ghost use Rattle.loom_law.specs.Control.{Command as Ordered, Control, command_at, have_one_name, listed_places};
ghost use Rattle.loom_law.specs.Lawful.{IsBlocked, IsDisabledFor, IsDue, running_thread, is_installed, is_name_used, refusal};
ghost use Rattle.loom_event.specs.Replay.{ThreadState, thread_at};
ghost use Rattle.loom_trace.specs.Limits.{thread_limit, entry_limit};
ghost use Rattle.loom_world.specs.CommandView.{law_commands};
ghost use Rattle.loom_world.specs.CommandFilters.{HaveFilters};
ghost use Rattle.loom_version.specs.Plans.{plans_in};
ghost use Rattle.loom_walk.specs.FilterWalk.{HasFilters};
ghost use Rattle.loom_world.specs.Book.{AreNoStands, IsNewBook, HasLawfulJournal, IsStandOf, setting, front};
ghost use Rattle.loom_world.specs.Flags.{AreFlags, AreAllPlaces, AreFlagsFor};
ghost use Rattle.loom_world.specs.Idle.{HasFinish, IsClosed, MayAsk, CommandGoesFirst, IsLive};
ghost use Rattle.loom_world.specs.Turned.{IsNoted, Turns};
ghost use Rattle.loom_world.specs.BookInvariant.{wait_of, CanAwait, AreNoWaits};
ghost use Rattle.loom_event.specs.Answer.{asks_operation};
ghost use Rattle.loom_world.specs.declared.choice.Choice.TheVariants as choice;
ghost use Rattle.loom_world.specs.declared.choice.Turned.TheVariants as turned;
ghost use Rattle.loom_world.specs.Commands.{HaveExclusions};
ghost use Rattle.loom_world.specs.Operating.{CanOperate, Operates, MayAskStore, Acts};
ghost use Rattle.loom_world.specs.Refusals.{IsRefusal, IsTextRefusal};
ghost use Rattle.loom_world.specs.Asking.{Asks, MakesAnswer};

use crate::choice::Why;
use crate::command::{Action, Command, Judged};
use crate::entry::entry_for;
use crate::operate::{Made, is_operation, operate};
use loom_filter::parse::FilterRefusal;
use loom_lang::program::Program;
use loom_ops::ops::Ops;
use loom_store::answer::Answer;
use loom_store::store::Store;
use loom_strand::stage::Birth;
use loom_trace::entry::{Entry, What};
use loom_trace::journal::Journal;
use loom_trace::limits::THREAD_LIMIT;
use loom_trace::places::Places;
use loom_trace::request::Request;
use loom_tree::name::NoMemory;
use loom_version::plans::Plans;
use loom_version::version::Version;
use std::alloc::Global;
use std::marker::Model;
use std::sync::Arc;

/// The most threads of a run; they have the numbers from 1 on.
pub(crate) const THREADS: u8 = THREAD_LIMIT as u8;

/// The number of a refusal: an installed filter has the name.
const NAME_TAKEN: u8 = 11;

/// No installed filter has it.
const NOT_INSTALLED: u8 = 12;

/// As many filters are installed as may be.
const SLOTS_FULL: u8 = 14;

/// The book of a run: its commands, its journal, the store that the journal's events leave, and the locks of its filters.
#[derive(Debug, Drop)]
pub(crate) struct Book {
    pub(crate) program: Arc<Program>,
    /// The filters that commands put in, by the commands' numbers.
    pub(crate) plans: Arc<Plans>,
    pub(crate) commands: Vec<Command>,
    pub(crate) limit: u32,
    pub(crate) journal: Journal,
    pub(crate) store: Store,
    /// How many entries threads made.
    pub(crate) entry_count: u32,
    pub(crate) finished: bool,
    /// The number of the next command, from 1.
    pub(crate) next: u8,
    /// The command that is asked.
    pub(crate) asked: Option<u8>,
    /// A command was cut or wasn't reached.
    pub(crate) closing: bool,
    /// For each thread what its last entry is blocked at, unless it goes over to a newer version next.
    pub(crate) waits: Vec<Option<What>>,
    /// For each thread the number of the place at which its latest turn found it to stand, if it did.
    pub(crate) stands: Vec<Option<u16>>,
    /// The newest version.
    pub(crate) version: Version,
    /// The locks of its filters.
    pub(crate) ops: Ops,
    /// Each place, which are the flags of a removal.
    pub(crate) all_places: Places,
    pub(crate) no_places: Places,
}

impl Model for Book {
    ghost use Rattle.std.specs.Arc.{arc_value};
    ghost use Rattle.std.specs.Coded.{codes};
    ghost use Rattle.loom_tree.specs.Code.{source_code};
    ghost use Rattle.loom_plan.specs.Compiled.{compiled_code};
    ghost use Rattle.loom_version.specs.Plans.{plans_in};
    ghost use Rattle.loom_world.specs.Book.{Book};
    ghost use Rattle.loom_world.specs.BookInvariant.{BookInvariant};
    ghost use Rattle.loom_world.specs.CommandCode.{command_code};
    ghost use Rattle.loom_world.specs.CommandView.{law_commands, flag_sets};

    ghost Value = { Book };

    ghost coded = { Prim.hlevel (codes, source_code, compiled_code, command_code) };

    ghost view = { λ b. record {
      program = arc_value b.program;
      filters = arc_value b.plans;
      commands = law_commands (plans_in (arc_value b.plans)) b.commands.items;
      limit = b.limit;
      entries = b.journal.entries;
      store = b.store;
      stands = b.stands.items;
    } };

    ghost invariant = { λ b. BookInvariant
        (record {
          program = arc_value b.program;
          filters = arc_value b.plans;
          commands = law_commands (plans_in (arc_value b.plans)) b.commands.items;
          limit = b.limit;
          entries = b.journal.entries;
          store = b.store;
          stands = b.stands.items;
        })
        (record {
          entry_count = b.entry_count;
          finished = b.finished;
          room = b.journal.room;
          next = b.next;
          asked = b.asked;
          closing = b.closing;
          waits = b.waits.items;
          version = b.version;
          ops = b.ops;
          flags = flag_sets b.commands.items;
          all_places = b.all_places;
          no_places = b.no_places;
        }) };
}

// What a thread waits for that is answered so.
fn wait_of(answer: Answer) -> Option<What>
    ensures { result ≡ wait_of answer }
{
    match answer {
        Answer::Disabled(what) => Some(what),
        Answer::Granted(_) => None,
        Answer::Trapped(_) => None,
    }
}

// No thread waits.
fn no_waits(alloc: Global) -> Result<Vec<Option<What>>, NoMemory>
    ensures { IfOk result (λ ws. AreNoWaits ws.items) }
{
    let mut waits = Vec::with_capacity(alloc, THREADS as usize)?;
    'threads: for _ in 0..THREADS {
        waits.push_reserved(None);
    }
    Ok(waits)
}

// No thread was found to stand.
fn no_stands(alloc: Global) -> Result<Vec<Option<u16>>, NoMemory>
    ensures { IfOk result (λ xs. AreNoStands xs.items) }
{
    let mut stands = Vec::with_capacity(alloc, THREADS as usize)?;
    'threads: for _ in 0..THREADS {
        stands.push_reserved(None);
    }
    Ok(stands)
}

// Why the text of a filter is refused, if it is.
fn text_refusal(judged: &Judged) -> Option<FilterRefusal>
    ensures { IsTextRefusal judged.now result }
{
    match judged {
        Judged::Refused(refusal) => Some(*refusal),
        Judged::Flags(_) => None,
    }
}

// What comes of a request of thread `t`, in the locks or in the store.
fn perform(store: &mut Store, ops: &mut Ops, t: u8, request: &Request) -> Made
    requires acts { asks_operation request.now ≡ false → MayAskStore store.old t request.now }
    requires operates { asks_operation request.now ≡ true → CanOperate ops.old t request.now }
    ensures acts { asks_operation request.now ≡ false → Acts store.old t request.now result store.new × (ops.new ≡ ops.old) }
    ensures operates { asks_operation request.now ≡ true → Operates ops.old t request.now result ops.new × (store.new ≡ store.old) }
{
    if is_operation(request) {
        return operate(ops, t, request);
    }
    let answer = store.ask(t, request);
    Made {
        entry: entry_for(t, request, answer),
        wait: wait_of(answer),
    }
}

impl Book {
    /// The book before the run, in which threads are to make `limit` entries at most, with the filters of its commands, and each place of the
    /// program. It takes all of its memory here. An `Err` is want of memory.
    pub(crate) fn make(
        alloc: Global,
        program: Arc<Program>,
        plans: Arc<Plans>,
        commands: Vec<Command>,
        all_places: Places,
        limit: u32,
    ) -> Result<Book, NoMemory>
        requires least { 1 ≤ limit }
        requires most { limit ≤ entry_limit }
        requires few { length commands.items ≤ most_commands }
        requires filters { HaveFilters (arc_value program) (arc_value plans) commands.items }
        requires exclusions { HaveExclusions (arc_value program) (law_commands (plans_in (arc_value plans)) commands.items) }
        requires places { AreAllPlaces (arc_value program) all_places }
        ensures new { IfOk result (λ b. IsNewBook (arc_value program) (law_commands (plans_in (arc_value plans)) commands.items) limit b) }
        ensures filters { IfOk result (λ b. b.filters ≡ arc_value plans) }
        ensures lawful { IfOk result (λ b. HasLawfulJournal b) }
    {
        let journal = Journal::make(alloc, limit)?;
        // a program keeps its rules
        let _ = program.semas();
        let store = Store::make(alloc, &program, THREADS)?;
        let waits = no_waits(alloc)?;
        let stands = no_stands(alloc)?;
        Ok(Book {
            program,
            plans,
            commands,
            limit,
            journal,
            store,
            entry_count: 0,
            finished: false,
            next: 1,
            asked: None,
            closing: false,
            waits,
            stands,
            version: Version::first(),
            ops: Ops::make(),
            all_places,
            no_places: Places::none(),
        })
    }

    /// The journal.
    pub(crate) fn journal(&self) -> &Journal
        ensures entries { result.now.entries ≡ self.now.entries }
        ensures lawful { HasLawfulJournal self.now }
    {
        &self.journal
    }

    /// The newest version.
    pub(crate) fn version(&self) -> &Version
        ensures is { result.now ≡ Control.version (front self.now).control }
        ensures filters { HasFilters self.now.program self.now.filters result.now }
        ensures lawful { HasLawfulJournal self.now }
    {
        &self.version
    }

    /// Whether the journal is finished.
    pub(crate) fn is_finished(&self) -> bool
        ensures finished { result ≡ true → HasFinish self.now }
        ensures unfinished { result ≡ false → HasFinish self.now → ⊥ }
    {
        self.finished
    }

    // Whether no thread makes an entry any more.
    fn is_closed(&self) -> bool
        ensures closed { result ≡ true → IsClosed self.now }
        ensures open { result ≡ false → IsClosed self.now → ⊥ }
    {
        self.finished || self.entry_count == self.limit
    }

    // Behind how many entries of threads the next command is due; `None` where there is no next one.
    fn next_moment(&self) -> Option<u32>
        ensures some { IfSome result (λ n. (c : Ordered) × ((command_at self.now.commands (Control.next (front self.now).control) ≡ Some c) × (c.trigger ≡ at n))) }
        ensures none { IfNone result ((c : Ordered) → command_at self.now.commands (Control.next (front self.now).control) ≡ Some c → ⊥) }
    {
        if self.next as usize > self.commands.len() {
            None
        } else {
            Some(self.commands[self.next as usize - 1].at)
        }
    }

    // Whether a command may be asked, if one is due.
    fn may_ask(&self) -> bool
        ensures yes { result ≡ true → MayAsk self.now }
        ensures no { result ≡ false → MayAsk self.now → ⊥ }
    {
        match self.asked {
            Some(_) => false,
            None => !self.closing && self.entry_count != self.limit,
        }
    }

    /// Whether the next command is due.
    pub(crate) fn is_due(&self) -> bool
        ensures due { result ≡ true → IsDue (setting self.now) (front self.now) }
        ensures not_due { result ≡ false → IsDue (setting self.now) (front self.now) → ⊥ }
    {
        if !self.may_ask() {
            return false;
        }
        match self.next_moment() {
            Some(at) => at <= self.entry_count,
            None => false,
        }
    }

    /// The installed filter that has the name in command `k`, by its number.
    pub(crate) fn named(&self, k: u8) -> Option<u8>
        requires there { (c : Ordered) × (command_at self.now.commands k ≡ Some c) }
        ensures some { IfSome result (λ j. (is_installed (front self.now).control j ≡ true) × (have_one_name self.now.commands j k ≡ true)) }
        ensures none { IfNone result (is_name_used (setting self.now) (front self.now).control k ≡ false) }
    {
        let name = self.commands[k as usize - 1].name.bytes();
        'active: for j in self.version.active() {
            if self.commands[*j as usize - 1].name.bytes() == name {
                return Some(*j);
            }
        }
        None
    }

    /// Why command `k`, which is asked, is refused, if it is.
    pub(crate) fn refusal(&self, k: u8) -> Option<FilterRefusal>
        requires { Control.asked (front self.now).control ≡ Some k }
        ensures { IsRefusal result (refusal (setting self.now) (front self.now).control k) }
    {
        // the command is one of the run's
        let _ = &self.commands;
        let named = self.named(k);
        match &self.commands[k as usize - 1].action {
            Action::Remove => match named {
                Some(_) => None,
                None => Some(FilterRefusal {
                    clause: 0,
                    number: NOT_INSTALLED,
                }),
            },
            Action::Install(judged) => match named {
                Some(_) => Some(FilterRefusal {
                    clause: 0,
                    number: NAME_TAKEN,
                }),
                None => {
                    if self.ops.is_full() {
                        return Some(FilterRefusal {
                            clause: 0,
                            number: SLOTS_FULL,
                        });
                    }
                    text_refusal(judged)
                }
            },
        }
    }

    // Whether a command goes first: it is due, or its refusal is.
    fn is_command_first(&self) -> bool
        ensures yes { result ≡ true → CommandGoesFirst self.now }
        ensures no { result ≡ false → CommandGoesFirst self.now → ⊥ }
    {
        match self.asked {
            Some(k) => self.refusal(k).is_some(),
            None => self.is_due(),
        }
    }

    // The places that are flagged for command `k`, unless it is refused for its text.
    fn flags_for(&self, k: u8) -> &Places
        requires { Control.asked (front self.now).control ≡ Some k }
        ensures { refusal (setting self.now) (front self.now).control k ≡ None → AreFlagsFor self.now k result.now }
    {
        match &self.commands[k as usize - 1].action {
            Action::Remove => &self.all_places,
            Action::Install(judged) => match judged {
                Judged::Flags(flags) => flags,
                Judged::Refused(_) => &self.no_places,
            },
        }
    }

    /// The places that are flagged: those of the command that is asked, and else none.
    pub(crate) fn flags(&self) -> &Places
        ensures { AreFlags self.now result.now }
    {
        match self.asked {
            Some(k) => self.flags_for(k),
            None => &self.no_places,
        }
    }

    // Whether what thread `t` waits for is disabled.
    fn is_disabled(&self, t: u8, what: What) -> bool
        requires { CanAwait self.now.store what }
        ensures disabled { result ≡ true → IsDisabledFor (setting self.now) (front self.now) t what }
        ensures enabled { result ≡ false → IsDisabledFor (setting self.now) (front self.now) t what → ⊥ }
    {
        match what {
            What::Enter(k, clause) => self.ops.is_disabled(t, What::Enter(k, clause)),
            What::Lock(m) => self.store.is_disabled(t, What::Lock(m)),
            What::Down(s) => self.store.is_disabled(t, What::Down(s)),
            What::Join(c) => self.store.is_disabled(t, What::Join(c)),
            What::Wait(_, _) => unreachable!(),
        }
    }

    /// Whether thread `t` is blocked by what it waits for.
    pub(crate) fn is_blocked(&self, t: u8) -> bool
        requires first { 1 ≤ t }
        requires last { t ≤ thread_limit }
        ensures blocked { result ≡ true → IsBlocked (setting self.now) (front self.now) t }
        ensures free { result ≡ false → IsBlocked (setting self.now) (front self.now) t → ⊥ }
    {
        match self.waits[t as usize - 1] {
            None => false,
            Some(what) => self.is_disabled(t, what),
        }
    }

    /// The function and the arguments of thread `t`, where it lives, the run goes on, no command goes first, and it has begun or no flags are up;
    /// else why it makes no entry.
    pub(crate) fn live(&self, t: u8) -> Result<Birth, Why>
        requires first { 1 ≤ t }
        requires last { t ≤ thread_limit }
        ensures ok { IfOk result (λ b. IsLive self.now t b) }
        ensures err { IfErr result (λ w. Turns self.now (choice.Thread t) self.now (turned.Idle w)) }
    {
        if self.is_closed() {
            return Err(Why::Over);
        }
        match self.store.thread(t) {
            None => Err(Why::Unborn),
            Some(thread) => {
                if thread.ended {
                    Err(Why::Ended)
                } else if self.is_command_first() {
                    Err(Why::Due)
                } else if !thread.begun && self.flags().has(0) {
                    Err(Why::Flagged(0))
                } else {
                    Ok(Birth {
                        func: thread.func,
                        args: thread.args,
                    })
                }
            }
        }
    }

    /// Notes that thread `t`, which runs, was found to stand at the place of this number, where it stands.
    pub(crate) fn note(&mut self, t: u8, place: u16)
        requires first { 1 ≤ t }
        requires last { t ≤ thread_limit }
        requires stands { (x : ThreadState) → running_thread (thread_at self.old.store t) ≡ Some x → IsStandOf self.old t x place }
        requires listed { AllByRecursion (λ k. k ≡ place) (listed_places t self.old.entries) }
        ensures noted { IsNoted self.old t place self.new }
        ensures lawful { HasLawfulJournal self.new }
    {
        self.stands[t as usize - 1] = Some(place);
    }

    /// Answers thread `t`, and makes its entry: where its request is disabled that is `Blocked`. With `None` it is blocked already, and the book stays as
    /// it was. Threads may make entries, and no command goes first. It takes no memory.
    pub(crate) fn answer(&mut self, t: u8, request: &Request) -> Option<Entry>
        requires first { 1 ≤ t }
        requires last { t ≤ thread_limit }
        requires goes_on { IsClosed self.old → ⊥ }
        requires no_command { CommandGoesFirst self.old → ⊥ }
        requires asks { Asks self.old t request.now }
        ensures some { IfSome result (λ x. MakesAnswer self.old t request.now x self.new) }
        ensures none { IfNone result (IsBlocked (setting self.old) (front self.old) t × (self.new ≡ self.old)) }
        ensures lawful { HasLawfulJournal self.new }
    {
        if self.is_blocked(t) {
            return None;
        }
        let made = perform(&mut self.store, &mut self.ops, t, request);
        self.journal.push(made.entry.copy());
        self.waits[t as usize - 1] = made.wait;
        self.stands[t as usize - 1] = None;
        self.entry_count += 1;
        Some(made.entry)
    }
}
