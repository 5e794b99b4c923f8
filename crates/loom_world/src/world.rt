//! A run of a program.
ghost use Rattle.std.specs.Prelude.{ℕ, ◌≡◌, ◌≤◌, ◌==◌, List, length, IfOk, Some, true, false};
ghost use Rattle.std.specs.List.{AllByRecursion};
ghost use Rattle.loom_command.specs.Script.{most_commands};
ghost use Rattle.loom_filter.specs.FilterError.{text_limit};
ghost use Rattle.std.specs.Arc.{arc_value};
ghost use Rattle.loom_event.specs.Replay.{ThreadState, thread_at};
ghost use Rattle.loom_law.specs.Control.{Command, Control, listed_places};
ghost use Rattle.loom_law.specs.Lawful.{running_thread};
ghost use Rattle.loom_law.specs.TurnLaws.{is_blocked_entry};
ghost use Rattle.loom_version.specs.Plans.{AreFiltersOf};
ghost use Rattle.loom_strand.specs.Strand.{IsStarted};
ghost use Rattle.loom_script.specs.Laws.{HaveShortTexts};
ghost use Rattle.loom_script.specs.Stalls.{HasNoStall};
ghost use Rattle.loom_script.specs.View.{script_of};
ghost use Rattle.loom_trace.specs.Limits.{thread_limit, entry_limit};
ghost use Rattle.loom_world.specs.declared.choice.Choice.TheVariants as choice;
ghost use Rattle.loom_world.specs.declared.choice.Turned.TheVariants as turned;
ghost use Rattle.loom_world.specs.Commands.{AreCommandsSoFar};
ghost use Rattle.loom_world.specs.Book.{IsNewBook, IsOfSameRun, HasLawfulJournal, front, stand_at};
ghost use Rattle.loom_world.specs.Idle.{HasFinish, IsLive, CanTurn, IsAtFlag, IsFoundAtFlag, StaysFound};
ghost use Rattle.loom_world.specs.Asking.{Asks};
ghost use Rattle.loom_world.specs.Turned.{NotesBehind, IsNoted, Turns};
ghost use Rattle.loom_world.specs.Threads.{HasStrandPart, IsStrandOf, RequestsSo, IsBehind, KeepsThreads, KeepsOthers, AreNew, WaitsFree};
ghost use Rattle.loom_world.specs.World.{IsChoice, Lead};

use crate::book::{Book, THREADS};
use crate::choice::{Choice, Turned, Why};
use crate::commands::run_commands;
use crate::flags::all_places;
use loom_flow::flow::Flow;
use loom_flow::lower::lower;
use loom_lang::program::Program;
use loom_script::script::Script;
use loom_strand::stage::{Birth, Want};
use loom_strand::strand::Strand;
use loom_trace::entry::Entry;
use loom_trace::journal::Journal;
use loom_trace::request::Request;
use loom_tree::name::NoMemory;
use loom_version::plans::Plans;
use loom_version::version::Version;
use std::alloc::Global;
use std::marker::Model;
use std::sync::Arc;

/// A run of a program, as far as it is: its journal, its store and its threads.
#[derive(Drop)]
pub struct World {
    flow: Flow,
    book: Book,
    // thread t is the t-th
    strands: Vec<Strand>,
}

impl Model for World {
    ghost use Rattle.std.specs.Prelude.{◌≡◌};
    ghost use Rattle.std.specs.Coded.{codes};
    ghost use Rattle.loom_tree.specs.Code.{source_code};
    ghost use Rattle.loom_plan.specs.Compiled.{compiled_code};
    ghost use Rattle.loom_world.specs.Book.{Book, HasLawfulJournal};
    ghost use Rattle.loom_world.specs.CommandCode.{command_code};
    ghost use Rattle.loom_world.specs.Threads.{HasStrands};

    ghost Value = { Book };

    ghost coded = { Prim.hlevel (codes, source_code, compiled_code, command_code) };

    ghost view = { λ w. w.book };

    ghost invariant = { λ w. (w.flow.program ≡ w.book.program) × HasLawfulJournal w.book × HasStrands w.book w.strands.items };
}

// A strand for each thread that there may be, none of them started.
fn strands_of(
    alloc: Global,
    flow: &Flow,
    plans: &Arc<Plans>,
    limit: u32,
) -> Result<Vec<Strand>, NoMemory>
    requires { AreFiltersOf flow.now.program (arc_value plans.now) }
    ensures { IfOk result (λ ss. AreNew flow.now.program (arc_value plans.now) limit ss.items) }
{
    let mut strands = Vec::with_capacity(alloc, THREADS as usize)?;
    'threads: for t in 1..=THREADS {
        strands.push_reserved(Strand::make(alloc, flow, Arc::try_clone(plans)?, t, limit)?);
    }
    Ok(strands)
}

// Whether the entry tells that a request is disabled.
fn tells_blocked(entry: &Entry) -> bool
    ensures { result ≡ is_blocked_entry entry.now }
{
    match *entry {
        Entry::Blocked { .. } => true,
        _ => false,
    }
}

// Takes the answer of thread `t` in its strand. Where that tells that the request is disabled, it is noted where the thread stands.
fn take(book: &mut Book, flow: &Flow, strand: &mut Strand, t: u8, entry: Entry)
    requires first { 1 ≤ t }
    requires last { t ≤ thread_limit }
    requires program { flow.now.program ≡ book.old.program }
    requires behind { IsBehind book.old t strand.old entry }
    ensures run { IsOfSameRun book.old book.new }
    ensures entries { book.new.entries ≡ book.old.entries }
    ensures store { book.new.store ≡ book.old.store }
    ensures strand { IsStrandOf book.new t strand.new }
    ensures stands { (u : ℕ) → (u == t) ≡ false → stand_at book.new.stands u ≡ stand_at book.old.stands u }
    ensures notes { NotesBehind book.old.stands t (is_blocked_entry entry) book.new }
    ensures lawful { HasLawfulJournal book.new }
{
    let blocked = tells_blocked(&entry);
    strand.answer(flow, entry);
    if blocked {
        book.note(t, strand.place());
    }
}

// Makes the entry of thread `t`, whose strand asks for this, in the book and in the strand. Where the thread is blocked already it is noted where it
// stands.
fn commit(book: &mut Book, flow: &Flow, strand: &mut Strand, t: u8, request: Request) -> Turned
    requires first { 1 ≤ t }
    requires last { t ≤ thread_limit }
    requires program { flow.now.program ≡ book.old.program }
    requires turns { CanTurn book.old t }
    requires strand { HasStrandPart book.old t strand.old }
    requires asks { Asks book.old t request }
    requires requests { RequestsSo strand.old strand.old.birth request }
    requires newest { strand.old.newest ≡ Control.version (front book.old).control }
    requires unflagged { (k : ℕ) → IsFoundAtFlag book.old t k → ⊥ }
    requires free { WaitsFree book.old strand.old strand.old.birth }
    ensures run { IsOfSameRun book.old book.new }
    ensures turns { Turns book.old (choice.Thread t) book.new result }
    ensures strand { IsStrandOf book.new t strand.new }
    ensures threads { KeepsThreads book.old.store book.new.store }
    ensures others { KeepsOthers book.old t book.new }
    ensures lawful { HasLawfulJournal book.new }
{
    match book.answer(t, &request) {
        None => {
            book.note(t, strand.place());
            Turned::Idle(Why::Blocked)
        }
        Some(entry) => {
            take(book, flow, strand, t, entry);
            Turned::Moved
        }
    }
}

// Notes that thread `t` stands at a flagged place, to which its strand came.
fn halt(book: &mut Book, t: u8, place: u16) -> Turned
    requires first { 1 ≤ t }
    requires last { t ≤ thread_limit }
    requires turns { CanTurn book.old t }
    requires flag { IsAtFlag book.old t place }
    requires stays { StaysFound book.old t place }
    requires runs { (x : ThreadState) × (running_thread (thread_at book.old.store t) ≡ Some x) }
    requires listed { AllByRecursion (λ k. k ≡ place) (listed_places t book.old.entries) }
    ensures turns { Turns book.old (choice.Thread t) book.new result }
    ensures noted { IsNoted book.old t place book.new }
    ensures lawful { HasLawfulJournal book.new }
{
    book.note(t, place);
    Turned::Idle(Why::Flagged(place))
}

// Starts the strand of thread `t`, which lives, unless it is started.
fn wake(book: &Book, strand: &mut Strand, t: u8, birth: Birth)
    requires strand { IsStrandOf book.now t strand.old }
    requires live { IsLive book.now t birth }
    ensures strand { IsStrandOf book.now t strand.new }
    ensures started { IsStarted strand.new.birth }
{
    if !strand.is_started() {
        strand.start(birth.func, birth.args.as_slice());
    }
}

// Goes on with the strand of thread `t`, which lives, up to its next request, and commits that, or to a flagged place, and notes that.
fn go_on(book: &mut Book, flow: &Flow, strand: &mut Strand, t: u8, birth: Birth) -> Turned
    requires first { 1 ≤ t }
    requires last { t ≤ thread_limit }
    requires program { flow.now.program ≡ book.old.program }
    requires strand { IsStrandOf book.old t strand.old }
    requires live { IsLive book.old t birth }
    ensures run { IsOfSameRun book.old book.new }
    ensures turns { Turns book.old (choice.Thread t) book.new result }
    ensures strand { IsStrandOf book.new t strand.new }
    ensures threads { KeepsThreads book.old.store book.new.store }
    ensures others { KeepsOthers book.old t book.new }
    ensures lawful { HasLawfulJournal book.new }
{
    wake(book, strand, t, birth);
    match strand.run_private(flow, book.version(), book.flags()) {
        Want::Ended => unreachable!(),
        Want::Place(place) => halt(book, t, place),
        Want::Ask(request) => commit(book, flow, strand, t, request),
    }
}

impl World {
    /// The run of a program with the commands of a script, before its first entry, in which threads are to make `limit` entries at most: 1 to
    /// 1,000,000. `file` is the name of the program's file, as the events of filters name it. No command may wait for a stall. Each filter's text
    /// is judged here; for now one that nothing else refuses is refused with number 15, at its first clause that is no exclusion. It takes all of
    /// its memory here. An `Err` is want of memory.
    pub fn make(
        alloc: Global,
        p: &Program,
        file: &[u8],
        script: &Script,
        limit: u32,
    ) -> Result<World, NoMemory>
        requires least { 1 ≤ limit }
        requires most { limit ≤ entry_limit }
        requires few { length (script_of script.now) ≤ most_commands }
        requires short { HaveShortTexts text_limit (script_of script.now) }
        requires no_stall { HasNoStall (script_of script.now) }
        ensures new { IfOk result (λ w. (cs : List Command) × (AreCommandsSoFar p.now file.now (script_of script.now) cs × IsNewBook p.now cs limit w)) }
        ensures lawful { IfOk result (λ w. HasLawfulJournal w) }
    {
        let flow = lower(alloc, p)?;
        let judged = run_commands(alloc, &flow, file, &script.commands.0)?;
        let plans = Arc::new(alloc, judged.plans)?;
        let strands = strands_of(alloc, &flow, &plans, limit)?;
        let all_places = all_places(&flow);
        let book = Book::make(
            alloc,
            flow.share()?,
            plans,
            judged.commands,
            all_places,
            limit,
        )?;
        Ok(World {
            flow,
            book,
            strands,
        })
    }

    // A turn of thread `t`.
    fn turn_of(&mut self, t: u8) -> Turned
        requires first { 1 ≤ t }
        requires last { t ≤ thread_limit }
        ensures run { IsOfSameRun self.old self.new }
        ensures turns { Turns self.old (choice.Thread t) self.new result }
        ensures lawful { HasLawfulJournal self.new }
    {
        match self.book.live(t) {
            Err(why) => Turned::Idle(why),
            Ok(birth) => go_on(
                &mut self.book,
                &self.flow,
                &mut self.strands[t as usize - 1],
                t,
                birth,
            ),
        }
    }

    /// A turn: at most one entry is made. It takes no memory.
    ///
    /// A turn of a thread makes an entry unless one of these applies, of which the first is told. `Over`: the limit is reached, or `Finish` stands.
    /// `Ended` and `Unborn`: the thread is over, or nobody spawned it. `Due`: a command is due, or was asked and will be refused. `Flagged`: a
    /// command is asked, and the thread is at a place that is flagged for it; from then on it stands there, and makes no entry while that place is
    /// flagged. It is a place that it comes to pass, with nothing owed before, unless its last entry is `Blocked`: then it may be the place of its
    /// request. A thread that hasn't begun is at place 0. `Blocked`: the thread was told so last, and it still holds; where it stands isn't flagged.
    /// Where no turn noted where a thread stands since its last entry, or that entry is `Blocked`, it passes no place that is flagged now with the entry
    /// that it makes.
    ///
    /// A turn of control makes the first of these that stands next. Where a command is asked: its refusal; at the limit `Cut`; `Installed` or
    /// `Removed`, where each thread was found at a flagged place; `Stalled`, where each live thread was found at one or is blocked. Where none is
    /// asked: `Asked`, where the next command is due; where the run ends, `Unreached` for the next command, and behind the last one `Finish`. Else it
    /// tells `Nothing`.
    pub fn turn(&mut self, c: Choice) -> Turned
        requires { IsChoice c }
        ensures run { IsOfSameRun self.old self.new }
        ensures turns { Turns self.old c self.new result }
        ensures lawful { HasLawfulJournal self.new }
    {
        match c {
            Choice::Thread(t) => self.turn_of(t),
            Choice::Control => self.book.control(&self.flow),
        }
    }

    /// One turn for each choice, in their order. It takes no memory.
    pub fn run_choices(&mut self, cs: &[Choice])
        requires { AllByRecursion IsChoice cs.now }
        ensures run { IsOfSameRun self.old self.new }
        ensures led { Lead self.old cs.now self.new }
        ensures lawful { HasLawfulJournal self.new }
    {
        // its journal is lawful
        let _ = &self.book;
        'turns: for c in cs {
            self.turn(*c);
        }
    }

    /// Whether the journal is finished.
    pub fn finished(&self) -> bool
        ensures finished { result ≡ true → HasFinish self.now }
        ensures unfinished { result ≡ false → HasFinish self.now → ⊥ }
        ensures lawful { HasLawfulJournal self.now }
    {
        self.book.is_finished()
    }

    /// The newest version: each `Installed` and each `Removed` makes one.
    pub fn version(&self) -> Version
        ensures version { result ≡ Control.version (front self.now).control }
        ensures lawful { HasLawfulJournal self.now }
    {
        *self.book.version()
    }

    /// The journal.
    pub fn journal(&self) -> &Journal
        ensures entries { result.now.entries ≡ self.now.entries }
        ensures lawful { HasLawfulJournal self.now }
    {
        self.book.journal()
    }
}
