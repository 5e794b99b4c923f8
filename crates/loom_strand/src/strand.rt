//! Threads.
ghost use Rattle.std.specs.Prelude.{◌≡◌, ◌<◌, ◌⊎◌, true, false, [], ◌∷◌, ◌++◌, length, IfOk, Some, None};
ghost use Rattle.std.specs.Prelude.{vec_len, vec_capacity};
ghost use Rattle.std.specs.Arc.{arc_value};
ghost use Rattle.loom_trace.specs.declared.request.Request.{Request};
ghost use Rattle.loom_event.specs.Answer.{IsFunctionWith};
ghost use Rattle.loom_law.specs.Laws.{with_newest};
ghost use Rattle.loom_law.specs.TurnLaws.{is_blocked_entry};
ghost use Rattle.loom_version.specs.Plans.{AreFiltersOf};
ghost use Rattle.loom_strand.specs.Reply.{takes_version, versions_behind};
ghost use Rattle.loom_strand.specs.Strand.{IsNew, IsSameThread, IsStarted, CanTake, HasOwnPart, Wants, KeepsParking, StaysAt, HeedsFlags, GoesUnflagged, PassesAnew, WaitsOn, IsOutrun, IsSameWant, IsReply, request_in};

use crate::args::args_of;
use crate::execution::Execution;
use crate::machine::Machine;
use crate::newer::{VERSION_ROOM, is_newer};
use crate::reply::{Reply, reply_of, takes_version, want_behind};
use crate::stage::{Birth, Stage, Want};
use loom_flow::flow::Flow;
use loom_history::history::History;
use loom_lang::program::Program;
use loom_trace::entry::Entry;
use loom_trace::places::Places;
use loom_trace::request::Request;
use loom_tree::name::NoMemory;
use loom_version::plans::Plans;
use loom_version::version::Version;
use loom_walk::filter_walk::FilterWalk;
use std::alloc::Global;
use std::marker::Model;
use std::sync::Arc;

/// One thread: what it did so far, and where it is.
///
/// It keeps the versions that it has taken, and of its entries only how many it may make: clauses speak of their list, which takes no memory. It
/// shares the program with the flat code that it runs, and the filters with the other threads.
#[derive(Drop)]
pub struct Strand {
    program: Arc<Program>,
    plans: Arc<Plans>,
    thread: u8,
    birth: Option<Birth>,
    versions: Vec<Version>,
    // the version that it takes with its begin, or goes over to
    newest: Version,
    want: Option<Request>,
    execution: Execution,
    limit: u32,
    entries: History<Entry>,
}

impl Model for Strand {
    ghost use Rattle.std.specs.Prelude.{vec_capacity};
    ghost use Rattle.std.specs.Arc.{arc_value};
    ghost use Rattle.std.specs.Coded.{codes};
    ghost use Rattle.loom_tree.specs.Code.{source_code};
    ghost use Rattle.loom_plan.specs.Compiled.{compiled_code};
    ghost use Rattle.loom_version.specs.Version.{version_code};
    ghost use Rattle.loom_strand.specs.Strand.{Strand};
    ghost use Rattle.loom_strand.specs.StrandInvariant.{KeepsRoomFor};

    ghost Value = { Strand };

    ghost coded = { Prim.hlevel (codes, source_code, compiled_code, version_code) };

    ghost view = { λ s. record {
      program = arc_value s.program;
      filters = arc_value s.plans;
      thread = s.thread;
      limit = s.limit;
      birth = s.birth;
      versions = s.versions.items;
      newest = s.newest;
      entries = s.entries.items;
      want = s.want;
      execution = s.execution;
    } };

    ghost invariant = { λ s. KeepsRoomFor (vec_capacity s.versions) (record {
      program = arc_value s.program;
      filters = arc_value s.plans;
      thread = s.thread;
      limit = s.limit;
      birth = s.birth;
      versions = s.versions.items;
      newest = s.newest;
      entries = s.entries.items;
      want = s.want;
      execution = s.execution;
    }) };
}

// What is asked for, if anything.
fn request_in(want: &Want) -> Option<Request>
    ensures { result ≡ request_in want.now }
{
    match *want {
        Want::Ask(request) => Some(request),
        Want::Place(_) => None,
        Want::Ended => None,
    }
}

// The versions with the newest one, where the answer says that the thread takes it.
fn take_version(versions: &mut Vec<Version>, newest: Version, answer: Reply)
    requires { takes_version answer ≡ true → vec_len versions.old < vec_capacity versions.old }
    ensures versions { versions.new.items ≡ versions_behind (takes_version answer) newest versions.old.items }
    ensures room { vec_capacity versions.new ≡ vec_capacity versions.old }
{
    if takes_version(answer) {
        versions.push_reserved(newest);
    }
}

impl Strand {
    /// A thread of this number that wasn't started, with room for 256 frames and 129 versions, which makes at most so many entries. The filters are those of commands in
    /// the flat code's program. It takes all of its memory here. An `Err` is want of memory.
    pub fn make(
        alloc: Global,
        flow: &Flow,
        plans: Arc<Plans>,
        thread: u8,
        limit: u32,
    ) -> Result<Strand, NoMemory>
        requires { AreFiltersOf flow.now.program (arc_value plans) }
        ensures { IfOk result (λ s. IsNew flow.now.program (arc_value plans) thread limit s) }
    {
        let program = flow.share()?;
        let machine = Machine::make(alloc, flow.most_values())?;
        let walk = FilterWalk::make(alloc, limit)?;
        let versions = Vec::with_capacity(alloc, VERSION_ROOM)?;
        let execution = Execution {
            stage: Stage::Waits,
            machine,
            walk,
            place: 0,
        };
        Ok(Strand {
            program,
            plans,
            thread,
            birth: None,
            versions,
            newest: Version::first(),
            want: None,
            execution,
            limit,
            entries: History::new(),
        })
    }

    /// Whether it was started.
    pub fn is_started(&self) -> bool
        ensures started { result ≡ true → IsStarted self.now.birth }
        ensures unborn { result ≡ false → self.now.birth ≡ None }
    {
        self.birth.is_some()
    }

    /// Gives the thread its function and its arguments. It hasn't begun yet.
    pub fn start(&mut self, func: u8, args: &[i64])
        requires unborn { self.old.birth ≡ None }
        requires function { IsFunctionWith self.old.program func args.now }
        ensures { IsSameThread self.old (Some (record { func = func; args = args.now })) [] [] self.new }
    {
        let _ = &self.program;
        let args = args_of(args);
        self.birth = Some(Birth { func, args });
    }

    /// The number of the place at which it stands with what it asks for, or of the flagged place to which it came.
    pub fn place(&self) -> u16
        ensures { result ≡ self.now.execution.place }
    {
        self.execution.place
    }

    /// How many entry and back-edge places it has passed since its last entry.
    pub fn passed(&self) -> u32
        ensures { result ≡ self.now.execution.walk.passed }
    {
        self.execution.walk.passed()
    }

    /// Runs on as far as its next request and asks for that; until the answer comes it asks for the same, unless version or flags are others then.
    /// Given a newer version it asks to cross into it, at the first point that lies in front of a mark (a function's entry, a back edge) or of a
    /// request. At a flagged place it halts in two cases alone: the mark of that place is what it would pass next, or `Blocked` was the last that it
    /// told and the place where it waits is flagged. Flags are looked at before the version. Where its last entry isn't `Blocked`, the place is one
    /// that it comes to pass: nothing is owed and its mark is next, so the place of its request alone is never told. A thread that has made its
    /// `End` has ended. From where it was to where it is it passes no flagged place.
    ///
    /// The version is the one that it has, or a later one.
    pub fn run_private(&mut self, flow: &Flow, version: &Version, flags: &Places) -> Want
        requires started { IsStarted self.old.birth }
        requires program { flow.now.program ≡ self.old.program }
        requires version { CanTake self.old version.now }
        ensures same { IsSameThread self.old self.old.birth self.old.versions self.old.entries self.new }
        ensures newest { self.new.newest ≡ version.now }
        ensures wants { Wants self.new self.new.birth flags.now result }
        ensures heeds { HeedsFlags self.old self.new self.new.birth flags.now result }
        ensures unflagged { GoesUnflagged self.old self.new self.new.birth flags.now }
        ensures parks { KeepsParking self.old self.new self.new.birth flags.now result }
        ensures first { IsOutrun self.old.versions version.now → self.new.execution.walk.passed ≡ self.old.execution.walk.passed }
        ensures stays { StaysAt self.old self.new self.new.birth flags.now version.now }
        ensures again { (q : Request) → self.old.want ≡ Some q → version.now ≡ self.old.newest → IsSameWant q result }
    {
        let Some(birth) = self.birth else {
            unreachable!();
        };
        // the flat code is that of its program
        let _ = flow.code();
        // there is no greater number
        let _ = version.number();
        let newer = is_newer(&self.versions, version);
        self.newest = *version;
        let want = self
            .execution
            .halt(flow, &self.plans, birth, newer, version, flags);
        self.want = request_in(&want);
        want
    }

    /// The thread takes an answer to what it asked for, and keeps the entry. Where it is told that its request is disabled, it waits, and asks
    /// for the same again; the next answer then grants the request.
    pub fn answer(&mut self, flow: &Flow, e: Entry)
        requires program { flow.now.program ≡ self.old.program }
        requires answers { IsReply self.old e }
        requires room { length self.old.entries < self.old.limit }
        ensures same { IsSameThread self.old self.old.birth (with_newest e self.old.newest self.old.versions) (self.old.entries ++ e ∷ []) self.new }
        ensures newest { self.new.newest ≡ self.old.newest }
        ensures part { HasOwnPart self.new self.new.birth }
        ensures waits { is_blocked_entry e ≡ true → self.new.want ≡ self.old.want }
        ensures stands { is_blocked_entry e ≡ true → WaitsOn self.old self.new self.new.birth }
        ensures passes { PassesAnew self.new self.new.birth }
    {
        let Some(answer) = reply_of(&e) else {
            unreachable!();
        };
        // the flat code is that of its program
        let _ = flow.code();
        self.execution.take(flow, &self.plans, self.newest, answer);
        take_version(&mut self.versions, self.newest, answer);
        self.want = want_behind(answer, self.want);
        self.entries = self.entries.with(&e);
    }
}
