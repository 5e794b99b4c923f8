//! What an answer does to a thread.
ghost use Rattle.std.specs.Prelude.{Some, ◌≡◌};
ghost use Rattle.loom_flow.specs.Code.{IsLowered};
ghost use Rattle.loom_flow.specs.Progress.{progress};
ghost use Rattle.loom_strand.specs.Machine.{position, HasPlaceHere, TakesAnswer};
ghost use Rattle.loom_strand.specs.Reply.{reply_of, want_behind, takes_version, IsAsking, CanFollow, CanWalkBy, Takes};

use crate::ask::take;
use crate::execution::Execution;
use crate::machine::Machine;
use crate::stage::Stage;
use loom_flow::code::CodeStep;
use loom_flow::flow::Flow;
use loom_trace::entry::Entry;
use loom_trace::request::Request;
use loom_version::plans::Plans;
use loom_version::version::Version;

/// What an answer does to a thread.
#[derive(Clone, Copy, Debug, Drop)]
pub(crate) enum Reply {
    /// The thread begins.
    Begins,
    /// What was to be made first is made.
    Makes,
    /// It goes over to a newer version.
    Crosses,
    /// Its request is disabled, and waits for another answer.
    Waits,
    /// Its instruction takes this value; of no account where it gives none.
    Gives(i64),
    /// It traps on this line, and goes to its end.
    Traps(u32),
    /// It has ended.
    Ends,
}

/// What the entry answers the thread that made it; none where it answers no request.
pub(crate) fn reply_of(e: &Entry) -> Option<Reply>
    ensures { result ≡ reply_of e.now }
{
    match e {
        Entry::Begin { .. } => Some(Reply::Begins),
        Entry::End { .. } => Some(Reply::Ends),
        Entry::Trap { line, .. } => Some(Reply::Traps(*line)),
        Entry::Blocked { .. } => Some(Reply::Waits),
        Entry::Read { value, .. } => Some(Reply::Gives(*value)),
        Entry::Spawn { child, .. } => Some(Reply::Gives(*child as i64)),
        Entry::Write { .. }
        | Entry::Lock { .. }
        | Entry::Unlock { .. }
        | Entry::Down { .. }
        | Entry::Up { .. }
        | Entry::Join { .. }
        | Entry::Print { .. } => Some(Reply::Gives(0)),
        Entry::Tick { .. }
        | Entry::At { .. }
        | Entry::Past { .. }
        | Entry::Back { .. }
        | Entry::Enter { .. }
        | Entry::Leave { .. }
        | Entry::Post { .. }
        | Entry::Wait { .. } => Some(Reply::Makes),
        Entry::Cross { .. } => Some(Reply::Crosses),
        Entry::Asked { .. }
        | Entry::Refused { .. }
        | Entry::Installed { .. }
        | Entry::Removed { .. }
        | Entry::Stalled { .. }
        | Entry::Cut { .. }
        | Entry::Unreached { .. }
        | Entry::Finish { .. } => None,
    }
}

/// The request that waits for an answer behind this one.
pub(crate) fn want_behind(answer: Reply, want: Option<Request>) -> Option<Request>
    ensures { result ≡ want_behind (Some answer) want }
{
    match answer {
        Reply::Begins => None,
        Reply::Makes => None,
        Reply::Crosses => None,
        Reply::Waits => want,
        Reply::Gives(_) => None,
        Reply::Traps(_) => None,
        Reply::Ends => None,
    }
}

/// Whether the thread takes the newest version with it.
pub(crate) fn takes_version(answer: Reply) -> bool
    ensures { result ≡ takes_version answer }
{
    match answer {
        Reply::Begins => true,
        Reply::Makes => false,
        Reply::Crosses => true,
        Reply::Waits => false,
        Reply::Gives(_) => false,
        Reply::Traps(_) => false,
        Reply::Ends => false,
    }
}

// The instruction that asks takes the answer.
fn give(machine: &mut Machine, flow: &Flow, v: i64)
    requires asks { IsAsking (progress flow.now (position machine.old)) }
    requires place { HasPlaceHere flow.now machine.old }
    ensures { TakesAnswer machine.old machine.new v (progress flow.now (position machine.old)) }
{
    match flow.code()[machine.at()].step {
        CodeStep::Compute(_) => unreachable!(),
        CodeStep::Ask(ask) => take(machine, ask, v),
        CodeStep::Control(_) => unreachable!(),
    }
}

impl Execution {
    /// Takes an answer; `newest` is the version that the thread takes where the answer says so.
    pub(crate) fn take(&mut self, flow: &Flow, plans: &Plans, newest: Version, answer: Reply)
        requires follow { CanFollow flow.now self.old.machine answer }
        requires walk { CanWalkBy flow.now.program plans.now newest self.old.walk answer }
        ensures { Takes flow.now plans.now newest self.old self.new answer }
    {
        match answer {
            Reply::Begins => {
                self.walk.begin(newest);
                self.stage = Stage::Enters;
            }
            Reply::Makes => self.walk.make_owed(plans),
            Reply::Crosses => self.walk.cross(plans, newest, self.machine.locals()),
            Reply::Waits => self.walk.block(),
            Reply::Gives(v) => {
                give(&mut self.machine, flow, v);
                self.walk.act();
            }
            Reply::Traps(line) => {
                self.machine.stop();
                self.walk.trap(plans, line);
            }
            Reply::Ends => {
                self.walk.act();
                self.stage = Stage::Over;
            }
        }
    }
}
