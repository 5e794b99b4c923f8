//! How runs ended, the statuses of that, and the numbers of statuses.
ghost use Rattle.std.specs.Prelude.{◌≡◌};
ghost use Rattle.loom_trace.specs.declared.entry.Ending.{Ending as Kind};
ghost use Rattle.loom_top.specs.TopCall.{CanEnd, EndsIn};
ghost use Rattle.loom_top.specs.Code.{code, ended_as};

use crate::status::Status;
use loom_trace::entry::{Ending, Entry};
use loom_trace::journal::Journal;

/// The number with which the program ends.
pub fn code_of(status: Status) -> u8
    ensures { result ≡ code status }
{
    match status {
        Status::Done => 0,
        Status::Usage => 1,
        Status::Refused => 2,
        Status::NoScript => 3,
        Status::ReadFault => 4,
        Status::WriteFault => 5,
        Status::NoMemory => 6,
        Status::Stuck => 7,
        Status::Limit => 8,
        Status::TooLong => 10,
    }
}

/// How the run of a finished journal ended: its last entry tells.
pub fn ending_of(journal: &Journal) -> Ending
    requires { (kind : Kind) × EndsIn journal.now.entries kind }
    ensures { EndsIn journal.now.entries result }
{
    match journal.get(journal.len() - 1) {
        Entry::Finish { kind } => kind,
        _ => unreachable!(),
    }
}

/// The status of a run that ended like this. No run is stopped.
pub fn status_of(ending: Ending) -> Status
    requires { CanEnd ending }
    ensures { result ≡ ended_as ending }
{
    match ending {
        Ending::Done => Status::Done,
        Ending::Stuck => Status::Stuck,
        Ending::Limit => Status::Limit,
        Ending::Stopped => unreachable!(),
    }
}
