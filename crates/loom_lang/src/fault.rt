//! The first of the faults, which are noted in any order.
ghost use Rattle.std.specs.Prelude.{◌≡◌, ◌∷◌, []};
ghost use Rattle.loom_lang.specs.Refusal.{rank, line_if};
ghost use Rattle.loom_lang.specs.Fault.{is_before, sooner, behind_faults};

use crate::refusal::{LangRefusal, Reason, Which};

fn rank(reason: Reason) -> u8
    ensures { result ≡ rank reason }
{
    match reason {
        Reason::Syntax => 1,
        Reason::SecondOnLine => 2,
        Reason::UnknownName => 3,
        Reason::NameTwice => 4,
        Reason::WrongCount => 5,
        Reason::NoMain => 6,
        Reason::TooMany(Which::Functions) => 7,
        Reason::TooMany(Which::Params) => 8,
        Reason::TooMany(Which::Locals) => 9,
        Reason::TooMany(Which::Names) => 10,
        Reason::TooMany(Which::Cells) => 11,
        Reason::TooMany(Which::Statements) => 12,
    }
}

/// Whether a fault stands before another: at a lower line, or for a lesser reason at the same one.
fn is_before(fault: LangRefusal, other: LangRefusal) -> bool
    ensures { result ≡ is_before fault other }
{
    fault.line < other.line || (fault.line == other.line && rank(fault.reason) < rank(other.reason))
}

fn sooner(first: Option<LangRefusal>, fault: LangRefusal) -> LangRefusal
    ensures { result ≡ sooner first fault }
{
    match first {
        None => fault,
        Some(other) => {
            if is_before(fault, other) {
                fault
            } else {
                other
            }
        }
    }
}

/// Notes a fault.
pub fn note(first: &mut Option<LangRefusal>, line: u32, reason: Reason)
    ensures { first.new ≡ behind_faults first.old reason (line ∷ []) }
{
    *first = Some(sooner(*first, LangRefusal { line, reason }));
}

/// Notes a fault where a rule is broken.
pub fn note_if(first: &mut Option<LangRefusal>, is_broken: bool, line: u32, reason: Reason)
    ensures { first.new ≡ behind_faults first.old reason (line_if is_broken line) }
{
    if is_broken {
        note(first, line, reason);
    }
}
