//! What a filter names that isn't in the program, or isn't where it says.
ghost use Rattle.std.specs.Prelude.{◌≡◌, ◌<◌, ◌≤◌, List, length, slice_get, IfSome, Some, None};
ghost use Rattle.loom_lang.specs.Numbers.{function_number};
ghost use Rattle.loom_filter.specs.View.{test_of, event_of, events_of, steps_of, region_of, regions_of, clause_of, clauses_of, filter_of};
ghost use Rattle.loom_filter.specs.FilterError.{fault_if};
ghost use Rattle.loom_plan.specs.Statements.{function_on};
ghost use Rattle.loom_plan.specs.Fault.{TellsNameFault, is_foreign, locals_if, lesser, test_fault, event_fault, split_fault, with_event, behind_events, behind_steps, whole_fault, region_fault, behind_regions, clause_fault, first_from};

use crate::names::{is_foreign, is_foreign_among};
use crate::statements::function_on;
use loom_filter::filter::{Clause, Event, Filter, Region, Step};
use loom_filter::parse::FilterRefusal;
use loom_lang::numbers::function_number;
use loom_lang::program::Program;
use loom_tree::expression::Expr;
use loom_tree::name::Name;

/// The number of an event in another file.
const OTHER_FILE: u8 = 2;

/// The number of an event on a line where no statement begins.
const NO_STATEMENT: u8 = 3;

/// The number of a test that names something else than a local.
const NO_LOCAL: u8 = 4;

/// The number of a region whose events stand in different functions.
const SPLIT: u8 = 6;

/// The number of a region that is a function which isn't there.
const NO_FUNCTION: u8 = 10;

/// What is known of events.
#[derive(Clone, Copy, Debug, Drop)]
struct Findings {
    /// The least number of a fault.
    least: Option<u8>,
    /// The function in which the first event at a statement stands.
    function: Option<u8>,
}

fn lesser(a: Option<u8>, b: Option<u8>) -> Option<u8>
    ensures { result ≡ lesser a b }
{
    match (a, b) {
        (None, _) => b,
        (_, None) => a,
        (Some(m), Some(n)) => Some(if n < m { n } else { m }),
    }
}

/// What is wrong with the test of an event in this function.
fn test_fault(program: &Program, function: Option<u8>, test: &Option<Expr>) -> Option<u8>
    requires { IfSome function (λ g. g < length program.now.funcs) }
    ensures { result ≡ test_fault program.now function (test_of test.now) }
{
    match function {
        None => Some(NO_STATEMENT),
        Some(number) => {
            let f = &program.funcs().0[number as usize];
            if is_foreign(f.params.0.as_slice(), &f.body, test) {
                Some(NO_LOCAL)
            } else {
                None
            }
        }
    }
}

/// What is wrong with an event whose statement begins in this function.
fn event_fault(program: &Program, file: &[u8], event: &Event, function: Option<u8>) -> Option<u8>
    requires { IfSome function (λ g. g < length program.now.funcs) }
    ensures { result ≡ event_fault program.now file.now (event_of event.now) function }
{
    if event.file.bytes() == file {
        test_fault(program, function, &event.test)
    } else {
        Some(OTHER_FILE)
    }
}

/// What is wrong where the first event of a region stands in one function and another one in another.
fn split_fault(first: Option<u8>, function: Option<u8>) -> Option<u8>
    ensures { result ≡ split_fault first function }
{
    match (first, function) {
        (Some(g), Some(h)) => { if g == h { None } else { Some(SPLIT) } }
        _ => None,
    }
}

fn with_event(program: &Program, file: &[u8], findings: Findings, event: &Event) -> Findings
    ensures { result ≡ with_event program.now file.now findings (event_of event.now) (function_on program.now event.now.line) }
{
    let function = function_on(program, event.line);
    let own = event_fault(program, file, event, function);
    Findings {
        least: lesser(
            findings.least,
            lesser(own, split_fault(findings.function, function)),
        ),
        function: findings.function.or(function),
    }
}

fn behind_events(program: &Program, file: &[u8], findings: Findings, events: &[Event]) -> Findings
    ensures { result ≡ behind_events program.now file.now findings (events_of events.now) }
{
    let mut findings = findings;
    'events: for event in events {
        findings = with_event(program, file, findings, event);
    }
    findings
}

/// The least number in an order.
fn order_fault(program: &Program, file: &[u8], steps: &[Step]) -> Option<u8>
    ensures { result ≡ behind_steps program.now file.now None (steps_of steps.now) }
{
    let mut least = None;
    'steps: for step in steps {
        let function = function_on(program, step.event.line);
        least = lesser(least, event_fault(program, file, &step.event, function));
    }
    least
}

/// What is wrong with the test of the frames of this function.
fn frame_fault(program: &Program, number: u8, test: &Option<Expr>) -> Option<u8>
    requires { number < length program.now.funcs }
    ensures { result ≡ whole_fault program.now (Some number) (test_of test.now) }
{
    let f = &program.funcs().0[number as usize];
    if is_foreign_among(f.params.0.as_slice(), test) {
        Some(NO_LOCAL)
    } else {
        None
    }
}

/// What is wrong with a region that is a function.
#[tactic(auto, using(crate::proofs::Walks::function_within))]
fn whole_fault(program: &Program, f: &Name, test: &Option<Expr>) -> Option<u8>
    ensures { result ≡ whole_fault program.now (function_number program.now f.now) (test_of test.now) }
{
    match function_number(program, f) {
        Some(number) => frame_fault(program, number, test),
        None => {
            if is_foreign_among(&[], test) {
                Some(NO_LOCAL)
            } else {
                Some(NO_FUNCTION)
            }
        }
    }
}

/// The least number in a region.
fn region_fault(program: &Program, file: &[u8], region: &Region) -> Option<u8>
    ensures { result ≡ region_fault program.now file.now (region_of region.now) }
{
    match region {
        Region::Between(entries, exits) => {
            let fresh = Findings {
                least: None,
                function: None,
            };
            let entered = behind_events(program, file, fresh, entries.0.as_slice());
            behind_events(program, file, entered, exits.0.as_slice()).least
        }
        Region::Whole(f, test) => whole_fault(program, f, test),
    }
}

/// The least number in regions.
fn regions_fault(program: &Program, file: &[u8], regions: &[Region]) -> Option<u8>
    ensures { result ≡ behind_regions program.now file.now None (regions_of regions.now) }
{
    let mut least = None;
    'regions: for region in regions {
        least = lesser(least, region_fault(program, file, region));
    }
    least
}

/// The least number in a clause.
fn clause_fault(program: &Program, file: &[u8], clause: &Clause) -> Option<u8>
    ensures { result ≡ clause_fault program.now file.now (clause_of clause.now) }
{
    match clause {
        Clause::Order(steps) => order_fault(program, file, steps.0.as_slice()),
        Clause::Exclusive(regions) => regions_fault(program, file, regions.0.as_slice()),
        Clause::Unilateral(region) => region_fault(program, file, region),
    }
}

/// The first fault of clauses, the first of which has the number 1.
fn clauses_fault(program: &Program, file: &[u8], clauses: &[Clause]) -> Option<FilterRefusal>
    requires { length clauses.now ≤ 8 }
    ensures { fault_if result ≡ first_from program.now file.now 1 (clauses_of clauses.now) }
{
    'clauses: for (i, clause) in clauses.iter().enumerate() {
        if let Some(number) = clause_fault(program, file, clause) {
            return Some(FilterRefusal {
                clause: i as u8 + 1,
                number,
            });
        }
    }
    None
}

/// The first fault of a filter in what it names, for a program in the file of this name: of the least clause that has one, the least number. 2 is that
/// of an event in another file, 3 of one on a line where no statement begins, 4 of a test that names something else than a local, 6 of a region whose events
/// stand in different functions, and 10 of a region that is a function which isn't there.
#[tactic(auto, using(crate::proofs::FirstFault::first_fault_told))]
pub(crate) fn first_fault(program: &Program, file: &[u8], filter: &Filter) -> Option<FilterRefusal>
    requires { length filter.now.clauses ≤ 8 }
    ensures { TellsNameFault program.now file.now (filter_of filter.now) (fault_if result) }
{
    // Where a program's functions are read, it is known to keep the rules.
    let _functions = program.funcs();
    clauses_fault(program, file, filter.clauses.0.as_slice())
}
