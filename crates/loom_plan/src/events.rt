//! The events of a filter in a program. An `Err` is want of memory throughout.
ghost use Rattle.std.specs.Prelude.{◌≡◌, ◌∷◌, ◌++◌, [], IfOk, OnOk, flat_map, map};
ghost use Rattle.loom_filter.specs.View.{test_of, event_of, events_of, step_of, steps_of, region_of, regions_of, clause_of, clauses_of};
ghost use Rattle.loom_lang.specs.Numbers.{function_number};
ghost use Rattle.loom_command.specs.Filter.{OrderStep};
ghost use Rattle.loom_law.specs.Filter.{watch_of, watches_of_region, watches_of_clause, function};
ghost use Rattle.loom_plan.specs.PlanView.{watches_of};

use crate::plan::{EventSite, EventWatch};
use loom_filter::filter::{Clause, Event as FilterEvent, Region, Step};
use loom_lang::numbers::function_number;
use loom_lang::program::Program;
use loom_tree::expression::Expr;
use loom_tree::name::{Name, NoMemory};
use std::alloc::Global;

fn copied(alloc: Global, test: &Option<Expr>) -> Result<Option<Expr>, NoMemory>
    ensures { IfOk result (λ t. test_of t ≡ test_of test.now) }
{
    match test {
        None => Ok(None),
        Some(e) => Ok(Some(e.copied(alloc)?)),
    }
}

fn put(alloc: Global, events: &mut Vec<EventWatch>, x: &FilterEvent) -> Result<(), NoMemory>
    ensures { OnOk result (watches_of events.new.items ≡ watches_of events.old.items ++ watch_of (event_of x.now) ∷ []) }
{
    let site = EventSite::Statement(x.line);
    let test = copied(alloc, &x.test)?;
    events.push(EventWatch { site, test })?;
    Ok(())
}

fn put_list(alloc: Global, events: &mut Vec<EventWatch>, xs: &[FilterEvent]) -> Result<(), NoMemory>
    ensures { OnOk result (watches_of events.new.items ≡ watches_of events.old.items ++ map watch_of (events_of xs.now)) }
{
    'put: for x in xs {
        put(alloc, events, x)?;
    }
    Ok(())
}

fn put_steps(alloc: Global, events: &mut Vec<EventWatch>, steps: &[Step]) -> Result<(), NoMemory>
    ensures { OnOk result (watches_of events.new.items ≡ watches_of events.old.items ++ map (λ (s : OrderStep). watch_of s.event) (steps_of steps.now)) }
{
    'put: for step in steps {
        put(alloc, events, &step.event)?;
    }
    Ok(())
}

fn put_function(
    alloc: Global,
    events: &mut Vec<EventWatch>,
    program: &Program,
    name: &Name,
    test: &Option<Expr>,
) -> Result<(), NoMemory>
    ensures { OnOk result (watches_of events.new.items ≡ watches_of events.old.items ++ (record { site = function (function_number program.now name.now); test = test_of test.now }) ∷ []) }
{
    let site = EventSite::Function(function_number(program, name));
    let test = copied(alloc, test)?;
    events.push(EventWatch { site, test })?;
    Ok(())
}

fn put_region(
    alloc: Global,
    events: &mut Vec<EventWatch>,
    program: &Program,
    region: &Region,
) -> Result<(), NoMemory>
    ensures { OnOk result (watches_of events.new.items ≡ watches_of events.old.items ++ watches_of_region program.now (region_of region.now)) }
{
    match region {
        Region::Between(entries, exits) => {
            put_list(alloc, events, &entries.0)?;
            put_list(alloc, events, &exits.0)?;
            Ok(())
        }
        Region::Whole(name, test) => put_function(alloc, events, program, name, test),
    }
}

fn put_regions(
    alloc: Global,
    events: &mut Vec<EventWatch>,
    program: &Program,
    regions: &[Region],
) -> Result<(), NoMemory>
    ensures { OnOk result (watches_of events.new.items ≡ watches_of events.old.items ++ flat_map (watches_of_region program.now) (regions_of regions.now)) }
{
    'put: for region in regions {
        put_region(alloc, events, program, region)?;
    }
    Ok(())
}

fn put_clause(
    alloc: Global,
    events: &mut Vec<EventWatch>,
    program: &Program,
    clause: &Clause,
) -> Result<(), NoMemory>
    ensures { OnOk result (watches_of events.new.items ≡ watches_of events.old.items ++ watches_of_clause program.now (clause_of clause.now)) }
{
    match clause {
        Clause::Order(steps) => put_steps(alloc, events, &steps.0),
        Clause::Exclusive(regions) => put_regions(alloc, events, program, &regions.0),
        Clause::Unilateral(region) => put_region(alloc, events, program, region),
    }
}

/// The events of these clauses.
pub fn events(
    alloc: Global,
    program: &Program,
    clauses: &[Clause],
) -> Result<Vec<EventWatch>, NoMemory>
    ensures { IfOk result (λ events. watches_of events.items ≡ flat_map (watches_of_clause program.now) (clauses_of clauses.now)) }
{
    let mut events = Vec::new(alloc);
    'put: for clause in clauses {
        put_clause(alloc, &mut events, program, clause)?;
    }
    Ok(events)
}
