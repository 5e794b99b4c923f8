//! The clauses of a filter, by the numbers of events. An `Err` is want of memory throughout.
ghost use Rattle.std.specs.Prelude.{◌≡◌, ◌<◌, ◌≤◌, ◌+◌, IfOk, length};
ghost use Rattle.loom_tree.specs.Tree.{Source};
ghost use Rattle.loom_filter.specs.View.{steps_of, region_of, regions_of, clause_of, clauses_of};
ghost use Rattle.loom_filter.specs.View as view;
ghost use Rattle.loom_command.specs.FilterFault.{most_events};
ghost use Rattle.loom_law.specs.Filter.{between, numbers, counted, range_from, ranges_from, ruling_from, rulings_from};
ghost use Rattle.loom_filter.specs.Fault.{region_events, regions_events, clause_events};
ghost use Rattle.loom_plan.specs.Counts.{filter_events};
ghost use Rattle.loom_plan.specs.Sets.{event_numbers};
ghost use Rattle.loom_plan.specs.Numbers.{consecutive};
ghost use Rattle.loom_plan.specs.PlanView.{order_of, range_of, span_ranges, ruling_of, rulings_of};

use crate::plan::{OrderEvent, RegionSpan, Rule};
use crate::sets::EventSet;
use loom_filter::filter::{Clause, Event as FilterEvent, Region, Step};
use loom_tree::name::NoMemory;
use std::alloc::Global;

// So many events, from this number on.
fn run(first: usize, count: usize) -> EventSet
    requires low { 0 < first }
    requires high { first + count ≤ 33 }
    ensures { event_numbers result ≡ consecutive first count }
{
    let mut found = EventSet::none();
    let mut n = count;
    'down: while n > 0 {
        n -= 1;
        found.put((first + n) as u8);
    }
    found
}

fn counted(alloc: Global, first: usize, steps: &[Step]) -> Result<Vec<OrderEvent>, NoMemory>
    requires { first + length steps.now ≤ 33 }
    ensures { IfOk result (λ v. order_of v.items ≡ counted first (steps_of steps.now)) }
{
    let mut rows = Vec::new(alloc);
    'put: for (i, step) in steps.iter().enumerate() {
        let event = (first + i) as u8;
        let count = step.count;
        rows.push(OrderEvent { event, count })?;
    }
    Ok(rows)
}

fn region_events(region: &Region) -> usize
    requires { region_events (region_of region.now) ≤ 33 }
    ensures { result ≡ region_events (region_of region.now) }
{
    match region {
        Region::Between(entries, exits) => entries.0.len() + exits.0.len(),
        Region::Whole(_, _) => 1,
    }
}

fn between(first: usize, entries: &[FilterEvent], exits: &[FilterEvent]) -> RegionSpan
    requires low { 0 < first }
    requires high { first + (length entries.now + length exits.now) ≤ 33 }
    ensures { range_of result ≡ between (numbers first (view.events_of entries.now)) (numbers (first + length (view.events_of entries.now)) (view.events_of exits.now)) }
{
    RegionSpan::Between(
        run(first, entries.len()),
        run(first + entries.len(), exits.len()),
    )
}

#[tactic(auto, using(crate::proofs::Steps::as_many_events))]
fn span(first: usize, region: &Region) -> RegionSpan
    requires low { 0 < first }
    requires high { first + region_events (region_of region.now) ≤ 33 }
    ensures { range_of result ≡ range_from first (region_of region.now) }
{
    match region {
        Region::Between(entries, exits) => between(first, &entries.0, &exits.0),
        Region::Whole(_, _) => RegionSpan::Whole(first as u8),
    }
}

fn spans(alloc: Global, first: usize, regions: &[Region]) -> Result<Vec<RegionSpan>, NoMemory>
    requires low { 0 < first }
    requires high { first + regions_events (regions_of regions.now) ≤ 33 }
    ensures { IfOk result (λ v. (p : Source) → span_ranges v.items ≡ ranges_from p first (regions_of regions.now)) }
{
    let mut spans = Vec::new(alloc);
    let mut n = first;
    'put: for region in regions {
        spans.push(span(n, region))?;
        n += region_events(region);
    }
    Ok(spans)
}

fn rule(alloc: Global, first: usize, clause: &Clause) -> Result<Rule, NoMemory>
    requires low { 0 < first }
    requires high { first + clause_events (clause_of clause.now) ≤ 33 }
    ensures { IfOk result (λ r. (p : Source) → ruling_of r ≡ ruling_from p first (clause_of clause.now)) }
{
    match clause {
        Clause::Order(steps) => Ok(Rule::Order(counted(alloc, first, &steps.0)?)),
        Clause::Exclusive(regions) => Ok(Rule::Exclusive(spans(alloc, first, &regions.0)?)),
        Clause::Unilateral(region) => Ok(Rule::Unilateral(span(first, region))),
    }
}

fn regions_events(regions: &[Region]) -> usize
    requires { regions_events (regions_of regions.now) ≤ 33 }
    ensures { result ≡ regions_events (regions_of regions.now) }
{
    let mut count = 0;
    'add: for region in regions {
        count += region_events(region);
    }
    count
}

fn clause_events(clause: &Clause) -> usize
    requires { clause_events (clause_of clause.now) ≤ 33 }
    ensures { result ≡ clause_events (clause_of clause.now) }
{
    match clause {
        Clause::Order(steps) => steps.0.len(),
        Clause::Exclusive(regions) => regions_events(&regions.0),
        Clause::Unilateral(region) => region_events(region),
    }
}

/// The clauses, the first of their events having number 1.
pub fn rules(alloc: Global, clauses: &[Clause]) -> Result<Vec<Rule>, NoMemory>
    requires { filter_events (clauses_of clauses.now) ≤ most_events }
    ensures { IfOk result (λ v. (p : Source) → rulings_of v.items ≡ rulings_from p 1 (clauses_of clauses.now)) }
{
    let mut rules = Vec::new(alloc);
    let mut n = 1;
    'put: for clause in clauses {
        rules.push(rule(alloc, n, clause)?)?;
        n += clause_events(clause);
    }
    Ok(rules)
}
