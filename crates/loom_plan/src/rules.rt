//! What clauses and regions say of sets of events.
ghost use Rattle.std.specs.Prelude.{◌≡◌, ◌≤◌, ◌∷◌, [], ℕ, length, option_map};
ghost use Rattle.std.specs.List.{list_any};
ghost use Rattle.loom_command.specs.FilterFault.{most_clauses, most_events};
ghost use Rattle.loom_law.specs.Filter.{Range, Ruling, has, share, entry_events, exit_events, event_before, before_in, is_unilateral};
ghost use Rattle.loom_law.specs.Walk.{begins_in};
ghost use Rattle.loom_plan.specs.Sets.{event_numbers, clause_numbers, region_numbers};
ghost use Rattle.loom_plan.specs.ElementNumbers.{numbers_where};
ghost use Rattle.loom_plan.specs.PlanView.{range_of, span_ranges, ruling_of, rulings_of, order_of, counted_of, regions_in};
ghost use Rattle.loom_plan.specs.Operations.{is_to_enter, is_to_leave, is_entered, is_staying, is_region_among};
ghost use Rattle.loom_plan.specs.PlanParts.{AreOfClauses, is_exclusion, first_other};

use crate::plan::{OrderEvent, RegionRow, RegionSpan, Rule};
use crate::sets::{ClauseSet, EventSet, RegionSet};

// Whether one of these events enters the region.
fn begins(span: &RegionSpan, events: EventSet) -> bool
    ensures { result ≡ share (entry_events (range_of span.now)) (event_numbers events) }
{
    match span {
        RegionSpan::Between(entries, _) => entries.meets(events),
        RegionSpan::Whole(n) => events.has(*n),
    }
}

// Whether one of these events leaves it.
fn ends(span: &RegionSpan, events: EventSet) -> bool
    ensures { result ≡ share (exit_events (range_of span.now)) (event_numbers events) }
{
    match span {
        RegionSpan::Between(_, exits) => exits.meets(events),
        RegionSpan::Whole(_) => false,
    }
}

fn any_begins(spans: &[RegionSpan], events: EventSet) -> bool
    ensures { result ≡ list_any (λ (x : Range). share (entry_events x) (event_numbers events)) (span_ranges spans.now) }
{
    'scan: for span in spans {
        if begins(span, events) {
            return true;
        }
    }
    false
}

// Whether one of these events enters a region of the clause.
fn begins_in(rule: &Rule, events: EventSet) -> bool
    ensures { result ≡ begins_in (ruling_of rule.now) (event_numbers events) }
{
    match rule {
        Rule::Order(_) => false,
        Rule::Exclusive(spans) => any_begins(spans, events),
        Rule::Unilateral(span) => begins(span, events),
    }
}

/// Whether no other thread goes on while one is inside of the clause's region.
pub fn is_unilateral(rule: &Rule) -> bool
    ensures { result ≡ is_unilateral (ruling_of rule.now) }
{
    match rule {
        Rule::Order(_) => false,
        Rule::Exclusive(_) => false,
        Rule::Unilateral(_) => true,
    }
}

fn is_exclusion(rule: &Rule) -> bool
    ensures { result ≡ is_exclusion (ruling_of rule.now) }
{
    match rule {
        Rule::Order(_) => false,
        Rule::Exclusive(_) => true,
        Rule::Unilateral(_) => false,
    }
}

/// The number of the first clause, from 1, that is no exclusion.
pub fn first_other(rules: &[Rule]) -> Option<u8>
    requires { length rules.now ≤ most_clauses }
    ensures { result ≡ first_other 1 (rulings_of rules.now) }
{
    let mut n = 0;
    'clauses: for rule in rules {
        n += 1;
        if !is_exclusion(rule) {
            return Some(n);
        }
    }
    None
}

fn is_to_enter(rule: &Rule, c: u8, events: EventSet, held: ClauseSet) -> bool
    ensures { result ≡ is_to_enter (event_numbers events) (has (clause_numbers held)) c (ruling_of rule.now) }
{
    begins_in(rule, events) && !held.has(c)
}

/// The clauses that these events enter, but for those that are held.
pub fn enters(rules: &[Rule], events: EventSet, held: ClauseSet) -> ClauseSet
    requires { length rules.now ≤ most_clauses }
    ensures { clause_numbers result ≡ numbers_where (is_to_enter (event_numbers events) (has (clause_numbers held))) 1 (rulings_of rules.now) }
{
    let mut found = ClauseSet::none();
    let mut n = rules.len();
    'down: while n > 0 {
        let c = n as u8;
        n -= 1;
        found.put_if(c, is_to_enter(&rules[n], c, events, held));
    }
    found
}

fn is_to_leave(c: u8, held: ClauseSet, inside: ClauseSet) -> bool
    ensures { (r : Ruling) → result ≡ is_to_leave (has (clause_numbers held)) (has (clause_numbers inside)) c r }
{
    held.has(c) && !inside.has(c)
}

/// The clauses that are held, but for those inside of which the thread is.
pub fn leaves(rules: &[Rule], held: ClauseSet, inside: ClauseSet) -> ClauseSet
    requires { length rules.now ≤ most_clauses }
    ensures { clause_numbers result ≡ numbers_where (is_to_leave (has (clause_numbers held)) (has (clause_numbers inside))) 1 (rulings_of rules.now) }
{
    let mut found = ClauseSet::none();
    let mut n = rules.len();
    'down: while n > 0 {
        let c = n as u8;
        n -= 1;
        found.put_if(c, is_to_leave(c, held, inside));
    }
    found
}

/// The regions that are entered with these events.
pub fn entered(regions: &[RegionRow], events: EventSet) -> RegionSet
    requires { length regions.now ≤ most_events }
    ensures { region_numbers result ≡ numbers_where (is_entered (event_numbers events)) 1 (regions_in regions.now) }
{
    let mut found = RegionSet::none();
    let mut n = regions.len();
    'down: while n > 0 {
        let x = n as u8;
        n -= 1;
        found.put_if(x, begins(&regions[n].span, events));
    }
    found
}

fn is_staying(span: &RegionSpan, x: u8, among: RegionSet, events: EventSet) -> bool
    ensures { (c : ℕ) → result ≡ is_staying (has (region_numbers among)) (event_numbers events) x (c, range_of span.now) }
{
    among.has(x) && !ends(span, events)
}

/// Those of the regions that are not left with these events.
pub fn staying(regions: &[RegionRow], among: RegionSet, events: EventSet) -> RegionSet
    requires { length regions.now ≤ most_events }
    ensures { region_numbers result ≡ numbers_where (is_staying (has (region_numbers among)) (event_numbers events)) 1 (regions_in regions.now) }
{
    let mut found = RegionSet::none();
    let mut n = regions.len();
    'down: while n > 0 {
        let x = n as u8;
        n -= 1;
        found.put_if(x, is_staying(&regions[n].span, x, among, events));
    }
    found
}

/// The clauses of these regions.
pub fn clauses_of(regions: &[RegionRow], among: RegionSet) -> ClauseSet
    requires few { length regions.now ≤ most_events }
    requires clauses { AreOfClauses (regions_in regions.now) }
    ensures { (c : ℕ) → has (clause_numbers result) c ≡ is_region_among (has (region_numbers among)) c 1 (regions_in regions.now) }
{
    let mut found = ClauseSet::none();
    'rows: for (i, row) in regions.iter().enumerate() {
        found.put_if(row.clause, among.has(i as u8 + 1));
    }
    found
}

fn event_before(steps: &[OrderEvent], n: u8) -> Option<OrderEvent>
    ensures { option_map counted_of result ≡ event_before n (order_of steps.now) }
{
    let mut i = 1;
    'scan: while i < steps.len() {
        if steps[i].event == n {
            return Some(steps[i - 1]);
        }
        i += 1;
    }
    None
}

fn before_in_rule(rule: &Rule, n: u8) -> Option<OrderEvent>
    ensures { option_map counted_of result ≡ before_in n (ruling_of rule.now ∷ []) }
{
    match rule {
        Rule::Order(steps) => event_before(steps, n),
        Rule::Exclusive(_) => None,
        Rule::Unilateral(_) => None,
    }
}

/// The event before this one in an order, with its count.
pub fn before_in(rules: &[Rule], n: u8) -> Option<OrderEvent>
    ensures { option_map counted_of result ≡ before_in n (rulings_of rules.now) }
{
    'scan: for rule in rules {
        if let Some(before) = before_in_rule(rule, n) {
            return Some(before);
        }
    }
    None
}
