//! What is wrong with the clauses of a filter by themselves.
ghost use Rattle.std.specs.Prelude.{◌≡◌, ◌≤◌, IfOk, IsTrue, ◌↔◌};
ghost use Rattle.loom_filter.specs.View.{step_of, steps_of, region_of, regions_of, clause_of};
ghost use Rattle.loom_filter.specs.ReaderView.{clause_with, clauses_with};
ghost use Rattle.loom_filter.specs.Fault.{HaveTwins, Repeats, region_events, regions_events, less, room_behind, TellsRoom, TellsForm, TellsFault};
ghost use Rattle.loom_filter.specs.FilterError.{fault_if};

use crate::clause::CountedClause;
use crate::filter::{Clause, Region, Step};
use crate::key::event_key;
use crate::parse::FilterRefusal;
use loom_tree::name::NoMemory;
use std::alloc::Global;
use std::collections::BTreeSet;

/// How many clauses a filter has at most.
const CLAUSE_LIMIT: u8 = 8;

/// How many events a filter has at most.
const EVENT_LIMIT: usize = 32;

/// The number where a count is written where none may be.
const COUNT_MISPLACED: u8 = 5;

/// The number where two events of an order are the same.
const ORDER_REPEATS: u8 = 9;

/// The number where there are too many clauses or events.
const TOO_MANY: u8 = 13;

/// Whether two of the steps have the same event.
fn has_twins(alloc: Global, steps: &[Step]) -> Result<bool, NoMemory>
    ensures { IfOk result (λ r. IsTrue r ↔ HaveTwins (steps_of steps.now)) }
{
    let mut seen = BTreeSet::new(alloc);
    'steps: for step in steps {
        let key = event_key(alloc, &step.event)?;
        if !seen.insert(key)? {
            return Ok(true);
        }
    }
    Ok(false)
}

/// Whether the clause is an order with two events that are the same.
fn repeats(alloc: Global, clause: &Clause) -> Result<bool, NoMemory>
    ensures { IfOk result (λ r. IsTrue r ↔ Repeats (clause_of clause.now)) }
{
    match clause {
        Clause::Order(steps) => has_twins(alloc, &steps.0),
        Clause::Exclusive(_) => Ok(false),
        Clause::Unilateral(_) => Ok(false),
    }
}

/// How many events a region has; a whole function is one.
fn region_events(region: &Region) -> usize
    ensures { result ≡ region_events (region_of region.now) }
{
    match region {
        Region::Between(entries, exits) => entries.0.len() + exits.0.len(),
        Region::Whole(_, _) => 1,
    }
}

/// How many more events there may be behind these regions; `None` where there are too many in them.
fn room_behind_regions(room: usize, regions: &[Region]) -> Option<usize>
    ensures { result ≡ less room (regions_events (regions_of regions.now)) }
{
    let mut left = room;
    'regions: for region in regions {
        match left.checked_sub(region_events(region)) {
            Some(less) => left = less,
            None => return None,
        }
    }
    Some(left)
}

/// How many more events there may be behind a clause; `None` where there are too many in it.
fn room_behind(room: usize, clause: &Clause) -> Option<usize>
    ensures { result ≡ room_behind room (clause_of clause.now) }
{
    match clause {
        Clause::Order(steps) => room.checked_sub(steps.0.len()),
        Clause::Exclusive(regions) => room_behind_regions(room, &regions.0),
        Clause::Unilateral(region) => room.checked_sub(region_events(region)),
    }
}

/// How many more events there may be behind the clause of this number; `None` where the clause is too much.
fn room_beyond(number: u8, room: usize, clause: &Clause) -> Option<usize>
    requires number { number ≤ 9 }
    requires room { room ≤ 32 }
    ensures { TellsRoom number room (clause_of clause.now) result }
{
    if number > CLAUSE_LIMIT {
        return None;
    }
    room_behind(room, clause)
}

/// What is wrong with the form of a clause, if anything is: the number.
fn form_fault(alloc: Global, clause: &CountedClause) -> Result<Option<u8>, NoMemory>
    ensures { IfOk result (TellsForm (clause_with clause.now)) }
{
    if clause.is_miscounted {
        Ok(Some(COUNT_MISPLACED))
    } else if repeats(alloc, &clause.clause)? {
        Ok(Some(ORDER_REPEATS))
    } else {
        Ok(None)
    }
}

/// The first fault of clauses: of the least clause that has one, the least number. An `Err` is want of memory.
pub(crate) fn first_fault(
    alloc: Global,
    clauses: &[CountedClause],
) -> Result<Option<FilterRefusal>, NoMemory>
    ensures { IfOk result (λ r. TellsFault 1 0 (clauses_with clauses.now) (fault_if r)) }
{
    let mut number: u8 = 1;
    let mut room = EVENT_LIMIT;
    'clauses: for read in clauses {
        if let Some(fault) = form_fault(alloc, read)? {
            return Ok(Some(FilterRefusal::new(number, fault)));
        }
        match room_beyond(number, room, &read.clause) {
            Some(left) => {
                room = left;
                number += 1;
            }
            None => return Ok(Some(FilterRefusal::new(number, TOO_MANY))),
        }
    }
    Ok(None)
}
