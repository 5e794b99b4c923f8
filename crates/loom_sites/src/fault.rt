//! Why a filter is refused for its paths.
ghost use Rattle.std.specs.Prelude.{◌≡◌};
ghost use Rattle.loom_filter.specs.FilterError.{fault_if};
ghost use Rattle.loom_sites.specs.Faults.{is_reentered, has_reentered, are_nested, nests_among, has_nested, area_fault, first_among};

use crate::area::Area;
use loom_filter::parse::FilterRefusal;

/// The number of a region that calls inside it enter again.
const REENTERED: u8 = 7;

/// The number of two regions of a clause that nest.
const NESTED: u8 = 8;

fn is_reentered(area: &Area) -> bool
    ensures { result ≡ is_reentered area.now }
{
    area.contents.functions & area.contents.calls != 0
}

fn has_reentered(areas: &[Area], clause: u8) -> bool
    ensures { result ≡ has_reentered areas.now clause }
{
    'areas: for area in areas {
        if area.clause == clause && is_reentered(area) {
            return true;
        }
    }
    false
}

/// Whether an entry event of one can begin inside the other.
fn are_nested(a: &Area, b: &Area) -> bool
    ensures { result ≡ are_nested a.now b.now }
{
    b.entries.meets(a.contents.events) || a.entries.meets(b.contents.events)
}

fn nests_among(area: &Area, others: &[Area]) -> bool
    ensures { result ≡ nests_among area.now others.now }
{
    'others: for other in others {
        if other.clause == area.clause && are_nested(area, other) {
            return true;
        }
    }
    false
}

fn has_nested(areas: &[Area], clause: u8) -> bool
    ensures { result ≡ has_nested areas.now clause }
{
    'areas: for (i, area) in areas.iter().enumerate() {
        if area.clause == clause && nests_among(area, &areas[i + 1..]) {
            return true;
        }
    }
    false
}

fn area_fault(areas: &[Area], clause: u8) -> Option<u8>
    ensures { result ≡ area_fault areas.now clause }
{
    if has_reentered(areas, clause) {
        return Some(REENTERED);
    }
    if has_nested(areas, clause) {
        return Some(NESTED);
    }
    None
}

/// The first fault of a filter of so many clauses, whose regions are these.
pub fn first_fault(areas: &[Area], clauses: u8) -> Option<FilterRefusal>
    ensures { fault_if result ≡ first_among areas.now 1 clauses }
{
    'clauses: for i in 0..clauses {
        let clause = i + 1;
        if let Some(number) = area_fault(areas, clause) {
            return Some(FilterRefusal { clause, number });
        }
    }
    None
}
