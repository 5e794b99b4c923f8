//! What lies inside regions. An `Err` is want of memory throughout.
ghost use Rattle.std.specs.Prelude.{◌≡◌, ◌<◌, ◌≤◌, ◌↔◌, ◌&&◌, ◌||◌, ℕ, Some, nat_lt, suc, OnOk, IfOk, IsTrue, length};
ghost use Rattle.std.specs.List.{Contains};
ghost use Rattle.loom_lang.specs.Places as place;
ghost use Rattle.loom_lang.specs.Limits.{function_limit};
ghost use Rattle.loom_trace.specs.Limits.{place_limit};
ghost use Rattle.loom_trace.specs.Places.{has_place};
ghost use Rattle.loom_law.specs.Filter as law;
ghost use Rattle.loom_law.specs.Filter.{has, entry_events};
ghost use Rattle.loom_law.specs.FilterRefusal.{IsWholeOf};
ghost use Rattle.loom_plan.specs.Sets.{event_numbers};
ghost use Rattle.loom_plan.specs.PlanView.{range_of, regions_in};
ghost use Rattle.loom_plan.specs.PlanParts.{plan_regions};
ghost use Rattle.loom_sites.specs.declared.links.PlaceLinks.{PlaceLinks};
ghost use Rattle.loom_sites.specs.Links.{program_rows};
ghost use Rattle.loom_sites.specs.Rows.{IsTable, meets_at, any_meets};
ghost use Rattle.loom_sites.specs.Functions.{has_function};
ghost use Rattle.loom_sites.specs.Areas.{has_its_node, turns_there, has_inside, is_own, IsOwnNumber, TellsContents, IsEventNumber, TellsArea, AreAreas, IsOwnAmong, AreWith, any_calls};

use crate::calls::{bit, calls_at, functions_at, has_function, reached_functions};
use crate::events::{bare_events, event_places, frame_events, watched_at};
use crate::links::{PlaceLinks, is_entry, is_turn};
use crate::reach::{NodeSet, reach};
use loom_flow::flow::Flow;
use loom_plan::compiled::Compiled;
use loom_plan::plan::{EventSite, RegionRow, RegionSpan};
use loom_plan::sets::EventSet;
use loom_trace::places::Places;
use loom_tree::name::NoMemory;
use std::alloc::Global;

/// What lies inside a region.
#[derive(Clone, Copy, Debug, Drop, PartialEq, Eq)]
pub struct AreaContents {
    /// The functions in which the region lies.
    pub functions: u64,
    /// Those that calls inside reach.
    pub calls: u64,
    /// The events that can begin inside.
    pub events: EventSet,
}

/// A region, with what lies inside.
#[derive(Clone, Copy, Debug, Drop, PartialEq, Eq)]
pub struct Area {
    /// The number of its clause.
    pub clause: u8,
    /// The events at which it is entered.
    pub entries: EventSet,
    /// What lies inside.
    pub contents: AreaContents,
}

/// Whether one of these nodes has the place.
fn has_its_node(reached: &NodeSet, k: u16) -> bool
    requires { k < place_limit }
    ensures { (row : PlaceLinks) → result ≡ has_its_node reached.now k row }
{
    reached.starts.has(k) || reached.completions.has(k)
}

/// Adds the places of these nodes.
fn put_nodes(places: &mut Places, links: &[PlaceLinks], reached: &NodeSet)
    requires { IsTable links.now }
    ensures { (k : ℕ) → has_place places.new k ≡ (has_place places.old k || meets_at (has_its_node reached.now) links.now k) }
{
    'places: for k in 0..links.len() as u16 {
        if has_its_node(reached, k) {
            places.put(k);
        }
    }
}

/// Whether a loop turns at the place.
fn turns_there(reached: &NodeSet, k: u16, row: &PlaceLinks) -> bool
    requires { k < place_limit }
    ensures { result ≡ turns_there reached.now k row.now }
{
    reached.starts.has(k) && is_turn(row.kind)
}

/// Adds the own place of each loop that turns.
fn put_turns(places: &mut Places, links: &[PlaceLinks], reached: &NodeSet)
    requires { IsTable links.now }
    ensures { (k : ℕ) → has_place places.new k ≡ (has_place places.old k || meets_at (turns_there reached.now) links.now (suc k)) }
{
    'places: for (k, row) in links.iter().enumerate() {
        if k > 0 && turns_there(reached, k as u16, row) {
            places.put(k as u16 - 1);
        }
    }
}

/// Whether the place is one of these, or one of these functions.
fn is_inside(places: &Places, calls: u64, k: u16, row: &PlaceLinks) -> bool
    requires place { k < place_limit }
    requires function { row.now.function < function_limit }
    ensures { result ≡ (has_place places.now k || has_function calls row.now.function) }
{
    places.has(k) || has_function(calls, row.function)
}

/// The events that begin at these places, or at those of these functions.
fn events_at(c: &Compiled, links: &[PlaceLinks], places: &Places, calls: u64) -> EventSet
    requires table { IsTable links.now }
    requires all { length links.now ≡ length (place.places c.now.program) }
    ensures { (n : ℕ) → has (event_numbers result) n ≡ any_meets (has_inside c.now.program c.now.plan places.now calls n) 0 links.now }
{
    let mut found = EventSet::none();
    'places: for (k, row) in links.iter().enumerate() {
        if is_inside(places, calls, k as u16, row) {
            found = found.with(watched_at(c, k as u16));
        }
    }
    found
}

fn between(
    alloc: Global,
    flow: &Flow,
    c: &Compiled,
    links: &[PlaceLinks],
    entries: EventSet,
    exits: EventSet,
    places: &mut Places,
) -> Result<AreaContents, NoMemory>
    requires program { c.now.program ≡ flow.now.program }
    requires table { links.now ≡ program_rows flow.now.program }
    ensures contents { IfOk result (λ x. TellsContents flow.now.program c.now.plan (law.between (event_numbers entries) (event_numbers exits)) x) }
    ensures places { OnOk result (AreWith (IsOwnNumber flow.now.program c.now.plan (law.between (event_numbers entries) (event_numbers exits))) places.old places.new) }
{
    // Where a program is read, it is known to keep the rules.
    let _program = flow.program();
    let starts = event_places(c, links, entries);
    let halts = event_places(c, links, exits.both(bare_events(c)));
    let reached = reach(alloc, links, &starts, &halts)?;
    put_nodes(places, links, &reached);
    put_turns(places, links, &reached);
    let calls = reached_functions(flow, calls_at(links, &reached.starts));
    Ok(AreaContents {
        functions: functions_at(links, &starts),
        calls,
        events: events_at(c, links, &reached.starts, calls),
    })
}

/// Nothing but these events.
fn nothing(events: EventSet) -> AreaContents
    ensures { result ≡ record { functions = 0; calls = 0; events = events } }
{
    AreaContents {
        functions: 0,
        calls: 0,
        events,
    }
}

/// Whether the place is one of the function, but not its entry place.
fn is_own(f: u8, row: &PlaceLinks) -> bool
    ensures { (k : ℕ) → result ≡ is_own f k row.now }
{
    row.function == f && !is_entry(row.kind)
}

/// The places of the function, but for its entry place.
fn own_places(links: &[PlaceLinks], f: u8) -> Places
    requires { IsTable links.now }
    ensures { (k : ℕ) → has_place result k ≡ meets_at (is_own f) links.now k }
{
    let mut found = Places::none();
    'places: for (k, row) in links.iter().enumerate() {
        if is_own(f, row) {
            found.put(k as u16);
        }
    }
    found
}

/// Adds those of these places that are below the number.
fn put_all(places: &mut Places, more: &Places, count: u16)
    requires { count ≤ place_limit }
    ensures { (k : ℕ) → has_place places.new k ≡ (has_place places.old k || (nat_lt k count && has_place more.now k)) }
{
    'places: for k in 0..count {
        if more.has(k) {
            places.put(k);
        }
    }
}

/// The region that is a function.
fn frame(
    flow: &Flow,
    c: &Compiled,
    links: &[PlaceLinks],
    f: u8,
    places: &mut Places,
) -> AreaContents
    requires program { c.now.program ≡ flow.now.program }
    requires table { links.now ≡ program_rows flow.now.program }
    ensures contents { (n : ℕ) → IsWholeOf c.now.plan n f → TellsContents flow.now.program c.now.plan (law.whole n) result }
    ensures places { (n : ℕ) → IsWholeOf c.now.plan n f → AreWith (IsOwnNumber flow.now.program c.now.plan (law.whole n)) places.old places.new }
{
    let own_events = frame_events(c, f);
    if f as usize >= flow.program().funcs().0.len() {
        return nothing(own_events);
    }
    let own = own_places(links, f);
    put_all(places, &own, links.len() as u16);
    let calls = reached_functions(flow, flow.calls_of(f));
    AreaContents {
        functions: bit(f),
        calls,
        events: own_events.with(events_at(c, links, &own, calls)),
    }
}

/// The function where an event begins with a frame.
fn whole_function(c: &Compiled, n: u8) -> Option<u8>
    ensures { (g : ℕ) → (result ≡ Some g) ↔ IsWholeOf c.now.plan n g }
{
    if n == 0 || n > c.events() {
        return None;
    }
    match c.watches()[n as usize - 1].site {
        EventSite::Statement(_) => None,
        EventSite::Function(f) => f,
    }
}

fn whole(
    flow: &Flow,
    c: &Compiled,
    links: &[PlaceLinks],
    n: u8,
    places: &mut Places,
) -> AreaContents
    requires program { c.now.program ≡ flow.now.program }
    requires table { links.now ≡ program_rows flow.now.program }
    ensures contents { TellsContents flow.now.program c.now.plan (law.whole n) result }
    ensures places { AreWith (IsOwnNumber flow.now.program c.now.plan (law.whole n)) places.old places.new }
{
    match whole_function(c, n) {
        None => nothing(EventSet::none()),
        Some(f) => frame(flow, c, links, f, places),
    }
}

fn contents_of(
    alloc: Global,
    flow: &Flow,
    c: &Compiled,
    links: &[PlaceLinks],
    span: RegionSpan,
    places: &mut Places,
) -> Result<AreaContents, NoMemory>
    requires program { c.now.program ≡ flow.now.program }
    requires table { links.now ≡ program_rows flow.now.program }
    ensures contents { IfOk result (λ x. TellsContents flow.now.program c.now.plan (range_of span) x) }
    ensures places { OnOk result (AreWith (IsOwnNumber flow.now.program c.now.plan (range_of span)) places.old places.new) }
{
    match span {
        RegionSpan::Between(entries, exits) => between(
            alloc, flow, c, links, entries, exits, places,
        ),
        RegionSpan::Whole(n) => Ok(whole(flow, c, links, n, places)),
    }
}

fn entry_set(span: RegionSpan) -> EventSet
    ensures { (n : ℕ) → IsEventNumber n → IsTrue (has (event_numbers result) n) ↔ Contains (entry_events (range_of span)) n }
{
    match span {
        RegionSpan::Between(entries, _) => entries,
        RegionSpan::Whole(n) => {
            let mut own = EventSet::none();
            if 0 < n && n <= 32 {
                own.put(n);
            }
            own
        }
    }
}

fn area_of(
    alloc: Global,
    flow: &Flow,
    c: &Compiled,
    links: &[PlaceLinks],
    row: RegionRow,
    places: &mut Places,
) -> Result<Area, NoMemory>
    requires program { c.now.program ≡ flow.now.program }
    requires table { links.now ≡ program_rows flow.now.program }
    ensures area { IfOk result (λ x. TellsArea flow.now.program c.now.plan row.clause (range_of row.span) x) }
    ensures places { OnOk result (AreWith (IsOwnNumber flow.now.program c.now.plan (range_of row.span)) places.old places.new) }
{
    let contents = contents_of(alloc, flow, c, links, row.span, places)?;
    Ok(Area {
        clause: row.clause,
        entries: entry_set(row.span),
        contents,
    })
}

fn areas_of(
    alloc: Global,
    flow: &Flow,
    c: &Compiled,
    links: &[PlaceLinks],
    regions: &[RegionRow],
    places: &mut Places,
) -> Result<Vec<Area>, NoMemory>
    requires program { c.now.program ≡ flow.now.program }
    requires table { links.now ≡ program_rows flow.now.program }
    ensures areas { IfOk result (λ v. AreAreas flow.now.program c.now.plan (regions_in regions.now) v.items) }
    ensures places { OnOk result (AreWith (IsOwnAmong flow.now.program c.now.plan (regions_in regions.now)) places.old places.new) }
{
    let mut areas = Vec::new(alloc);
    'regions: for row in regions {
        areas.push(area_of(alloc, flow, c, links, *row, places)?)?;
    }
    Ok(areas)
}

/// The regions of the filter. Adds their own places.
pub fn areas(
    alloc: Global,
    flow: &Flow,
    c: &Compiled,
    links: &[PlaceLinks],
    places: &mut Places,
) -> Result<Vec<Area>, NoMemory>
    requires program { c.now.program ≡ flow.now.program }
    requires table { links.now ≡ program_rows flow.now.program }
    ensures areas { IfOk result (λ v. AreAreas flow.now.program c.now.plan (plan_regions c.now.plan) v.items) }
    ensures places { OnOk result (AreWith (IsOwnAmong flow.now.program c.now.plan (plan_regions c.now.plan)) places.old places.new) }
{
    areas_of(alloc, flow, c, links, c.regions(), places)
}

/// The functions that calls inside one of these reach.
pub fn all_calls(areas: &[Area]) -> u64
    ensures { (g : ℕ) → has_function result g ≡ any_calls areas.now g }
{
    let mut bits = 0;
    'areas: for area in areas {
        bits |= area.contents.calls;
    }
    bits
}
