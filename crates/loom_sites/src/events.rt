//! Where events begin, and the places that are unsafe by them.
ghost use Rattle.std.specs.Prelude.{◌≡◌, ◌<◌, ◌≤◌, ◌-◌, ◌||◌, [], suc, ℕ, Some, length};
ghost use Rattle.loom_lang.specs.Places as place;
ghost use Rattle.loom_trace.specs.Limits.{place_limit};
ghost use Rattle.loom_trace.specs.Places.{has_place};
ghost use Rattle.loom_law.specs.Filter as law;
ghost use Rattle.loom_law.specs.Filter.{has, is_site};
ghost use Rattle.loom_command.specs.FilterFault.{most_events};
ghost use Rattle.loom_plan.specs.Sets.{event_numbers};
ghost use Rattle.loom_plan.specs.PlanView.{plan_of_rows, site_of};
ghost use Rattle.loom_sites.specs.Rows.{IsTable, meets_at, any_meets, any_run};
ghost use Rattle.loom_sites.specs.Functions.{has_function};
ghost use Rattle.loom_sites.specs.Events.{watched_at, begins_there, is_untested, is_frame_event, is_between, is_out, is_unsafe_at, has_event, makes_unsafe, calls_here, calls_by_event};

use crate::calls::with_call;
use crate::links::{PlaceLinks, is_return, is_statement};
use crate::node::node_number;
use loom_plan::compiled::Compiled;
use loom_plan::plan::{EventSite, EventWatch};
use loom_plan::sets::EventSet;
use loom_trace::places::Places;

/// The events that begin at a place.
pub fn watched_at(c: &Compiled, k: u16) -> EventSet
    requires { k < length (place.places c.now.program) }
    ensures { event_numbers result ≡ watched_at c.now.program c.now.plan k }
{
    c.watched(k)
}

/// Those of these events that have no test, by their numbers from 1 on.
fn bare_events_in(events: &[EventWatch]) -> EventSet
    requires { length events.now ≤ most_events }
    ensures { (n : ℕ) → has (event_numbers result) n ≡ is_untested (plan_of_rows events.now []) n }
{
    let mut found = EventSet::none();
    'events: for (i, event) in events.iter().enumerate() {
        found.put_if(i as u8 + 1, event.test.is_none());
    }
    found
}

/// The events without a test.
pub fn bare_events(c: &Compiled) -> EventSet
    ensures { (n : ℕ) → has (event_numbers result) n ≡ is_untested c.now.plan n }
{
    bare_events_in(c.watches())
}

/// Whether frames of the function begin at the site.
fn is_frame(site: EventSite, f: u8) -> bool
    ensures { result ≡ is_site (law.function (Some f)) (site_of site) }
{
    match site {
        EventSite::Statement(_) => false,
        EventSite::Function(None) => false,
        EventSite::Function(Some(g)) => g == f,
    }
}

/// Those of these events at which a frame of the function begins.
fn frame_events_in(events: &[EventWatch], f: u8) -> EventSet
    requires { length events.now ≤ most_events }
    ensures { (n : ℕ) → has (event_numbers result) n ≡ is_frame_event (plan_of_rows events.now []) f n }
{
    let mut found = EventSet::none();
    'events: for (i, event) in events.iter().enumerate() {
        found.put_if(i as u8 + 1, is_frame(event.site, f));
    }
    found
}

/// The events at which a frame of the function begins.
pub fn frame_events(c: &Compiled, f: u8) -> EventSet
    ensures { (n : ℕ) → has (event_numbers result) n ≡ is_frame_event c.now.plan f n }
{
    frame_events_in(c.watches(), f)
}

/// Whether a statement with one of these events begins at the place.
fn begins_there(c: &Compiled, events: EventSet, k: u16, row: &PlaceLinks) -> bool
    requires { k < length (place.places c.now.program) }
    ensures { result ≡ begins_there c.now.program c.now.plan (event_numbers events) k row.now }
{
    is_statement(row.kind) && watched_at(c, k).meets(events)
}

/// The places of the statements at which one of these events begins, whatever its test.
pub fn event_places(c: &Compiled, links: &[PlaceLinks], events: EventSet) -> Places
    requires table { IsTable links.now }
    requires all { length links.now ≡ length (place.places c.now.program) }
    ensures { (k : ℕ) → has_place result k ≡ meets_at (begins_there c.now.program c.now.plan (event_numbers events)) links.now k }
{
    let mut found = Places::none();
    'places: for (k, row) in links.iter().enumerate() {
        if begins_there(c, events, k as u16, row) {
            found.put(k as u16);
        }
    }
    found
}

/// Adds these places, from the first on and before the second.
fn put_run(places: &mut Places, first: u16, end: u16)
    requires { end ≤ place_limit }
    ensures { (k : ℕ) → has_place places.new k ≡ (has_place places.old k || is_between first end k) }
{
    'places: for k in first..end {
        places.put(k);
    }
}

/// The functions that the statements at these places call themselves.
fn calls_in(links: &[PlaceLinks], first: u16, end: u16) -> u64
    requires table { IsTable links.now }
    requires within { end ≤ length links.now }
    ensures { (g : ℕ) → has_function result g ≡ any_run (calls_here g) links.now first (end - first) }
{
    let mut bits = 0;
    'places: for k in first..end {
        bits = with_call(bits, links[k as usize].kind);
    }
    bits
}

/// Adds the place behind each `return` at these places.
fn put_outs(places: &mut Places, links: &[PlaceLinks], first: u16, end: u16)
    requires table { IsTable links.now }
    requires within { end ≤ length links.now }
    ensures { (k : ℕ) → has_place places.new k ≡ (has_place places.old k || any_run (is_out k) links.now first (end - first)) }
{
    'places: for k in first..end {
        let row = links[k as usize];
        if is_return(row.kind) {
            places.put(node_number(row.behind));
        }
    }
}

/// Adds what is unsafe by an event at the statement of these places, but for the functions that calls reach.
fn put_event(places: &mut Places, links: &[PlaceLinks], first: u16, end: u16)
    requires table { IsTable links.now }
    requires first { first < length links.now }
    requires within { end ≤ length links.now }
    ensures { (k : ℕ) → has_place places.new k ≡ (has_place places.old k || is_unsafe_at links.now first end k) }
{
    put_run(places, first, end);
    put_outs(places, links, first + 1, end);
}

/// Whether a statement with an event begins at the place.
fn has_event(c: &Compiled, k: u16, row: &PlaceLinks) -> bool
    requires { k < length (place.places c.now.program) }
    ensures { result ≡ has_event c.now.program c.now.plan k row.now }
{
    is_statement(row.kind) && !watched_at(c, k).is_empty()
}

/// Adds what is unsafe by events, but for the functions that calls reach. The answer is the functions that the statements call themselves.
pub fn put_events(places: &mut Places, c: &Compiled, links: &[PlaceLinks]) -> u64
    requires table { IsTable links.now }
    requires all { length links.now ≡ length (place.places c.now.program) }
    ensures places { (k : ℕ) → has_place places.new k ≡ (has_place places.old k || any_meets (makes_unsafe c.now.program c.now.plan links.now k) 0 links.now) }
    ensures calls { (g : ℕ) → has_function result g ≡ any_meets (calls_by_event c.now.program c.now.plan links.now g) 0 links.now }
{
    let mut bits = 0;
    'places: for (k, row) in links.iter().enumerate() {
        if has_event(c, k as u16, row) {
            put_event(places, links, k as u16, row.end);
            bits |= calls_in(links, k as u16, row.end);
        }
    }
    bits
}
