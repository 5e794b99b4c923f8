//! What is watched at each place. An `Err` is want of memory throughout.
ghost use Rattle.std.specs.Prelude.{◌≡◌, ◌<◌, ◌≤◌, ◌+◌, ◌∷◌, ◌++◌, [], ℕ, suc, List, Some, None, IfOk, OnOk, length};
ghost use Rattle.loom_tree.specs.Tree.{body_of, function_of, functions_of};
ghost use Rattle.loom_lang.specs.Limits.{local_limit, function_limit};
ghost use Rattle.loom_lang.specs.Places.{places, places_from, body_places};
ghost use Rattle.loom_lang.specs.Rules.{locals_of};
ghost use Rattle.loom_command.specs.FilterFault.{most_events};
ghost use Rattle.loom_law.specs.Filter.{function, is_site};
ghost use Rattle.loom_plan.specs.Sets.{event_numbers};
ghost use Rattle.loom_plan.specs.PlanView.{site_of, event_watch_of, watches_of, plan_of_rows};
ghost use Rattle.loom_plan.specs.PlaceEvents.{watched_from, picks_from, names_from, place_names, ArePicks, IsWatchRow, AreRows};
ghost use Rattle.loom_plan.specs.Table.{site_if, sites_of, sites_at, inner_places, AreSiteRows, same_names, GoOn, pick_if, HasPick, HaveFewLocals};

use crate::plan::{EventSite, EventWatch, Pick, WatchRow};
use crate::sets::EventSet;
use crate::test::numbered_if;
use loom_lang::locals::locals;
use loom_lang::program::Program;
use loom_tree::name::NoMemory;
use loom_tree::statement::{Func, Kind, Names, Stmts};
use std::alloc::Global;

fn is_function(f: Option<u8>, g: Option<u8>) -> bool
    ensures { result ≡ is_site (function f) (function g) }
{
    match f {
        None => false,
        Some(f) => match g {
            None => false,
            Some(g) => g == f,
        },
    }
}

// Whether an event with the second site begins at the first.
fn is_site(at: EventSite, site: EventSite) -> bool
    ensures { result ≡ is_site (site_of at) (site_of site) }
{
    match at {
        EventSite::Statement(l) => match site {
            EventSite::Statement(m) => m == l,
            EventSite::Function(_) => false,
        },
        EventSite::Function(f) => match site {
            EventSite::Statement(_) => false,
            EventSite::Function(g) => is_function(f, g),
        },
    }
}

// The events that begin at a site.
fn watched(events: &[EventWatch], at: EventSite) -> EventSet
    requires { length events.now ≤ most_events }
    ensures { event_numbers result ≡ watched_from 1 (site_of at) (watches_of events.now) }
{
    let mut found = EventSet::none();
    let mut n = events.len();
    'down: while n > 0 {
        let x = n as u8;
        n -= 1;
        found.put_if(x, is_site(at, events[n].site));
    }
    found
}

fn put_pick(
    alloc: Global,
    picks: &mut Vec<Pick>,
    names: &Names,
    at: EventSite,
    n: u8,
    x: &EventWatch,
) -> Result<(), NoMemory>
    requires { length names.now ≤ local_limit }
    ensures { OnOk result (HasPick names.now picks.old.items picks.new.items (pick_if (site_of at) n (event_watch_of x.now))) }
{
    if is_site(at, x.site) {
        let test = numbered_if(alloc, names, &x.test)?;
        picks.push(Pick { event: n, test })?;
    }
    Ok(())
}

fn picks(
    alloc: Global,
    events: &[EventWatch],
    names: &Names,
    at: EventSite,
) -> Result<Vec<Pick>, NoMemory>
    requires events { length events.now ≤ most_events }
    requires names { length names.now ≤ local_limit }
    ensures { IfOk result (λ v. ArePicks names.now v.items (picks_from 1 (site_of at) (watches_of events.now))) }
{
    let mut picks = Vec::new(alloc);
    'put: for (i, x) in events.iter().enumerate() {
        put_pick(alloc, &mut picks, names, at, i as u8 + 1, x)?;
    }
    Ok(picks)
}

fn row(
    alloc: Global,
    events: &[EventWatch],
    names: &Names,
    at: Option<EventSite>,
) -> Result<WatchRow, NoMemory>
    requires events { length events.now ≤ most_events }
    requires names { length names.now ≤ local_limit }
    ensures { IfOk result (λ row. IsWatchRow (plan_of_rows events.now []) names.now (site_if at) row) }
{
    match at {
        None => Ok(WatchRow {
            events: EventSet::none(),
            picks: Vec::new(alloc),
        }),
        Some(at) => Ok(WatchRow {
            events: watched(events, at),
            picks: picks(alloc, events, names, at)?,
        }),
    }
}

fn put_row(
    alloc: Global,
    rows: &mut Vec<WatchRow>,
    events: &[EventWatch],
    names: &Names,
    at: Option<EventSite>,
) -> Result<(), NoMemory>
    requires events { length events.now ≤ most_events }
    requires names { length names.now ≤ local_limit }
    ensures { OnOk result (GoOn (plan_of_rows events.now []) rows.old.items rows.new.items (names.now ∷ []) (site_if at ∷ [])) }
{
    let row = row(alloc, events, names, at)?;
    rows.push(row)?;
    Ok(())
}

fn put_rows(
    alloc: Global,
    rows: &mut Vec<WatchRow>,
    events: &[EventWatch],
    names: &Names,
    sites: &[Option<EventSite>],
) -> Result<(), NoMemory>
    requires events { length events.now ≤ most_events }
    requires names { length names.now ≤ local_limit }
    ensures { OnOk result (GoOn (plan_of_rows events.now []) rows.old.items rows.new.items (same_names names.now (sites_of sites.now)) (sites_of sites.now)) }
{
    'put: for site in sites {
        put_row(alloc, rows, events, names, *site)?;
    }
    Ok(())
}

/// The sites of the places of statements, those in blocks too.
#[cycle(tables)]
fn put_body(sites: &mut Vec<Option<EventSite>>, body: &Stmts) -> Result<(), NoMemory>
    ensures { OnOk result (sites_of sites.new.items ≡ sites_of sites.old.items ++ sites_at (body_places (body_of body.now))) }
{
    let mut at = body;
    'walk: while let Stmts::More(first, rest) = at {
        sites.push(Some(EventSite::Statement(first.line)))?;
        put_inner(sites, &first.kind)?;
        at = rest;
    }
    Ok(())
}

#[cycle(tables)]
fn put_inner(sites: &mut Vec<Option<EventSite>>, kind: &Kind) -> Result<(), NoMemory>
    ensures { OnOk result (sites_of sites.new.items ≡ sites_of sites.old.items ++ sites_at (inner_places kind.now)) }
{
    match kind {
        Kind::Let(_, _) => Ok(()),
        Kind::Set(_, _) => Ok(()),
        Kind::SetCell(_, _, _) => Ok(()),
        Kind::If(_, a, b) => {
            put_body(sites, a)?;
            put_body(sites, b)?;
            Ok(())
        }
        Kind::While(_, a) => {
            sites.push(None)?;
            put_body(sites, a)?;
            Ok(())
        }
        Kind::Call(_, _) => Ok(()),
        Kind::Return(_) => Ok(()),
        Kind::Lock(_) => Ok(()),
        Kind::Unlock(_) => Ok(()),
        Kind::Down(_) => Ok(()),
        Kind::Up(_) => Ok(()),
        Kind::Join(_) => Ok(()),
        Kind::Print(_) => Ok(()),
        Kind::Skip => Ok(()),
    }
}

fn sites(alloc: Global, n: u8, f: &Func) -> Result<Vec<Option<EventSite>>, NoMemory>
    ensures { IfOk result (λ v. sites_of v.items ≡ sites_at (places_from n (function_of f.now ∷ []))) }
{
    let mut sites = Vec::new(alloc);
    sites.push(Some(EventSite::Function(Some(n))))?;
    put_body(&mut sites, &f.body)?;
    sites.push(None)?;
    Ok(sites)
}

fn put_function(
    alloc: Global,
    rows: &mut Vec<WatchRow>,
    events: &[EventWatch],
    n: u8,
    f: &Func,
) -> Result<(), NoMemory>
    requires events { length events.now ≤ most_events }
    requires locals { length (locals_of (function_of f.now)) ≤ local_limit }
    ensures { OnOk result (GoOn (plan_of_rows events.now []) rows.old.items rows.new.items (names_from (function_of f.now ∷ [])) (sites_at (places_from n (function_of f.now ∷ [])))) }
{
    let names = locals(alloc, f)?;
    let sites = sites(alloc, n, f)?;
    put_rows(alloc, rows, events, &names, &sites)?;
    Ok(())
}

/// A row for each place of the program.
pub fn rows(
    alloc: Global,
    events: &[EventWatch],
    program: &Program,
) -> Result<Vec<WatchRow>, NoMemory>
    requires { length events.now ≤ most_events }
    ensures { IfOk result (λ v. AreRows (plan_of_rows events.now []) (place_names program.now) (places program.now) v.items) }
{
    let none = Names(Vec::new(alloc));
    let mut rows = Vec::new(alloc);
    put_row(alloc, &mut rows, events, &none, None)?;
    put_functions(alloc, &mut rows, events, &program.funcs().0)?;
    Ok(rows)
}

fn put_functions(
    alloc: Global,
    rows: &mut Vec<WatchRow>,
    events: &[EventWatch],
    funcs: &[Func],
) -> Result<(), NoMemory>
    requires events { length events.now ≤ most_events }
    requires few { length funcs.now ≤ function_limit }
    requires locals { HaveFewLocals (functions_of funcs.now) }
    ensures { OnOk result (GoOn (plan_of_rows events.now []) rows.old.items rows.new.items (names_from (functions_of funcs.now)) (sites_at (places_from 0 (functions_of funcs.now)))) }
{
    'put: for (i, f) in funcs.iter().enumerate() {
        put_function(alloc, rows, events, i as u8, f)?;
    }
    Ok(())
}
