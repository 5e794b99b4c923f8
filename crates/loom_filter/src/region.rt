//! Reads a region.
ghost use Rattle.std.specs.Prelude.{◌≡◌, ◌∷◌, ◌++◌, [], IfOk};
ghost use Rattle.loom_filter.specs.View.{events_of, test_of};
ghost use Rattle.loom_filter.specs.Builders.{plain, plain_between, plain_function, events_tree, is_counted};
ghost use Rattle.loom_filter.specs.ReaderView.{token_of, counted_of, counts_of, step_reader_of, step_if, region_with, region_with_if, region_reader, region_if};
ghost use Rattle.loom_filter.specs.Machine as m;

use crate::filter::{Events, Region};
use crate::scan::{FilterSign, FilterToken};
use crate::step::{CountedEvent, StepReader, feed_step, finish_step, is_in_count};
use loom_tree::expression::Expr;
use loom_tree::name::{Name, NoMemory};
use std::alloc::Global;

/// A region, and whether a count is written in it.
#[derive(Debug, Drop)]
pub struct CountedRegion {
    /// The region.
    pub region: Region,
    /// Whether a count is written in it.
    pub is_counted: bool,
}

/// What was read of a region, named by what must follow.
#[derive(Debug, Drop)]
pub enum RegionReader {
    /// The name of a function, or `{`.
    Region,
    /// `()` behind the name of a function.
    Call(Name),
    /// A test, or what stands behind the region.
    Bare(Name),
    /// A step of those at which it is entered, behind these.
    Entries(Vec<CountedEvent>, StepReader),
    /// A step of those at which it is left: the steps at which it is entered, the last apart, and those before it.
    Exits(Vec<CountedEvent>, CountedEvent, Vec<CountedEvent>, StepReader),
    /// What stands behind the region.
    Whole(CountedRegion),
}

fn events_of(alloc: Global, steps: Vec<CountedEvent>) -> Result<Events, NoMemory>
    ensures { IfOk result (λ events. events_of events ≡ events_tree (counts_of steps.items)) }
{
    let mut events = Vec::new(alloc);
    'steps: for step in steps {
        events.push(step.event)?;
    }
    Ok(Events(events))
}

fn has_count(steps: &[CountedEvent]) -> bool
    ensures { result ≡ is_counted (counts_of steps.now) }
{
    'steps: for step in steps {
        if step.count.is_some() {
            return true;
        }
    }
    false
}

/// The region between these steps, the last ones apart.
fn between(
    alloc: Global,
    mut entries: Vec<CountedEvent>,
    last_entry: CountedEvent,
    mut exits: Vec<CountedEvent>,
    last_exit: CountedEvent,
) -> Result<CountedRegion, NoMemory>
    ensures { IfOk result (λ r. region_with r ≡ plain_between (counts_of entries.items) (counted_of last_entry) (counts_of exits.items) (counted_of last_exit)) }
{
    entries.push(last_entry)?;
    exits.push(last_exit)?;
    let is_counted = has_count(&entries) || has_count(&exits);
    let region = Region::Between(events_of(alloc, entries)?, events_of(alloc, exits)?);
    Ok(CountedRegion { region, is_counted })
}

fn function(name: Name, test: Option<Expr>) -> CountedRegion
    ensures { region_with result ≡ plain_function name (test_of test) }
{
    CountedRegion {
        region: Region::Whole(name, test),
        is_counted: false,
    }
}

fn region_sign(alloc: Global, sign: FilterSign) -> Option<RegionReader>
    ensures { region_if result ≡ m.region_sign sign }
{
    match sign {
        FilterSign::BraceOpen => Some(RegionReader::Entries(Vec::new(alloc), StepReader::File)),
        _ => None,
    }
}

fn region_step(alloc: Global, token: FilterToken) -> Option<RegionReader>
    ensures { region_if result ≡ m.feed_region plain m.Region (token_of token) }
{
    match token {
        FilterToken::Name(name) => Some(RegionReader::Call(name)),
        FilterToken::Word(_) => None,
        FilterToken::Sign(sign) => region_sign(alloc, sign),
        FilterToken::Test(_) => None,
    }
}

fn call_sign(name: Name, sign: FilterSign) -> Option<RegionReader>
    ensures { region_if result ≡ m.call_sign name sign }
{
    match sign {
        FilterSign::Call => Some(RegionReader::Bare(name)),
        _ => None,
    }
}

fn call_step(name: Name, token: FilterToken) -> Option<RegionReader>
    ensures { region_if result ≡ m.feed_region plain (m.Call name) (token_of token) }
{
    match token {
        FilterToken::Name(_) => None,
        FilterToken::Word(_) => None,
        FilterToken::Sign(sign) => call_sign(name, sign),
        FilterToken::Test(_) => None,
    }
}

fn bare_step(name: Name, token: FilterToken) -> Option<RegionReader>
    ensures { region_if result ≡ m.feed_region plain (m.Bare name) (token_of token) }
{
    match token {
        FilterToken::Name(_) => None,
        FilterToken::Word(_) => None,
        FilterToken::Sign(_) => None,
        FilterToken::Test(test) => Some(RegionReader::Whole(function(name, Some(test)))),
    }
}

/// The step goes on among the entries.
fn entry_by(entries: Vec<CountedEvent>, step: Option<StepReader>) -> Option<RegionReader>
    ensures { region_if result ≡ m.entries_by (counts_of entries.items) (step_if step) }
{
    match step {
        Some(step) => Some(RegionReader::Entries(entries, step)),
        None => None,
    }
}

/// The step goes on among the exits.
fn exit_by(
    entries: Vec<CountedEvent>,
    last: CountedEvent,
    exits: Vec<CountedEvent>,
    step: Option<StepReader>,
) -> Option<RegionReader>
    ensures { region_if result ≡ m.exit_by (counts_of entries.items) (counted_of last) (counts_of exits.items) (step_if step) }
{
    match step {
        Some(step) => Some(RegionReader::Exits(entries, last, exits, step)),
        None => None,
    }
}

fn entries_sign(
    alloc: Global,
    mut entries: Vec<CountedEvent>,
    step: StepReader,
    sign: FilterSign,
) -> Result<Option<RegionReader>, NoMemory>
    ensures { IfOk result (λ r. region_if r ≡ m.entries_sign plain (counts_of entries.items) (step_reader_of step) sign) }
{
    match sign {
        FilterSign::Comma => match finish_step(step) {
            Some(entry) => {
                entries.push(entry)?;
                Ok(Some(RegionReader::Entries(entries, StepReader::File)))
            }
            None => Ok(None),
        },
        FilterSign::Semicolon => match finish_step(step) {
            Some(entry) => Ok(Some(RegionReader::Exits(
                entries,
                entry,
                Vec::new(alloc),
                StepReader::File,
            ))),
            None => Ok(None),
        },
        _ => Ok(entry_by(entries, feed_step(step, FilterToken::Sign(sign)))),
    }
}

fn entries_step(
    alloc: Global,
    entries: Vec<CountedEvent>,
    step: StepReader,
    token: FilterToken,
) -> Result<Option<RegionReader>, NoMemory>
    ensures { IfOk result (λ r. region_if r ≡ m.entries_token plain (counts_of entries.items) (step_reader_of step) (token_of token)) }
{
    match token {
        FilterToken::Name(name) => Ok(entry_by(entries, feed_step(step, FilterToken::Name(name)))),
        FilterToken::Word(word) => Ok(entry_by(entries, feed_step(step, FilterToken::Word(word)))),
        FilterToken::Sign(sign) => entries_sign(alloc, entries, step, sign),
        FilterToken::Test(test) => Ok(entry_by(entries, feed_step(step, FilterToken::Test(test)))),
    }
}

fn exits_close(
    alloc: Global,
    entries: Vec<CountedEvent>,
    last: CountedEvent,
    exits: Vec<CountedEvent>,
    step: StepReader,
) -> Result<Option<RegionReader>, NoMemory>
    ensures { IfOk result (λ r. region_if r ≡ m.exits_close plain (counts_of entries.items) (counted_of last) (counts_of exits.items) (step_reader_of step)) }
{
    if is_in_count(&step) {
        let next = feed_step(step, FilterToken::Sign(FilterSign::BraceClose));
        return Ok(exit_by(entries, last, exits, next));
    }
    match finish_step(step) {
        Some(exit) => {
            let region = between(alloc, entries, last, exits, exit)?;
            Ok(Some(RegionReader::Whole(region)))
        }
        None => Ok(None),
    }
}

fn exits_sign(
    alloc: Global,
    entries: Vec<CountedEvent>,
    last: CountedEvent,
    mut exits: Vec<CountedEvent>,
    step: StepReader,
    sign: FilterSign,
) -> Result<Option<RegionReader>, NoMemory>
    ensures { IfOk result (λ r. region_if r ≡ m.exits_sign plain (counts_of entries.items) (counted_of last) (counts_of exits.items) (step_reader_of step) sign) }
{
    match sign {
        FilterSign::Comma => match finish_step(step) {
            Some(exit) => {
                exits.push(exit)?;
                Ok(Some(RegionReader::Exits(entries, last, exits, StepReader::File)))
            }
            None => Ok(None),
        },
        FilterSign::BraceClose => exits_close(alloc, entries, last, exits, step),
        _ => Ok(exit_by(
            entries,
            last,
            exits,
            feed_step(step, FilterToken::Sign(sign)),
        )),
    }
}

fn exits_step(
    alloc: Global,
    entries: Vec<CountedEvent>,
    last: CountedEvent,
    exits: Vec<CountedEvent>,
    step: StepReader,
    token: FilterToken,
) -> Result<Option<RegionReader>, NoMemory>
    ensures { IfOk result (λ r. region_if r ≡ m.exits_token plain (counts_of entries.items) (counted_of last) (counts_of exits.items) (step_reader_of step) (token_of token)) }
{
    match token {
        FilterToken::Name(name) => {
            Ok(exit_by(
                entries,
                last,
                exits,
                feed_step(step, FilterToken::Name(name)),
            ))
        }
        FilterToken::Word(word) => {
            Ok(exit_by(
                entries,
                last,
                exits,
                feed_step(step, FilterToken::Word(word)),
            ))
        }
        FilterToken::Sign(sign) => exits_sign(alloc, entries, last, exits, step, sign),
        FilterToken::Test(test) => {
            Ok(exit_by(
                entries,
                last,
                exits,
                feed_step(step, FilterToken::Test(test)),
            ))
        }
    }
}

/// What is behind a token; `None` where it can't follow in the region. An `Err` is want of memory.
pub(crate) fn feed_region(
    alloc: Global,
    reader: RegionReader,
    token: FilterToken,
) -> Result<Option<RegionReader>, NoMemory>
    ensures { IfOk result (λ r. region_if r ≡ m.feed_region plain (region_reader reader) (token_of token)) }
{
    match reader {
        RegionReader::Region => Ok(region_step(alloc, token)),
        RegionReader::Call(name) => Ok(call_step(name, token)),
        RegionReader::Bare(name) => Ok(bare_step(name, token)),
        RegionReader::Entries(entries, step) => entries_step(alloc, entries, step, token),
        RegionReader::Exits(entries, last, exits, step) => {
            exits_step(alloc, entries, last, exits, step, token)
        }
        RegionReader::Whole(_) => Ok(None),
    }
}

/// Whether it stands between braces.
pub(crate) fn is_in_braces(reader: &RegionReader) -> bool
    ensures { result ≡ m.is_in_braces (region_reader reader.now) }
{
    match reader {
        RegionReader::Region => false,
        RegionReader::Call(_) => false,
        RegionReader::Bare(_) => false,
        RegionReader::Entries(_, _) => true,
        RegionReader::Exits(_, _, _, _) => true,
        RegionReader::Whole(_) => false,
    }
}

/// The region that ends here; `None` where it can't end.
pub(crate) fn finish_region(reader: RegionReader) -> Option<CountedRegion>
    ensures { region_with_if result ≡ m.finish_region plain (region_reader reader) }
{
    match reader {
        RegionReader::Region => None,
        RegionReader::Call(_) => None,
        RegionReader::Bare(name) => Some(function(name, None)),
        RegionReader::Entries(_, _) => None,
        RegionReader::Exits(_, _, _, _) => None,
        RegionReader::Whole(region) => Some(region),
    }
}
