//! Reads a clause.
ghost use Rattle.std.specs.Prelude.{◌≡◌, ◌∷◌, ◌++◌, [], IfOk, Some};
ghost use Rattle.loom_filter.specs.View.{steps_of, regions_of};
ghost use Rattle.loom_filter.specs.Builders.{plain, plain_exclusive, steps_tree, regions_tree, has_counts};
ghost use Rattle.loom_filter.specs.ReaderView.{token_of, counted_of, counts_of, step_reader_of, step_if, region_with, region_with_if, regions_with, region_reader, region_if, clause_with, clause_with_if, clause_reader, clause_if, next_if};
ghost use Rattle.loom_filter.specs.Machine as m;

use crate::filter::{Clause, Regions, Step, Steps};
use crate::region::{CountedRegion, RegionReader, feed_region, finish_region, is_in_braces};
use crate::scan::{FilterSign, FilterToken};
use crate::step::{CountedEvent, StepReader, feed_step, finish_step};
use loom_tree::name::{Name, NoMemory};
use std::alloc::Global;

/// A clause, and whether a count is written where none may be.
#[derive(Debug, Drop)]
pub struct CountedClause {
    /// The clause.
    pub clause: Clause,
    /// Whether a count is written behind the last event of an order, or in a region.
    pub is_miscounted: bool,
}

/// What was read of a clause.
#[derive(Debug, Drop)]
pub enum ClauseReader {
    /// Nothing.
    Begin,
    /// A name, which is a file's if `:` follows, and a function's if `()` does.
    Named(Name),
    /// The steps of an order that are complete, and the one that was begun.
    Order(Vec<CountedEvent>, StepReader),
    /// The regions behind which `<>` stands, and the one behind it.
    Regions(Vec<CountedRegion>, RegionReader),
    /// A region that excludes everything.
    Unilateral(CountedRegion),
}

/// What is behind a token.
#[derive(Debug, Drop)]
pub enum ClauseNext {
    /// More of the clause.
    Goes(ClauseReader),
    /// The clause is complete, with its `;`.
    Ends(CountedClause),
}

fn begin_sign(alloc: Global, sign: FilterSign) -> Option<ClauseReader>
    ensures { clause_if result ≡ m.begin_sign sign }
{
    match sign {
        FilterSign::BraceOpen => {
            let entries = RegionReader::Entries(Vec::new(alloc), StepReader::File);
            Some(ClauseReader::Regions(Vec::new(alloc), entries))
        }
        _ => None,
    }
}

fn begin_step(alloc: Global, token: FilterToken) -> Option<ClauseReader>
    ensures { clause_if result ≡ m.step_clause plain m.Begin (token_of token) }
{
    match token {
        FilterToken::Name(name) => Some(ClauseReader::Named(name)),
        FilterToken::Word(file) => Some(ClauseReader::Order(
            Vec::new(alloc),
            StepReader::Colon(file),
        )),
        FilterToken::Sign(sign) => begin_sign(alloc, sign),
        FilterToken::Test(_) => None,
    }
}

fn named_sign(alloc: Global, name: Name, sign: FilterSign) -> Option<ClauseReader>
    ensures { clause_if result ≡ m.named_sign name sign }
{
    match sign {
        FilterSign::Colon => Some(ClauseReader::Order(Vec::new(alloc), StepReader::Line(name))),
        FilterSign::Call => Some(ClauseReader::Regions(Vec::new(alloc), RegionReader::Bare(name))),
        _ => None,
    }
}

fn named_step(alloc: Global, name: Name, token: FilterToken) -> Option<ClauseReader>
    ensures { clause_if result ≡ m.step_clause plain (m.Named name) (token_of token) }
{
    match token {
        FilterToken::Name(_) => None,
        FilterToken::Word(_) => None,
        FilterToken::Sign(sign) => named_sign(alloc, name, sign),
        FilterToken::Test(_) => None,
    }
}

/// The step goes on in an order.
fn order_by(steps: Vec<CountedEvent>, step: Option<StepReader>) -> Option<ClauseReader>
    ensures { clause_if result ≡ m.order_by (counts_of steps.items) (step_if step) }
{
    match step {
        Some(step) => Some(ClauseReader::Order(steps, step)),
        None => None,
    }
}

fn order_sign(
    mut steps: Vec<CountedEvent>,
    step: StepReader,
    sign: FilterSign,
) -> Result<Option<ClauseReader>, NoMemory>
    ensures { IfOk result (λ r. clause_if r ≡ m.order_sign plain (counts_of steps.items) (step_reader_of step) sign) }
{
    match sign {
        FilterSign::Before => match finish_step(step) {
            Some(step) => {
                steps.push(step)?;
                Ok(Some(ClauseReader::Order(steps, StepReader::File)))
            }
            None => Ok(None),
        },
        _ => Ok(order_by(steps, feed_step(step, FilterToken::Sign(sign)))),
    }
}

fn order_step(
    steps: Vec<CountedEvent>,
    step: StepReader,
    token: FilterToken,
) -> Result<Option<ClauseReader>, NoMemory>
    ensures { IfOk result (λ r. clause_if r ≡ m.order_token plain (counts_of steps.items) (step_reader_of step) (token_of token)) }
{
    match token {
        FilterToken::Name(name) => Ok(order_by(steps, feed_step(step, FilterToken::Name(name)))),
        FilterToken::Word(word) => Ok(order_by(steps, feed_step(step, FilterToken::Word(word)))),
        FilterToken::Sign(sign) => order_sign(steps, step, sign),
        FilterToken::Test(test) => Ok(order_by(steps, feed_step(step, FilterToken::Test(test)))),
    }
}

/// The only region of these; `None` where there are none or more.
fn sole(mut regions: Vec<CountedRegion>) -> Option<CountedRegion>
    ensures { region_with_if result ≡ m.sole (regions_with regions.items) }
{
    let last = regions.pop();
    if regions.is_empty() { last } else { None }
}

/// Behind `*`, which may follow one region with `<>`.
fn all_sign(regions: Vec<CountedRegion>, region: RegionReader) -> Option<ClauseReader>
    ensures { clause_if result ≡ m.all_sign (regions_with regions.items) (region_reader region) }
{
    match region {
        RegionReader::Region => match sole(regions) {
            Some(region) => Some(ClauseReader::Unilateral(region)),
            None => None,
        },
        RegionReader::Call(_) => None,
        RegionReader::Bare(_) => None,
        RegionReader::Entries(_, _) => None,
        RegionReader::Exits(_, _, _, _) => None,
        RegionReader::Whole(_) => None,
    }
}

/// The region goes on behind others.
fn regions_by(regions: Vec<CountedRegion>, region: Option<RegionReader>) -> Option<ClauseReader>
    ensures { clause_if result ≡ m.regions_by (regions_with regions.items) (region_if region) }
{
    match region {
        Some(region) => Some(ClauseReader::Regions(regions, region)),
        None => None,
    }
}

/// The region that was begun takes the token.
fn region_token(
    alloc: Global,
    regions: Vec<CountedRegion>,
    region: RegionReader,
    token: FilterToken,
) -> Result<Option<ClauseReader>, NoMemory>
    ensures { IfOk result (λ r. clause_if r ≡ m.regions_by (regions_with regions.items) (m.feed_region plain (region_reader region) (token_of token))) }
{
    let next = feed_region(alloc, region, token)?;
    Ok(regions_by(regions, next))
}

fn regions_sign(
    alloc: Global,
    mut regions: Vec<CountedRegion>,
    region: RegionReader,
    sign: FilterSign,
) -> Result<Option<ClauseReader>, NoMemory>
    ensures { IfOk result (λ r. clause_if r ≡ m.regions_sign plain (regions_with regions.items) (region_reader region) sign) }
{
    match sign {
        FilterSign::Apart => match finish_region(region) {
            Some(region) => {
                regions.push(region)?;
                Ok(Some(ClauseReader::Regions(regions, RegionReader::Region)))
            }
            None => Ok(None),
        },
        FilterSign::All => Ok(all_sign(regions, region)),
        _ => region_token(alloc, regions, region, FilterToken::Sign(sign)),
    }
}

fn regions_step(
    alloc: Global,
    regions: Vec<CountedRegion>,
    region: RegionReader,
    token: FilterToken,
) -> Result<Option<ClauseReader>, NoMemory>
    ensures { IfOk result (λ r. clause_if r ≡ m.regions_token plain (regions_with regions.items) (region_reader region) (token_of token)) }
{
    match token {
        FilterToken::Name(name) => region_token(alloc, regions, region, FilterToken::Name(name)),
        FilterToken::Word(word) => region_token(alloc, regions, region, FilterToken::Word(word)),
        FilterToken::Sign(sign) => regions_sign(alloc, regions, region, sign),
        FilterToken::Test(test) => region_token(alloc, regions, region, FilterToken::Test(test)),
    }
}

/// What is behind a token that isn't the `;` of the clause.
fn step_clause(
    alloc: Global,
    reader: ClauseReader,
    token: FilterToken,
) -> Result<Option<ClauseReader>, NoMemory>
    ensures { IfOk result (λ r. clause_if r ≡ m.step_clause plain (clause_reader reader) (token_of token)) }
{
    match reader {
        ClauseReader::Begin => Ok(begin_step(alloc, token)),
        ClauseReader::Named(name) => Ok(named_step(alloc, name, token)),
        ClauseReader::Order(steps, step) => order_step(steps, step, token),
        ClauseReader::Regions(regions, region) => regions_step(alloc, regions, region, token),
        ClauseReader::Unilateral(_) => Ok(None),
    }
}

/// Whether a `;` here would end the clause.
fn is_outside(reader: &ClauseReader) -> bool
    ensures { result ≡ m.is_outside (clause_reader reader.now) }
{
    match reader {
        ClauseReader::Begin => true,
        ClauseReader::Named(_) => true,
        ClauseReader::Order(_, _) => true,
        ClauseReader::Regions(_, region) => !is_in_braces(region),
        ClauseReader::Unilateral(_) => true,
    }
}

fn is_semicolon(token: &FilterToken) -> bool
    ensures { result ≡ m.is_semicolon (token_of token.now) }
{
    match token {
        FilterToken::Name(_) => false,
        FilterToken::Word(_) => false,
        FilterToken::Sign(FilterSign::Semicolon) => true,
        FilterToken::Sign(_) => false,
        FilterToken::Test(_) => false,
    }
}

/// What is behind a token; `None` where it can't follow. An `Err` is want of memory.
pub(crate) fn feed(
    alloc: Global,
    reader: ClauseReader,
    token: FilterToken,
) -> Result<Option<ClauseNext>, NoMemory>
    ensures { IfOk result (λ r. next_if r ≡ m.feed plain (clause_reader reader) (token_of token)) }
{
    if is_semicolon(&token) && is_outside(&reader) {
        match finish_clause(alloc, reader)? {
            Some(clause) => Ok(Some(ClauseNext::Ends(clause))),
            None => Ok(None),
        }
    } else {
        match step_clause(alloc, reader, token)? {
            Some(next) => Ok(Some(ClauseNext::Goes(next))),
            None => Ok(None),
        }
    }
}

fn steps_of(alloc: Global, steps: Vec<CountedEvent>) -> Result<Steps, NoMemory>
    ensures { IfOk result (λ all. steps_of all ≡ steps_tree (counts_of steps.items)) }
{
    let mut all = Vec::new(alloc);
    'steps: for step in steps {
        all.push(Step {
            event: step.event,
            count: step.count.unwrap_or(1),
        })?;
    }
    Ok(Steps(all))
}

/// The order of these steps and a last one; `None` where that is the only one.
fn order_end(
    alloc: Global,
    mut steps: Vec<CountedEvent>,
    last: CountedEvent,
) -> Result<Option<CountedClause>, NoMemory>
    ensures { IfOk result (λ c. clause_with_if c ≡ m.order_end plain (counts_of steps.items) (counted_of last)) }
{
    if steps.is_empty() {
        return Ok(None);
    }
    let is_miscounted = last.count.is_some();
    steps.push(last)?;
    let clause = Clause::Order(steps_of(alloc, steps)?);
    Ok(Some(CountedClause {
        clause,
        is_miscounted,
    }))
}

fn has_counts(regions: &[CountedRegion]) -> bool
    ensures { result ≡ has_counts (regions_with regions.now) }
{
    'regions: for region in regions {
        if region.is_counted {
            return true;
        }
    }
    false
}

fn regions_of(alloc: Global, regions: Vec<CountedRegion>) -> Result<Regions, NoMemory>
    ensures { IfOk result (λ all. regions_of all ≡ regions_tree (regions_with regions.items)) }
{
    let mut all = Vec::new(alloc);
    'regions: for region in regions {
        all.push(region.region)?;
    }
    Ok(Regions(all))
}

/// The clause of regions, the last apart, that exclude each other.
fn exclusive(
    alloc: Global,
    mut regions: Vec<CountedRegion>,
    last: CountedRegion,
) -> Result<CountedClause, NoMemory>
    ensures { IfOk result (λ c. clause_with c ≡ plain_exclusive (regions_with regions.items) (region_with last)) }
{
    regions.push(last)?;
    let is_miscounted = has_counts(&regions);
    let clause = Clause::Exclusive(regions_of(alloc, regions)?);
    Ok(CountedClause {
        clause,
        is_miscounted,
    })
}

/// The clause that ends here; `None` where it can't end. An `Err` is want of memory.
pub(crate) fn finish_clause(
    alloc: Global,
    reader: ClauseReader,
) -> Result<Option<CountedClause>, NoMemory>
    ensures { IfOk result (λ c. clause_with_if c ≡ m.finish_clause plain (clause_reader reader)) }
{
    match reader {
        ClauseReader::Begin => Ok(None),
        ClauseReader::Named(_) => Ok(None),
        ClauseReader::Order(steps, step) => match finish_step(step) {
            Some(last) => order_end(alloc, steps, last),
            None => Ok(None),
        },
        ClauseReader::Regions(regions, region) => match finish_region(region) {
            Some(last) => Ok(Some(exclusive(alloc, regions, last)?)),
            None => Ok(None),
        },
        ClauseReader::Unilateral(region) => Ok(Some(CountedClause {
            clause: Clause::Unilateral(region.region),
            is_miscounted: region.is_counted,
        })),
    }
}
