//! Reads a step: an event with its count, if it has one.
ghost use Rattle.std.specs.Prelude.{ℕ, ◌≡◌, List};
ghost use Rattle.loom_tree.specs.Tree.{expression_of};
ghost use Rattle.loom_filter.specs.View.{event_of};
ghost use Rattle.loom_filter.specs.Words.{number_by};
ghost use Rattle.loom_filter.specs.Builders.{plain, with_test};
ghost use Rattle.loom_filter.specs.ReaderView.{token_of, counted_of, counted_if, step_reader_of, step_if};
ghost use Rattle.loom_filter.specs.Machine as m;

use crate::filter::Event;
use crate::scan::{FilterSign, FilterToken};
use crate::word::number;
use loom_tree::expression::Expr;
use loom_tree::name::Name;

/// An event, and its count as it is written.
#[derive(Debug, Drop)]
pub struct CountedEvent {
    /// The event.
    pub event: Event,
    /// Its count; `None` where none is written.
    pub count: Option<u32>,
}

/// What was read of a step, named by what must follow.
#[derive(Debug, Drop)]
pub enum StepReader {
    /// The name of a file.
    File,
    /// `:` behind the name of a file.
    Colon(Name),
    /// The number of a line.
    Line(Name),
    /// A test, a count, or what stands behind the step.
    Untested(Event),
    /// A count, or what stands behind the step.
    Tested(Event),
    /// The number of a count.
    Count(Event),
    /// `}` behind the number of its count.
    CountEnd(CountedEvent),
    /// What stands behind the step.
    Counted(CountedEvent),
}

fn colon_sign(file: Name, sign: FilterSign) -> Option<StepReader>
    ensures { step_if result ≡ m.colon_sign file sign }
{
    match sign {
        FilterSign::Colon => Some(StepReader::Line(file)),
        _ => None,
    }
}

fn line_of(file: Name, line: Option<u32>) -> Option<StepReader>
    ensures { (digits : List ℕ) → step_if result ≡ m.line_of plain file digits line }
{
    match line {
        Some(line) => Some(StepReader::Untested(Event {
            file,
            line,
            test: None,
        })),
        None => None,
    }
}

fn count_of(event: Event, count: Option<u32>) -> Option<StepReader>
    ensures { (digits : List ℕ) → step_if result ≡ m.step_with_count plain (event_of event) digits count }
{
    match count {
        Some(count) => Some(StepReader::CountEnd(CountedEvent {
            event,
            count: Some(count),
        })),
        None => None,
    }
}

fn with_test(event: Event, test: Expr) -> Event
    ensures { event_of result ≡ with_test (event_of event) (expression_of test) }
{
    let Event {
        file,
        line,
        test: _,
    } = event;
    Event {
        file,
        line,
        test: Some(test),
    }
}

fn event_sign(event: Event, sign: FilterSign) -> Option<StepReader>
    ensures { step_if result ≡ m.event_sign (event_of event) sign }
{
    match sign {
        FilterSign::BraceOpen => Some(StepReader::Count(event)),
        _ => None,
    }
}

fn count_end(step: CountedEvent, sign: FilterSign) -> Option<StepReader>
    ensures { step_if result ≡ m.count_end (counted_of step) sign }
{
    match sign {
        FilterSign::BraceClose => Some(StepReader::Counted(step)),
        _ => None,
    }
}

fn file_step(token: FilterToken) -> Option<StepReader>
    ensures { step_if result ≡ m.feed_step plain m.File (token_of token) }
{
    match token {
        FilterToken::Name(file) => Some(StepReader::Colon(file)),
        FilterToken::Word(file) => Some(StepReader::Colon(file)),
        FilterToken::Sign(_) => None,
        FilterToken::Test(_) => None,
    }
}

fn colon_step(file: Name, token: FilterToken) -> Option<StepReader>
    ensures { step_if result ≡ m.feed_step plain (m.Colon file) (token_of token) }
{
    match token {
        FilterToken::Name(_) => None,
        FilterToken::Word(_) => None,
        FilterToken::Sign(sign) => colon_sign(file, sign),
        FilterToken::Test(_) => None,
    }
}

fn line_step(file: Name, token: FilterToken) -> Option<StepReader>
    ensures { step_if result ≡ m.feed_step plain (m.Line file) (token_of token) }
{
    match token {
        FilterToken::Name(_) => None,
        FilterToken::Word(word) => line_of(file, number(word.bytes())),
        FilterToken::Sign(_) => None,
        FilterToken::Test(_) => None,
    }
}

fn untested_step(event: Event, token: FilterToken) -> Option<StepReader>
    ensures { step_if result ≡ m.feed_step plain (m.Untested (event_of event)) (token_of token) }
{
    match token {
        FilterToken::Name(_) => None,
        FilterToken::Word(_) => None,
        FilterToken::Sign(sign) => event_sign(event, sign),
        FilterToken::Test(test) => Some(StepReader::Tested(with_test(event, test))),
    }
}

fn tested_step(event: Event, token: FilterToken) -> Option<StepReader>
    ensures { step_if result ≡ m.feed_step plain (m.Tested (event_of event)) (token_of token) }
{
    match token {
        FilterToken::Name(_) => None,
        FilterToken::Word(_) => None,
        FilterToken::Sign(sign) => event_sign(event, sign),
        FilterToken::Test(_) => None,
    }
}

fn count_step(event: Event, token: FilterToken) -> Option<StepReader>
    ensures { step_if result ≡ m.feed_step plain (m.Count (event_of event)) (token_of token) }
{
    match token {
        FilterToken::Name(_) => None,
        FilterToken::Word(word) => count_of(event, number(word.bytes())),
        FilterToken::Sign(_) => None,
        FilterToken::Test(_) => None,
    }
}

fn count_end_step(step: CountedEvent, token: FilterToken) -> Option<StepReader>
    ensures { step_if result ≡ m.feed_step plain (m.CountEnd (counted_of step)) (token_of token) }
{
    match token {
        FilterToken::Name(_) => None,
        FilterToken::Word(_) => None,
        FilterToken::Sign(sign) => count_end(step, sign),
        FilterToken::Test(_) => None,
    }
}

/// What is behind a token; `None` where it can't follow in the step.
pub(crate) fn feed_step(reader: StepReader, token: FilterToken) -> Option<StepReader>
    ensures { step_if result ≡ m.feed_step plain (step_reader_of reader) (token_of token) }
{
    match reader {
        StepReader::File => file_step(token),
        StepReader::Colon(file) => colon_step(file, token),
        StepReader::Line(file) => line_step(file, token),
        StepReader::Untested(event) => untested_step(event, token),
        StepReader::Tested(event) => tested_step(event, token),
        StepReader::Count(event) => count_step(event, token),
        StepReader::CountEnd(step) => count_end_step(step, token),
        StepReader::Counted(_) => None,
    }
}

/// Whether the `}` of a count must follow.
pub(crate) fn is_in_count(reader: &StepReader) -> bool
    ensures { result ≡ m.is_in_count (step_reader_of reader.now) }
{
    match reader {
        StepReader::File => false,
        StepReader::Colon(_) => false,
        StepReader::Line(_) => false,
        StepReader::Untested(_) => false,
        StepReader::Tested(_) => false,
        StepReader::Count(_) => false,
        StepReader::CountEnd(_) => true,
        StepReader::Counted(_) => false,
    }
}

fn uncounted(event: Event) -> CountedEvent
    ensures { counted_of result ≡ record { event = event_of event; count = None } }
{
    CountedEvent { event, count: None }
}

/// The step that ends here; `None` where it can't end.
pub(crate) fn finish_step(reader: StepReader) -> Option<CountedEvent>
    ensures { counted_if result ≡ m.finish_step plain (step_reader_of reader) }
{
    match reader {
        StepReader::File => None,
        StepReader::Colon(_) => None,
        StepReader::Line(_) => None,
        StepReader::Untested(event) => Some(uncounted(event)),
        StepReader::Tested(event) => Some(uncounted(event)),
        StepReader::Count(_) => None,
        StepReader::CountEnd(_) => None,
        StepReader::Counted(step) => Some(step),
    }
}
