//! What a filter is in a program, as `Compiled` holds it.

use crate::sets::EventSet;
use loom_tree::expression::{Expr, Op};

/// Where an event begins.
#[derive(Clone, Copy, Debug, Drop, PartialEq, Eq)]
pub enum EventSite {
    /// Where the statement of this line begins.
    Statement(u32),
    /// Where a frame of the function of this number begins; `None` where no function has the name.
    Function(Option<u8>),
}

/// An event: where it begins, and its test.
#[derive(Debug, Drop)]
pub struct EventWatch {
    /// Where it begins.
    pub site: EventSite,
    /// The test, if there is one.
    pub test: Option<Expr>,
}

/// An event of an order, and how often it must be complete before the next one begins.
#[derive(Clone, Copy, Debug, Drop, PartialEq, Eq)]
pub struct OrderEvent {
    /// The number of the event.
    pub event: u8,
    /// How often.
    pub count: u32,
}

/// The events of a region.
#[derive(Clone, Copy, Debug, Drop, PartialEq, Eq)]
pub enum RegionSpan {
    /// Those at which it is entered, and those at which it is left.
    Between(EventSet, EventSet),
    /// That of a whole function.
    Whole(u8),
}

/// A clause.
#[derive(Debug, Drop)]
pub enum Rule {
    /// Each event waits for those before it.
    Order(Vec<OrderEvent>),
    /// Only one thread is inside of these regions at a time.
    Exclusive(Vec<RegionSpan>),
    /// While a thread is inside of this region, no other one goes on.
    Unilateral(RegionSpan),
}

/// A region, and the number of its clause.
#[derive(Clone, Copy, Debug, Drop, PartialEq, Eq)]
pub struct RegionRow {
    /// The number of the clause.
    pub clause: u8,
    /// Its events.
    pub span: RegionSpan,
}

/// A test over the locals of a function, by their numbers.
#[derive(Debug, Drop)]
pub enum LocalTest {
    /// It has no value.
    Nothing,
    /// A number.
    Number(i64),
    /// A local, by its number.
    Local(u8),
    /// The negation.
    Negated(Box<LocalTest>),
    /// 1 where it is 0, or else 0.
    Inverted(Box<LocalTest>),
    /// An operator, its left operand and its right one.
    Applied(Op, Box<LocalTest>, Box<LocalTest>),
}

/// An event that is watched at a place, and its test over the locals there.
#[derive(Debug, Drop)]
pub struct Pick {
    /// The number of the event.
    pub event: u8,
    /// The test, if there is one.
    pub test: Option<LocalTest>,
}

/// What is watched at a place.
#[derive(Debug, Drop)]
pub struct WatchRow {
    /// The events.
    pub events: EventSet,
    /// The same with their tests, ascending.
    pub picks: Vec<Pick>,
}
