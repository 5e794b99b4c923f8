//! Filters.

use loom_tree::expression::Expr;
use loom_tree::name::Name;
use std::marker::Model;

/// An event on a line of a file, where a statement begins.
#[derive(Debug, Drop)]
pub struct Event {
    /// The file's name.
    pub file: Name,
    /// The line, from 1 to 1,000,000.
    pub line: u32,
    /// The test, where there is one: the event is met only where its value isn't 0.
    pub test: Option<Expr>,
}

/// A list of events.
#[derive(Debug, Drop)]
pub struct Events(pub Vec<Event>);

impl Model for Events {
    ghost use Rattle.std.specs.Prelude.{List};
    ghost use Rattle.loom_filter.specs.declared.filter.Event.{Event};
    ghost use Rattle.loom_filter.specs.contracts.filter.Event as e;
    ghost use Rattle.std.specs.Coded.{codes};

    ghost Value = { List Event };

    ghost coded = { Prim.hlevel (codes, e.the_row.coded) };

    ghost view = { λ n. n.0.items };
}

/// An event of an order.
#[derive(Debug, Drop)]
pub struct Step {
    /// The event.
    pub event: Event,
    /// How often it must be complete before the next one may begin, from 1 to 1,000,000. Where the text gives none it is 1.
    pub count: u32,
}

/// A list of steps.
#[derive(Debug, Drop)]
pub struct Steps(pub Vec<Step>);

impl Model for Steps {
    ghost use Rattle.std.specs.Prelude.{List};
    ghost use Rattle.loom_filter.specs.declared.filter.Step.{Step};
    ghost use Rattle.loom_filter.specs.contracts.filter.Step as s;
    ghost use Rattle.std.specs.Coded.{codes};

    ghost Value = { List Step };

    ghost coded = { Prim.hlevel (codes, s.the_row.coded) };

    ghost view = { λ n. n.0.items };
}

/// A part of a program in which a thread can be.
#[derive(Debug, Drop)]
pub enum Region {
    /// From one of the first events to one of the second. Neither list is empty.
    Between(Events, Events),
    /// The frames of this function that begin where the test, if there is one, isn't 0.
    Whole(Name, Option<Expr>),
}

/// A list of regions.
#[derive(Debug, Drop)]
pub struct Regions(pub Vec<Region>);

impl Model for Regions {
    ghost use Rattle.std.specs.Prelude.{List};
    ghost use Rattle.loom_filter.specs.declared.filter.Region.{Region};
    ghost use Rattle.loom_filter.specs.contracts.filter.Region as r;
    ghost use Rattle.std.specs.Coded.{codes};

    ghost Value = { List Region };

    ghost coded = { Prim.hlevel (codes, r.the_row.coded) };

    ghost view = { λ n. n.0.items };
}

/// What threads must keep to.
#[derive(Debug, Drop)]
pub enum Clause {
    /// Each event waits for those before it. There are at least two.
    Order(Steps),
    /// Only one thread is inside of these regions at a time. There is at least one.
    Exclusive(Regions),
    /// While a thread is inside of this region, no other one goes on.
    Unilateral(Region),
}

/// A list of clauses.
#[derive(Debug, Drop)]
pub struct Clauses(pub Vec<Clause>);

impl Model for Clauses {
    ghost use Rattle.std.specs.Prelude.{List};
    ghost use Rattle.loom_filter.specs.declared.filter.Clause.{Clause};
    ghost use Rattle.loom_filter.specs.contracts.filter.Clause as c;
    ghost use Rattle.std.specs.Coded.{codes};

    ghost Value = { List Clause };

    ghost coded = { Prim.hlevel (codes, c.the_row.coded) };

    ghost view = { λ n. n.0.items };
}

/// A filter: from 1 to 8 clauses with at most 32 events in all, a whole function being one.
#[derive(Debug, Drop)]
pub struct Filter {
    /// The clauses, in the order of the text.
    pub clauses: Clauses,
}
