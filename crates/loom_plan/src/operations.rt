//! What a filter makes a thread do, as sets.
ghost use Rattle.std.specs.Prelude.{◌≡◌, []};
ghost use Rattle.loom_plan.specs.Sets.{event_numbers, clause_numbers};

use crate::sets::{ClauseSet, EventSet};

/// What a thread owes at a beginning, in this order.
#[derive(Clone, Copy, Debug, Drop, PartialEq, Eq)]
pub struct Before {
    /// A wait for each of these events.
    pub waits: EventSet,
    /// An enter for each of these clauses.
    pub enters: ClauseSet,
    /// An `At` with these events, if there are any.
    pub at: EventSet,
}

impl Before {
    /// Nothing.
    pub fn nothing() -> Before
        ensures waits { event_numbers result.waits ≡ [] }
        ensures enters { clause_numbers result.enters ≡ [] }
        ensures at { event_numbers result.at ≡ [] }
    {
        Before {
            waits: EventSet::none(),
            enters: ClauseSet::none(),
            at: EventSet::none(),
        }
    }
}

/// What a thread owes behind a statement, in this order.
#[derive(Clone, Copy, Debug, Drop, PartialEq, Eq)]
pub struct Behind {
    /// A `Past` with these events, if there are any.
    pub past: EventSet,
    /// A post for each of these events.
    pub posts: EventSet,
    /// A leave for each of these clauses.
    pub leaves: ClauseSet,
}

impl Behind {
    /// Nothing.
    pub fn nothing() -> Behind
        ensures past { event_numbers result.past ≡ [] }
        ensures posts { event_numbers result.posts ≡ [] }
        ensures leaves { clause_numbers result.leaves ≡ [] }
    {
        Behind {
            past: EventSet::none(),
            posts: EventSet::none(),
            leaves: ClauseSet::none(),
        }
    }
}
