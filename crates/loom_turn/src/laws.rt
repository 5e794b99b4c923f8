//! What the lock's rule promises of any two seats.
ghost use Rattle.loom_turn.specs.Laws.{HaveOneTurn};

use crate::turn::Fits;

/// No two seats have the turn at once.
pub fn one_turn_at_once<T: Fits>()
    ensures { HaveOneTurn T.label }
{}
