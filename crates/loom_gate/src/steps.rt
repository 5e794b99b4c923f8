//! The rule of a gate's table, and what each kind of step tells its seat.

use crate::view::View;
use atomic_table::{Join, Play, Split, TableRule};

/// What a pass stores in its word when it tries or is inside.
pub(crate) const MARK: u64 = 65536;

/// How many threads and places a gate has.
#[derive(Drop)]
pub struct Size {
    /// The number of threads, from 1 to 8.
    pub threads: u64,
    /// The number of places, from 1 to 8,321.
    pub places: u64,
}

/// The rule of a gate's table.
pub struct GateRule;

impl TableRule<u8, View, Size> for GateRule {
    ghost use Rattle.loom_gate.specs.Rule.{GateHolds};
    ghost use Rattle.loom_gate.specs.View.{first_key};
    ghost use Rattle.loom_gate.specs.declared.view.View.TheVariants.{Key};

    ghost holds = { λ k s. GateHolds k.threads k.places s.words s.views };

    ghost first = { λ k. Key (first_key k.threads k.places) };
}

pub(crate) struct Try;

impl Play<u8, View> for Try {
    ghost use Rattle.loom_gate.specs.Tells.{Tries};

    ghost then = { Tries };
}

pub(crate) struct Check;

impl Play<u8, View> for Check {
    ghost use Rattle.loom_gate.specs.Tells.{Checks};

    ghost then = { Checks };
}

pub(crate) struct Poll;

impl Play<u8, View> for Poll {
    ghost use Rattle.loom_gate.specs.Tells.{Polls};

    ghost then = { Polls };
}

pub(crate) struct Read;

impl Play<u8, View> for Read {
    ghost use Rattle.loom_gate.specs.Tells.{Reads};

    ghost then = { Reads };
}

pub(crate) struct Leave;

impl Play<u8, View> for Leave {
    ghost use Rattle.loom_gate.specs.Tells.{Leaves};

    ghost then = { Leaves };
}

pub(crate) struct Flag;

impl Play<u8, View> for Flag {
    ghost use Rattle.loom_gate.specs.Tells.{Flags};

    ghost then = { Flags };
}

pub(crate) struct LookAt;

impl Play<u8, View> for LookAt {
    ghost use Rattle.loom_gate.specs.Tells.{Looks};

    ghost then = { Looks };
}

pub(crate) struct Switch;

impl Play<u8, View> for Switch {
    ghost use Rattle.loom_gate.specs.Tells.{Switches};

    ghost then = { Switches };
}

/// The key makes the passes, and takes them in at the end.
pub(crate) struct Cut;

impl Split<View> for Cut {
    ghost use Rattle.std.specs.Prelude.{◌+◌};
    ghost use Rattle.loom_gate.specs.View.{more, start, key_of};
    ghost use Rattle.loom_gate.specs.declared.view.View.TheVariants.{Key, Pass};

    ghost left = { λ v. Key (more (key_of v)) };

    ghost right = { λ v. Pass ((key_of v).born + 1) start };
}

impl Join<View> for Cut {
    ghost use Rattle.loom_gate.specs.View.{joined, key_of, pass_of};
    ghost use Rattle.loom_gate.specs.declared.view.View.TheVariants.{Key, Nobody};

    ghost both = { λ v w. Key (joined (key_of v) (pass_of w)) };

    ghost spent = { Nobody };
}
