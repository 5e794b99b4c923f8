//! A gate is settled.
ghost use Rattle.std.specs.Prelude.{◌≡◌, ◌+◌, ◌*◌, ◌≤◌, ◌++◌, false, length, vec_capacity, All};
ghost use Rattle.loom_gate.specs.Record.{IsSound, AreInOrder};
ghost use Rattle.loom_gate.specs.Seats.{threads_of, IsKeyOf, IsStanding, ArePassesOf, has_flags_up, rows_of_key, rows_of, ends_of};

use crate::gate::Gate;
use crate::key::Key;
use crate::log::{Ends, GateLog, PassRow, PassRows, SwitchRows};
use crate::make::Passes;
use crate::pass::Pass;
use crate::steps::Cut;

// Appends rows, for which there is room.
fn append(rows: &mut Vec<PassRow>, more: &[PassRow])
    requires { length rows.old.items + length more.now ≤ vec_capacity rows.old }
    ensures items { rows.new.items ≡ rows.old.items ++ more.now }
    ensures room { vec_capacity rows.new ≡ vec_capacity rows.old }
{
    'rows: for i in 0..more.len() {
        rows.push_reserved(more[i]);
    }
}

/// Ends a gate whose passes stand and whose flags are down, with all of its passes in the order of their
/// threads, and gives its record.
pub fn settle(gate: Gate, key: Key, passes: Passes) -> GateLog
    requires key { IsKeyOf gate key }
    requires passes { ArePassesOf gate passes.0.items }
    requires stand { All IsStanding passes.0.items }
    requires down { has_flags_up key ≡ false }
    ensures switches { result.switches.0.items ≡ rows_of_key key }
    ensures rows { result.rows.0.items ≡ rows_of passes.0.items }
    ensures ends { result.ends.0.items ≡ ends_of passes.0.items }
    ensures sound { IsSound result }
    ensures order { AreInOrder result.rows.0.items }
{
    let Gate {
        table,
        mut rows,
        mut ends,
        ..
    } = gate;
    let Key {
        mut seat,
        rows: switches,
        ..
    } = key;
    'passes: for pass in passes.0 {
        let Pass {
            seat: other,
            place,
            rows: own,
            ..
        } = pass;
        ends.push_reserved(place);
        append(&mut rows, own.as_slice());
        table.shared.join_seat::<Cut>(&mut seat, other);
    }
    table.close_with(seat).free();
    GateLog {
        switches: SwitchRows(switches),
        rows: PassRows(rows),
        ends: Ends(ends),
    }
}
