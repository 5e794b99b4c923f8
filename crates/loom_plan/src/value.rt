//! Tests over locals by their numbers.
ghost use Rattle.std.specs.Prelude.{◌≡◌, slice_get};
ghost use Rattle.loom_lang.specs.Values.{truth, inverted};
ghost use Rattle.loom_law.specs.Filter.{quotient, is_met};
ghost use Rattle.loom_plan.specs.Sets.{event_numbers};
ghost use Rattle.loom_plan.specs.Tests.{test_value, is_passed};
ghost use Rattle.loom_plan.specs.PlaceEvents.{picked, Ascend};

use crate::plan::{LocalTest, Pick, WatchRow};
use crate::sets::EventSet;
use loom_tree::expression::Op;

fn truth(holds: bool) -> i64
    ensures { result ≡ truth holds }
{
    if holds { 1 } else { 0 }
}

fn inverted(v: i64) -> i64
    ensures { result ≡ inverted v }
{
    truth(v == 0)
}

// The value of an operator; none where a divisor is 0.
fn quotient(op: Op, a: i64, b: i64) -> Option<i64>
    ensures { result ≡ quotient op a b }
{
    match op {
        Op::Or => Some(truth(a != 0 || b != 0)),
        Op::And => Some(truth(a != 0 && b != 0)),
        Op::Eq => Some(truth(a == b)),
        Op::Ne => Some(truth(a != b)),
        Op::Lt => Some(truth(a < b)),
        Op::Le => Some(truth(a <= b)),
        Op::Gt => Some(truth(a > b)),
        Op::Ge => Some(truth(a >= b)),
        Op::Add => Some(a.wrapping_add(b)),
        Op::Sub => Some(a.wrapping_sub(b)),
        Op::Mul => Some(a.wrapping_mul(b)),
        Op::Div => match b {
            0 => None,
            _ => Some(a.wrapping_div(b)),
        },
        Op::Rem => match b {
            0 => None,
            _ => Some(a.wrapping_rem(b)),
        },
    }
}

fn local(locals: &[i64], x: u8) -> Option<i64>
    ensures { result ≡ slice_get locals.now x }
{
    locals.get(x as usize).copied()
}

// The value of a test, if it has one.
fn value(test: &LocalTest, locals: &[i64]) -> Option<i64>
    ensures { result ≡ test_value locals.now test.now }
{
    match test {
        LocalTest::Nothing => None,
        LocalTest::Number(n) => Some(*n),
        LocalTest::Local(x) => local(locals, *x),
        LocalTest::Negated(a) => match value(a, locals) {
            None => None,
            Some(v) => Some(v.wrapping_neg()),
        },
        LocalTest::Inverted(a) => match value(a, locals) {
            None => None,
            Some(v) => Some(inverted(v)),
        },
        LocalTest::Applied(op, a, b) => match value(a, locals) {
            None => None,
            Some(v) => match value(b, locals) {
                None => None,
                Some(w) => quotient(*op, v, w),
            },
        },
    }
}

fn is_met(value: Option<i64>) -> bool
    ensures { result ≡ is_met value }
{
    match value {
        None => false,
        Some(v) => v != 0,
    }
}

fn passes(pick: &Pick, locals: &[i64]) -> bool
    ensures { result ≡ is_passed locals.now pick.now.test }
{
    match &pick.test {
        None => true,
        Some(test) => is_met(value(test, locals)),
    }
}

/// The events of a row whose tests are met.
pub fn matching_in(row: &WatchRow, locals: &[i64]) -> EventSet
    requires { Ascend 0 row.now.picks.items }
    ensures { event_numbers result ≡ picked locals.now row.now.picks.items }
{
    let mut found = EventSet::none();
    let mut i = row.picks.len();
    'down: while i > 0 {
        i -= 1;
        let pick = &row.picks[i];
        found.put_if(pick.event, passes(pick, locals));
    }
    found
}
