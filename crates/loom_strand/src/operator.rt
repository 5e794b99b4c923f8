//! The values of operators, and the cells of arrays.
ghost use Rattle.std.specs.Prelude.{◌≡◌, Some, None};
ghost use Rattle.loom_lang.specs.Values.{truth, inverted, op_value};
ghost use Rattle.loom_strand.specs.Operator.{operator_value, cell_at};

use loom_flow::code::Array;
use loom_tree::expression::Op;

fn truth(holds: bool) -> i64
    ensures { result ≡ truth holds }
{
    if holds { 1 } else { 0 }
}

/// 1 for 0, and 0 for the others.
pub(crate) fn inverted(v: i64) -> i64
    ensures { result ≡ inverted v }
{
    truth(v == 0)
}

/// The value of an operator; none where a divisor is 0.
pub(crate) fn operator_value(op: Op, a: i64, b: i64) -> Option<i64>
    ensures { result ≡ operator_value op a b }
{
    match op {
        Op::Or => Some(truth(a != 0 || b != 0)),
        Op::And => Some(truth(a != 0 && b != 0)),
        Op::Eq => Some(truth(a == b)),
        Op::Ne => Some(truth(a != b)),
        Op::Lt => Some(truth(a < b)),
        Op::Le => Some(truth(a <= b)),
        Op::Gt => Some(truth(a > b)),
        Op::Ge => Some(truth(a >= b)),
        Op::Add => Some(a.wrapping_add(b)),
        Op::Sub => Some(a.wrapping_sub(b)),
        Op::Mul => Some(a.wrapping_mul(b)),
        Op::Div => match b {
            0 => None,
            _ => Some(a.wrapping_div(b)),
        },
        Op::Rem => match b {
            0 => None,
            _ => Some(a.wrapping_rem(b)),
        },
    }
}

/// The number of a cell; none where the index isn't one of the array.
pub(crate) fn cell_at(array: Array, index: i64) -> Option<u32>
    ensures { result ≡ cell_at array index }
{
    if index < 0 || index >= array.count as i64 {
        return None;
    }
    Some(array.first as u32 + index as u32)
}
