//! The texts of expressions. An `Err` is want of memory throughout.
ghost use Rattle.std.specs.Prelude.{◌≡◌, ◌++◌, map, OnOk};
ghost use Rattle.loom_tree.specs.Tree.{expression_of, expressions_of, right_of};
ghost use Rattle.loom_lang.specs.Canonical.{operator, operand_text, expression_text, listed, call_text, right_text};

use crate::text::{put_bytes, put_signed};
use loom_tree::expression::{Expr, Exprs, Op};
use loom_tree::name::{Name, NoMemory};
use loom_tree::statement::{Names, Right};

fn operator(op: Op) -> &'static [u8]
    ensures { result.now ≡ operator op }
{
    match op {
        Op::Or => b"||",
        Op::And => b"&&",
        Op::Eq => b"==",
        Op::Ne => b"!=",
        Op::Lt => b"<",
        Op::Le => b"<=",
        Op::Gt => b">",
        Op::Ge => b">=",
        Op::Add => b"+",
        Op::Sub => b"-",
        Op::Mul => b"*",
        Op::Div => b"/",
        Op::Rem => b"%",
    }
}

/// An operand, with parentheses where it has two operands of its own.
#[cycle(expressions)]
fn put_operand(out: &mut Name, e: &Expr) -> Result<(), NoMemory>
    ensures { OnOk result (out.new ≡ out.old ++ operand_text (expression_of e.now) (expression_text (expression_of e.now))) }
{
    match e {
        Expr::Bin(_, _, _) => {
            put_bytes(out, b"(")?;
            put_expression(out, e)?;
            put_bytes(out, b")")
        }
        Expr::Num(_) => put_expression(out, e),
        Expr::Var(_) => put_expression(out, e),
        Expr::Cell(_, _) => put_expression(out, e),
        Expr::Neg(_) => put_expression(out, e),
        Expr::Not(_) => put_expression(out, e),
    }
}

/// An expression.
#[cycle(expressions)]
#[tactic(auto, using(std::proofs::Common::append_assoc))]
pub(crate) fn put_expression(out: &mut Name, e: &Expr) -> Result<(), NoMemory>
    ensures { OnOk result (out.new ≡ out.old ++ expression_text (expression_of e.now)) }
{
    match e {
        Expr::Num(n) => put_signed(out, *n),
        Expr::Var(x) => put_bytes(out, x.bytes()),
        Expr::Cell(x, i) => {
            put_bytes(out, x.bytes())?;
            put_bytes(out, b"[")?;
            put_expression(out, i)?;
            put_bytes(out, b"]")
        }
        Expr::Neg(a) => {
            put_bytes(out, b"-")?;
            put_operand(out, a)
        }
        Expr::Not(a) => {
            put_bytes(out, b"!")?;
            put_operand(out, a)
        }
        Expr::Bin(op, a, b) => {
            put_operand(out, a)?;
            put_bytes(out, b" ")?;
            put_bytes(out, operator(*op))?;
            put_bytes(out, b" ")?;
            put_operand(out, b)
        }
    }
}

/// Names, with a comma between them.
pub(crate) fn put_name_list(out: &mut Name, names: &Names) -> Result<(), NoMemory>
    ensures { OnOk result (out.new ≡ out.old ++ listed names.now) }
{
    let mut comma: &[u8] = b"";
    'each: for x in &names.0 {
        put_bytes(out, comma)?;
        put_bytes(out, x.bytes())?;
        comma = b", ";
    }
    Ok(())
}

/// Expressions, with a comma between them.
fn put_value_list(out: &mut Name, es: &Exprs) -> Result<(), NoMemory>
    ensures { OnOk result (out.new ≡ out.old ++ listed (map expression_text (expressions_of es.now))) }
{
    let mut comma: &[u8] = b"";
    'each: for e in &es.0 {
        put_bytes(out, comma)?;
        put_expression(out, e)?;
        comma = b", ";
    }
    Ok(())
}

/// A call: the function and its arguments.
#[tactic(auto, using(std::proofs::Common::append_assoc))]
pub(crate) fn put_call(out: &mut Name, f: &Name, es: &Exprs) -> Result<(), NoMemory>
    ensures { OnOk result (out.new ≡ out.old ++ call_text f.now (expressions_of es.now)) }
{
    put_bytes(out, f.bytes())?;
    put_bytes(out, b"(")?;
    put_value_list(out, es)?;
    put_bytes(out, b")")
}

/// What stands at the right of `=`.
pub(crate) fn put_right(out: &mut Name, right: &Right) -> Result<(), NoMemory>
    ensures { OnOk result (out.new ≡ out.old ++ right_text (right_of right.now)) }
{
    match right {
        Right::Value(e) => put_expression(out, e),
        Right::Call(f, es) => put_call(out, f, es),
        Right::Spawn(f, es) => {
            put_bytes(out, b"spawn ")?;
            put_call(out, f, es)
        }
    }
}
