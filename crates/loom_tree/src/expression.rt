//! Expressions.

use crate::name::Name;
use std::marker::Model;

/// An operator between two operands.
#[derive(Clone, Copy, Debug, Drop, PartialEq, Eq)]
pub enum Op {
    /// `||`
    Or,
    /// `&&`
    And,
    /// `==`
    Eq,
    /// `!=`
    Ne,
    /// `<`
    Lt,
    /// `<=`
    Le,
    /// `>`
    Gt,
    /// `>=`
    Ge,
    /// `+`
    Add,
    /// `-`
    Sub,
    /// `*`
    Mul,
    /// `/`
    Div,
    /// `%`
    Rem,
}

/// An expression.
#[derive(Debug, Drop)]
pub enum Expr {
    /// A number, from 0 to 9223372036854775807.
    Num(i64),
    /// A local or a word.
    Var(Name),
    /// A cell of an array, and its index.
    Cell(Name, Box<Expr>),
    /// `-` before an operand.
    Neg(Box<Expr>),
    /// `!` before an operand.
    Not(Box<Expr>),
    /// An operator, its left operand and its right one.
    Bin(Op, Box<Expr>, Box<Expr>),
}

/// A list of expressions.
#[derive(Debug, Drop)]
pub struct Exprs(pub Vec<Expr>);

impl Model for Exprs {
    ghost use Rattle.std.specs.Prelude.{List};
    ghost use Rattle.loom_tree.specs.declared.expression.Expr.{Expr};
    ghost use Rattle.loom_tree.specs.contracts.expression.Expr as e;
    ghost use Rattle.std.specs.Coded.{codes};

    ghost Value = { List Expr };

    ghost coded = { Prim.hlevel (codes, e.the_row.coded) };

    ghost view = { λ n. n.0.items };
}
