//! What a reader of expressions has read.
ghost use Rattle.std.specs.Prelude.{◌≡◌, true};
ghost use Rattle.loom_expression.specs.Text.{prec};
ghost use Rattle.loom_expression.specs.ReaderView.{size_of};
ghost use Rattle.loom_expression.specs.Reader as m;

use loom_tree::expression::{Expr, Op};
use loom_tree::name::Name;

/// How many nodes an expression has at most.
const NODE_LIMIT: usize = 128;

/// How deep parentheses, brackets and operators before an operand nest at most.
const NESTING_LIMIT: usize = 128;

/// How tightly an operator between two operands binds, from 1 to 5.
pub(crate) fn prec(op: Op) -> u8
    ensures { result ≡ prec op }
{
    match op {
        Op::Or => 1,
        Op::And => 2,
        Op::Eq => 3,
        Op::Ne => 3,
        Op::Lt => 3,
        Op::Le => 3,
        Op::Gt => 3,
        Op::Ge => 3,
        Op::Add => 4,
        Op::Sub => 4,
        Op::Mul => 5,
        Op::Div => 5,
        Op::Rem => 5,
    }
}

/// What was begun and isn't complete.
#[derive(Debug, Drop)]
pub enum Prefix {
    /// A left operand and its operator.
    Left(Op, Expr),
    /// `-` before an operand.
    Minus,
    /// `!` before an operand.
    Bang,
    /// A parenthesis.
    Open,
    /// A bracket behind the name of an array.
    Index(Name),
}

/// How much was read.
#[derive(Clone, Copy, Debug, Drop)]
pub struct Size {
    /// Nodes, an operand that must follow counting as one.
    pub nodes: usize,
    /// Operators before an operand that wait for it.
    pub unary: usize,
    /// Parentheses and brackets that are open.
    pub brackets: usize,
}

/// An operand, and what was begun before it, the last on top.
#[derive(Debug, Drop)]
pub struct Phrase {
    /// The operand.
    pub value: Expr,
    /// How much was read, with it.
    pub size: Size,
    /// What was begun before it.
    pub prefixes: Vec<Prefix>,
}

impl Size {
    /// The size before anything was read.
    pub fn new() -> Size
        ensures { size_of result ≡ record { nodes = 1; unary = 0; brackets = 0 } }
    {
        Size {
            nodes: 1,
            unary: 0,
            brackets: 0,
        }
    }

    /// Whether an operator and its right operand may follow.
    pub(crate) fn may_join(self) -> bool
        ensures { result ≡ m.has_room 2 (size_of self) }
    {
        self.nodes <= NODE_LIMIT - 2
    }

    /// Whether something that nests may begin.
    pub(crate) fn may_nest(self) -> bool
        ensures { result ≡ m.may_nest (size_of self) }
    {
        self.brackets < NESTING_LIMIT.saturating_sub(self.unary)
    }

    /// Whether something that nests and is a node may begin.
    pub(crate) fn may_sign(self) -> bool
        ensures { result ≡ m.may_sign (size_of self) }
    {
        self.nodes <= NODE_LIMIT - 1 && self.may_nest()
    }

    /// The size behind an operator between two operands.
    pub(crate) fn joined(self) -> Size
        requires { m.has_room 2 (size_of self) ≡ true }
        ensures { size_of result ≡ m.joined (size_of self) }
    {
        Size {
            nodes: self.nodes + 2,
            unary: self.unary,
            brackets: self.brackets,
        }
    }

    /// The size behind an operator before its operand.
    pub(crate) fn signed(self) -> Size
        requires { m.may_sign (size_of self) ≡ true }
        ensures { size_of result ≡ m.signed (size_of self) }
    {
        Size {
            nodes: self.nodes + 1,
            unary: self.unary + 1,
            brackets: self.brackets,
        }
    }

    /// The size where an operator before its operand has it.
    pub(crate) fn unsigned(self) -> Size
        ensures { size_of result ≡ m.unsigned (size_of self) }
    {
        Size {
            nodes: self.nodes,
            unary: self.unary.saturating_sub(1),
            brackets: self.brackets,
        }
    }

    /// The size behind an opening parenthesis.
    pub(crate) fn opened(self) -> Size
        requires { m.may_nest (size_of self) ≡ true }
        ensures { size_of result ≡ m.opened (size_of self) }
    {
        Size {
            nodes: self.nodes,
            unary: self.unary,
            brackets: self.brackets + 1,
        }
    }

    /// The size behind an opening bracket.
    pub(crate) fn indexed(self) -> Size
        requires { m.may_sign (size_of self) ≡ true }
        ensures { size_of result ≡ m.indexed (size_of self) }
    {
        Size {
            nodes: self.nodes + 1,
            unary: self.unary,
            brackets: self.brackets + 1,
        }
    }

    /// The size behind a closing parenthesis or bracket.
    pub(crate) fn closed(self) -> Size
        ensures { size_of result ≡ m.closed (size_of self) }
    {
        Size {
            nodes: self.nodes,
            unary: self.unary,
            brackets: self.brackets.saturating_sub(1),
        }
    }
}

impl Phrase {
    /// The operand with these parts.
    pub(crate) fn new(value: Expr, size: Size, prefixes: Vec<Prefix>) -> Phrase
        ensures { result ≡ record { value = value; size = size; prefixes = prefixes } }
    {
        Phrase {
            value,
            size,
            prefixes,
        }
    }
}
