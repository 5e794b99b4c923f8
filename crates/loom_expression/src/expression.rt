//! Reads a whole expression.
ghost use Rattle.std.specs.Prelude.{◌≤◌, length, All};
ghost use Rattle.loom_tree.specs.Token.{IsSmall};
ghost use Rattle.loom_expression.specs.ExpressionError.{TellsExpression, tokens_of};

use crate::reader::Reader;
use loom_tree::expression::Expr;
use loom_tree::name::NoMemory;
use loom_tree::token::Token;
use std::alloc::Global;

/// Why tokens were not read as an expression.
#[derive(Clone, Copy, Debug, Drop, PartialEq, Eq)]
pub enum ExpressionError {
    /// No expression begins with the tokens up to this one, counted from 0. The number of tokens stands for their end.
    Syntax(usize),
    /// Memory ran out.
    NoMemory,
}

impl From<NoMemory> for ExpressionError {
    ghost use Rattle.std.specs.Prelude.{◌≡◌};
    ghost use Rattle.loom_expression.specs.declared.expression.ExpressionError.TheVariants.{NoMemory};

    ghost from_gives = { λ _ e. e ≡ NoMemory };

    fn from(_error: NoMemory) -> ExpressionError {
        ExpressionError::NoMemory
    }
}

/// The expression that these tokens of a text are, or the first of them behind which no expression can follow.
pub fn read_expression(
    alloc: Global,
    bytes: &[u8],
    tokens: &[Token],
) -> Result<Expr, ExpressionError>
    requires small { All (λ t. IsSmall t.kind) tokens.now }
    requires ordered { All (λ t. t.start ≤ t.end) tokens.now }
    requires within { All (λ t. t.end ≤ length bytes.now) tokens.now }
    ensures { TellsExpression (tokens_of bytes.now tokens.now) result }
{
    let mut reader = Reader::new(alloc);
    'read: for (i, token) in tokens.iter().enumerate() {
        match reader.feed(alloc, bytes, *token)? {
            Some(next) => reader = next,
            None => return Err(ExpressionError::Syntax(i)),
        }
    }
    match reader.finish(alloc)? {
        Some(e) => Ok(e),
        None => Err(ExpressionError::Syntax(tokens.len())),
    }
}
